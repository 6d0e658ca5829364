// Prediction, transfer, check and writing as functions that a C program links: `rt lib` in its folder.
//
// What is asked and answered is bytes and single numbers, so that a caller in C needs no layout of
// ours. A slice is a pointer and a length. All functions are proved and total, and the crate assumes
// nothing.
#![tactic(auto)]

ghost use Rattle.std.specs.Prelude.{◌≡◌, length};
ghost use Rattle.rows.specs.Rows.{refusal_in};
ghost use Rattle.card.specs.Fields.{problem_of, transfer_of};
ghost use Rattle.lambert.specs.Lambert.{answer_to};
ghost use Rattle.kepler.specs.Kepler.{kepler_of};
ghost use Rattle.deck.specs.Said as deck;
ghost use Rattle.deck.specs.Check.{answer_of, list_after};
ghost use Rattle.layout.specs.Written.{length_for, buffer_after};
ghost use Rattle.problems.specs.Problems.{problem_deck};
ghost use Rattle.linked.specs.Linked.{outcome_number, state_sum, velocity_sum, sum_after, minus_number, mean_in, size_after};

use conic::State;
use deck::{Residuals, Totals};
use ruling::{Fault, Reason};
use search::Solution;

// Kepler on the problem with which the bytes begin. Where it is solved the answer is 0, and `sum`
// becomes x + rx + ry + rz + vx + vy + vz; else the refusal's number, and `sum` stays as it was lent.
#[unsafe(no_mangle)]
pub extern "C" fn tailfiddle_predict(problem: &[u8], sum: &mut f64) -> u32
    ensures value { result ≡ outcome_number (kepler_of (problem_of problem.now)) }
    ensures sum_after { sum.new ≡ sum_after state_sum (kepler_of (problem_of problem.now)) sum.old }
{
    match kepler::kepler(card::problem(problem)) {
        Ok(
            Solution {
                x,
                found: state,
                ..
            },
        ) => {
            *sum = state_sum(x, state);
            0
        }
        Err(refusal) => refusal.why.number(),
    }
}

// The required velocity of the transfer with which the bytes begin. Where it is solved the answer is 0,
// and `sum` becomes z + vx + vy + vz; else the refusal's number, 23 for a way that is neither 0 nor 1,
// and `sum` stays as it was lent.
// Its match stays beside that of the prediction: a trait for sum and number, each with two impls, is no plainer.
#[unsafe(no_mangle)]
pub extern "C" fn tailfiddle_transfer(transfer: &[u8], sum: &mut f64) -> u32
    ensures value { result ≡ outcome_number (answer_to (transfer_of transfer.now)) }
    ensures sum_after { sum.new ≡ sum_after velocity_sum (answer_to (transfer_of transfer.now)) sum.old }
{
    let Some(q) = card::transfer(transfer) else {
        return Fault::WordNotAllowed.number();
    };
    match lambert::lambert(q) {
        Ok(
            Solution {
                x: z,
                found: velocity,
                ..
            },
        ) => {
            *sum = z + velocity.x + velocity.y + velocity.z;
            0
        }
        Err(refused) => refused.why.number(),
    }
}

// The check of a deck, with the verdicts in the lent list: the mean residual in seconds, which is
// finite and not below zero; NaN where it is absent; minus the refusal's number where the deck is
// refused.
#[unsafe(no_mangle)]
pub extern "C" fn tailfiddle_check(deck: &[u8], verdicts: &mut [u32]) -> f64
    ensures value { result ≡ mean_in (answer_of deck.now (length verdicts.old)) }
    ensures verdicts_after { verdicts.new ≡ list_after deck.now verdicts.old }
{
    mean_in(deck::check(deck, verdicts))
}

// Writes the deck of these problems, which have this form (0: of 68 bytes each, 1: of 80, with object and
// epoch), in this version at the front of the buffer. Where it is written the answer is 0, and `size`
// becomes the deck's length; else the refusal's number, and buffer and `size` stay as they were lent.
#[unsafe(no_mangle)]
pub extern "C" fn tailfiddle_write(
    version: u32,
    form: u32,
    problems: &[u8],
    buffer: &mut [u8],
    size: &mut usize,
) -> u32
    ensures value { result ≡ refusal_in (length_for (problem_deck version form problems.now) (length buffer.old)) }
    ensures buffer_after { buffer.new ≡ buffer_after (problem_deck version form problems.now) buffer.old }
    ensures size_after { size.new ≡ size_after (length_for (problem_deck version form problems.now) (length buffer.old)) size.old }
{
    match problems::write(version, form, problems, buffer) {
        Ok(length) => {
            *size = length;
            0
        }
        Err(why) => why.number(),
    }
}

fn state_sum(x: f64, state: State) -> f64
    ensures { result ≡ state_sum x state }
{
    x + state.r.x + state.r.y + state.r.z + state.v.x + state.v.y + state.v.z
}

fn mean_in(answer: Result<(Totals, Option<Residuals>), Reason>) -> f64
    ensures { result ≡ mean_in (deck.said answer) }
{
    match answer {
        Err(why) => minus(why.number()),
        Ok((_, residuals)) => match residuals {
            None => 0.0 / 0.0,
            Some(known) => known.mean,
        },
    }
}

// C gets the number of a refusal.
fn minus(number: u32) -> f64
    ensures { result ≡ minus_number number }
{
    -(number as f64)
}
