// The verdict on a card. docs/RULES.md, Verdicts.
//
// A verdict depends on the kind and on what the card asks and answers alone, which are bytes: of no version,
// and without object and epoch. What was sent is compared as words; what is computed, is computed with the
// numbers that they stand for. Every function here is proved, the public ones are total, and the crate
// assumes nothing.
#![tactic(auto)]

ghost use Rattle.std.specs.Prelude.{◌≡◌};
ghost use Rattle.conic.specs.Said as conic;
ghost use Rattle.card.specs.Fields.{parts};
ghost use Rattle.ruling.specs.Said.{said};
ghost use Rattle.compared.specs.Said.{by_number};
ghost use Rattle.verdict.specs.Verdict.{is_refused_as, at_x, solved_card, refused_card, verdict_on};

use card::{Kind, LAST_SPARE, NUMBER, SPARE, X};
use compared::Place;
use conic::{Outcome, Reason, Scaled};
use ruling::{Fault, Verdict};
use search::Bracket;

// The verdict on a card.
pub fn judge(kind: Kind, question: &[u8], answer: &[u8]) -> Verdict
    ensures { said result ≡ verdict_on kind (parts question.now answer.now) }
{
    match kind {
        Kind::Solved => match solved(question, answer) {
            Ok(residual) => Verdict::Solved(residual),
            Err(number) => Verdict::Rejected(number),
        },
        Kind::Refused => match refused(question, answer) {
            Ok(()) => Verdict::Refused,
            Err(number) => Verdict::Rejected(number),
        },
        Kind::Transfer => transfer_verdict::judge(question, answer),
    }
}

// The residual of a solved card, or the number with which it is rejected, as `Verdict` has it.
fn solved(question: &[u8], answer: &[u8]) -> Result<f64, u32>
    ensures { by_number result ≡ solved_card (parts question.now answer.now) }
{
    if words::half(question, SPARE) != 0 {
        return Err(Fault::WordNotAllowed.number());
    }
    // let .. else, and no `?`: docs/RULES.md, The shape of each place 4.
    let start = entry::entry(card::problem(question)).map_err(Reason::number);
    let Ok((o, b)) = start else {
        return Err(start.err().unwrap_or(0));
    };
    at_x(answer, o, b)
}

// A solved card whose problem passed: its x, the time there, and the state, which is what x unfolds to or is
// not trusted.
fn at_x(answer: &[u8], o: Scaled, b: Bracket) -> Result<f64, u32>
    ensures { by_number result ≡ at_x answer.now o b }
{
    let x = card::number(answer, X);
    let residual = compared::time(b, x, o.time_at(x), o.t, o.f4)?;
    let state = conic::unfolding::arrive_at(o, x).map_err(Reason::number)?;
    if compared::same(answer, Place::First, state.r)
        & compared::same(answer, Place::Second, state.v)
    {
        Ok(residual)
    } else {
        Err(Fault::StateDiffers.number())
    }
}

// A refused card that is accepted, or the number with which it is rejected.
fn refused(question: &[u8], answer: &[u8]) -> Result<(), u32>
    ensures { by_number result ≡ refused_card (parts question.now answer.now) }
{
    if !((words::half(question, SPARE) == 0) & (words::half(answer, LAST_SPARE) == 0)) {
        return Err(Fault::WordNotAllowed.number());
    }
    if !refuses_as(
        kepler::kepler(card::problem(question)),
        words::half(answer, NUMBER),
    ) {
        return Err(Fault::NumberDiffers.number());
    }
    Ok(())
}

// Whether the answer is a refusal that this number means, which is as it was sent.
fn refuses_as(outcome: Outcome, number: u32) -> bool
    ensures { result ≡ is_refused_as (conic.said outcome) number }
{
    match outcome {
        Ok(_) => false,
        Err(refusal) => refusal.why.is_meant_by(number),
    }
}
