// The verdict on a solved transfer, a card of kind 3. docs/RULES.md, Verdicts 12 to 18.
//
// It depends on the bytes of what the card asks and answers alone. Every function here is proved, the
// public one is total, and the crate assumes nothing.
#![tactic(auto)]

ghost use Rattle.std.specs.Prelude.{◌≡◌};
ghost use Rattle.card.specs.Fields.{parts};
ghost use Rattle.ruling.specs.Said.{said};
ghost use Rattle.compared.specs.Said.{by_number, as_solved};
ghost use Rattle.transfer_verdict.specs.TransferVerdict.{at_z, transfer_card};

use arc::{Reason, Scaled};
use card::Z;
use compared::Place;
use ruling::{Fault, Verdict};
use search::Bracket;

// The verdict on a solved transfer that asks and answers this.
pub fn judge(question: &[u8], answer: &[u8]) -> Verdict
    ensures { said result ≡ as_solved (transfer_card (parts question.now answer.now)) }
{
    match tested(question, answer) {
        Ok(residual) => Verdict::Solved(residual),
        Err(number) => Verdict::Rejected(number),
    }
}

// The card's way, and the tests of its own transfer before the first guess; the residual, or the number with
// which the card is rejected, as `Verdict` has it.
fn tested(question: &[u8], answer: &[u8]) -> Result<f64, u32>
    ensures { by_number result ≡ transfer_card (parts question.now answer.now) }
{
    let q = card::transfer(question).ok_or(Fault::WordNotAllowed.number())?;
    // let .. else, and no `?`: docs/RULES.md, The shape of each place 4.
    let start = arc_entry::entry(q).map_err(Reason::number);
    let Ok((o, b)) = start else {
        return Err(start.err().unwrap_or(0));
    };
    at_z(answer, o, b)
}

// A card whose transfer passed: its z, the time there, and the velocity, which is what z comes to or is not
// trusted.
fn at_z(answer: &[u8], o: Scaled, b: Bracket) -> Result<f64, u32>
    ensures { by_number result ≡ at_z answer.now o b }
{
    let z = card::number(answer, Z);
    let residual = compared::time(b, z, o.time_at(z), o.t, o.f4)?;
    let v = o.velocity_at(z).map_err(Reason::number)?;
    if compared::same(answer, Place::First, v) {
        Ok(residual)
    } else {
        Err(Fault::StateDiffers.number())
    }
}
