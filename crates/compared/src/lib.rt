// What a solved card says compared with what was computed: its unknown and the time there, and its
// vectors, bit by bit. docs/RULES.md, Verdicts: the tests that the cards of kinds 1 and 3 share.
//
// Every public function is proved and total, and the crate assumes nothing.
#![tactic(auto)]

ghost use Rattle.std.specs.Prelude.{◌≡◌};
ghost use Rattle.compared.specs.Said.{by_number};
ghost use Rattle.compared.specs.Compared.{timed_by, place_at, same_words};

use conic::Reason;
use ruling::Fault;
use search::Bracket;
use vectors::Vector;

// Where a vector stands in a solved card's answer: behind the unknown, or behind the first vector.
#[derive(Clone, Copy)]
pub enum Place {
    First,
    Second,
}

// The unknown x, the time there and the wanted one, and the unit of both times: the residual of a time that
// is near, or the number with which the card is rejected, 20, 6 or 21, which are of two enums. The tests read the
// scaled times; the residual alone is in seconds.
pub fn time(b: Bracket, x: f64, time: f64, t: f64, unit: f64) -> Result<f64, u32>
    ensures { by_number result ≡ timed_by b x time t unit }
{
    if !(exact::finite(x) & search::contains(b, x)) {
        return Err(Fault::XOutside.number());
    }
    if !exact::finite(time) {
        return Err(Reason::NotFinite.number());
    }
    if !exact::near(time, t) {
        return Err(Fault::TimeOff.number());
    }
    Ok(exact::absolute(time - t) * unit)
}

// Whether the three words that stand in an answer at this place are those of a. No derived equality: -0 is not 0
// here, and every NaN word is NaN's.
pub fn same(answer: &[u8], place: Place, a: Vector) -> bool
    ensures { result ≡ same_words answer.now (place_at place) a }
{
    let at = start(place);
    (words::word(answer, at) == exact::word(a.x))
        & (words::word(answer, at + 8) == exact::word(a.y))
        & (words::word(answer, at + 16) == exact::word(a.z))
}

// A match, and no trait: the definition goes by the place.
fn start(place: Place) -> usize
    ensures { result ≡ place_at place }
{
    match place {
        Place::First => card::POSITION,
        Place::Second => card::VELOCITY,
    }
}
