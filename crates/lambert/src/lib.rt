// Lambert's problem: the velocity that leads from one position to another in a given time.
// docs/STEPS.md, Required velocity: the search over the tests of `arc_entry` and the time and velocity of
// `arc`.
//
// `lambert` is proved and total: its contract is an equation with the definition of
// `specs/Lambert.antt`, in which no guess, bracket or count is left open. The crate assumes nothing.
#![tactic(auto)]

ghost use Rattle.std.specs.Prelude.{◌≡◌};
ghost use Rattle.lambert.specs.Said.{said};
ghost use Rattle.lambert.specs.Lambert.{lambert_of};

use arc::{Reason, Transfer};
use vectors::Vector;

// A transfer's answer.
pub type Outcome = search::Outcome<Vector, Reason>;

// The velocity at r1, or the refusal.
#[tactic(auto, unfolding(crate::specs::Lambert::lambert_of))]
pub fn lambert(q: Transfer) -> Outcome
    ensures { said result ≡ lambert_of q }
{
    search::answer(arc_entry::entry(q), q.limit)
}
