// Kepler: the state after a time. docs/RULES.md, The search, over the tests of `entry` and the time
// and unfolding of `conic`.
//
// `kepler` is proved and total: its contract is an equation with the definition of `specs/Kepler.antt`,
// in which no guess, bracket or count is left open. The crate assumes nothing.
#![tactic(auto)]

ghost use Rattle.std.specs.Prelude.{◌≡◌};
ghost use Rattle.conic.specs.Said.{said};
ghost use Rattle.kepler.specs.Kepler.{kepler_of};

use conic::{Outcome, Problem};

// The state after dt, or the refusal.
#[tactic(auto, unfolding(crate::specs::Kepler::kepler_of))]
pub fn kepler(p: Problem) -> Outcome
    ensures { said result ≡ kepler_of p }
{
    search::answer(entry::entry(p), p.limit)
}
