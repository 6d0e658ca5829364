// From the universal functions back to a state: docs/RULES.md, Unfolding, with the tests for
// refusals 11 and 6 that every caller makes.
ghost use Rattle.std.specs.Prelude.{◌≡◌};
ghost use Rattle.rows.specs.Rows.{checked};
ghost use Rattle.conic.specs.Said.{reason_number};
ghost use Rattle.conic.specs.Unfolding.{unfolded, arrival_of, arrival_at};

use crate::{Reason, Scaled, State};

// 2^-10: the least radius ratio.
const LEAST_RATIO: f64 = 0.0009765625;

// The state that u1, u2 and the radius ratio unfold to, where the ratio is allowed and every
// component is finite.
#[tactic(auto, unfolding(rows::specs::Rows::must, crate::specs::Unfolding::arrival_of))]
pub fn arrive(o: Scaled, u1: f64, u2: f64, ratio: f64) -> Result<State, Reason>
    ensures { checked reason_number result ≡ arrival_of o u1 u2 ratio }
{
    if !(LEAST_RATIO <= ratio) {
        return Err(Reason::TooNearCentre);
    }
    let state = unfolded_state(o, u1, u2, ratio);
    if !(vectors::all_finite(state.r) & vectors::all_finite(state.v)) {
        return Err(Reason::NotFinite);
    }
    Ok(state)
}

// The state that x unfolds to, with the same tests, where the functions are not refused.
#[tactic(auto, unfolding(rows::specs::Rows::onward, crate::specs::Unfolding::arrival_at))]
pub fn arrive_at(o: Scaled, x: f64) -> Result<State, Reason>
    ensures { checked reason_number result ≡ arrival_at o x }
{
    let u = universal::at(x, o.alpha).ok_or(Reason::NotFinite)?;
    arrive(o, u.u1, u.u2, universal::ratio(o.s, u))
}

#[tactic(auto, unfolding(crate::specs::Unfolding::unfolded))]
fn unfolded_state(o: Scaled, u1: f64, u2: f64, ratio: f64) -> State
    ensures { result ≡ unfolded o u1 u2 ratio }
{
    let r = o.r;
    let v = o.v;
    let f = 1.0 - u2;
    let g = u1 + o.s * u2;
    let ft = ((-u1) / ratio) / o.f4;
    let gt = 1.0 - u2 / ratio;
    State {
        r: vectors::sum(r, f, vectors::scaled(o.f4, v), g),
        v: vectors::sum(r, ft, v, gt),
    }
}
