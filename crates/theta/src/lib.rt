// Theta: the state through an angle. docs/RULES.md, Theta.
//
// `theta` is proved and total: its contract is an equation with the definition of `specs/Theta.antt`.
// The crate assumes nothing.
#![tactic(auto)]

ghost use Rattle.std.specs.Prelude.{◌≡◌};
ghost use Rattle.rows.specs.Rows.{checked, onward};
ghost use Rattle.conic.specs.Said.{reason_number, said};
ghost use Rattle.entry.specs.Entry.{angle_entry_of};
ghost use Rattle.theta.specs.Theta.{turned_state, reached_state, theta_of};

use conic::{Outcome, Reason, Scaled, State};
use vectors::Vector;

// 2^-10: the least den.
const LEAST_DEN: f64 = 0.0009765625;

// The state through the angle a, or the refusal.
#[tactic(auto, unfolding(crate::specs::Theta::theta_of))]
pub fn theta(mu: f64, r: Vector, v: Vector, a: f64) -> Outcome
    ensures { said result ≡ theta_of mu r v a }
{
    search::with_found(through(mu, r, v, a), a, 0)
}

// The state through the angle a.
#[tactic(auto, unfolding(rows::specs::Rows::onward))]
fn through(mu: f64, r: Vector, v: Vector, a: f64) -> Result<State, Reason>
    ensures { checked reason_number result ≡ onward (angle_entry_of mu r v a) (λ o. turned_state o a) }
{
    turned(entry::angle_entry(mu, r, v, a)?, a)
}

// Half-angle relations: sh and ch are the sine and cosine of half the angle.
#[tactic(auto, unfolding(rows::specs::Rows::onward, units::specs::Units::rooted, crate::specs::Theta::turned_state))]
fn turned(o: Scaled, a: f64) -> Result<State, Reason>
    ensures { checked reason_number result ≡ turned_state o a }
{
    let half = universal::at(a / 2.0, 1.0).ok_or(Reason::NotFinite)?;
    let k = root::root(o.p).map_err(|_| Reason::RootRefused)?;
    reached(o, k, half.u1, half.u0)
}

#[tactic(auto, unfolding(rows::specs::Rows::must, crate::specs::Theta::reached_state))]
fn reached(o: Scaled, k: f64, sh: f64, ch: f64) -> Result<State, Reason>
    ensures { checked reason_number result ≡ reached_state o k sh ch }
{
    let s = o.s;
    let p = o.p;
    let den = 1.0 + (p - 1.0) * (1.0 - 2.0 * sh * sh) - s * k * (2.0 * sh * ch);
    if !(LEAST_DEN <= den) {
        return Err(Reason::TowardsInfinity);
    }
    let ratio = p / den;
    let u2 = 2.0 * (ratio / p) * sh * sh;
    let u1 = 2.0 * ratio * sh * (ch - s * sh / k) / k;
    conic::unfolding::arrive(o, u1, u2, ratio)
}
