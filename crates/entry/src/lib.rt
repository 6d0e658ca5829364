// The tests before the first guess, in the order of the rules' refusal table, and what they
// compute on the way: the scaled problem and its starting bracket. docs/RULES.md, From the state to
// the scaled problem, and refusals 101 to 108, 2 to 8 and 14.
//
// Both public functions are proved and total: each contract is an equation with a definition of
// `specs/Entry.antt`, for every input, NaN and infinities included. The crate assumes nothing.
#![tactic(auto)]

ghost use Rattle.std.specs.Prelude.{◌≡◌};
ghost use Rattle.rows.specs.Rows.{checked};
ghost use Rattle.units.specs.Units.{given_tested, numbered};
ghost use Rattle.units.specs.Said.{measured_said};
ghost use Rattle.conic.specs.Said.{input_number, reason_number};
ghost use Rattle.conic.specs.TimeAndRatio.{time_at};
ghost use Rattle.entry.specs.Entry.{inputs_tested, tested_by, scaled_by, scaled_of, far_end_of, bracketed_by, start_by, entry_of, angle_entry_of};

use conic::{Problem, Reason, Scaled};
use search::{Bracket, Point};
use units::Unmeasured;
use vectors::Vector;

// 2^-20: a smaller p is a straight line.
const STRAIGHT: f64 = 9.5367431640625e-07;

const SIXTY_FOURTH: f64 = 0.015625;

// X where |alpha| is at most that; elsewhere the root of |alpha| divides the other.
const FARTHEST: f64 = 63.5;

const REACH: f64 = 7.9375;

const LARGEST_ANGLE: f64 = 6.25;

// Kepler's entry: the scaled problem with its starting bracket.
#[tactic(auto, unfolding(rows::specs::Rows::must, rows::specs::Rows::onward, crate::specs::Entry::entry_of))]
pub fn entry(p: Problem) -> Result<(Scaled, Bracket), Reason>
    ensures { checked reason_number result ≡ entry_of p }
{
    let r = p.r;
    let v = p.v;
    first_tests(p.mu, r, v, p.dt)?;
    if !search::allows(p.limit) {
        return Err(Reason::LimitOutOfRange);
    }
    started(scale(p.mu, r, v, p.dt)?)
}

// Theta's entry: it has no time, so its scaled problem is that of dt 0.
#[tactic(auto, unfolding(rows::specs::Rows::must, rows::specs::Rows::onward, crate::specs::Entry::angle_entry_of))]
pub fn angle_entry(mu: f64, r: Vector, v: Vector, a: f64) -> Result<Scaled, Reason>
    ensures { checked reason_number result ≡ angle_entry_of mu r v a }
{
    first_tests(mu, r, v, a)?;
    if !(exact::absolute(a) <= LARGEST_ANGLE) {
        return Err(Reason::AngleTooLarge);
    }
    scale(mu, r, v, 0.0)
}

// The tests that both begin with. The last number is the time or the angle.
#[tactic(auto, unfolding(rows::specs::Rows::must, rows::specs::Rows::onward, crate::specs::Entry::inputs_tested))]
fn first_tests(mu: f64, r: Vector, v: Vector, last: f64) -> Result<(), Reason>
    ensures { checked reason_number result ≡ inputs_tested mu r v last }
{
    all_given(mu, r, v, last)?;
    if !(0.0 < mu) {
        return Err(Reason::MuNotPositive);
    }
    Ok(())
}

// The numbers given are finite, or the first that is not.
fn all_given(mu: f64, r: Vector, v: Vector, last: f64) -> Result<(), Reason>
    ensures { checked reason_number result ≡ given_tested input_number mu r v last }
{
    units::given(mu, r, v, last).map_err(|why| Reason::InputNotFinite(why.place))
}

#[tactic(auto, unfolding(rows::specs::Rows::onward, crate::specs::Entry::scaled_of))]
fn scale(mu: f64, r: Vector, v: Vector, dt: f64) -> Result<Scaled, Reason>
    ensures { checked reason_number result ≡ scaled_of mu r v dt }
{
    let r0 = measured(units::radius(r), Reason::NoRadius)?;
    let (f1, f4) = measured(units::time_unit(mu, r0), Reason::NotFinite)?;
    scale_by(r, v, dt, r0, f1, f4)
}

// What was measured; a refused root is refusal 14, and what is not usable has its own.
fn measured<A: Copy>(found: Result<A, Unmeasured>, unusable: Reason) -> Result<A, Reason>
    ensures { checked reason_number result ≡ numbered (reason_number unusable) 14 (measured_said found) }
{
    match found {
        Ok(found) => Ok(found),
        Err(Unmeasured::Unusable) => Err(unusable),
        Err(Unmeasured::RootRefused) => Err(Reason::RootRefused),
    }
}

#[tactic(auto, unfolding(rows::specs::Rows::must, crate::specs::Entry::scaled_by))]
fn scale_by(r: Vector, v: Vector, dt: f64, r0: f64, f1: f64, f4: f64) -> Result<Scaled, Reason>
    ensures { checked reason_number result ≡ scaled_by r v dt r0 f1 f4 }
{
    let u = vectors::divided(r, r0);
    let w = vectors::scaled(f1, v);
    let s = vectors::product(u, w);
    let q = vectors::product(w, w);
    let alpha = 2.0 - q;
    let p = q - s * s;
    let t = dt / f4;
    if !vectors::all_finite(w) {
        return Err(Reason::NotFinite);
    }
    tested(
        q,
        Scaled {
            s,
            alpha,
            p,
            t,
            f4,
            r0,
            r,
            v,
        },
    )
}

// The scaled problem where its numbers, and q, are finite and it is no straight line.
#[tactic(auto, unfolding(rows::specs::Rows::must, crate::specs::Entry::tested_by))]
fn tested(q: f64, o: Scaled) -> Result<Scaled, Reason>
    ensures { checked reason_number result ≡ tested_by q o }
{
    if !(exact::finite(o.s)
        & exact::finite(q)
        & exact::finite(o.alpha)
        & exact::finite(o.p)
        & exact::finite(o.t))
    {
        return Err(Reason::NotFinite);
    }
    if o.p < STRAIGHT {
        return Err(Reason::StraightLine);
    }
    Ok(o)
}

// X.
#[tactic(auto, unfolding(rows::specs::Rows::onward, units::specs::Units::rooted, crate::specs::Entry::far_end_of))]
fn far_end(alpha: f64) -> Result<f64, Reason>
    ensures { checked reason_number result ≡ far_end_of alpha }
{
    let size = exact::absolute(alpha);
    if size <= SIXTY_FOURTH {
        return Ok(FARTHEST);
    }
    let k = root::root(size).map_err(|_| Reason::RootRefused)?;
    Ok(REACH / k)
}

// The starting bracket, where the far end is not short of the wanted time.
#[tactic(auto, unfolding(rows::specs::Rows::onward, crate::specs::Entry::start_by))]
fn started(o: Scaled) -> Result<(Scaled, Bracket), Reason>
    ensures { checked reason_number result ≡ start_by time_at o }
{
    let x = far_end(o.alpha)?;
    if 0.0 <= o.t {
        bracketed(o, x)
    } else {
        bracketed(o, -x)
    }
}

#[tactic(auto, unfolding(rows::specs::Rows::must, crate::specs::Entry::bracketed_by))]
fn bracketed(o: Scaled, far: f64) -> Result<(Scaled, Bracket), Reason>
    ensures { checked reason_number result ≡ bracketed_by o far (time_at o far) }
{
    let t = o.t;
    let time = o.time_at(far);
    if !exact::finite(time) {
        return Err(Reason::NotFinite);
    }
    let zero = Point { x: 0.0, time: 0.0 };
    let end = Point { x: far, time };
    if 0.0 <= t {
        if time < t {
            return Err(Reason::BeyondFarEnd);
        }
        return Ok((o, Bracket { lo: zero, hi: end }));
    }
    if t < time {
        return Err(Reason::BeyondFarEnd);
    }
    Ok((o, Bracket { lo: end, hi: zero }))
}
