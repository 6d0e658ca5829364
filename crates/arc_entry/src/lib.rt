// The tests of a transfer before the first guess, in the order of its refusals, and what they compute on
// the way: the scaled transfer and its starting bracket. docs/STEPS.md, Required velocity 1 to 7 and 14.
//
// The public function is proved and total: its contract is an equation with a definition of
// `specs/`, for every input, NaN and infinities included. The crate assumes nothing.
#![tactic(auto)]

ghost use Rattle.std.specs.Prelude.{◌≡◌};
ghost use Rattle.rows.specs.Rows.{checked};
ghost use Rattle.units.specs.Units.{given_tested, radius_of, numbered};
ghost use Rattle.arc_entry.specs.ArcEntry.{input_number, factor_of, scaled_by, scaled_of, start_by, entry_of};
ghost use Rattle.arc.specs.Arc.{time_at};
ghost use Rattle.arc.specs.Said.{reason_number};

use arc::{Reason, Scaled, Transfer, Way};
use search::{Bracket, Point};
use units::Unmeasured;
use vectors::Vector;

// 2^-20: where 1 - |c| is less, the angle is too near 0, 180 or 360 degrees.
const NEAREST: f64 = 9.5367431640625e-07;

// The upper end of the starting bracket; the lower one is 0.
const UPPER: f64 = 36.0;

// The tests in their order.
#[tactic(auto, unfolding(crate::specs::ArcEntry::entry_of, rows::specs::Rows::must, rows::specs::Rows::onward))]
pub fn entry(q: Transfer) -> Result<(Scaled, Bracket), Reason>
    ensures { checked reason_number result ≡ entry_of q }
{
    all_given(q)?;
    if !(0.0 < q.mu) {
        return Err(Reason::MuNotPositive);
    }
    if !search::allows(q.limit) {
        return Err(Reason::LimitOutOfRange);
    }
    started(scaled(q)?)
}

// The numbers given are finite; which one is not has no number of its own.
fn all_given(q: Transfer) -> Result<(), Reason>
    ensures { checked reason_number result ≡ given_tested input_number q.mu q.r1 q.r2 q.dt }
{
    units::given(q.mu, q.r1, q.r2, q.dt).map_err(|_| Reason::InputNotFinite)
}

// The scaled transfer: both radii, the unit of time, then what is made of them.
#[tactic(auto, unfolding(crate::specs::ArcEntry::scaled_of, crate::specs::ArcEntry::scaled_from, rows::specs::Rows::onward))]
fn scaled(q: Transfer) -> Result<Scaled, Reason>
    ensures { checked reason_number result ≡ scaled_of q }
{
    let r0 = radius(q.r1)?;
    let m2 = radius(q.r2)?;
    let (f1, f4) = units::time_unit(q.mu, r0).map_err(|_| Reason::NotFinite)?;
    scale_by(q, r0, m2, f1, f4)
}

fn radius(r: Vector) -> Result<f64, Reason>
    ensures { checked reason_number result ≡ numbered 5 6 (radius_of r) }
{
    units::radius(r).map_err(|why| match why {
        Unmeasured::Unusable => Reason::NoRadius,
        Unmeasured::RootRefused => Reason::NotFinite,
    })
}

#[tactic(auto, unfolding(crate::specs::ArcEntry::scaled_by, rows::specs::Rows::must, rows::specs::Rows::onward))]
fn scale_by(q: Transfer, r0: f64, m2: f64, f1: f64, f4: f64) -> Result<Scaled, Reason>
    ensures { checked reason_number result ≡ scaled_by q r0 m2 f1 f4 }
{
    let way = q.way;
    let t = q.dt / f4;
    let rho = m2 / r0;
    let u = vectors::divided(q.r1, r0);
    let e = vectors::divided(q.r2, m2);
    let d = vectors::divided(q.r2, r0);
    let c = vectors::product(u, e);
    if !(exact::finite(t)
        & vectors::all_finite(u)
        & vectors::all_finite(e)
        & vectors::all_finite(d)
        & exact::finite(rho)
        & exact::finite(c))
    {
        return Err(Reason::NotFinite);
    }
    let a = factor(way, rho, c)?;
    Ok(Scaled {
        t,
        rho,
        a,
        f1,
        f4,
        u,
        d,
    })
}

// A, where the angle is not too near 0, 180 or 360 degrees.
#[tactic(auto, unfolding(crate::specs::ArcEntry::factor_of, units::specs::Units::rooted, rows::specs::Rows::must, rows::specs::Rows::onward))]
fn factor(way: Way, rho: f64, c: f64) -> Result<f64, Reason>
    ensures { checked reason_number result ≡ factor_of way rho c }
{
    if 1.0 - exact::absolute(c) < NEAREST {
        return Err(Reason::AngleTooNear);
    }
    let k = root::root(rho * (1.0 + c)).map_err(|_| Reason::NotFinite)?;
    match way {
        Way::Short => Ok(k),
        Way::Long => Ok(-k),
    }
}

// The starting bracket, where the wanted time lies between the times of its ends.
#[tactic(auto, unfolding(crate::specs::ArcEntry::start_by, rows::specs::Rows::must))]
fn started(o: Scaled) -> Result<(Scaled, Bracket), Reason>
    ensures { checked reason_number result ≡ start_by time_at o }
{
    let t = o.t;
    let first = o.time_at(0.0);
    if !exact::finite(first) {
        return Err(Reason::NotFinite);
    }
    if t < first {
        return Err(Reason::TooLittleTime);
    }
    let last = o.time_at(UPPER);
    if !exact::finite(last) {
        return Err(Reason::NotFinite);
    }
    if last < t {
        return Err(Reason::TooMuchTime);
    }
    let lo = Point {
        x: 0.0,
        time: first,
    };
    let hi = Point {
        x: UPPER,
        time: last,
    };
    Ok((o, Bracket { lo, hi }))
}
