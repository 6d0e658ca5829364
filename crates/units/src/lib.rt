// The numbers given, and from them the radius of a position and the unit of time, by which a state and
// a transfer are scaled. docs/RULES.md, Refusal numbers, 1 and 101 to 108, and From the state to the
// scaled problem 1 to 3.
//
// Every public function is proved and total: its contract is an equation with a definition of
// `specs/`, for every input, NaN and infinities included. The crate assumes nothing.
#![tactic(auto)]

ghost use Rattle.std.specs.Prelude.{◌≡◌};
ghost use Rattle.units.specs.Units.{by_place, finite_from, given_tested, is_usable, radius_of, unit_of};
ghost use Rattle.units.specs.Said.{given_said, measured_said};
ghost use Rattle.units.specs.declared.Unmeasured.TheVariants.{RootRefused};

use vectors::Vector;

// The first place, from 0 on, of a number given that is not finite.
#[derive(Clone, Copy)]
pub struct NotFinite {
    pub place: u8,
}

// Why nothing is measured: a value on the way is not usable, or a root was refused.
#[derive(Clone, Copy)]
pub enum Unmeasured {
    Unusable,
    RootRefused,
}

impl From<root::Reason> for Unmeasured {
    ghost from_gives = { λ _ why. why ≡ RootRefused };

    fn from(_why: root::Reason) -> Unmeasured {
        Unmeasured::RootRefused
    }
}

// The eight numbers given, tested by their places: mu, two vectors, and the time or the angle.
pub fn given(mu: f64, a: Vector, b: Vector, last: f64) -> Result<(), NotFinite>
    ensures { given_said result ≡ given_tested by_place mu a b last }
{
    first_not_finite([mu, a.x, a.y, a.z, b.x, b.y, b.z, last])
}

fn first_not_finite(numbers: [f64; 8]) -> Result<(), NotFinite>
    ensures { given_said result ≡ finite_from by_place 0 numbers }
{
    match numbers.iter().position(|x| !exact::finite(*x)) {
        Some(place) => Err(NotFinite { place: place as u8 }),
        None => Ok(()),
    }
}

// Neither zero nor NaN nor infinite.
fn usable(x: f64) -> bool
    ensures { result ≡ is_usable x }
{
    exact::finite(x) & (x != 0.0)
}

// r0.
#[tactic(auto, unfolding(crate::specs::Units::radius_of))]
pub fn radius(r: Vector) -> Result<f64, Unmeasured>
    ensures { measured_said result ≡ radius_of r }
{
    let square = vectors::product(r, r);
    if !usable(square) {
        return Err(Unmeasured::Unusable);
    }
    let r0 = root::root(square)?;
    if !usable(r0) {
        return Err(Unmeasured::Unusable);
    }
    Ok(r0)
}

// f1 and f4.
#[tactic(auto, unfolding(crate::specs::Units::unit_of))]
pub fn time_unit(mu: f64, r0: f64) -> Result<(f64, f64), Unmeasured>
    ensures { measured_said result ≡ unit_of mu r0 }
{
    let quotient = r0 / mu;
    if !usable(quotient) {
        return Err(Unmeasured::Unusable);
    }
    let f1 = root::root(quotient)?;
    let f4 = r0 * f1;
    if !(usable(f1) & usable(f4)) {
        return Err(Unmeasured::Unusable);
    }
    Ok((f1, f4))
}
