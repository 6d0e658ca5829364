// The arc between two positions: a transfer, its scaled form, and at z the time along the arc and the
// velocity with which it begins. docs/STEPS.md, Required velocity.
//
// Every public function is proved and total: its contract is an equation with a definition of
// `specs/`, for every input, NaN and infinities included. The crate assumes nothing.
#![tactic(auto)]

ghost use Rattle.std.specs.Prelude.{◌≡◌};
ghost use Rattle.rows.specs.Rows.{checked};
ghost use Rattle.arc.specs.Said.{reason_number};
ghost use Rattle.arc.specs.Arc.{root_or_nan, shape_at, time_at, departure_in, velocity_at};

use search::{Sought, Why};
use vectors::Vector;

// Which way round: through less than half a turn, or through more.
#[derive(Clone, Copy)]
pub enum Way {
    Short,
    Long,
}

// What is asked: from r1 to r2 in the time dt.
#[derive(Clone, Copy)]
pub struct Transfer {
    pub mu: f64,
    pub r1: Vector,
    pub r2: Vector,
    pub dt: f64,
    pub limit: u32,
    pub way: Way,
}

// The scaled transfer, in the letters of the steps.
#[derive(Clone, Copy)]
pub struct Scaled {
    pub t: f64,
    pub rho: f64,
    pub a: f64,
    pub f1: f64,
    pub f4: f64,
    pub u: Vector,
    pub d: Vector,
}

// The conic's shape at z: S, k, y and g.
#[derive(Clone, Copy)]
struct Shape {
    s: f64,
    k: f64,
    y: f64,
    g: f64,
}

// Why a transfer is refused.
#[derive(Clone, Copy)]
pub enum Reason {
    InputNotFinite,
    MuNotPositive,
    LimitOutOfRange,
    NoRadius,
    NotFinite,
    BracketClosed,
    LimitReached,
    AngleTooNear,
    TooLittleTime,
    TooMuchTime,
}

impl Reason {
    // Its number in the rules.
    // No `From`: docs/STATEMENTS.md has the clause, and that it has one result (docs/DECISIONS.md 149).
    pub fn number(self) -> u32
        ensures { result ≡ reason_number self }
    {
        match self {
            Reason::InputNotFinite => 1,
            Reason::MuNotPositive => 2,
            Reason::LimitOutOfRange => 3,
            Reason::NoRadius => 5,
            Reason::NotFinite => 6,
            Reason::BracketClosed => 9,
            Reason::LimitReached => 10,
            Reason::AngleTooNear => 50,
            Reason::TooLittleTime => 51,
            Reason::TooMuchTime => 52,
        }
    }
}

impl Why for Reason {
    ghost number = { reason_number };

    fn lost() -> Reason {
        Reason::NotFinite
    }

    fn closed() -> Reason {
        Reason::BracketClosed
    }

    fn spent() -> Reason {
        Reason::LimitReached
    }
}

impl Scaled {
    // T(z): the scaled time.
    #[tactic(auto, unfolding(crate::specs::Arc::time_at))]
    pub fn time_at(self, z: f64) -> f64
        ensures { result ≡ time_at self z }
    {
        let h = shape_at(self.rho, self.a, z);
        let x = h.g / h.k;
        x * x * x * h.s + self.a * h.g
    }

    // The velocity at r1 that z comes to, where every component is finite.
    #[tactic(auto, unfolding(rows::specs::Rows::must, crate::specs::Arc::velocity_at))]
    pub fn velocity_at(self, z: f64) -> Result<Vector, Reason>
        ensures { checked reason_number result ≡ velocity_at self z }
    {
        let v = leaving(self, shape_at(self.rho, self.a, z));
        if !vectors::all_finite(v) {
            return Err(Reason::NotFinite);
        }
        Ok(v)
    }
}

// What a transfer searches for: the z whose time is t, and the velocity that it comes to.
impl Sought for Scaled {
    type Found = Vector;

    type Reason = Reason;

    ghost time_at = { time_at };

    ghost wanted_time = { λ o. o.t };

    ghost found_at = { velocity_at };

    fn time_at(self, z: f64) -> f64 {
        Scaled::time_at(self, z)
    }

    fn wanted_time(self) -> f64 {
        self.t
    }

    fn found_at(self, z: f64) -> Result<Vector, Reason> {
        self.velocity_at(z)
    }
}

// C and S are U2 and U3 at x = 1 with alpha = z.
#[tactic(auto, unfolding(crate::specs::Arc::shape_by))]
fn shape_at(rho: f64, a: f64, z: f64) -> Shape
    ensures { result ≡ shape_at rho a z }
{
    let u = universal::at_or_nan(1.0, z);
    let s = u.u3;
    let k = root_or_nan(u.u2);
    let y = 1.0 + rho - (a * (1.0 - z * s)) / k;
    let g = root_or_nan(y);
    Shape { s, k, y, g }
}

// A root that is refused counts as NaN, and so T is then not finite.
fn root_or_nan(x: f64) -> f64
    ensures { result ≡ root_or_nan x }
{
    root::root(x).unwrap_or(0.0 / 0.0)
}

// ((d - u*F)/G)/f1, by component.
#[tactic(auto, unfolding(crate::specs::Arc::departure_in))]
fn leaving(o: Scaled, h: Shape) -> Vector
    ensures { result ≡ departure_in o h }
{
    let u = o.u;
    let d = o.d;
    let f = 1.0 - h.y;
    let g = o.a * h.g;
    let way = Vector {
        x: d.x - u.x * f,
        y: d.y - u.y * f,
        z: d.z - u.z * f,
    };
    vectors::divided(vectors::divided(way, g), o.f1)
}
