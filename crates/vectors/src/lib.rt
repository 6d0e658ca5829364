// Vectors of three numbers, component by component. docs/RULES.md, From the state to the scaled problem,
// and Unfolding.
//
// Every function here is proved and total, and the crate assumes nothing.
#![tactic(auto)]

ghost use Rattle.std.specs.Prelude.{◌≡◌};
ghost use Rattle.vectors.specs.Vectors.{all_finite, multiple, combined, dot, over};

#[derive(Clone, Copy)]
pub struct Vector {
    pub x: f64,
    pub y: f64,
    pub z: f64,
}

// Whether no component is NaN or infinite.
pub fn all_finite(a: Vector) -> bool
    ensures { result ≡ all_finite a }
{
    exact::finite(a.x) & exact::finite(a.y) & exact::finite(a.z)
}

// k*a, where `by` is k.
pub fn scaled(by: f64, a: Vector) -> Vector
    ensures { result ≡ multiple by a }
{
    Vector {
        x: by * a.x,
        y: by * a.y,
        z: by * a.z,
    }
}

// a*f + b*g.
pub fn sum(a: Vector, f: f64, b: Vector, g: f64) -> Vector
    ensures { result ≡ combined a f b g }
{
    Vector {
        x: a.x * f + b.x * g,
        y: a.y * f + b.y * g,
        z: a.z * f + b.z * g,
    }
}

// Three products, added in order.
pub fn product(a: Vector, b: Vector) -> f64
    ensures { result ≡ dot a b }
{
    a.x * b.x + a.y * b.y + a.z * b.z
}

// a/k, where `by` is k.
pub fn divided(a: Vector, by: f64) -> Vector
    ensures { result ≡ over a by }
{
    Vector {
        x: a.x / by,
        y: a.y / by,
        z: a.z / by,
    }
}
