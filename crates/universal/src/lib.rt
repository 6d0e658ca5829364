// The universal functions U0..U3, and the time and radius ratio made of them. docs/RULES.md, The
// universal functions.
//
// Every public function is proved and total: its contract is an equation with a definition of
// `specs/`, for every input, NaN and infinities included. The crate assumes nothing.
#![tactic(auto)]

ghost use Rattle.std.specs.Prelude.{◌≡◌};
ghost use Rattle.rows.specs.Rows.{stated};
ghost use Rattle.universal.specs.Series.{out_of_range};
ghost use Rattle.universal.specs.Functions.{quartered, doubled_once, functions_at, or_nans, time_of, ratio_of};

pub mod series;

#[derive(Clone, Copy)]
pub struct Functions {
    pub u0: f64,
    pub u1: f64,
    pub u2: f64,
    pub u3: f64,
}

// U0..U3 at x: worked at x/4 and doubled twice. None where the series are refused.
#[tactic(auto, unfolding(rows::specs::Rows::onward, crate::specs::Functions::functions_at))]
pub fn at(x: f64, alpha: f64) -> Option<Functions>
    ensures { stated out_of_range result ≡ functions_at x alpha }
{
    let y = x / 4.0;
    let z = alpha * (y * y);
    let c2 = series::c2(z)?;
    let c3 = series::c3(z)?;
    Some(doubled(alpha, doubled(alpha, quarter(y, alpha, c2, c3))))
}

// The same for a time, in which functions that are refused stand as NaNs. Not made of `at`, so that the
// steps stay in one line.
pub fn at_or_nan(x: f64, alpha: f64) -> Functions
    ensures { result ≡ or_nans (functions_at x alpha) }
{
    let y = x / 4.0;
    let sums = series::both_or_nan(alpha * (y * y));
    doubled(alpha, doubled(alpha, quarter(y, alpha, sums.c2, sums.c3)))
}

fn quarter(y: f64, alpha: f64, c2: f64, c3: f64) -> Functions
    ensures { result ≡ quartered y alpha c2 c3 }
{
    let h = y * y;
    let u2 = h * c2;
    let u3 = (y * h) * c3;
    Functions {
        u0: 1.0 - alpha * u2,
        u1: y - alpha * u3,
        u2,
        u3,
    }
}

fn doubled(alpha: f64, u: Functions) -> Functions
    ensures { result ≡ doubled_once alpha u }
{
    let u2 = 2.0 * u.u1 * u.u1;
    Functions {
        u0: 1.0 - alpha * u2,
        u1: 2.0 * u.u0 * u.u1,
        u2,
        u3: 2.0 * u.u3 + 2.0 * (u.u1 * u.u2),
    }
}

// T: the scaled time.
pub fn time(s: f64, u: Functions) -> f64
    ensures { result ≡ time_of s u }
{
    u.u1 + s * u.u2 + u.u3
}

// R: the radius, in units of the starting one.
pub fn ratio(s: f64, u: Functions) -> f64
    ensures { result ≡ ratio_of s u }
{
    u.u0 + s * u.u1 + u.u2
}
