// Binary64 numbers and their words: the ground floor.
//
// Every function here is proved and total: each contract is an equation with a definition of
// `specs/Numbers.antt`, which renders docs/RULES.md, Numbers, and holds for every input, NaN and
// infinities included. No function has a `requires`, and the crate assumes nothing.
#![tactic(auto)]

ghost use Rattle.std.specs.Prelude.{◌≡◌};
ghost use Rattle.exact.specs.Numbers.{is_finite, magnitude, is_near, number_of, word_of};

// 2^-36, the tolerance of scaled time.
const TOLERANCE: f64 = 1.4551915228366852e-11;

// Whether x is a number: neither NaN nor an infinity. By the two comparisons of the rule, each of which an edit
// tries; the library's `is_finite` is a difference.
pub fn finite(x: f64) -> bool
    ensures { result ≡ is_finite x }
{
    let infinity = 1.0 / 0.0;
    -infinity < x && x < infinity
}

// x without its sign: -0 gives 0, and NaN stays NaN. In one comparison, where the library's `abs` makes two.
pub fn absolute(x: f64) -> f64
    ensures { result ≡ magnitude x }
{
    if x <= 0.0 { 0.0 - x } else { x }
}

// Whether the binary64 difference of x and y is at most 2^-36: false where one is not finite.
pub fn near(x: f64, y: f64) -> bool
    ensures { result ≡ is_near x y }
{
    absolute(x - y) <= TOLERANCE
}

// The number that the word w stands for: every NaN word gives NaN.
pub fn number(w: u64) -> f64
    ensures { result ≡ number_of w }
{
    if 0x7ff0_0000_0000_0000 < w % 0x8000_0000_0000_0000 {
        0.0 / 0.0
    } else {
        f64::from_bits(w)
    }
}

// The word of x: 7ff8000000000000 for NaN.
pub fn word(x: f64) -> u64
    ensures { result ≡ word_of x }
{
    if x.is_nan() {
        0x7ff8_0000_0000_0000
    } else {
        f64::to_bits(x)
    }
}
