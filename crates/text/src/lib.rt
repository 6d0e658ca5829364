// Text in a lent buffer: counts, whole numbers, epochs and numbers, which stand behind each other as all
// pieces do. docs/RULES.md, Text.
//
// Every function here is proved, the public ones are total, and the crate assumes nothing.
#![tactic(auto)]

ghost use Rattle.std.specs.Prelude.{◌≡◌, ◌<◌, ◌∷◌};
ghost use Rattle.pieces.specs.Page.{written};
ghost use Rattle.text.specs.Text as text;

use itoa::{Buffer, Integer};
use pieces::Page;

// A space, and n in decimal.
#[tactic(auto, using(crate::proofs::Digits::counted))]
pub fn count(page: &mut Page, n: u32)
    ensures { page.new ≡ written page.old (text.count n) }
{
    decimal::<u32>(page, n);
}

// A space, and n in decimal.
#[tactic(auto, using(crate::proofs::Digits::printed))]
pub fn whole(page: &mut Page, n: u64)
    ensures { page.new ≡ written page.old (text.whole n) }
{
    decimal::<u64>(page, n);
}

// A space, and n in decimal, with `-` before the digits where it is negative.
#[tactic(auto, using(crate::proofs::Digits::spelt))]
pub fn signed(page: &mut Page, n: i64)
    ensures { page.new ≡ written page.old (text.signed n) }
{
    decimal::<i64>(page, n);
}

// A space, and the text of n.
#[tactic(auto, using(pieces::proofs::Pages::pages))]
fn decimal<N: Integer>(page: &mut Page, n: N)
    ensures { page.new ≡ written page.old (32 ∷ N.text n) }
{
    pieces::put(page, b" ");
    pieces::put(page, Buffer::new().format(n).as_bytes());
}

// A space, and x as the 16 hex digits of its word.
pub fn number(page: &mut Page, x: f64)
    ensures { page.new ≡ written page.old (text.number x) }
{
    let digits = worded(exact::word(x));
    pieces::put(page, &digits);
}

// A space, and the 16 hex digits of w, from the last one on.
fn worded(w: u64) -> [u8; 17]
    ensures { result ≡ text.worded w }
{
    let mut digits = [b' '; 17];
    let mut rest = w;
    for place in (1..17usize).rev() {
        digits[place] = digit(rest % 16);
        rest /= 16;
    }
    digits
}

fn digit(d: u64) -> u8
    requires { d < 16 }
    ensures { result ≡ text.digit d }
{
    b"0123456789abcdef"[d as usize]
}
