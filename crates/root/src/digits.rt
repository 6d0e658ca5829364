// The root by hand: from the word of a number above zero to the word of its root, a binary digit a
// turn, as on paper. docs/RULES.md, The root on paper; docs/ROOT.md works an example.
//
// Write the number in pairs of binary digits. A turn brings the next pair down behind the remainder,
// and makes the trial: the digits so far with 01 behind them. If the trial can be taken off what
// stands there, it is taken off, and the next digit is 1; if not, the digit is 0. That is all: with
// d for the digits so far, (2d + 1)^2 is 4d^2 + (4d + 1), and the trial is what a digit 1 adds.
//
// The root of 173, in binary 10 10 11 01:
//
//     turn   pair   stands there   trial   digit   remainder
//        1     10             10      01       1           1
//        2     10            110     101       1           1
//        3     11            111    1101       0         111
//        4     01          11101   11001       1         100
//
// The digits are 1101, which is 13, and the remainder is 100, which is 4: 13 * 13 + 4 = 173.
ghost use Rattle.std.specs.Prelude.{◌≡◌, ℕ, min, ◌+◌, ◌-◌, ◌*◌, ◌^◌, ◌≤◌, ◌<◌};
ghost use Rattle.std.specs.Float.Ieee.{of_bits};
ghost use Rattle.std.specs.Float.{binary64};
ghost use Rattle.exact.specs.Numbers.{steps};
ghost use Rattle.root.specs.Form.{InForm};
ghost use Rattle.root.specs.Paper.{whole_of, digit_for, after_turns, OnPaper, word_from};
ghost use Rattle.root.specs.Root.{nearest_root};

use crate::{Sheet, TURNS};

// The weight of the exponent's field in a word, and of the next pair among the pairs to come.
const FIELD: u64 = 0x10_0000_0000_0000;

// The word of the root of the number whose word is w.
pub(crate) fn root_word(w: u64) -> u64
    requires { (0 < w) × (w < 0x7ff0_0000_0000_0000) }
    ensures { (result < 0x7ff0_0000_0000_0000) × (of_bits binary64 result ≡ nearest_root (of_bits binary64 w)) }
{
    let form = form_of(w);
    let last = worked(form.v, 0);
    rounded(last.digits, form.h)
}

// The sheet of that number after so many turns; after more than 54 the last one.
pub(crate) fn sheet_of(w: u64, turns: u64) -> Sheet
    requires { (0 < w) × (w < 0x7ff0_0000_0000_0000) }
    ensures { result ≡ after_turns (whole_of (steps binary64 (of_bits binary64 w))) (min turns 54) }
{
    worked(form_of(w).v, TURNS.saturating_sub(turns))
}

// ---- Before the turns

// The number in steps, moved up by 1074 digits, is v * 2^54 * 2^(2h).
#[derive(Clone, Copy)]
struct Form {
    v: u64,
    h: u64,
}

// The number as an even power of two, whose root is plain, and a whole number v, whose root is left
// to be found. (A field of 0 has no leading digit, and counts as 1.)
fn form_of(w: u64) -> Form
    requires { (0 < w) × (w < 0x7ff0_0000_0000_0000) }
    ensures { InForm (steps binary64 (of_bits binary64 w)) result.v result.h }
{
    let field = w / FIELD;
    if field == 0 {
        moved_up(w, 0)
    } else {
        moved_up(w % FIELD + FIELD, field - 1)
    }
}

// The form of m * 2^c: m moved up to 53 digits, and doubled where the number has an even number g
// of digits.
fn moved_up(m: u64, c: u64) -> Form
    requires { (0 < m) × (m < 2 ^ 53) × (c ≤ 2045) }
    ensures { InForm (m * 2 ^ c) result.v result.h }
{
    let up = u64::leading_zeros(m) - 11;
    let g = c + 53 - up as u64;
    let h = (g + 967) / 2;
    let v = m << up;
    if g % 2 == 0 {
        Form { v: v * 2, h }
    } else {
        Form { v, h }
    }
}

// ---- The turns

// The sheet of the root of v * 2^54 when `left` pairs are still to come: a turn for each pair before.
fn worked(v: u64, left: u64) -> Sheet
    requires { (v < 2 ^ 54) × (left ≤ 54) }
    ensures { (result.left ≡ left) × OnPaper v result }
{
    let mut sheet = Sheet {
        digits: 0,
        remainder: 0,
        pairs: v,
        left: TURNS,
    };
    // no `for`: the sheet itself counts the pairs to come
    while left < sheet.left {
        sheet = turn(sheet);
    }
    sheet
}

// One turn: the next pair is brought down, one more digit of the root is settled, and what it leaves
// is the remainder.
fn turn(sheet: Sheet) -> Sheet
    requires { (0 < sheet.left) × ((v : ℕ) × OnPaper v sheet) }
    ensures left_value { result.left + 1 ≡ sheet.left }
    ensures by_index { (v : ℕ) → OnPaper v sheet → OnPaper v result }
{
    let pair = sheet.pairs / FIELD;
    let standing = sheet.remainder * 4 + pair;
    let trial = sheet.digits * 4 + 1;
    let digit = settled(trial, standing);
    Sheet {
        digits: sheet.digits * 2 + digit,
        remainder: standing - trial * digit,
        pairs: sheet.pairs % FIELD * 4,
        left: sheet.left - 1,
    }
}

// The digit is 1 where the trial can be taken off what stands there.
fn settled(trial: u64, standing: u64) -> u64
    ensures { result ≡ digit_for trial standing }
{
    u64::from(trial <= standing)
}

// ---- After the turns

// The word of the root, the exponent before its digits, of which the last one rounds the other 53: it
// alone decides, since no root lies midway, and nothing is carried beyond the first digit, since they
// are never all ones.
fn rounded(digits: u64, h: u64) -> u64
    requires { (digits < 2 ^ 54) × (h ≤ 1532) }
    ensures { result ≡ word_from h digits }
{
    (h + 1) * FIELD + (digits + 1) / 2
}
