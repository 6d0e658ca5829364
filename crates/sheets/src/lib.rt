// The lines of a root, and of the turns in which it is worked on paper, as `roots` and `root_digits`
// write them; and the line of a refusal, which `series` has too. docs/RULES.md, Lines.
//
// Every function here is proved, the public ones are total, and the crate assumes nothing.
#![tactic(auto)]

ghost use Rattle.std.specs.Prelude.{◌≡◌, ◌^◌, ◌≤◌, ◌<◌};
ghost use Rattle.std.specs.Float.{binary64};
ghost use Rattle.exact.specs.Numbers.{steps};
ghost use Rattle.pieces.specs.Page.{written};
ghost use Rattle.root.specs.Said.{said};
ghost use Rattle.root.specs.Paper.{whole_of, after_turns, shown, sheet_of};
ghost use Rattle.sheets.specs.Sheets.{Worked, refusal_line, root_line, turn_line, turn_lines, rounded_line, leading_up, working_lines};

use pieces::Page;
use root::{Reason, Sheet};

// The weight of the next pair among the pairs to come.
const PAIR: u64 = 0x10_0000_0000_0000;

// `root WORD` or `refused NUMBER`, in a page, as far as it goes.
#[tactic(auto, using(pieces::proofs::Pages::pages))]
pub fn put_root(answer: Result<f64, Reason>, page: &mut Page)
    ensures { page.new ≡ written page.old (root_line (said answer)) }
{
    match answer {
        Ok(x) => {
            pieces::put(page, b"root");
            text::number(page, x);
            pieces::put(page, b"\n");
        }
        Err(why) => put_refusal(why.number(), page),
    }
}

// `refused NUMBER`, likewise. A number, and no enum: it may be a root's or that of the series.
#[tactic(auto, using(pieces::proofs::Pages::pages))]
pub fn put_refusal(number: u32, page: &mut Page)
    ensures { page.new ≡ written page.old (refusal_line number) }
{
    pieces::put(page, b"refused");
    text::count(page, number);
    pieces::put(page, b"\n");
}

// The turns of x, how the last digit rounds, and the line of the root, likewise; for zero, and for
// what is refused, the line of the root alone.
pub fn put_working(x: f64, page: &mut Page)
    ensures { page.new ≡ written page.old (working_lines x) }
{
    leading_up(x, root::sheet_after(x, root::TURNS), page);
    put_root(root::root(x), page);
}

// What stands before the root's line: where x has a last sheet, the turns and the rounding.
fn leading_up(x: f64, last: Result<Option<Sheet>, Reason>, page: &mut Page)
    requires { shown last ≡ sheet_of x 54 }
    ensures { page.new ≡ written page.old (leading_up (whole_of (steps binary64 x)) (shown last)) }
{
    match last {
        Ok(Some(sheet)) => {
            turns(x, page);
            rounded(sheet, page);
        }
        Ok(None) | Err(_) => pieces::put(page, b""),
    }
}

// A line for each turn. Each sheet is worked from the first turn on, which is quick enough for a page.
fn turns(x: f64, page: &mut Page)
    requires { Worked x }
    ensures { page.new ≡ written page.old (turn_lines (whole_of (steps binary64 x)) 54) }
{
    pieces::put(page, b"");
    for n in 0..root::TURNS {
        turn(n + 1, sheet_of(x, n), sheet_of(x, n + 1), page);
    }
}

// The sheet of x after n turns. The other cases do not come.
fn sheet_of(x: f64, n: u64) -> Sheet
    requires { (n ≤ 54) × Worked x }
    ensures { (result.digits < 2 ^ 54) × (result ≡ after_turns (whole_of (steps binary64 x)) n) }
{
    let Ok(Some(sheet)) = root::sheet_after(x, n) else {
        unreachable!()
    };
    sheet
}

// `turn N PAIR TRIAL DIGIT REMAINDER`.
#[tactic(auto, using(pieces::proofs::Pages::pages))]
fn turn(n: u64, before: Sheet, after: Sheet, page: &mut Page)
    requires { before.digits < 2 ^ 54 }
    ensures { page.new ≡ written page.old (turn_line n before after) }
{
    pieces::put(page, b"turn");
    text::whole(page, n);
    text::whole(page, before.pairs / PAIR);
    text::whole(page, before.digits * 4 + 1);
    text::whole(page, after.digits % 2);
    text::whole(page, after.remainder);
    pieces::put(page, b"\n");
}

// `rounded DIGITS ROUNDED`.
#[tactic(auto, using(pieces::proofs::Pages::pages))]
fn rounded(last: Sheet, page: &mut Page)
    requires { last.digits < 2 ^ 54 }
    ensures { page.new ≡ written page.old (rounded_line last) }
{
    pieces::put(page, b"rounded");
    text::whole(page, last.digits);
    text::whole(page, (last.digits + 1) / 2);
    pieces::put(page, b"\n");
}
