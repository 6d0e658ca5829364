// The root of a finite binary64 number not below zero: the nearest. docs/RULES.md, Numbers 4. And the
// sheets on which it is worked by hand: docs/RULES.md, The root on paper.
//
// Every function here is proved, and the crate assumes nothing. `root` and `sheet_after` are total; the
// helpers below them are private.
#![tactic(auto)]

ghost use Rattle.std.specs.Prelude.{◌≡◌};
ghost use Rattle.root.specs.Root.{root_of};
ghost use Rattle.root.specs.Said.{reason_number, said};
ghost use Rattle.root.specs.Paper.{shown, sheet_of};
ghost use Rattle.root.specs.Tested.{Tested};

mod digits;

// Why a root is refused.
#[derive(Clone, Copy)]
pub enum Reason {
    NotFinite,
    BelowZero,
}

impl Reason {
    // Its number in the rules.
    // No `From`: docs/STATEMENTS.md has the clause, and that it has one result (docs/DECISIONS.md 149).
    pub fn number(self) -> u32
        ensures { result ≡ reason_number self }
    {
        match self {
            Reason::NotFinite => 1,
            Reason::BelowZero => 13,
        }
    }
}

// The turns of a root: as many as it has digits, one more than are kept.
pub const TURNS: u64 = 54;

// A sheet of the root on paper: the digits that are settled, the remainder, the pairs of binary
// digits still to come, and how many these are. `pairs` has the next 27 of them, the first one
// highest; zeros follow.
#[derive(Clone, Copy)]
pub struct Sheet {
    pub digits: u64,
    pub remainder: u64,
    pub pairs: u64,
    pub left: u64,
}

// The binary64 number nearest the exact root of x, and -0 for -0. A NaN, an infinity and a number
// below zero are refused.
pub fn root(x: f64) -> Result<f64, Reason>
    ensures { said result ≡ root_of x }
{
    match tested(x)? {
        Some(w) => Ok(f64::from_bits(digits::root_word(w))),
        None => Ok(x),
    }
}

// The sheet of x after so many turns; after more than 54 the last one. Zero, which is its own root, has
// none. What is refused as a root is refused here.
pub fn sheet_after(x: f64, turns: u64) -> Result<Option<Sheet>, Reason>
    ensures { shown result ≡ sheet_of x turns }
{
    match tested(x)? {
        Some(w) => Ok(Some(digits::sheet_of(w, turns))),
        None => Ok(None),
    }
}

// The word of a number above zero; none for zero, of either sign; or why the number has no root.
fn tested(x: f64) -> Result<Option<u64>, Reason>
    ensures { Tested x result }
{
    if !exact::finite(x) {
        return Err(Reason::NotFinite);
    }
    if x < 0.0 {
        return Err(Reason::BelowZero);
    }
    if x == 0.0 {
        return Ok(None);
    }
    Ok(Some(f64::to_bits(x)))
}
