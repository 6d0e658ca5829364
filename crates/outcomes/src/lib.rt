// The lines of outcomes, as `predict`, `turn` and `transfer` write them. docs/RULES.md, Lines.
//
// Every function here is proved, the public ones are total, and the crate assumes nothing.
#![tactic(auto)]

ghost use Rattle.std.specs.Prelude.{◌≡◌, ℕ, List};
ghost use Rattle.pieces.specs.Page.{written};
ghost use Rattle.conic.specs.Said as conic;
ghost use Rattle.lambert.specs.Said as lambert;
ghost use Rattle.outcomes.specs.Outcomes as outcomes;

use conic::{Outcome, State};
use pieces::Page;
use search::Solution;
use vectors::Vector;

// What was found, as a solution's line shows it.
trait Shown: Copy {
    ghost shown: { Self → List ℕ };

    fn put(self, page: &mut Page)
        ensures { page.new ≡ written page.old (shown self) };
}

// Position and velocity.
impl Shown for State {
    ghost shown = { outcomes.state };

    #[tactic(auto, using(pieces::proofs::Pages::pages))]
    fn put(self, page: &mut Page) {
        self.r.put(page);
        self.v.put(page);
    }
}

impl Shown for Vector {
    ghost shown = { outcomes.vector };

    #[tactic(auto, using(pieces::proofs::Pages::pages))]
    fn put(self, page: &mut Page) {
        text::number(page, self.x);
        text::number(page, self.y);
        text::number(page, self.z);
    }
}

// `solved COUNT X RX RY RZ VX VY VZ`, `refused NUMBER COUNT` or `refused NUMBER COUNT LO HI`, in a
// page, as far as it goes.
pub fn put(outcome: Outcome, page: &mut Page)
    ensures { page.new ≡ written page.old (outcomes.outcome_line (conic.said outcome)) }
{
    match outcome {
        Ok(s) => solved(s, page),
        Err(r) => unsolved(r.why.number(), r.count, r.ends, page),
    }
}

// The same for a transfer: `solved COUNT Z VX VY VZ`, or a refusal as above.
// The two matches stay: a trait for the number alone, which two enums of reasons would implement, is no plainer.
pub fn put_transfer(outcome: lambert::Outcome, page: &mut Page)
    ensures { page.new ≡ written page.old (outcomes.transfer_line (lambert.said outcome)) }
{
    match outcome {
        Ok(solution) => solved(solution, page),
        Err(refusal) => unsolved(refusal.why.number(), refusal.count, refusal.ends, page),
    }
}

// `solved COUNT X`, and what was found.
#[tactic(auto, using(pieces::proofs::Pages::pages))]
fn solved<A: Shown>(solution: Solution<A>, page: &mut Page)
    ensures { page.new ≡ written page.old (outcomes.solved_line A.shown solution.x solution.count solution.found) }
{
    pieces::put(page, b"solved");
    text::count(page, solution.count);
    text::number(page, solution.x);
    solution.found.put(page);
    pieces::put(page, b"\n");
}

// `refused NUMBER COUNT`, and `LO HI` where the bracket's ends are named. A number, here and below, and no enum:
// it may be a prediction's, a transfer's or a fault's.
fn unsolved(number: u32, count: u32, ends: Option<(f64, f64)>, page: &mut Page)
    ensures { page.new ≡ written page.old (outcomes.unsolved_line number count ends) }
{
    match ends {
        None => refused(number, count, page),
        Some((lo, hi)) => named(number, count, lo, hi, page),
    }
}

// `refused NUMBER COUNT`, in a page, as far as it goes.
#[tactic(auto, using(pieces::proofs::Pages::pages))]
pub fn refused(number: u32, count: u32, page: &mut Page)
    ensures { page.new ≡ written page.old (outcomes.refused_line number count) }
{
    refusal(number, count, page);
    pieces::put(page, b"\n");
}

// `refused NUMBER COUNT LO HI`.
#[tactic(auto, using(pieces::proofs::Pages::pages))]
fn named(number: u32, count: u32, lo: f64, hi: f64, page: &mut Page)
    ensures { page.new ≡ written page.old (outcomes.named_line number count lo hi) }
{
    refusal(number, count, page);
    text::number(page, lo);
    text::number(page, hi);
    pieces::put(page, b"\n");
}

#[tactic(auto, using(pieces::proofs::Pages::pages))]
fn refusal(number: u32, count: u32, page: &mut Page)
    ensures { page.new ≡ written page.old (outcomes.refusal number count) }
{
    pieces::put(page, b"refused");
    text::count(page, number);
    text::count(page, count);
}
