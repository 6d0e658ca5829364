// The lines with which a deck's listing ends: the totals, mean and worst. docs/RULES.md, The check
// program's listing.
//
// Every function here is proved, the public ones are total, and the crate assumes nothing.
#![tactic(auto)]

ghost use Rattle.std.specs.Prelude.{◌≡◌};
ghost use Rattle.pieces.specs.Page.{written};
ghost use Rattle.deck.specs.Said.{told};
ghost use Rattle.listed.specs.Listed.{totals_line, residual_lines};

use deck::{Residuals, Totals};
use pieces::Page;

// The three totals.
#[tactic(auto, using(pieces::proofs::Pages::pages))]
pub fn totals_line(totals: Totals, page: &mut Page)
    ensures { page.new ≡ written page.old (totals_line totals) }
{
    pieces::put(page, b"solved");
    text::count(page, totals.solved);
    pieces::put(page, b" refused");
    text::count(page, totals.refused);
    pieces::put(page, b" rejected");
    text::count(page, totals.rejected);
    pieces::put(page, b"\n");
}

// Mean and worst, in seconds, or that there is neither.
#[tactic(auto, using(pieces::proofs::Pages::pages))]
pub fn residual_lines(residuals: Option<Residuals>, page: &mut Page)
    ensures { page.new ≡ written page.old (residual_lines (told residuals)) }
{
    match residuals {
        None => pieces::put(page, b"mean none\nworst none\n"),
        Some(Residuals { mean, worst }) => {
            pieces::put(page, b"mean");
            text::number(page, mean);
            pieces::put(page, b"\nworst");
            text::number(page, worst);
            pieces::put(page, b"\n");
        }
    }
}
