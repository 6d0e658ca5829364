// The tally, card by card in deck order. A card that is not accepted as solved adds nothing to the
// residuals.
ghost use Rattle.std.specs.Prelude.{◌≡◌, ◌+◌, ◌<◌};
ghost use Rattle.contents.specs.Contents.{most_cards};
ghost use Rattle.ruling.specs.Said as judge;
ghost use Rattle.deck.specs.Said.{tally_said};
ghost use Rattle.deck.specs.Tally.{nothing, larger, counted, mean_residual, residuals_of, totals_of};

use crate::{Residuals, Totals};
use ruling::Verdict;

// The tally so far: the sum of the residuals and the largest, over the solved cards.
#[derive(Clone, Copy)]
pub(crate) struct Running {
    pub solved: u32,
    pub refused: u32,
    pub rejected: u32,
    pub sum: f64,
    pub worst: f64,
}

impl Running {
    pub(crate) fn none() -> Running
        ensures { result ≡ nothing }
    {
        Running {
            solved: 0,
            refused: 0,
            rejected: 0,
            sum: 0.0,
            worst: 0.0,
        }
    }

    pub(crate) fn with(self, verdict: Verdict) -> Running
        requires { self.solved + self.refused + self.rejected < most_cards }
        ensures { result ≡ counted self (judge.said verdict) }
    {
        let mut next = self;
        match verdict {
            Verdict::Solved(residual) => {
                next.solved += 1;
                next.sum += residual;
                next.worst = larger_of(next.worst, residual);
            }
            Verdict::Refused => next.refused += 1,
            Verdict::Rejected(_) => next.rejected += 1,
        }
        next
    }

    pub(crate) fn closed(self) -> (Totals, Option<Residuals>)
        ensures { tally_said result ≡ (totals_of self, residuals_of self) }
    {
        let totals = Totals {
            solved: self.solved,
            refused: self.refused,
            rejected: self.rejected,
        };
        if self.solved == 0 {
            return (totals, None);
        }
        let mean = self.mean();
        let worst = self.worst;
        (totals, Some(Residuals { mean, worst }))
    }

    // The sum over the number of solved cards.
    fn mean(self) -> f64
        ensures { result ≡ mean_residual self }
    {
        self.sum / self.solved as f64
    }
}

// No f64::max, which leaves out a NaN: the definition keeps a where it is NaN.
fn larger_of(a: f64, b: f64) -> f64
    ensures { result ≡ larger a b }
{
    if a < b { b } else { a }
}
