// What is written for one record by `predict`, `turn`, `transfer`, `roots`, `root_digits` and `series`: a
// line, or for `root_digits` the lines of a root's turns. docs/RULES.md, Lines.
//
// A record is what one question takes: eight bytes for a root, its turns or the series, 68 for Kepler, 64
// for Theta, 72 for a transfer. Every function here is proved and total, and the crate assumes nothing.
#![tactic(auto)]

ghost use Rattle.std.specs.Prelude.{◌≡◌};
ghost use Rattle.pieces.specs.Page.{written};
ghost use Rattle.rows.specs.Rows.{stated};
ghost use Rattle.conic.specs.Said as conic;
ghost use Rattle.lambert.specs.Lambert.{answer_to};
ghost use Rattle.outcomes.specs.Outcomes.{transfer_line};
ghost use Rattle.line.specs.Line as line;

use arc::Transfer;
use conic::{Outcome, Problem};
use pieces::Page;
use ruling::Fault;

// What is asked of each record.
#[derive(Clone, Copy)]
pub enum Question {
    Root,
    Kepler,
    Theta,
    Transfer,
    Digits,
    Series,
}

// The bytes of one record. A match, here and below, and no trait: the definitions go by what is asked.
pub fn width(asked: Question) -> usize
    ensures { result ≡ line.width_of asked }
{
    match asked {
        Question::Root => 8,
        Question::Kepler => card::PROBLEM,
        Question::Theta => 64,
        Question::Transfer => card::QUESTION,
        Question::Digits => 8,
        Question::Series => 8,
    }
}

// Puts the line of one record, or its lines, into a page, as far as it goes.
#[tactic(auto, unfolding(crate::specs::Line::line_of))]
pub fn line(asked: Question, s: &[u8], page: &mut Page)
    ensures { page.new ≡ written page.old (line.line_of asked s.now) }
{
    match asked {
        Question::Root => sheets::put_root(root::root(card::number(s, 0)), page),
        Question::Kepler => outcomes::put(kepler::kepler(card::problem(s)), page),
        Question::Theta => outcomes::put(turned(card::problem(s)), page),
        Question::Transfer => transfer_line(card::transfer(s), page),
        Question::Digits => sheets::put_working(card::number(s, 0), page),
        Question::Series => sums::put(card::number(s, 0), page),
    }
}

// An angle problem has its angle where a problem has its time.
fn turned(p: Problem) -> Outcome
    ensures { conic.said result ≡ line.turned p }
{
    theta::theta(p.mu, p.r, p.v, p.dt)
}

// The line of a transfer; where there is none, its way being neither 0 nor 1, of the refusal.
fn transfer_line(asked: Option<Transfer>, page: &mut Page)
    ensures { page.new ≡ written page.old (transfer_line (answer_to (stated 23 asked))) }
{
    match asked {
        Some(q) => outcomes::put_transfer(lambert::lambert(q), page),
        None => outcomes::refused(Fault::WordNotAllowed.number(), 0, page),
    }
}
