// The card of a problem: Kepler is run on it, and its card is solved or refused. docs/RULES.md, Writing
// a deck 2.
//
// Every function here is proved, `put` is total, and the crate assumes nothing.
#![tactic(auto)]

ghost use Rattle.std.specs.Prelude.{◌≡◌, ◌≤◌, length};
ghost use Rattle.rows.specs.Rows.{checked};
ghost use Rattle.ruling.specs.Said.{reason_number};
ghost use Rattle.pieces.specs.Page.{written};
ghost use Rattle.words.specs.Words.{words_bytes};
ghost use Rattle.version.specs.Version.{largest_tag};
ghost use Rattle.conic.specs.Said as conic;
ghost use Rattle.kepler.specs.Kepler.{kepler_of};
ghost use Rattle.card.specs.Fields.{problem_size, problem_of};
ghost use Rattle.card.specs.Made.{solved_answer, kind_for, answer_for};
ghost use Rattle.predicted.specs.Predicted.{first_card, kind_placed, with_body, words_in, given_in, fields_held, body_held};

use card::Kind;
use conic::{Outcome, Problem, State};
use pieces::Page;
use ruling::Reason;
use version::Version;

// A card: the problem and its answer, and beside the problem's numbers the words that were given for
// them, since a NaN among them may have any payload.
#[derive(Clone, Copy)]
pub struct Card {
    given: [u64; 8],
    problem: Problem,
    outcome: Outcome,
}

// Predicts the problem with which the bytes begin and puts the body of its card in a deck of this version
// into a page, as far as it goes. Object and epoch stand behind the problem where the version has them, and
// go to the card as they are. Answers the card's kind.
pub fn put(version: Version, problems: &[u8], page: &mut Page) -> Result<Kind, Reason>
    ensures result_value { checked reason_number result ≡ kind_placed (first_card version problems.now) }
    ensures page_after { page.new ≡ with_body page.old (first_card version problems.now) }
{
    let size = card::given_size(version);
    if problems.len() < size {
        return Err(Reason::BytesDoNotFit);
    }
    let made = answered(&problems[..card::PROBLEM]);
    let kind = kind_of(made.outcome);
    put_body(made, &problems[card::PROBLEM..size], kind, page);
    Ok(kind)
}

// The body of a card.
fn put_body(made: Card, tag: &[u8], kind: Kind, page: &mut Page)
    requires { (length (given_in made) ≡ problem_size) × (length tag.now ≤ largest_tag) }
    ensures { page.new ≡ written page.old (body_held kind made tag.now) }
{
    let mut fields = [0u8; card::FIELDS];
    let mut list = Page {
        bytes: &mut fields,
        at: 0,
    };
    put_card(made, tag, &mut list);
    let end = list.at;
    layout::put_body(kind, &fields[..end], page);
}

// The card of one problem.
fn answered(given: &[u8]) -> Card
    requires { length given.now ≡ problem_size }
    ensures result_value { given_in result ≡ given.now }
    ensures outcome_value { conic.said result.outcome ≡ kepler_of (problem_of given.now) }
{
    let problem = card::problem(given);
    Card {
        given: words_of(given),
        problem,
        outcome: kepler::kepler(problem),
    }
}

// The words of the eight numbers.
fn words_of(given: &[u8]) -> [u64; 8]
    ensures { result ≡ words_in given.now }
{
    [0, 8, 16, 24, 32, 40, 48, 56].map(|at| words::word(given, at))
}

fn kind_of(outcome: Outcome) -> Kind
    ensures { result ≡ kind_for (conic.said outcome) }
{
    match outcome {
        Ok(_) => Kind::Solved,
        Err(_) => Kind::Refused,
    }
}

// A card's fields, without spares.
#[tactic(auto, using(pieces::proofs::Pages::pages))]
fn put_card(made: Card, tag: &[u8], page: &mut Page)
    requires { page.old.at ≤ length page.old.bytes.now }
    ensures { page.new ≡ written page.old (fields_held made tag.now) }
{
    put_words(page, &made.given);
    words::put_half(page, made.problem.limit);
    pieces::put(page, tag);
    put_answer(made.outcome, page);
}

// x, position and velocity, or the refusal's number.
fn put_answer(outcome: Outcome, page: &mut Page)
    requires { page.old.at ≤ length page.old.bytes.now }
    ensures { page.new ≡ written page.old (answer_for (conic.said outcome)) }
{
    match outcome {
        Ok(solution) => put_solved(solution.x, solution.found, page),
        Err(refusal) => words::put_half(page, refusal.why.number()),
    }
}

fn put_solved(x: f64, state: State, page: &mut Page)
    requires { page.old.at ≤ length page.old.bytes.now }
    ensures { page.new ≡ written page.old (solved_answer x state) }
{
    let State { r, v } = state;
    let answer = [x, r.x, r.y, r.z, v.x, v.y, v.z].map(exact::word);
    put_words(page, &answer);
}

// Words of eight bytes, one behind the other.
fn put_words(page: &mut Page, list: &[u64])
    requires { page.old.at ≤ length page.old.bytes.now }
    ensures { page.new ≡ written page.old (words_bytes list.now) }
{
    for word in list {
        words::put_word(page, *word);
    }
}
