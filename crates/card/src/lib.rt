// A card's bytes: its kind, the size of its body, and the fields that stand in it, by the version of its
// deck. docs/RULES.md, The deck.
//
// What was sent is read as words, and computed with as the numbers that they stand for. Every
// function here is proved, the public ones are total, and the crate assumes nothing.
#![tactic(auto)]

ghost use Rattle.std.specs.Prelude.{◌≡◌, ◌≤◌};
ghost use Rattle.rows.specs.Rows.{stated};
ghost use Rattle.card.specs.Fields.{kind_of, kind_number, given_size, own_size, packed_size, size_of, answer_size, answer_at, tag_at, tag_of, number_at, vector_at, problem_of, transfer_of};

use arc::{Transfer, Way};
use conic::Problem;
use tag::Tag;
use vectors::Vector;
use version::Version;

// The bytes with which every body begins, a problem's, and those of a spare; and those of both, or of a
// transfer with its way: what a card asks.
pub const PROBLEM: usize = 68;

const SPARE_SIZE: usize = 4;

pub const QUESTION: usize = PROBLEM + SPARE_SIZE;

// The bytes of what a card answers: of a solved one, which has the most, of a refused one with its last
// spare, and of a transfer; and those of a problem as it is given, of a body, and of its fields without a
// spare, at most: a solved card's in version 2.
const ANSWER: usize = 56;

const REFUSED_ANSWER: usize = 8;

const TRANSFER_ANSWER: usize = 32;

pub const GIVEN: usize = PROBLEM + version::TAG;

pub const BODY: usize = QUESTION + ANSWER + version::TAG;

pub const FIELDS: usize = PROBLEM + ANSWER + version::TAG;

// Where the spare, or a transfer's way, begins in what a card asks.
pub const SPARE: usize = PROBLEM;

// Where fields begin in what a card answers: of a solved card x, position and velocity; of a refused one the
// number and a spare; of a transfer z and, where a solved card has its position, the velocity.
pub const X: usize = 0;

pub const POSITION: usize = X + 8;

pub const VELOCITY: usize = POSITION + 24;

pub const NUMBER: usize = 0;

pub const LAST_SPARE: usize = NUMBER + 4;

pub const Z: usize = X;

// A card's kind: a solved problem, a refused one, or a solved transfer.
#[derive(Clone, Copy)]
pub enum Kind {
    Solved,
    Refused,
    Transfer,
}

impl Kind {
    // Its number in an entry.
    // No `From`: docs/STATEMENTS.md has the clause, and that it has one result (docs/DECISIONS.md 149).
    pub fn number(self) -> u32
        ensures { result ≡ kind_number self }
    {
        match self {
            Kind::Solved => 1,
            Kind::Refused => 2,
            Kind::Transfer => 3,
        }
    }

    // The bytes of a card's fields without a spare.
    pub fn packed(self, version: Version) -> usize
        ensures { result ≡ packed_size version self }
    {
        PROBLEM + own(self) + version.tag()
    }

    // The bytes of a body.
    pub fn size(self, version: Version) -> usize
        ensures { result ≡ size_of version self }
    {
        QUESTION + self.answer() + version.tag()
    }

    // The bytes of what a card answers, with a spare.
    pub fn answer(self) -> usize
        ensures { result ≡ answer_size self }
    {
        match self {
            Kind::Solved => ANSWER,
            Kind::Refused => REFUSED_ANSWER,
            Kind::Transfer => TRANSFER_ANSWER,
        }
    }

    // Where that begins in a body.
    pub fn answer_at(self, version: Version) -> usize
        ensures { result ≡ answer_at version self }
    {
        match self {
            Kind::Solved => QUESTION + version.tag(),
            Kind::Refused => QUESTION + version.tag(),
            Kind::Transfer => QUESTION,
        }
    }
}

// The bytes of a card's fields behind the problem, without a spare, object and epoch.
fn own(kind: Kind) -> usize
    ensures { result ≡ own_size kind }
{
    match kind {
        Kind::Solved => ANSWER,
        Kind::Refused => REFUSED_ANSWER - SPARE_SIZE,
        Kind::Transfer => SPARE_SIZE + TRANSFER_ANSWER,
    }
}

// The bytes of a problem as it is given to be written, with object and epoch where the version has them.
pub fn given_size(version: Version) -> usize
    ensures { result ≡ given_size version }
{
    PROBLEM + version.tag()
}

// Where object and epoch begin in a body that has them.
fn tag_at(kind: Kind) -> usize
    ensures { result ≡ tag_at kind }
{
    match kind {
        Kind::Solved => QUESTION,
        Kind::Refused => QUESTION,
        Kind::Transfer => QUESTION + TRANSFER_ANSWER,
    }
}

// The kind that has this number. No `TryFrom`: an Option says that there is none (docs/DECISIONS.md 149).
pub fn kind_of(number: u32) -> Option<Kind>
    ensures { stated 34 result ≡ kind_of number }
{
    match number {
        1 => Some(Kind::Solved),
        2 => Some(Kind::Refused),
        3 => Some(Kind::Transfer),
        _ => None,
    }
}

// The number that stands in a body from index at on; 0 where the body ends before.
pub fn number(body: &[u8], at: usize) -> f64
    ensures { result ≡ number_at body.now at }
{
    exact::number(words::word(body, at))
}

// Object and epoch of a card, which version 1 does not have.
pub fn tag(version: Version, kind: Kind, body: &[u8]) -> Option<Tag>
    ensures { result ≡ tag_of version kind body.now }
{
    match version {
        Version::One => None,
        Version::Two => {
            let at = tag_at(kind);
            Some(tag::present(words::half(body, at), words::word(body, at + 4)))
        }
    }
}

// The problem with which a body begins, as numbers: every NaN word gives NaN.
pub fn problem(body: &[u8]) -> Problem
    ensures { result ≡ problem_of body.now }
{
    Problem {
        mu: number(body, 0),
        r: vector(body, 8),
        v: vector(body, 32),
        dt: number(body, 56),
        limit: words::half(body, 64),
    }
}

// The transfer with which a body begins, as numbers: every NaN word gives NaN. None where its way is neither
// 0 nor 1.
pub fn transfer(body: &[u8]) -> Option<Transfer>
    ensures { stated 23 result ≡ transfer_of body.now }
{
    let way = match words::half(body, SPARE) {
        0 => Way::Short,
        1 => Way::Long,
        _ => return None,
    };
    let p = problem(body);
    Some(Transfer {
        mu: p.mu,
        r1: p.r,
        r2: p.v,
        dt: p.dt,
        limit: p.limit,
        way,
    })
}

fn vector(body: &[u8], at: usize) -> Vector
    requires { at ≤ 32 }
    ensures { result ≡ vector_at body.now at }
{
    Vector {
        x: number(body, at),
        y: number(body, at + 8),
        z: number(body, at + 16),
    }
}
