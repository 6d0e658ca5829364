// The conic: a problem, the scaled problem and what a prediction answers; and from the universal
// functions at x back to a state. docs/RULES.md, Unfolding, and the refusals of a prediction.
//
// Every public function is proved and total: its contract is an equation with a definition of
// `specs/`, for every input, NaN and infinities included. The crate assumes nothing.
#![tactic(auto)]

ghost use Rattle.std.specs.Prelude.{◌≡◌};
ghost use Rattle.conic.specs.Said.{input_number, reason_number, is_meant_by};
ghost use Rattle.conic.specs.TimeAndRatio.{time_at};
ghost use Rattle.conic.specs.Unfolding.{arrival_at};

use search::{Sought, Why};
use vectors::Vector;

pub mod unfolding;

// A position and a velocity.
#[derive(Clone, Copy)]
pub struct State {
    pub r: Vector,
    pub v: Vector,
}

// A problem for Kepler, in the letters of its rules: a transfer has others, and a way (`arc`).
#[derive(Clone, Copy)]
pub struct Problem {
    pub mu: f64,
    pub r: Vector,
    pub v: Vector,
    pub dt: f64,
    pub limit: u32,
}

// The scaled problem, in the letters of the rules, with the state that unfolding starts from.
#[derive(Clone, Copy)]
pub struct Scaled {
    pub s: f64,
    pub alpha: f64,
    pub p: f64,
    pub t: f64,
    pub f4: f64,
    pub r0: f64,
    pub r: Vector,
    pub v: Vector,
}

impl Scaled {
    // T(x): the scaled time; NaN where the functions are refused.
    #[tactic(auto, unfolding(crate::specs::TimeAndRatio::time_at))]
    pub fn time_at(self, x: f64) -> f64
        ensures { result ≡ time_at self x }
    {
        universal::time(self.s, universal::at_or_nan(x, self.alpha))
    }
}

// What a prediction searches for: the x whose time is t, and the state that it unfolds to.
impl Sought for Scaled {
    type Found = State;

    type Reason = Reason;

    ghost time_at = { time_at };

    ghost wanted_time = { λ o. o.t };

    ghost found_at = { arrival_at };

    fn time_at(self, x: f64) -> f64 {
        Scaled::time_at(self, x)
    }

    fn wanted_time(self) -> f64 {
        self.t
    }

    fn found_at(self, x: f64) -> Result<State, Reason> {
        unfolding::arrive_at(self, x)
    }
}

// The refusal of the first of the numbers that a prediction is given, whose others follow, and how many
// these are.
const FIRST_INPUT: u32 = 101;

const INPUTS: u32 = 8;

// What cards from before have for any of these.
const ANY_INPUT: u32 = 1;

// Why a prediction is refused. A number that is not finite has its place among those given, from 0 on.
#[derive(Clone, Copy)]
pub enum Reason {
    InputNotFinite(u8),
    MuNotPositive,
    LimitOutOfRange,
    AngleTooLarge,
    NoRadius,
    NotFinite,
    StraightLine,
    BeyondFarEnd,
    BracketClosed,
    LimitReached,
    TooNearCentre,
    TowardsInfinity,
    RootRefused,
}

impl Reason {
    // Its number in the rules.
    // No `From`: docs/STATEMENTS.md has the clause, and that it has one result (docs/DECISIONS.md 149).
    pub fn number(self) -> u32
        ensures { result ≡ reason_number self }
    {
        match self {
            Reason::InputNotFinite(place) => input_number(place),
            Reason::MuNotPositive => 2,
            Reason::LimitOutOfRange => 3,
            Reason::AngleTooLarge => 4,
            Reason::NoRadius => 5,
            Reason::NotFinite => 6,
            Reason::StraightLine => 7,
            Reason::BeyondFarEnd => 8,
            Reason::BracketClosed => 9,
            Reason::LimitReached => 10,
            Reason::TooNearCentre => 11,
            Reason::TowardsInfinity => 12,
            Reason::RootRefused => 14,
        }
    }

    // Whether the number on a refused card means it. A number as it was sent: any may stand there.
    pub fn is_meant_by(self, number: u32) -> bool
        ensures { result ≡ is_meant_by (reason_number self) number }
    {
        let own = self.number();
        let input = (FIRST_INPUT <= own) & (own < FIRST_INPUT + INPUTS);
        (own == number) | ((number == ANY_INPUT) & input)
    }
}

fn input_number(place: u8) -> u32
    ensures { result ≡ input_number place }
{
    FIRST_INPUT + place as u32
}

impl Why for Reason {
    ghost number = { reason_number };

    fn lost() -> Reason {
        Reason::NotFinite
    }

    fn closed() -> Reason {
        Reason::BracketClosed
    }

    fn spent() -> Reason {
        Reason::LimitReached
    }
}

// A prediction's answer.
pub type Outcome = search::Outcome<State, Reason>;
