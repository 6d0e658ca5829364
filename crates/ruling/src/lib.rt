// What can be ruled of a card and of a deck, and the numbers of the rules for it. docs/RULES.md, Verdicts,
// The deck and Writing a deck.
//
// Every function here is proved and total, and the crate assumes nothing.
#![tactic(auto)]

ghost use Rattle.std.specs.Prelude.{◌≡◌};
ghost use Rattle.ruling.specs.Said.{fault_number, reason_number, said, number_in};

// Why a card is rejected, besides the reasons for which a prediction is refused. The word that is not
// allowed is a spare that is not 0, or a way that is neither 0 nor 1.
#[derive(Clone, Copy)]
pub enum Fault {
    XOutside,
    TimeOff,
    StateDiffers,
    WordNotAllowed,
    NumberDiffers,
}

// A solved card's verdict 0 comes with its residual, in seconds; a refused card has none. A number rejects, and
// no enum: it may be a fault's, a prediction's or a transfer's (docs/DECISIONS.md 29).
#[derive(Clone, Copy)]
pub enum Verdict {
    Solved(f64),
    Refused,
    Rejected(u32),
}

impl Fault {
    // Its number in the rules.
    // No `From`: docs/STATEMENTS.md has the clause, and that it has one result (docs/DECISIONS.md 149).
    pub fn number(self) -> u32
        ensures { result ≡ fault_number self }
    {
        match self {
            Fault::XOutside => 20,
            Fault::TimeOff => 21,
            Fault::StateDiffers => 22,
            Fault::WordNotAllowed => 23,
            Fault::NumberDiffers => 24,
        }
    }
}

impl Verdict {
    // The number for the verdict list: 0 for a card that is accepted. No `From`, as above.
    pub fn number(self) -> u32
        ensures { result ≡ number_in (said self) }
    {
        match self {
            Verdict::Solved(_) => 0,
            Verdict::Refused => 0,
            Verdict::Rejected(number) => number,
        }
    }
}

// Why a deck is refused, or is not written. ListTooShort is of the verdict list, which `deck` is lent;
// the last four are of the crates that write decks.
#[derive(Clone, Copy)]
pub enum Reason {
    TooShort,
    OtherVersion,
    TooManyCards,
    ContentsPastEnd,
    UnknownKind,
    WrongLength,
    WrongOffset,
    BodyPastEnd,
    BytesLeftOver,
    ListTooShort,
    TooManyGiven,
    NoRoom,
    OtherForm,
    BytesDoNotFit,
}

impl Reason {
    // Its number in the rules.
    // No `From`: docs/STATEMENTS.md has the clause, and that it has one result (docs/DECISIONS.md 149).
    pub fn number(self) -> u32
        ensures { result ≡ reason_number self }
    {
        match self {
            Reason::TooShort => 30,
            Reason::OtherVersion => 31,
            Reason::TooManyCards => 32,
            Reason::ContentsPastEnd => 33,
            Reason::UnknownKind => 34,
            Reason::WrongLength => 35,
            Reason::WrongOffset => 36,
            Reason::BodyPastEnd => 37,
            Reason::BytesLeftOver => 38,
            Reason::ListTooShort => 39,
            Reason::TooManyGiven => 40,
            Reason::NoRoom => 41,
            Reason::OtherForm => 42,
            Reason::BytesDoNotFit => 46,
        }
    }
}
