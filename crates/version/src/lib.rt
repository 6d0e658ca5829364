// The versions of a deck: their numbers, the form of what goes into a deck of each, and the bytes that
// object and epoch take on a card. docs/RULES.md, The deck and Writing a deck.
//
// Every function here is proved and total, and the crate assumes nothing.
#![tactic(auto)]

ghost use Rattle.std.specs.Prelude.{◌≡◌};
ghost use Rattle.version.specs.Version.{version_number, form_number, tag_size, version_of, version_given, named_said, given_said};

// In version 1 a card has neither object nor epoch, in version 2 it has both.
#[derive(Clone, Copy)]
pub enum Version {
    One,
    Two,
}

impl Version {
    // Its number at the front of a deck. No `From`, here and below: a version has two numbers (docs/DECISIONS.md
    // 149).
    pub fn number(self) -> u32
        ensures { result ≡ version_number self }
    {
        match self {
            Version::One => 1,
            Version::Two => 2,
        }
    }

    // The form of what goes into a deck: 1 where that has object and epoch.
    pub fn form(self) -> u32
        ensures { result ≡ form_number self }
    {
        match self {
            Version::One => 0,
            Version::Two => 1,
        }
    }

    // The bytes of a card's object and epoch.
    pub fn tag(self) -> usize
        ensures { result ≡ tag_size self }
    {
        match self {
            Version::One => 0usize,
            Version::Two => TAG,
        }
    }
}

// The bytes of object and epoch where a card has them.
pub const TAG: usize = 4 + 8;

// The version that has this number. No `TryFrom`: an Option says that there is none (docs/DECISIONS.md 149).
pub fn named(number: u32) -> Option<Version>
    ensures { named_said result ≡ version_of number }
{
    match number {
        1 => Some(Version::One),
        2 => Some(Version::Two),
        _ => None,
    }
}

// The version that is given for a deck, where what goes into it has that version's form. Two numbers, as they
// are given by a program or in C: another than 1 and 2, or 0 and 1, is refused here.
pub fn given(number: u32, form: u32) -> Option<Version>
    ensures { given_said result ≡ version_given number form }
{
    let version = named(number)?;
    if form != version.form() {
        return None;
    }
    Some(version)
}
