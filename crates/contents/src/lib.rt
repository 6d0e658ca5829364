// The contents of a deck: refusals 30 to 38, in the order of the rules. docs/RULES.md, The deck.
//
// Every public function is proved and total: an entry may be asked for by any number, with the last
// body ended anywhere. The crate assumes nothing.
#![tactic(auto)]

ghost use Rattle.std.specs.Prelude.{◌≡◌};
ghost use Rattle.rows.specs.Rows.{checked, stated};
ghost use Rattle.ruling.specs.Said.{reason_number};
ghost use Rattle.contents.specs.Contents.{entry_at, kind_at, entry_in, cards_from, counting, counted_in};

use card::Kind;
use ruling::Reason;
use version::Version;

// The bytes before the first entry, and those of one.
pub const HEADER: usize = 8;

pub const ENTRY: usize = 12;

// The most cards, and the bytes of the largest deck.
pub const MOST_CARDS: usize = 256;

pub const LARGEST_DECK: usize = HEADER + MOST_CARDS * (ENTRY + card::BODY);

// The version and how many cards there are, once all tests of the contents are passed.
pub fn tested(deck: &[u8]) -> Result<(Version, u32), Reason>
    ensures { checked reason_number result ≡ counted_in deck.now }
{
    if deck.len() < HEADER {
        return Err(Reason::TooShort);
    }
    let version = version::named(words::half(deck, 0)).ok_or(Reason::OtherVersion)?;
    let count = words::half(deck, 4);
    if MOST_CARDS < count as usize {
        return Err(Reason::TooManyCards);
    }
    if deck.len() < HEADER + ENTRY * count as usize {
        return Err(Reason::ContentsPastEnd);
    }
    entries_tested(deck, version, count)
}

// Each entry in turn, then the bytes left over.
fn entries_tested(deck: &[u8], version: Version, count: u32) -> Result<(Version, u32), Reason>
    ensures { checked reason_number result ≡ counting version count (cards_from version deck.now count 0 (entry_at count)) }
{
    let mut at = HEADER + ENTRY * count as usize;
    for i in 0..count {
        let kind = entry_at(deck, version, i, at)?;
        at += kind.size(version);
    }
    if at != deck.len() {
        return Err(Reason::BytesLeftOver);
    }
    Ok((version, count))
}

// Entry i, where the last body ended at index at.
pub fn entry_at(deck: &[u8], version: Version, i: u32, at: usize) -> Result<Kind, Reason>
    ensures { checked reason_number result ≡ entry_in version deck.now i at }
{
    let kind = kind_at(deck, i).ok_or(Reason::UnknownKind)?;
    let place = HEADER + ENTRY * i as usize;
    let size = kind.size(version);
    if words::half(deck, place + 8) as usize != size {
        return Err(Reason::WrongLength);
    }
    if words::half(deck, place + 4) as usize != at {
        return Err(Reason::WrongOffset);
    }
    if deck.len() < at + size {
        return Err(Reason::BodyPastEnd);
    }
    Ok(kind)
}

// The kind in entry i.
pub fn kind_at(deck: &[u8], i: u32) -> Option<Kind>
    ensures { stated 34 result ≡ kind_at deck.now i }
{
    card::kind_of(words::half(deck, HEADER + ENTRY * i as usize))
}
