// A deck taken apart: the kinds of its cards and their fields without spares. docs/RULES.md, Writing a
// deck.
//
// Every function here is proved, the public ones are total, and the crate assumes nothing.
#![tactic(auto)]

ghost use Rattle.std.specs.Prelude.{◌≡◌, ◌≤◌, length};
ghost use Rattle.rows.specs.Rows.{pass, checked};
ghost use Rattle.pieces.specs.Pieces.{Put};
ghost use Rattle.pieces.specs.Page.{written};
ghost use Rattle.card.specs.Fields.{size_of};
ghost use Rattle.card.specs.Made.{rest_from, fields_in};
ghost use Rattle.version.specs.declared.Version.{Version};
ghost use Rattle.contents.specs.Contents.{Deck, deck_in, counted_in};
ghost use Rattle.apart.specs.Apart.{kinds_taken, fields_taken, apart_of, sizes_of, with_taken};
ghost use Rattle.ruling.specs.Said.{reason_number};

use card::Kind;
use pieces::Page;
use ruling::Reason;
use version::Version;

// Takes a deck apart: the kinds and the fields of its cards, each at the front of its list. Answers the
// version of the deck, how many cards it has and the bytes that their fields take, or why it is refused. Kinds
// are numbers, as they are given to be written.
pub fn take(
    deck: &[u8],
    kinds: &mut [u32],
    fields: &mut [u8],
) -> Result<(Version, u32, usize), Reason>
    ensures result_value { checked reason_number result ≡ sizes_of (apart_of deck.now (length kinds.old) (length fields.old)) }
    ensures kinds_after { kinds.new ≡ with_taken kinds_taken (apart_of deck.now (length kinds.old) (length fields.old)) kinds.old }
    ensures fields_after { fields.new ≡ with_taken fields_taken (apart_of deck.now (length kinds.old) (length fields.old)) fields.old }
{
    let (version, count, size) = measured(deck, kinds.len(), fields.len())?;
    list_kinds(deck, count, kinds);
    let mut page = Page {
        bytes: fields,
        at: 0,
    };
    put_all(deck, version, count, &mut page);
    Ok((version, count, size))
}

// Version and sizes, or why the deck is refused, with so many places for kinds and so much room for fields.
fn measured(deck: &[u8], places: usize, room: usize) -> Result<(Version, u32, usize), Reason>
    ensures { checked reason_number result ≡ sizes_of (apart_of deck.now places room) }
{
    let (version, count) = contents::tested(deck)?;
    let size = summed(deck, version, count);
    if ((count as usize) <= places) & (size <= room) {
        Ok((version, count, size))
    } else {
        Err(Reason::NoRoom)
    }
}

// The bytes of all fields.
fn summed(deck: &[u8], version: Version, count: u32) -> usize
    requires { counted_in deck.now ≡ pass (version, count) }
    ensures { (d : Deck) → deck_in deck.now ≡ pass d → result ≡ length (fields_taken d) }
{
    let mut sum = 0;
    for i in 0..count {
        let Some(kind) = contents::kind_at(deck, i) else {
            return sum;
        };
        sum += kind.packed(version);
    }
    sum
}

// The number of each kind, in the card's place, as `take` hands them out.
fn list_kinds(deck: &[u8], count: u32, kinds: &mut [u32])
    requires { ((v : Version) × (counted_in deck.now ≡ pass (v, count))) × (count ≤ length kinds.old) }
    ensures { (d : Deck) → deck_in deck.now ≡ pass d → Put kinds.old 0 (kinds_taken d) kinds.new count }
{
    for i in 0..count {
        let Some(kind) = contents::kind_at(deck, i) else {
            return;
        };
        kinds[i as usize] = kind.number();
    }
}

// The fields of each card, behind those of the card before.
fn put_all(deck: &[u8], version: Version, count: u32, page: &mut Page)
    requires { (counted_in deck.now ≡ pass (version, count)) × (page.old.at ≤ length page.old.bytes.now) }
    ensures { (d : Deck) → deck_in deck.now ≡ pass d → page.new ≡ written page.old (fields_taken d) }
{
    let mut at = contents::HEADER + contents::ENTRY * count as usize;
    for i in 0..count {
        let Some(kind) = contents::kind_at(deck, i) else {
            return;
        };
        let next = at + kind.size(version);
        put_fields(version, kind, &deck[at..next], page);
        at = next;
    }
}

// The fields in a body, without its spares.
fn put_fields(version: Version, kind: Kind, body: &[u8], page: &mut Page)
    requires { length body.now ≡ size_of version kind }
    ensures { page.new ≡ written page.old (fields_in version kind body.now) }
{
    pieces::put(page, &body[..card::PROBLEM]);
    let first = rest_from(kind);
    let last = first + (kind.packed(version) - card::PROBLEM);
    pieces::put(page, &body[first..last]);
}

// Where the rest begins in a body: behind the problem, and behind its spare where there is one.
fn rest_from(kind: Kind) -> usize
    ensures { result ≡ rest_from kind }
{
    match kind {
        Kind::Solved => card::QUESTION,
        Kind::Refused => card::QUESTION,
        Kind::Transfer => card::PROBLEM,
    }
}
