// Finished cards in, a deck out. docs/RULES.md, Writing a deck.
//
// Nothing is computed from a card's fields. Every function here is proved, `write` is total, and the
// crate assumes nothing.
#![tactic(auto)]

ghost use Rattle.std.specs.Prelude.{◌≡◌, List, ◌≤◌, length};
ghost use Rattle.rows.specs.Rows.{pass, onward, checked};
ghost use Rattle.pieces.specs.Page.{written};
ghost use Rattle.card.specs.Fields.{Card};
ghost use Rattle.contents.specs.Contents.{Deck, most_cards, Passes};
ghost use Rattle.layout.specs.Layout.{bodies_of, deck_of};
ghost use Rattle.layout.specs.Packed.{packed_cards, packed_deck, finished_deck};
ghost use Rattle.layout.specs.Written.{length_for, buffer_after};
ghost use Rattle.ruling.specs.Said.{reason_number};

use pieces::Page;
use ruling::Reason;
use version::Version;

// Writes the cards with these kinds and these fields, which have this form, one card's behind the other's
// and without spares, as a deck of the version with this number at the front of the buffer. Kinds are numbers,
// here and below, since one that names none is refused, with 34; so are version and form, with 42.
pub fn write(
    number: u32,
    form: u32,
    kinds: &[u32],
    fields: &[u8],
    buffer: &mut [u8],
) -> Result<usize, Reason>
    ensures result_value { checked reason_number result ≡ length_for (finished_deck number form kinds.now fields.now) (length buffer.old) }
    ensures buffer_after { buffer.new ≡ buffer_after (finished_deck number form kinds.now fields.now) buffer.old }
{
    let version = version::given(number, form).ok_or(Reason::OtherForm)?;
    put(version, kinds, fields, buffer)
}

// The same for a version and what has its form.
fn put(version: Version, kinds: &[u32], fields: &[u8], buffer: &mut [u8]) -> Result<usize, Reason>
    ensures result_value { checked reason_number result ≡ length_for (packed_deck version kinds.now fields.now) (length buffer.old) }
    ensures buffer_after { buffer.new ≡ buffer_after (packed_deck version kinds.now fields.now) buffer.old }
{
    if kinds.len() > contents::MOST_CARDS {
        return Err(Reason::TooManyGiven);
    }
    let size = measured(version, kinds, fields)?;
    if buffer.len() < size {
        return Err(Reason::NoRoom);
    }
    let mut page = Page {
        bytes: buffer,
        at: 0,
    };
    fill(version, kinds, fields, &mut page);
    Ok(page.at)
}

// How long the deck of these cards is, or why they make none.
fn measured(version: Version, kinds: &[u32], fields: &[u8]) -> Result<usize, Reason>
    requires { length kinds.now ≤ most_cards }
    ensures { checked reason_number result ≡ onward (packed_deck version kinds.now fields.now) (λ d. pass (length (deck_of d))) }
{
    let mut at = 0;
    let mut end = contents::HEADER + contents::ENTRY * kinds.len();
    for number in kinds {
        let kind = card::kind_of(*number).ok_or(Reason::UnknownKind)?;
        let size = kind.packed(version);
        if fields.len() - at < size {
            return Err(Reason::BytesDoNotFit);
        }
        at += size;
        end += kind.size(version);
    }
    if at != fields.len() {
        return Err(Reason::BytesDoNotFit);
    }
    Ok(end)
}

// The contents, the bodies.
fn fill(version: Version, kinds: &[u32], fields: &[u8], page: &mut Page)
    requires { (length kinds.now ≤ most_cards) × Passes (packed_cards version kinds.now fields.now) }
    ensures { (d : Deck) → packed_deck version kinds.now fields.now ≡ pass d → page.new ≡ written page.old (deck_of d) }
{
    layout::put_contents(version, kinds, page);
    bodies(version, kinds, fields, page);
}

// The body of each card.
fn bodies(version: Version, kinds: &[u32], fields: &[u8], page: &mut Page)
    requires { Passes (packed_cards version kinds.now fields.now) × (page.old.at ≤ length page.old.bytes.now) }
    ensures { (cards : List Card) → packed_cards version kinds.now fields.now ≡ pass cards → page.new ≡ written page.old (bodies_of cards) }
{
    let mut at = 0;
    for number in kinds {
        let Some(kind) = card::kind_of(*number) else {
            return;
        };
        let next = at + kind.packed(version);
        layout::put_body(kind, &fields[at..next], page);
        at = next;
    }
}
