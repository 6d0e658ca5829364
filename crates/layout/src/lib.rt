// The one layout of a deck: the bytes of a list of cards, and cards as kinds and fields without spares.
// docs/RULES.md, The deck and Writing a deck.
//
// Definitions and laws, and contents and bodies as they are written. Every function here is proved, the
// public ones are total, and the crate assumes nothing.
#![tactic(auto)]

ghost use Rattle.std.specs.Prelude.{◌≡◌, ◌≤◌, length};
ghost use Rattle.pieces.specs.Page.{written};
ghost use Rattle.card.specs.declared.Kind.TheVariants.{Solved};
ghost use Rattle.card.specs.Made.{body_from};
ghost use Rattle.contents.specs.Contents.{entry_at, most_cards, largest_deck};
ghost use Rattle.layout.specs.Layout.{entry_for, entries_from, named_in, contents_for};

use card::Kind;
use pieces::Page;
use version::Version;

// The most bytes that the fields of a deck's cards have.
pub const MOST_FIELDS: usize = contents::MOST_CARDS * card::FIELDS;

// Puts version, count and entries of a deck of cards with these kinds into a page, as far as it goes: the
// entries up to the first number that names no kind, and nothing for more than 256 kinds. Kinds are numbers, as
// they are given to be written.
pub fn put_contents(version: Version, kinds: &[u32], page: &mut Page)
    ensures { page.new ≡ written page.old (contents_for version kinds.now) }
{
    if contents::MOST_CARDS < kinds.len() {
        return pieces::put(page, b"");
    }
    words::put_half(page, version.number());
    words::put_half(page, kinds.len() as u32);
    put_entries(version, kinds, page);
}

// An entry for each kind, a number as it was given, up to the first that names none.
fn put_entries(version: Version, kinds: &[u32], page: &mut Page)
    requires { (length kinds.now ≤ most_cards) × (page.old.at ≤ length page.old.bytes.now) }
    ensures { page.new ≡ written page.old (entries_from version (entry_at (length kinds.now)) (named_in kinds.now)) }
{
    let mut offset = contents::HEADER + contents::ENTRY * kinds.len();
    for number in kinds {
        let Some(kind) = card::kind_of(*number) else {
            return;
        };
        put_entry(version, kind, offset, page);
        offset += kind.size(version);
    }
}

#[tactic(auto, using(pieces::proofs::Pages::pages))]
fn put_entry(version: Version, kind: Kind, offset: usize, page: &mut Page)
    requires { offset ≤ largest_deck }
    ensures { page.new ≡ written page.old (entry_for version kind offset) }
{
    words::put_half(page, kind.number());
    words::put_half(page, offset as u32);
    words::put_half(page, kind.size(version) as u32);
}

// Puts the body of a card that has these fields, which come without spares, into a page, as far as it goes.
pub fn put_body(kind: Kind, fields: &[u8], page: &mut Page)
    ensures { page.new ≡ written page.old (body_from kind fields.now) }
{
    match kind {
        Kind::Solved => put_spared(fields, page),
        Kind::Refused => {
            put_spared(fields, page);
            words::put_half(page, 0);
        }
        Kind::Transfer => pieces::put(page, fields),
    }
}

// The problem, its spare and the rest: the body of a solved card, and of a refused one as far as its
// last spare.
fn put_spared(fields: &[u8], page: &mut Page)
    ensures { page.new ≡ written page.old (body_from Solved fields.now) }
{
    let (question, rest) = fields.split_at(card::PROBLEM.min(fields.len()));
    pieces::put(page, question);
    words::put_half(page, 0);
    pieces::put(page, rest);
}
