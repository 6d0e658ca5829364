// The line of a card in a deck's listing. docs/RULES.md, The check program's listing.
//
// Every function here is proved, the public one is total, and the crate assumes nothing.
#![tactic(auto)]

ghost use Rattle.std.specs.Prelude.{◌≡◌};
ghost use Rattle.pieces.specs.Page.{written};
ghost use Rattle.item.specs.Item.{kind_word, placed_line};

use card::Kind;
use pieces::Page;
use tag::Tag;

// `card PLACE KIND OBJECT EPOCH VERDICT`, in a page, with `-` twice where there are no object and epoch. The
// verdict is the number that the verdict list has.
#[tactic(auto, using(pieces::proofs::Pages::pages))]
pub fn line(place: u32, kind: Kind, tag: Option<Tag>, verdict: u32, page: &mut Page)
    ensures { page.new ≡ written page.old (placed_line place kind tag verdict) }
{
    pieces::put(page, b"card");
    text::count(page, place);
    kind_word(kind, page);
    tag::put(tag, page);
    text::count(page, verdict);
    pieces::put(page, b"\n");
}

fn kind_word(kind: Kind, page: &mut Page)
    ensures { page.new ≡ written page.old (kind_word kind) }
{
    match kind {
        Kind::Solved => pieces::put(page, b" solved"),
        Kind::Refused => pieces::put(page, b" refused"),
        Kind::Transfer => pieces::put(page, b" solved"),
    }
}
