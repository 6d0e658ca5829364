// A deck's listing: a line for each card, the totals, mean and worst; or the deck's refusal.
// docs/RULES.md, The check program's listing.
//
// `listing` is proved and total: what it writes is a definition of the deck's bytes. The crate
// assumes nothing.
#![tactic(auto)]

ghost use Rattle.std.specs.Prelude.{◌≡◌, ◌≤◌, length};
ghost use Rattle.rows.specs.Rows.{pass};
ghost use Rattle.pieces.specs.Page.{written};
ghost use Rattle.pieces.specs.Pieces.{handed_in};
ghost use Rattle.version.specs.Version.{version_of};
ghost use Rattle.contents.specs.Contents.{Deck, version_word, deck_in};
ghost use Rattle.listing.specs.Listing as listing;
ghost use Rattle.listing.specs.Judged.{Judged};

use pieces::Page;
use version::Version;

// The bytes of the longest listing.
pub const ROOM: usize = 13279;

// The deck's listing, in out, if out has room for it. Answers how long it is.
pub fn listing(deck: &[u8], out: &mut [u8]) -> usize
    ensures value { result ≡ length (listing.listing_of deck.now) }
    ensures out_after { out.new ≡ handed_in (listing.listing_of deck.now) out.old }
{
    let mut whole = blank();
    let mut page = Page {
        bytes: &mut whole,
        at: 0,
    };
    write(deck, &mut page);
    let end = page.at;
    pieces::hand(&whole[..end], out)
}

// A page with room for any listing. A function of its own: its promise is what holds `ROOM` to the longest one.
fn blank() -> [u8; ROOM]
    ensures { listing.longest_listing ≡ length result }
{
    [0; ROOM]
}

// The listing.
fn write(deck: &[u8], page: &mut Page)
    requires { page.old.at ≤ length page.old.bytes.now }
    ensures { page.new ≡ written page.old (listing.listing_of deck.now) }
{
    let mut verdicts = [0u32; contents::MOST_CARDS];
    match deck::check(deck, &mut verdicts) {
        Err(why) => reply::refused(why.number(), page),
        Ok((totals, residuals)) => {
            let count = totals.solved + totals.refused + totals.rejected;
            cards(deck, &verdicts, count, page);
            listed::totals_line(totals, page);
            listed::residual_lines(residuals, page);
        }
    }
}

// A line for each card of an accepted deck, which has a version.
fn cards(deck: &[u8], verdicts: &[u32], count: u32, page: &mut Page)
    requires { Judged deck.now verdicts.now count × (page.old.at ≤ length page.old.bytes.now) }
    ensures { (d : Deck) → deck_in deck.now ≡ pass d → page.new ≡ written page.old (listing.card_lines d.version 1 d.cards) }
{
    let Some(version) = version::named(words::half(deck, 0)) else {
        return;
    };
    card_lines(deck, version, verdicts, count, page);
}

// The same in a version. No card is without a kind.
fn card_lines(deck: &[u8], version: Version, verdicts: &[u32], count: u32, page: &mut Page)
    requires { Judged deck.now verdicts.now count × (version_of (version_word deck.now) ≡ pass version) × (page.old.at ≤ length page.old.bytes.now) }
    ensures { (d : Deck) → deck_in deck.now ≡ pass d → page.new ≡ written page.old (listing.card_lines version 1 d.cards) }
{
    let mut at = contents::HEADER + contents::ENTRY * count as usize;
    for i in 0..count {
        let Some(kind) = contents::kind_at(deck, i) else {
            return;
        };
        let next = at + kind.size(version);
        let tag = card::tag(version, kind, &deck[at..next]);
        item::line(i + 1, kind, tag, verdicts[i as usize], page);
        at = next;
    }
}
