// The bytes of a number, the lowest first, put into a lent buffer. docs/RULES.md, The deck.
//
// The function here is proved and total, and the crate assumes nothing.
#![tactic(auto)]

ghost use Rattle.std.specs.Prelude.{◌≡◌, min};
ghost use Rattle.pieces.specs.Page.{written};
ghost use Rattle.spelled.specs.Spelled.{bytes_of};

use pieces::Page;

// Puts the k lowest bytes of w, eight at most, into a page, as far as it goes: at once where there is room for
// all of them. A number and how many of its bytes: there is no slice of them yet.
pub fn put(page: &mut Page, w: u64, k: usize)
    ensures { page.new ≡ written page.old (bytes_of (min k 8) w) }
{
    let k = k.min(8);
    if page.bytes.len() < k || page.bytes.len() - k < page.at {
        return pieces::put(page, &w.to_le_bytes()[..k]);
    }
    // The bytes are made here once more: made before the test, they would go by way of memory.
    page.bytes[page.at..page.at + k].copy_from_slice(&w.to_le_bytes()[..k]);
    page.at += k;
}
