// Pieces of bytes made in a lent buffer, one behind the other, and a whole handed over. docs/RULES.md,
// Text 4 and Writing a deck 5.
//
// Every function here is proved, the public ones are total, and the crate assumes nothing.
#![tactic(auto)]

ghost use Rattle.std.specs.Prelude.{◌≡◌, length};
ghost use Rattle.pieces.specs.Pieces.{handed_in};
ghost use Rattle.pieces.specs.Page.{written};

// A lent buffer, and where the next piece begins in it.
#[derive(Drop)]
pub struct Page<'a> {
    pub bytes: &'a mut [u8],
    pub at: usize,
}

// Puts s into a page, as far as the page goes: at once where there is room for all of it, so that the copy of a piece
// whose length is known needs no call.
pub fn put(page: &mut Page, s: &[u8])
    ensures { page.new ≡ written page.old s.now }
{
    let start = page.at.min(page.bytes.len());
    if page.bytes.len() - start < s.len() {
        return put_as_far(page, s);
    }
    page.bytes[start..start + s.len()].copy_from_slice(s);
    page.at = start + s.len();
}

// As much of s as there is room for.
fn put_as_far(page: &mut Page, s: &[u8])
    ensures { page.new ≡ written page.old s.now }
{
    let start = page.at.min(page.bytes.len());
    let n = s.len().min(page.bytes.len() - start);
    page.bytes[start..start + n].copy_from_slice(&s[..n]);
    page.at = start + n;
}

// Hands a whole over in out, if out has room for it. Answers how long the whole is.
pub fn hand(whole: &[u8], out: &mut [u8]) -> usize
    ensures value { result ≡ length whole.now }
    ensures out_after { out.new ≡ handed_in whole.now out.old }
{
    if whole.len() <= out.len() {
        out[..whole.len()].copy_from_slice(whole);
    }
    whole.len()
}
