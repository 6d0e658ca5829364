// Little-endian words in a slice of bytes, read and written.
//
// Every function here is proved, the public ones are total, and the crate assumes nothing.
#![tactic(auto)]

ghost use Rattle.std.specs.Prelude.{◌≡◌, ◌+◌, ◌≤◌, ◌<◌, length, take, drop};
ghost use Rattle.std.specs.Option.{MatchOption};
ghost use Rattle.pieces.specs.Page.{written};
ghost use Rattle.spelled.specs.Spelled.{bytes_of};
ghost use Rattle.words.specs.Words.{value_at};

use pieces::Page;

// The eight bytes of s from index at on as a word, the lowest first; 0 where s ends before.
pub fn word(s: &[u8], at: usize) -> u64
    ensures { result ≡ value_at 8 s.now at }
{
    u64::from_le_bytes(part(s, at).unwrap_or([0; 8]))
}

// The four bytes of s from index at on as a word, the lowest first; 0 where s ends before.
pub fn half(s: &[u8], at: usize) -> u32
    ensures { result ≡ value_at 4 s.now at }
{
    u32::from_le_bytes(part(s, at).unwrap_or([0; 4]))
}

// The N bytes of s from index at on; none where s ends before.
fn part<const N: usize>(s: &[u8], at: usize) -> Option<[u8; N]>
    ensures { MatchOption result (length s.now < at + N) (λ bytes. (at + N ≤ length s.now) × (bytes ≡ take N (drop at s.now))) }
{
    s.get(at..)?.first_chunk().copied()
}

// Puts the eight bytes of w into a page, the lowest first, as far as it goes.
pub fn put_word(page: &mut Page, w: u64)
    ensures { page.new ≡ written page.old (bytes_of 8 w) }
{
    spelled::put(page, w, 8);
}

// The same for the four bytes of w. Each has its clause in docs/STATEMENTS.md; `spelled::put` is the one function.
pub fn put_half(page: &mut Page, w: u32)
    ensures { page.new ≡ written page.old (bytes_of 4 w) }
{
    spelled::put(page, w as u64, 4);
}
