// Checks a deck: reads it from standard input and writes its listing. What the listing is, `listing`
// says.
#![tactic(auto)]

ghost use Rattle.std.specs.Prelude.{◌≡◌, ◌≤◌, length};
ghost use Rattle.stdio.specs.Counts.{IsPrefixLen};
ghost use Rattle.contents.specs.Contents.{read_of_a_deck};
ghost use Rattle.listing.specs.Listing.{listing_of};

use std::io::{Read, Write};

// One byte more than the largest deck has: what is longer has bytes left over, or is refused before.
const MOST: usize = contents::LARGEST_DECK + 1;

fn main(rt: HostRuntime) {
    let mut space = [0u8; MOST];
    let got = read(&mut rt.stdin(), &mut space, MOST);
    let mut page = [0u8; listing::ROOM];
    let end = listing::listing(&space[..got], &mut page);
    write(&mut rt.stdout(), &space[..got], &page[..end]);
}

// Reads as much of a deck as can change its listing. A function of its own, here and in `write` below: its law
// is this program's.
fn read<R: Read>(input: &mut R, space: &mut [u8], most: usize) -> usize
    requires { (most ≡ read_of_a_deck) × (most ≤ length space.old) }
    ensures { IsPrefixLen result space.new }
{
    stdio::read(input, space, most)
}

// Writes what is the listing of this deck.
fn write<W: Write>(output: &mut W, deck: &[u8], made: &[u8])
    requires { made.now ≡ listing_of deck.now }
{
    stdio::write(output, made);
}
