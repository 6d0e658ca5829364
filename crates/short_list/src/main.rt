// Tries refusal 39, which `check_deck` can't reach, and what becomes of the list: the deck on standard
// input is checked with lists of 0 to 4 places, each a part of one with five, and a line is written
// for each: the room, the number of the refusal (0: accepted), and the five places afterwards.
#![tactic(auto)]

ghost use Rattle.std.specs.Prelude.{◌≤◌};

use pieces::Page;
use std::io::Write;

// One byte more than the largest deck has.
const MOST: usize = contents::LARGEST_DECK + 1;

fn main(rt: HostRuntime) {
    let mut space = [0u8; MOST];
    let got = stdio::read(&mut rt.stdin(), &mut space, MOST);
    let mut output = rt.stdout();
    for room in 0..5 {
        check_in(&mut output, &space[..got], room);
    }
}

#[tactic(auto, using(pieces::proofs::Pages::pages))]
fn check_in<W: Write>(output: &mut W, deck: &[u8], room: usize)
    requires { room ≤ 5 }
{
    let mut list = [97u32; 5];
    let number = match deck::check(deck, &mut list[..room]) {
        Ok(_) => 0,
        Err(why) => why.number(),
    };
    let mut space = [0u8; 128];
    let mut page = Page {
        bytes: &mut space,
        at: 0,
    };
    pieces::put(&mut page, b"room");
    text::count(&mut page, room as u32);
    pieces::put(&mut page, b" deck");
    text::count(&mut page, number);
    pieces::put(&mut page, b" list");
    for place in list {
        text::count(&mut page, place);
    }
    pieces::put(&mut page, b"\n");
    let end = page.at;
    stdio::write(output, &space[..end]);
}
