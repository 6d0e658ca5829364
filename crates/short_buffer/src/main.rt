// Tries the refusals of writing, taking apart and copying that `write_deck` and `copy_deck` can't reach,
// and what becomes of what is lent. The two problems on standard input, the second with object and epoch,
// make a deck of one card each, of 148 bytes in version 1 and of 160 in version 2. Each is written into
// parts of a buffer, in its version and in another one; its deck is taken apart into short lists and lists
// that fit, and copied; and the first one's fields are written anew as a card of kind 0, 1 and 2, as one
// into a short buffer, as 257, and as 257 in version 2, and fields that are all 0 as a card of kind 3. A line
// is written for each list or buffer of which a part is lent: the refusal's number (0: none), and how many
// of its places still have the value 97 that all had.
#![tactic(auto)]

ghost use Rattle.std.specs.Prelude.{◌≤◌, length};

use pieces::Page;
use ruling::Reason;
use std::io::{Read, Write};

// The bytes of which a part is lent.
const SIZE: usize = 162;

fn main(rt: HostRuntime) {
    let mut input = rt.stdin();
    let mut output = rt.stdout();
    try_plain(&mut input, &mut output);
    try_tagged(&mut input, &mut output);
}

// A problem without object and epoch: version 1.
fn try_plain<R: Read, W: Write>(input: &mut R, output: &mut W) {
    let mut space = [0u8; card::PROBLEM];
    let got = stdio::read(input, &mut space, card::PROBLEM);
    write_in(output, 1, 0, &space[..got], 7);
    write_in(output, 1, 0, &space[..got], 147);
    write_in(output, 1, 0, &space[..got], 148);
    write_in(output, 1, 0, &space[..got], 150);
    write_in(output, 2, 0, &space[..got], 162);
    let mut deck = [0u8; 148];
    let _ = problems::write(1, 0, &space[..got], &mut deck);
    take_in(output, &deck, 0, 124);
    take_in(output, &deck, 1, 123);
    take_in(output, &deck, 1, 124);
    finish_all(output, &deck);
    copy_in(output, &deck, 147);
    copy_in(output, &deck, 148);
}

// A problem with both: version 2.
fn try_tagged<R: Read, W: Write>(input: &mut R, output: &mut W) {
    let mut space = [0u8; card::GIVEN];
    let got = stdio::read(input, &mut space, card::GIVEN);
    write_in(output, 2, 1, &space[..got], 159);
    write_in(output, 2, 1, &space[..got], 160);
    write_in(output, 1, 1, &space[..got], 162);
    write_in(output, 3, 1, &space[..got], 162);
    let mut deck = [0u8; 160];
    let _ = problems::write(2, 1, &space[..got], &mut deck);
    take_in(output, &deck, 1, 135);
    take_in(output, &deck, 1, 136);
    copy_in(output, &deck, 159);
    copy_in(output, &deck, 160);
}

// Writes the problem's deck.
fn write_in<W: Write>(output: &mut W, number: u32, form: u32, problem: &[u8], room: usize)
    requires { room ≤ 162 }
{
    let mut buffer = [97u8; SIZE];
    let answer = problems::write(number, form, problem, &mut buffer[..room]);
    tell(output, b"write", refusal(answer), kept(&buffer, 97));
}

// Takes the deck apart, with so many places for kinds, and room for fields.
fn take_in<W: Write>(output: &mut W, deck: &[u8], places: usize, room: usize)
    requires { (places ≤ 2) × (room ≤ 162) }
{
    let mut kinds = [97u32; 2];
    let mut fields = [97u8; SIZE];
    let number = refusal(apart::take(deck, &mut kinds[..places], &mut fields[..room]));
    tell(output, b"take kinds", number, kept(&kinds, 97));
    tell(output, b"take fields", number, kept(&fields, 97));
}

// Writes the fields of the deck's card as one of another kind, into too little room, and as too many.
fn finish_all<W: Write>(output: &mut W, deck: &[u8]) {
    let mut fields = [0u8; 124];
    let _ = apart::take(deck, &mut [0u32; 1], &mut fields);
    finish_in(output, 1, &[0u32; 1], &fields, 150);
    finish_in(output, 1, &[1u32; 1], &fields, 150);
    finish_in(output, 1, &[2u32; 1], &fields, 150);
    finish_in(output, 1, &[3u32; 1], &[0u8; 104], 150);
    finish_in(output, 1, &[1u32; 1], &fields, 147);
    finish_in(output, 1, &[1u32; 257], &fields, 150);
    finish_in(output, 2, &[1u32; 257], &fields, 150);
}

// Writes finished cards without object and epoch. Kinds are numbers: 0 is tried, which names none.
fn finish_in<W: Write>(output: &mut W, number: u32, kinds: &[u32], fields: &[u8], room: usize)
    requires { room ≤ 162 }
{
    let mut buffer = [97u8; SIZE];
    let answer = writer::write(number, 0, kinds, fields, &mut buffer[..room]);
    tell(output, b"finish", refusal(answer), kept(&buffer, 97));
}

// Copies the deck.
fn copy_in<W: Write>(output: &mut W, deck: &[u8], room: usize)
    requires { room ≤ 162 }
{
    let mut buffer = [97u8; SIZE];
    let answer = copier::copy(deck, &mut buffer[..room]);
    tell(output, b"copy", refusal(answer), kept(&buffer, 97));
}

// The number of a refusal, 0 where there is none.
fn refusal<A: Copy>(answer: Result<A, Reason>) -> u32 {
    match answer {
        Ok(_) => 0,
        Err(why) => why.number(),
    }
}

// How many places of a list still have this value.
fn kept<T: Copy + PartialEq>(list: &[T], value: T) -> u32
    requires { length list.now ≤ 162 }
{
    list.iter().filter(|place| **place == value).count() as u32
}

// A line: the word, the refusal, what was kept.
fn tell<W: Write>(output: &mut W, word: &[u8], number: u32, left: u32) {
    let mut space = [0u8; 64];
    let mut page = Page {
        bytes: &mut space,
        at: 0,
    };
    pieces::put(&mut page, word);
    pieces::put(&mut page, b" deck");
    text::count(&mut page, number);
    pieces::put(&mut page, b" kept");
    text::count(&mut page, left);
    pieces::put(&mut page, b"\n");
    let end = page.at;
    stdio::write(output, &space[..end]);
}
