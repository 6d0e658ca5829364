// The programs that make a deck: `write_deck` and `copy_deck` read what they are given from standard
// input and write the deck, or the line of the refusal. docs/RULES.md, Writing a deck 8.
//
// Every function here is proved safe and to end. What is read and written is no part of a contract;
// that the reply is the definition's is proved where it is written.
#![tactic(auto)]

ghost use Rattle.std.specs.Prelude.{◌≡◌, ◌≤◌, length};
ghost use Rattle.stdio.specs.Counts.{IsPrefixLen};
ghost use Rattle.rows.specs.Rows.{checked};
ghost use Rattle.ruling.specs.Said.{reason_number};
ghost use Rattle.layout.specs.Written.{length_for, buffer_after};
ghost use Rattle.reply.specs.Reply.{reply_of};
ghost use Rattle.maker.specs.Made.{asked_deck, deck_made, read_of};

use ruling::Reason;
use std::io::{Read, Write};

// What a deck is made of. The functions below match on it, and it is no trait: the definitions go by it.
#[derive(Clone, Copy)]
pub enum Asked {
    Problems,
    Copy,
}

// Answers the input on the output.
pub fn make<R: Read, W: Write>(input: &mut R, output: &mut W, asked: Asked) {
    let mut space = [0u8; SPACE];
    let got = read(input, asked, &mut space, enough(asked));
    let mut page = [0u8; contents::LARGEST_DECK];
    let answer = made(asked, &space[..got], &mut page);
    let end = reply::reply(answer, &mut page);
    write(output, asked, &space[..got], &page[..end]);
}

// The most bytes that are read.
const SPACE: usize = contents::LARGEST_DECK + 1;

// The bytes of the version and the form that stand before problems.
const ASKED: usize = 4 + 4;

// The bytes behind which nothing changes the reply: these and 257 problems with object and epoch, or one
// byte more than the largest deck has.
fn enough(asked: Asked) -> usize
    ensures { result ≡ read_of asked }
{
    match asked {
        Asked::Problems => ASKED + card::GIVEN * (contents::MOST_CARDS + 1),
        Asked::Copy => contents::LARGEST_DECK + 1,
    }
}

// Reads as much as can change the reply. A function of its own, here and in `write` below: its law is this
// program's.
fn read<R: Read>(input: &mut R, asked: Asked, space: &mut [u8], most: usize) -> usize
    requires { (most ≡ read_of asked) × (most ≤ length space.old) }
    ensures { IsPrefixLen result space.new }
{
    stdio::read(input, space, most)
}

// Makes the deck at the front of the page.
fn made(asked: Asked, given: &[u8], page: &mut [u8]) -> Result<usize, Reason>
    ensures result_value { checked reason_number result ≡ length_for (deck_made asked given.now) (length page.old) }
    ensures page_after { page.new ≡ buffer_after (deck_made asked given.now) page.old }
{
    match asked {
        Asked::Problems => problems_made(given, page),
        Asked::Copy => copier::copy(given, page),
    }
}

// Makes the deck of problems, which come behind its version and their form.
fn problems_made(given: &[u8], page: &mut [u8]) -> Result<usize, Reason>
    ensures result_value { checked reason_number result ≡ length_for (asked_deck given.now) (length page.old) }
    ensures page_after { page.new ≡ buffer_after (asked_deck given.now) page.old }
{
    if given.len() < ASKED {
        return Err(Reason::OtherForm);
    }
    let number = words::half(given, 0);
    let form = words::half(given, 4);
    problems::write(number, form, &given[ASKED..], page)
}

// Writes what is the reply to these bytes.
fn write<W: Write>(output: &mut W, asked: Asked, given: &[u8], reply: &[u8])
    requires { reply.now ≡ reply_of (deck_made asked given.now) }
{
    stdio::write(output, reply);
}
