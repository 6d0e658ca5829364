// The programs that answer records: `predict`, `turn`, `transfer`, `series`, `roots` and `root_digits`
// read records of one size from standard input, block by block, and write the lines that `lines` makes
// of each block.
//
// Every function here is proved safe and to end. What is read and written is no part of a contract;
// that a block of lines is the definition's is proved where it is written.
#![tactic(auto)]

ghost use Rattle.std.specs.Prelude.{◌≡◌, ◌≤◌, length};
ghost use Rattle.lines.specs.Lines.{lines_of, most_block, most_blocks, most_text};

use line::Question;
use std::io::{Read, Write};

// No input has as many blocks.
const BLOCKS: u64 = 0xffff_ffff_ffff_ffff;

// The bytes of a block of the longest records.
const SPACE: usize = 4608;

// Answers the input on the output, until it ends or nothing more can be written.
pub fn list<R: Read, W: Write>(input: &mut R, output: &mut W, asked: Question) {
    let mut space = [0u8; SPACE];
    let mut page = [0u8; lines::ROOM];
    for _ in 0..bound(BLOCKS) {
        if !block(input, output, asked, &mut space, &mut page) {
            return;
        }
    }
}

// How many blocks are read: more than come.
fn bound(most: u64) -> u64
    requires { most ≡ most_blocks }
    ensures { result ≡ most_blocks }
{
    most
}

// Reads one block into space and writes its lines, which are made on the page. Answers whether the
// input may go on. A space too short for a block would end the program after the first one.
fn block<R: Read, W: Write>(
    input: &mut R,
    output: &mut W,
    asked: Question,
    space: &mut [u8],
    page: &mut [u8],
) -> bool
    requires { (most_block ≤ length space.old) × (most_text ≤ length page.old) }
{
    let size = lines::block(asked);
    let got = stdio::read(input, space, size);
    let end = lines::lines(asked, &space[..got], page);
    let taken = write(output, asked, &space[..got], &page[..end]);
    taken & (got == size)
}

// Writes what is the lines of these records. A function of its own: its law is that of records.
fn write<W: Write>(output: &mut W, asked: Question, records: &[u8], made: &[u8]) -> bool
    requires { made.now ≡ lines_of asked records.now }
{
    stdio::write(output, made)
}
