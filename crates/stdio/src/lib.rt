// Standard input and output: bytes in, bytes out.
//
// Each function is proved safe and to end, at any reader and writer. What is read and written is
// theirs, and no part of a contract.
#![tactic(auto)]

ghost use Rattle.std.specs.Prelude.{◌≤◌};
ghost use Rattle.stdio.specs.Counts.{IsPrefixLen};

use std::io::{Read, Write};

// Reads into space, up to `most` bytes or as many as it holds, until they are there or the input
// ends. Answers how many came. A read that fails ends the input.
pub fn read<R: Read>(input: &mut R, space: &mut [u8], most: usize) -> usize
    ensures prefix_len { IsPrefixLen result space.new }
    ensures upper_bound { result ≤ most }
{
    let room = most.min(space.len());
    read_full(input, &mut space[..room])
}

// Reads until the space is full or the input ends.
fn read_full<R: Read>(input: &mut R, space: &mut [u8]) -> usize
    ensures { IsPrefixLen result space.new }
{
    // A loop: what the library has for it asks for a Vec, or does not say how much came.
    let mut done = 0;
    while done < space.len() {
        match input.read(&mut space[done..]) {
            Ok(0) | Err(_) => break,
            Ok(got) => done += got,
        }
    }
    done
}

// Writes the bytes as they are, all of them in one block. Answers whether they were taken.
pub fn write<W: Write>(output: &mut W, bytes: &[u8]) -> bool {
    output.write_all(bytes).is_ok()
}
