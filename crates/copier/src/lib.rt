// A deck copied: its cards written anew, with spares that are 0. docs/RULES.md, Writing a deck.
//
// The function here is proved and total, and the crate assumes nothing.
#![tactic(auto)]

ghost use Rattle.std.specs.Prelude.{◌≡◌, length};
ghost use Rattle.rows.specs.Rows.{checked};
ghost use Rattle.ruling.specs.Said.{reason_number};
ghost use Rattle.layout.specs.Written.{length_for, buffer_after};
ghost use Rattle.copier.specs.Copy.{copy_of};

use ruling::Reason;

// Copies a deck, in its own version, to the front of the buffer.
pub fn copy(deck: &[u8], buffer: &mut [u8]) -> Result<usize, Reason>
    ensures result_value { checked reason_number result ≡ length_for (copy_of deck.now) (length buffer.old) }
    ensures buffer_after { buffer.new ≡ buffer_after (copy_of deck.now) buffer.old }
{
    let mut kinds = [0u32; contents::MOST_CARDS];
    let mut fields = [0u8; layout::MOST_FIELDS];
    let (version, count, size) = apart::take(deck, &mut kinds, &mut fields)?;
    writer::write(
        version.number(),
        version.form(),
        &kinds[..count as usize],
        &fields[..size],
        buffer,
    )
}
