// Records in, a line for each out, or the lines of its turns: what `predict`, `turn`, `transfer`,
// `roots`, `root_digits` and `series` write. docs/RULES.md, Lines.
//
// Every function here is proved, the public ones are total, and the crate assumes nothing.
#![tactic(auto)]

ghost use Rattle.std.specs.Prelude.{◌≡◌, ◌≤◌, ◌<◌, length};
ghost use Rattle.pieces.specs.Page.{written};
ghost use Rattle.pieces.specs.Pieces.{handed_in};
ghost use Rattle.text.specs.Text.{text};
ghost use Rattle.line.specs.Line.{width_of, line_of};
ghost use Rattle.lines.specs.Lines.{lines_of, block_of, block_records, block_bytes, most_text};

use line::Question;
use pieces::Page;

// The most records that are answered at a time, and the room that their lines take at most: 137 bytes
// each, and `short` with its line end.
const RECORDS: usize = 64;

pub const ROOM: usize = 8774;

// The bytes of as many records as are answered at a time.
pub fn block(asked: Question) -> usize
    ensures { result ≡ block_bytes asked }
{
    at_a_time(asked) * line::width(asked)
}

// As many records as are answered at a time: of a root's turns, which take many lines, one. A match, and no
// trait: the definitions go by what is asked.
fn at_a_time(asked: Question) -> usize
    ensures { result ≡ block_records asked }
{
    match asked {
        Question::Root => RECORDS,
        Question::Kepler => RECORDS,
        Question::Theta => RECORDS,
        Question::Transfer => RECORDS,
        Question::Digits => 1,
        Question::Series => RECORDS,
    }
}

// The lines of the first block of s, in out, if out has room for them. Answers how long they are.
pub fn lines(asked: Question, s: &[u8], out: &mut [u8]) -> usize
    ensures value { result ≡ length (lines_of asked (block_of asked s.now)) }
    ensures out_after { out.new ≡ handed_in (lines_of asked (block_of asked s.now)) out.old }
{
    let size = block(asked).min(s.len());
    if out.len() < ROOM {
        return in_little_room(asked, &s[..size], out);
    }
    let mut page = Page { bytes: out, at: 0 };
    write(asked, &s[..size], &mut page);
    page.at
}

// Whether the lines fit is only known once they are made.
fn in_little_room(asked: Question, s: &[u8], out: &mut [u8]) -> usize
    requires { length s.now ≤ block_bytes asked }
    ensures value { result ≡ length (lines_of asked s.now) }
    ensures out_after { out.new ≡ handed_in (lines_of asked s.now) out.old }
{
    let mut whole = blank();
    let mut page = Page {
        bytes: &mut whole,
        at: 0,
    };
    write(asked, s, &mut page);
    let end = page.at;
    pieces::hand(&whole[..end], out)
}

// A page with room for the lines of any block.
fn blank() -> [u8; ROOM]
    ensures { most_text ≡ length result }
{
    [0; ROOM]
}

// What is written for each whole record of s, and `short` if there is more.
fn write(asked: Question, s: &[u8], page: &mut Page)
    requires { page.old.at ≤ length page.old.bytes.now }
    ensures { page.new ≡ written page.old (lines_of asked s.now) }
{
    for part in s.chunks(line::width(asked)) {
        put(asked, part, page);
    }
}

// What is written for one record, or `short` where it is cut off.
fn put(asked: Question, part: &[u8], page: &mut Page)
    ensures cut_off { length part.now < width_of asked → page.new ≡ written page.old (text "short\n") }
    ensures whole { width_of asked ≤ length part.now → page.new ≡ written page.old (line_of asked part.now) }
{
    if part.len() < line::width(asked) {
        pieces::put(page, b"short\n")
    } else {
        line::line(asked, part, page)
    }
}
