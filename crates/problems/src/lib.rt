// Problems in, a deck out: each problem is predicted, and its card is solved or refused. docs/RULES.md,
// Writing a deck.
//
// Every function here is proved, `write` is total, and the crate assumes nothing.
#![tactic(auto)]

ghost use Rattle.std.specs.Prelude.{◌≡◌, ◌/◌, ◌≤◌, length};
ghost use Rattle.rows.specs.Rows.{pass, checked};
ghost use Rattle.ruling.specs.Said.{reason_number};
ghost use Rattle.pieces.specs.Pieces.{Put};
ghost use Rattle.pieces.specs.Page.{written};
ghost use Rattle.card.specs.Fields.{given_size};
ghost use Rattle.contents.specs.Contents.{entry_at, most_cards};
ghost use Rattle.layout.specs.Layout.{bodies_of, deck_of};
ghost use Rattle.layout.specs.Packed.{kinds_of};
ghost use Rattle.layout.specs.Written.{length_for, buffer_after};
ghost use Rattle.problems.specs.Problems.{deck_from, predicted_deck, problem_deck};

use pieces::Page;
use ruling::Reason;
use version::Version;

// Writes a card for each of these problems, which have this form, as a deck of the version with this number
// at the front of the buffer. Both numbers are as they were given: others than 1 and 2, 0 and 1 are refused.
pub fn write(number: u32, form: u32, problems: &[u8], buffer: &mut [u8]) -> Result<usize, Reason>
    ensures result_value { checked reason_number result ≡ length_for (problem_deck number form problems.now) (length buffer.old) }
    ensures buffer_after { buffer.new ≡ buffer_after (problem_deck number form problems.now) buffer.old }
{
    let version = version::given(number, form).ok_or(Reason::OtherForm)?;
    put(version, problems, buffer)
}

// The same for a version, and problems that have its form.
fn put(version: Version, problems: &[u8], buffer: &mut [u8]) -> Result<usize, Reason>
    ensures result_value { checked reason_number result ≡ length_for (predicted_deck version problems.now) (length buffer.old) }
    ensures buffer_after { buffer.new ≡ buffer_after (predicted_deck version problems.now) buffer.old }
{
    let size = card::given_size(version);
    let count = problems.len() / size;
    if contents::MOST_CARDS < count {
        return Err(Reason::TooManyGiven);
    }
    if problems.len() % size != 0 {
        return Err(Reason::BytesDoNotFit);
    }
    let most = contents::HEADER + count * (contents::ENTRY + card::BODY);
    if buffer.len() < most {
        return in_little_room(version, problems, buffer);
    }
    let mut page = Page {
        bytes: buffer,
        at: 0,
    };
    fill(version, problems, &mut page);
    Ok(page.at)
}

// Whether the deck fits is only known once it is made, on a page with room for any.
fn in_little_room(version: Version, problems: &[u8], buffer: &mut [u8]) -> Result<usize, Reason>
    requires { length problems.now / given_size version ≤ most_cards }
    ensures result_value { checked reason_number result ≡ length_for (pass (deck_from version problems.now)) (length buffer.old) }
    ensures buffer_after { buffer.new ≡ buffer_after (pass (deck_from version problems.now)) buffer.old }
{
    let mut whole = [0; contents::LARGEST_DECK];
    let mut page = Page {
        bytes: &mut whole,
        at: 0,
    };
    fill(version, problems, &mut page);
    let end = page.at;
    if buffer.len() < end {
        return Err(Reason::NoRoom);
    }
    let mut front = Page {
        bytes: buffer,
        at: 0,
    };
    // From the array itself, which is no part of the buffer: through the page, the copy would ask C for `memmove`.
    pieces::put(&mut front, &whole[..end]);
    Ok(front.at)
}

// The deck of these problems' cards, on a page with room for its contents. These are written last, since
// the kinds are known only once all problems are answered.
fn fill(version: Version, problems: &[u8], page: &mut Page)
    requires { (length problems.now / given_size version ≤ most_cards) × ((page.old.at ≡ 0) × (entry_at (length problems.now / given_size version) ≤ length page.old.bytes.now)) }
    ensures { page.new ≡ written page.old (deck_of (deck_from version problems.now)) }
{
    let count = problems.len() / card::given_size(version);
    let mut kinds = [0u32; contents::MOST_CARDS];
    page.at = contents::HEADER + contents::ENTRY * count;
    answer(version, problems, &mut kinds, page);
    let end = page.at;
    page.at = 0;
    layout::put_contents(version, &kinds[..count], page);
    page.at = end;
}

// The kind of each problem's card, a number as `layout::put_contents` takes it, and its body.
fn answer(version: Version, problems: &[u8], kinds: &mut [u32], page: &mut Page)
    requires { (length problems.now / given_size version ≤ length kinds.old) × (page.old.at ≤ length page.old.bytes.now) }
    ensures kinds_after { Put kinds.old 0 (kinds_of (deck_from version problems.now).cards) kinds.new (length problems.now / given_size version) }
    ensures page_after { page.new ≡ written page.old (bodies_of (deck_from version problems.now).cards) }
{
    let size = card::given_size(version);
    for i in 0..problems.len() / size {
        let Ok(kind) = predicted::put(version, &problems[size * i..], page) else {
            return;
        };
        kinds[i] = kind.number();
    }
}
