// What a program that makes a deck writes: the deck, or one line with the number of the refusal.
// docs/RULES.md, Writing a deck 8 and The check program's listing 5.
//
// Every function here is proved and total, and the crate assumes nothing.
#![tactic(auto)]

ghost use Rattle.std.specs.Prelude.{◌≡◌};
ghost use Rattle.pieces.specs.Page.{written};
ghost use Rattle.rows.specs.Rows.{checked};
ghost use Rattle.ruling.specs.Said.{reason_number};
ghost use Rattle.reply.specs.Reply.{refused_line, page_after, end_after};

use pieces::Page;
use ruling::Reason;

// The line of a refused deck, `deck NUMBER`, in a page, as far as it goes. Its clause holds for any number.
#[tactic(auto, using(pieces::proofs::Pages::pages))]
pub fn refused(number: u32, page: &mut Page)
    ensures { page.new ≡ written page.old (refused_line number) }
{
    pieces::put(page, b"deck");
    text::count(page, number);
    pieces::put(page, b"\n");
}

// Makes the page, in which a deck was written or not, what is replied. Answers where that ends.
#[tactic(auto, using(pieces::proofs::Pages::pages))]
pub fn reply(answer: Result<usize, Reason>, page: &mut [u8]) -> usize
    ensures value { result ≡ end_after (checked reason_number answer) page.old }
    ensures page_after { page.new ≡ page_after (checked reason_number answer) page.old }
{
    match answer {
        Ok(size) => size,
        Err(why) => {
            let mut line = Page { bytes: page, at: 0 };
            refused(why.number(), &mut line);
            line.at
        }
    }
}
