// Object and epoch of a card: both, or absent. docs/RULES.md, The deck 4 and 10, and The check program's
// listing 2.
//
// Every function here is proved and total, and the crate assumes nothing.
#![tactic(auto)]

ghost use Rattle.std.specs.Prelude.{◌≡◌};
ghost use Rattle.pieces.specs.Page.{written};
ghost use Rattle.tag.specs.Tag.{tag_with, tag_text};

use pieces::Page;

// Object and epoch. A card has both, or neither, which is not the same as zero: an Option says which.
#[derive(Clone, Copy)]
pub struct Tag {
    pub object: u32,
    pub epoch: i64,
}

// This object, and the epoch that a word of eight bytes stands for.
pub fn present(object: u32, word: u64) -> Tag
    ensures { result ≡ tag_with object word }
{
    Tag {
        object,
        epoch: word.cast_signed(),
    }
}

// A space and `-` twice, or object and epoch in decimal, in a page.
pub fn put(tag: Option<Tag>, page: &mut Page)
    ensures { page.new ≡ written page.old (tag_text tag) }
{
    match tag {
        None => pieces::put(page, b" - -"),
        Some(tag) => {
            text::count(page, tag.object);
            text::signed(page, tag.epoch);
        }
    }
}
