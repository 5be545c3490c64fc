//! Tags of windows.

ghost use Rattle.std.specs.Prelude.{◌≡◌, IfOk};
ghost use Rattle.win_ctl.specs.Tags.{word_if, shows_put, tag_text};

use am_text::{NoMemory, Runes, put_words};
use std::alloc::Global;

/// What a user may change of a tag: the window's name, and the part after the bar.
#[derive(Drop)]
pub struct Tag {
    pub name: Runes,
    pub right: Runes,
}

/// What a tag shows of its window: whether a group of edits is there to be undone and one to be redone, whether the
/// window is modified, and whether it is a directory.
#[derive(Clone, Copy, Debug, PartialEq, Eq)]
pub struct Shown {
    pub undo: bool,
    pub redo: bool,
    pub modified: bool,
    pub dir: bool,
}

fn word_if(shown: bool, word: &'static [u8]) -> &'static [u8]
    ensures { result.now ≡ word_if shown word.now }
{
    if shown { word } else { b"" }
}

fn shows_put(tag: &Tag, shown: Shown) -> bool
    ensures { result ≡ shows_put tag.now shown }
{
    !tag.name.is_empty() && shown.modified && !shown.dir
}

/// The text of a tag: the name, the commands that the window offers, a bar, and the right part. ` Put` is offered where
/// the window has a name, is modified and is no directory.
#[tactic(auto, unfolding(crate::specs::Tags::tag_text))]
pub fn tag_text(alloc: Global, tag: &Tag, shown: Shown) -> Result<Runes, NoMemory>
    ensures { IfOk result (λ text. text ≡ tag_text tag.now shown) }
{
    let mut text = Runes::copied(alloc, tag.name.as_slice())?;
    put_words(&mut text, b" Del Snarf")?;
    put_words(&mut text, word_if(shown.undo, b" Undo"))?;
    put_words(&mut text, word_if(shown.redo, b" Redo"))?;
    put_words(&mut text, word_if(shows_put(tag, shown), b" Put"))?;
    put_words(&mut text, word_if(shown.dir, b" Get"))?;
    put_words(&mut text, b" |")?;
    text.append(tag.right.as_slice())?;
    Ok(text)
}
