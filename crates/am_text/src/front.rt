//! Fronts of texts, and words put at an end.

ghost use Rattle.std.specs.Prelude.{◌≡◌, ◌++◌, option_copied, OnOk};
ghost use Rattle.am_text.specs.Front.{after_front};

use crate::items::{Rune, Runes};
use crate::memory::NoMemory;

/// The bytes after a front, if they begin so.
pub fn after_front<'a>(front: &[u8], bytes: &'a [u8]) -> Option<&'a [u8]>
    ensures { option_copied result ≡ after_front front.now bytes.now }
{
    let mut left = front;
    let mut rest = bytes;
    while let [f, fs @ ..] = left {
        match rest {
            [b, bs @ ..] if *b == *f => {
                left = fs;
                rest = bs;
            }
            _ => return None,
        }
    }
    Some(rest)
}

/// Puts words in ASCII at the end of a text. Where memory is wanting, the text may have a front of them.
#[tactic(auto, using(crate::proofs::Joined::words))]
pub fn put_words(text: &mut Runes, words: &[u8]) -> Result<(), NoMemory>
    ensures { OnOk result (text.new ≡ text.old ++ words.now) }
{
    let mut rest = words;
    while let [byte, after @ ..] = rest {
        text.push(Rune::from(*byte))?;
        rest = after;
    }
    Ok(())
}
