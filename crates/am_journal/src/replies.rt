//! Lines that are written for the lines of a transcript.

ghost use Rattle.std.specs.Prelude.{◌≡◌, ◌++◌, IfOk};
ghost use Rattle.am_journal.specs.Texts.{reply_text, refused_text, word_of};

use crate::event::Why;
use crate::hexadecimal::hex_text;
use am_text::{Bytes, Items, NoMemory, put_around};
use std::alloc::Global;

/// The line `reply C HEX` of a message to a connection, with its newline.
#[tactic(auto, using(crate::proofs::Joined::joined), unfolding(crate::specs::Texts::reply_text))]
pub fn reply_line(alloc: Global, conn: u32, message: &[u8]) -> Result<Bytes, NoMemory>
    ensures { IfOk result (λ line. line ≡ reply_text conn message.now) }
{
    let mut line = Items::new(alloc);
    put_around(alloc, &mut line, b"reply ", u64::from(conn), b" ")?;
    line.append(hex_text(alloc, message)?.as_slice())?;
    line.append(b"\n")?;
    Ok(line)
}

/// The line `refused K WORD`, with its newline. It says which line of the input is refused, counted
/// from 1, and why.
#[tactic(auto, using(crate::proofs::Joined::joined), unfolding(crate::specs::Texts::refused_text))]
pub fn refused_line(alloc: Global, line: u64, word: &[u8]) -> Result<Bytes, NoMemory>
    ensures { IfOk result (λ text. text ≡ refused_text line word.now) }
{
    let mut text = Items::new(alloc);
    put_around(alloc, &mut text, b"refused ", line, b" ")?;
    text.append(word)?;
    text.append(b"\n")?;
    Ok(text)
}

/// The word of a reason.
pub fn word(why: Why) -> &'static [u8]
    ensures { result.now ≡ word_of why }
{
    match why {
        Why::Conn => b"conn",
        Why::Dialed => b"dialed",
        Why::Ended => b"ended",
        Why::Size => b"size",
        Why::Tag => b"tag",
        Why::Replies => b"replies",
        Why::Nothing => b"nothing",
        Why::Window => b"window",
        Why::Range => b"range",
        Why::Windows => b"windows",
        Why::Length => b"length",
        Why::Tree => b"tree",
    }
}
