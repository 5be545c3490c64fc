//! Fields of a line.

ghost use Rattle.std.specs.Prelude.{◌≡◌, ◌<◌, IfOk, IfSome};
ghost use Rattle.am_journal.specs.Line.{conn_at, window_at, side_word, side_of, text_of, range_from, range_at};
ghost use Rattle.am_text.specs.Number.{number_of};
ghost use Rattle.am_journal.specs.Limits.{connection_count};

use crate::event::Side;
use crate::limits::CONNECTIONS;
use am_text::{NoMemory, Range, Runes, cut_field, read_decimal, unescape};
use std::alloc::Global;

/// The number of a connection.
pub(crate) fn conn_of(bytes: &[u8]) -> Option<u32>
    ensures value { result ≡ conn_at bytes.now }
    ensures small { IfSome result (λ c. c < connection_count) }
{
    match read_decimal(bytes) {
        Some(n) if n < CONNECTIONS as u64 => Some(n as u32),
        _ => None,
    }
}

/// What the number of a window is below: it has 32 bits.
const WINDOW_NUMBERS: u64 = 1 << 32;

/// The number of a window.
pub(crate) fn window_of(bytes: &[u8]) -> Option<u32>
    ensures { result ≡ window_at bytes.now }
{
    match read_decimal(bytes) {
        Some(n) if n < WINDOW_NUMBERS => Some(n as u32),
        _ => None,
    }
}

/// The word of a window's text.
pub(crate) fn side_word(side: Side) -> &'static [u8]
    ensures { result.now ≡ side_word side }
{
    match side {
        Side::Tag => b"tag",
        Side::Body => b"body",
    }
}

/// The window's text that has this word.
pub(crate) fn side_of(word: &[u8]) -> Option<Side>
    ensures { result ≡ side_of word.now }
{
    if word == b"tag".as_slice() {
        Some(Side::Tag)
    } else if word == b"body".as_slice() {
        Some(Side::Body)
    } else {
        None
    }
}

/// The text after a colon.
pub(crate) fn text_of(alloc: Global, bytes: &[u8]) -> Result<Option<Runes>, NoMemory>
    ensures { IfOk result (λ text. text ≡ text_of bytes.now) }
{
    match bytes {
        [b':', escaped @ ..] => unescape(alloc, escaped),
        _ => Ok(None),
    }
}

/// The range from one number to another, which isn't less.
pub(crate) fn range_between(first: &[u8], second: &[u8]) -> Option<Range>
    ensures { result ≡ range_from (number_of first.now) (number_of second.now) }
{
    let q0 = read_decimal(first)?;
    let q1 = read_decimal(second)?;
    if q1 < q0 {
        return None;
    }
    Some(Range {
        q0: q0 as usize,
        q1: q1 as usize,
    })
}

/// The range between two numbers, with a blank between them.
pub(crate) fn range_of(bytes: &[u8]) -> Option<Range>
    ensures { result ≡ range_at bytes.now }
{
    let (first, second) = cut_field(bytes);
    range_between(first, second)
}
