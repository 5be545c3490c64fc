//! Texts in one line, and bytes that begin one.

ghost use Rattle.std.specs.Prelude.{◌≡◌};
ghost use Rattle.plumb_msg.specs.Texts.{has_newline, is_line, is_text_front};

use am_text::{is_begun, is_utf8};

pub(crate) fn has_newline(bytes: &[u8]) -> bool
    ensures { result ≡ has_newline bytes.now }
{
    bytes.iter().any(|b| *b == b'\n')
}

/// Whether the bytes are a text that can stand in one line.
pub(crate) fn is_line(bytes: &[u8]) -> bool
    ensures { result ≡ is_line bytes.now }
{
    !has_newline(bytes) && is_utf8(bytes)
}

/// Whether more bytes can make the bytes UTF-8.
#[tactic(auto, using(crate::proofs::TextLemmas::fronts))]
pub(crate) fn is_text_front(bytes: &[u8]) -> bool
    ensures { result ≡ is_text_front bytes.now }
{
    match str::from_utf8(bytes) {
        Ok(_) => true,
        Err(e) => is_begun(bytes.split_at(e.valid_up_to()).1),
    }
}
