//! Texts whose bytes come in pieces.

ghost use Rattle.std.specs.Prelude.{◌≡◌, ◌<◌, ◌≤◌, ◌++◌, ◌==◌, [], length, IfOk, OnOk};
ghost use Rattle.am_text.specs.Part.{part_bytes, part_of};
ghost use Rattle.am_text.specs.Pieces.{is_begun, rest_of, whole_of, decode_part};

use crate::items::{Bytes, Items, Runes};
use crate::memory::NoMemory;
use crate::utf8::{byte_at, decode_whole, is_second, is_within};
use std::alloc::Global;

/// The bytes of a rune that the next piece of a text is to end: the first `count` of `b0`, `b1` and `b2`.
#[derive(Clone, Copy, Debug, PartialEq, Eq)]
pub struct Part {
    pub count: u8,
    pub b0: u8,
    pub b1: u8,
    pub b2: u8,
}

impl Part {
    /// No bytes, as before the first piece.
    pub fn empty() -> Part
        ensures exact { result ≡ part_of [] }
        ensures bytes { part_bytes result ≡ [] }
    {
        Part {
            count: 0,
            b0: 0,
            b1: 0,
            b2: 0,
        }
    }

    /// Whether there are no bytes.
    pub fn is_empty(&self) -> bool
        ensures { result ≡ (length (part_bytes self.now) == 0) }
    {
        self.count == 0
    }

    // The part that holds these bytes.
    fn of(bytes: &[u8]) -> Part
        requires { length bytes.now ≤ 3 }
        ensures exact { result ≡ part_of bytes.now }
        ensures held { part_bytes result ≡ bytes.now }
    {
        Part {
            count: bytes.len() as u8,
            b0: byte_at(bytes, 0),
            b1: byte_at(bytes, 1),
            b2: byte_at(bytes, 2),
        }
    }
}

/// Whether the bytes are a proper front of a character (Unicode, table 3-7).
#[tactic(auto, unfolding(crate::specs::Pieces::is_begun))]
pub fn is_begun(bytes: &[u8]) -> bool
    ensures { result ≡ is_begun bytes.now }
{
    match bytes {
        [a] => is_within(0xC2, 0xF4, *a),
        [a, b] => is_within(0xE0, 0xF4, *a) && is_second(*a, *b),
        [a, b, c] => is_within(0xF0, 0xF4, *a) && is_second(*a, *b) && is_within(0x80, 0xBF, *c),
        _ => false,
    }
}

// How many bytes at the end are left over.
#[tactic(auto, using(crate::proofs::Pieced::leaving))]
fn rest_length(bytes: &[u8]) -> usize
    ensures exact { result ≡ length (rest_of bytes.now) }
    ensures inside { result ≤ length bytes.now }
    ensures few { result ≤ 3 }
{
    let (_, mut rest) = bytes.split_at(bytes.len().saturating_sub(3));
    while !rest.is_empty() && !is_begun(rest) {
        (_, rest) = rest.split_at(1);
    }
    rest.len()
}

#[tactic(auto, using(crate::proofs::Pieced::cutting))]
fn cut_rest(bytes: &[u8]) -> (&[u8], &[u8])
    ensures whole { result.0.now ≡ whole_of bytes.now }
    ensures rest { result.1.now ≡ rest_of bytes.now }
    ensures few { length result.1.now ≤ 3 }
{
    bytes.split_at(bytes.len() - rest_length(bytes))
}

// The bytes of a part, and these bytes after them.
fn joined(alloc: Global, held: &Part, bytes: &[u8]) -> Result<Bytes, NoMemory>
    requires { held.now.count ≤ 3 }
    ensures { IfOk result (λ all. all ≡ part_bytes held.now ++ bytes.now) }
{
    let places = [held.b0, held.b1, held.b2];
    let (front, _) = places.as_slice().split_at(usize::from(held.count));
    let mut all = Items::copied(alloc, front)?;
    all.append(bytes)?;
    Ok(all)
}

/// The runes of the bytes that stand in `held` and then in `bytes`, and the bytes left over: the end of them that is a
/// proper front of a well-formed sequence of UTF-8. Each other byte at which no such sequence begins is U+FFFD.
pub fn decode_part(alloc: Global, held: &Part, bytes: &[u8]) -> Result<(Runes, Part), NoMemory>
    requires { held.now.count ≤ 3 }
    ensures text { IfOk result (λ made. made.0 ≡ (decode_part (part_bytes held.now ++ bytes.now)).text) }
    ensures rest { IfOk result (λ made. part_bytes made.1 ≡ (decode_part (part_bytes held.now ++ bytes.now)).rest) }
    // It is the one part with these bytes that has 0 in the places past them.
    ensures exact { IfOk result (λ made. made.1 ≡ part_of (decode_part (part_bytes held.now ++ bytes.now)).rest) }
    ensures few { IfOk result (λ made. made.1.count ≤ 3) }
{
    let all = joined(alloc, held, bytes)?;
    let (whole, rest) = cut_rest(all.as_slice());
    let runes = decode_whole(alloc, whole)?;
    Ok((runes, Part::of(rest)))
}
