//! Bytes to runes and back.

ghost use Rattle.std.specs.List.{AllByRecursion};
ghost use Rattle.std.specs.Prelude.{List, ℕ, ◌≡◌, ◌<◌, ◌≤◌, ◌-◌, ◌++◌, length, IfOk, OnOk, slice_index, take, drop};
ghost use Rattle.std.specs.Prelude.{if◌then◌else◌};
ghost use lib.Utf8.{scalar};
ghost use Rattle.std.specs.Char.{IsScalar};
ghost use Rattle.std.specs.Int.{is_in_range};
ghost use Rattle.std.specs.Str.{is_utf8};
ghost use Rattle.std.specs.Str.Lossy.{second_byte_min, second_byte_max};
ghost use Rattle.am_text.specs.Utf8.{begins_two, begins_three, begins_four, front_rune, front_width, decode};
ghost use Rattle.am_text.specs.Utf8.{rune_bytes, utf8};

use crate::items::{Bytes, Items, Rune, Runes};
use crate::letters::Letters;
use crate::memory::NoMemory;
use std::alloc::Global;

// A byte, or 0 past the end.
pub(crate) fn byte_at(bytes: &[u8], i: usize) -> u8
    ensures { result ≡ slice_index bytes.now i }
{
    if i < bytes.len() { bytes[i] } else { 0 }
}

pub(crate) fn is_within(low: u8, high: u8, b: u8) -> bool
    ensures { result ≡ is_in_range low high b }
{
    low <= b && b <= high
}

pub(crate) fn is_second(a: u8, b: u8) -> bool
    ensures { result ≡ is_in_range (second_byte_min a) (second_byte_max a) b }
{
    match a {
        0xE0 => is_within(0xA0, 0xBF, b),
        0xED => is_within(0x80, 0x9F, b),
        0xF0 => is_within(0x90, 0xBF, b),
        0xF4 => is_within(0x80, 0x8F, b),
        _ => is_within(0x80, 0xBF, b),
    }
}

fn is_two(bytes: &[u8]) -> bool
    ensures { result ≡ begins_two bytes.now }
{
    is_within(0xC2, 0xDF, byte_at(bytes, 0)) && is_within(0x80, 0xBF, byte_at(bytes, 1))
}

fn is_three(bytes: &[u8]) -> bool
    ensures { result ≡ begins_three bytes.now }
{
    let a = byte_at(bytes, 0);
    is_within(0xE0, 0xEF, a)
        && is_second(a, byte_at(bytes, 1))
        && is_within(0x80, 0xBF, byte_at(bytes, 2))
}

fn is_four(bytes: &[u8]) -> bool
    ensures { result ≡ begins_four bytes.now }
{
    let a = byte_at(bytes, 0);
    is_within(0xF0, 0xF4, a)
        && is_second(a, byte_at(bytes, 1))
        && is_within(0x80, 0xBF, byte_at(bytes, 2))
        && is_within(0x80, 0xBF, byte_at(bytes, 3))
}

/// The rune at the front, and how many bytes it takes.
#[tactic(auto, unfolding(crate::specs::Utf8::front_rune, crate::specs::Utf8::front_width))]
fn front(bytes: &[u8]) -> (u32, usize)
    requires { 0 < length bytes.now }
    ensures rune { result.0 ≡ front_rune bytes.now }
    ensures width { result.1 ≡ front_width bytes.now }
    ensures positive { 0 < result.1 }
    ensures inside { result.1 ≤ length bytes.now }
{
    let a = u32::from(byte_at(bytes, 0));
    if is_two(bytes) {
        let b = u32::from(byte_at(bytes, 1));
        return ((a - 0xC0) * 64 + (b - 0x80), 2);
    }
    if is_three(bytes) {
        let b = u32::from(byte_at(bytes, 1));
        let c = u32::from(byte_at(bytes, 2));
        return ((a - 0xE0) * 4096 + (b - 0x80) * 64 + (c - 0x80), 3);
    }
    if is_four(bytes) {
        let b = u32::from(byte_at(bytes, 1));
        let c = u32::from(byte_at(bytes, 2));
        let d = u32::from(byte_at(bytes, 3));
        return (
            (a - 0xF0) * 262144 + (b - 0x80) * 4096 + (c - 0x80) * 64 + (d - 0x80),
            4,
        );
    }
    (if a < 0x80 { a } else { 0xFFFD }, 1)
}

#[tactic(auto, using(crate::proofs::Decoded::decoding))]
fn decoded(alloc: Global, bytes: &[u8]) -> Result<Runes, NoMemory>
    ensures { IfOk result (λ runes. runes ≡ decode bytes.now) }
{
    let mut runes = Items::new(alloc);
    let mut rest = bytes;
    while !rest.is_empty() {
        let (rune, width) = front(rest);
        runes.push(rune)?;
        (_, rest) = rest.split_at(width);
    }
    Ok(runes)
}

/// The runes of the bytes.
#[tactic(auto, using(crate::proofs::Encoded::decode_encode_all))]
pub fn decode_whole(alloc: Global, bytes: &[u8]) -> Result<Runes, NoMemory>
    ensures exact { IfOk result (λ runes. runes ≡ decode bytes.now) }
    // What was encoded is decoded again.
    ensures again { IfOk result (λ runes. (text : List ℕ) → AllByRecursion IsScalar text → bytes.now ≡ utf8 text
        → runes ≡ text) }
{
    decoded(alloc, bytes)
}

/// Puts the bytes of a rune at the end.
pub(crate) fn push_rune(bytes: &mut Bytes, rune: Rune) -> Result<(), NoMemory>
    ensures { OnOk result (bytes.new ≡ bytes.old ++ rune_bytes rune) }
{
    let c = scalar_or_replacement(rune);
    bytes.append(c.encode_utf8(&mut [0; 4]).as_bytes())?;
    Ok(())
}

fn scalar_or_replacement(rune: Rune) -> char
    ensures { result ≡ (if scalar rune then rune else 0xFFFD) }
{
    match char::from_u32(rune) {
        Some(c) => c,
        None => '\u{FFFD}',
    }
}

/// The bytes of a text.
#[tactic(auto, using(crate::proofs::Decoded::encodes_more))]
pub fn encode<T: Letters>(alloc: Global, text: &T) -> Result<Bytes, NoMemory>
    ensures { IfOk result (λ bytes. bytes ≡ utf8 (T.letters text.now)) }
{
    let mut bytes = Items::new(alloc);
    for i in 0..text.len() {
        push_rune(&mut bytes, text.at(i))?;
    }
    Ok(bytes)
}

// From one place on, at most so many bytes.
fn part_of(bytes: &[u8], skip: usize, room: usize) -> &[u8]
    ensures part { result.now ≡ take room (drop skip bytes.now) }
    ensures small { length result.now ≤ room }
{
    let (_, rest) = bytes.split_at(skip.min(bytes.len()));
    let (part, _) = rest.split_at(room.min(rest.len()));
    part
}

// Puts a part of a rune's bytes at the end, and answers how many bytes are still to be skipped and to be put.
fn put_part(
    bytes: &mut Bytes,
    rune: Rune,
    skip: usize,
    room: usize,
) -> Result<(usize, usize), NoMemory>
    ensures put { OnOk result (bytes.new ≡ bytes.old ++ take room (drop skip (rune_bytes rune))) }
    ensures skip { IfOk result (λ left. left.0 ≡ skip - length (rune_bytes rune)) }
    ensures room { IfOk result (λ left. left.1 ≡ room - length (take room (drop skip (rune_bytes rune)))) }
{
    let mut buf = [0; 4];
    let encoded = scalar_or_replacement(rune).encode_utf8(&mut buf).as_bytes();
    let part = part_of(encoded, skip, room);
    bytes.append(part)?;
    Ok((skip.saturating_sub(encoded.len()), room - part.len()))
}

/// The bytes of a text from an offset on, at most `count` of them. A rune may be cut at both ends.
#[tactic(auto, using(crate::proofs::Sliced::slicing))]
pub fn utf8_slice(
    alloc: Global,
    text: &[Rune],
    offset: u64,
    count: usize,
) -> Result<Bytes, NoMemory>
    ensures { IfOk result (λ bytes. bytes ≡ take count (drop offset (utf8 text.now))) }
{
    let mut bytes = Items::new(alloc);
    let mut left = (offset as usize, count);
    let mut rest = text;
    while !rest.is_empty() {
        if left.1 == 0 {
            return Ok(bytes);
        }
        let (first, after) = rest.split_at(1);
        left = put_part(&mut bytes, first[0], left.0, left.1)?;
        rest = after;
    }
    Ok(bytes)
}

/// Whether the bytes are well-formed UTF-8.
#[tactic(auto, using(crate::proofs::Tested::texts))]
pub fn is_utf8(bytes: &[u8]) -> bool
    ensures { result ≡ is_utf8 bytes.now }
{
    str::from_utf8(bytes).is_ok()
}
