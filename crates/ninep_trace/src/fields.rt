//! The kinds of fields, each taken from the front of the bytes.

ghost use Rattle.std.specs.Prelude.{◌≡◌, ◌==◌, ◌<◌, ◌≤◌, ◌+◌, ◌^◌, ◌++◌, ◌∷◌, [], ℕ, List, false, length, slice_index};
ghost use Rattle.std.specs.Prelude.{IfOk, IfSome, IfNone, None};
ghost use Rattle.std.specs.List.{list_any};
ghost use Rattle.am_text.specs.Ascii.{quote};
ghost use Rattle.am_text.specs.Front.{after_front};
ghost use Rattle.ninep_types.specs.Fields.{is_text};
ghost use Rattle.ninep_types.specs.Limits.{max_names};
ghost use Rattle.am_journal.specs.Hexadecimal.{bytes_of_hex};
ghost use Rattle.ninep_trace.specs.Fields.{Gives, digits, after_digits, value_at, small_at, number_at, unquoted_after};
ghost use Rattle.ninep_trace.specs.Fields.{is_string, quoted_at, text_at, bytes_in_hex_at, qid_at, qid_field_at};
ghost use Rattle.ninep_trace.specs.Fields.{several_at, listed_at};

use crate::unread::Unread;
use am_journal::bytes_of_hex;
use am_text::{Bytes, Items, Names, after_front, is_utf8, read_decimal};
use ninep_types::{MAX_NAMES, Qid, Qids};
use std::alloc::Global;

/// What the length of a string or a stat is below: it has two bytes.
pub(crate) const SHORT: usize = 1 << 16;

/// The bytes after a front, which has to be there.
pub(crate) fn take_front<'a>(front: &[u8], bytes: &'a [u8]) -> Result<&'a [u8], Unread>
    ensures { Gives (λ rest. rest.now) result (after_front front.now bytes.now) }
{
    match after_front(front, bytes) {
        Some(rest) => Ok(rest),
        None => Err(Unread::NotWords),
    }
}

/// The digits at the front, and the bytes after them.
fn cut_digits(bytes: &[u8]) -> (&[u8], &[u8])
    ensures digits { result.0.now ≡ digits bytes.now }
    ensures rest { result.1.now ≡ after_digits bytes.now }
{
    let mut at = 0;
    for b in bytes {
        if !b.is_ascii_digit() {
            return bytes.split_at(at);
        }
        at += 1;
    }
    bytes.split_at(at)
}

#[tactic(auto, unfolding(crate::specs::Fields::value_at))]
fn take_value(bytes: &[u8]) -> Result<(u64, &[u8]), Unread>
    ensures { Gives (λ x. (x.0, x.1.now)) result (value_at bytes.now) }
{
    let (digits, rest) = cut_digits(bytes);
    match read_decimal(digits) {
        Some(n) => Ok((n, rest)),
        None => Err(Unread::NotWords),
    }
}

/// A number of at most so much.
#[tactic(auto, unfolding(crate::specs::Fields::small_at))]
pub(crate) fn take_small(most: u64, bytes: &[u8]) -> Result<(u64, &[u8]), Unread>
    ensures value { Gives (λ x. (x.0, x.1.now)) result (small_at (most + 1) bytes.now) }
    ensures small { IfOk result (λ x. x.0 ≤ most) }
{
    let (n, rest) = take_value(bytes)?;
    if n > most {
        return Err(Unread::NotWords);
    }
    Ok((n, rest))
}

#[tactic(auto, unfolding(crate::specs::Fields::number_at))]
pub(crate) fn take_u8<'a>(front: &[u8], bytes: &'a [u8]) -> Result<(u8, &'a [u8]), Unread>
    ensures { Gives (λ x. (x.0, x.1.now)) result (number_at front.now (2 ^ 8) bytes.now) }
{
    let rest = take_front(front, bytes)?;
    let (n, rest) = take_small(u64::from(u8::MAX), rest)?;
    Ok((n as u8, rest))
}

#[tactic(auto, unfolding(crate::specs::Fields::number_at))]
pub(crate) fn take_u16<'a>(front: &[u8], bytes: &'a [u8]) -> Result<(u16, &'a [u8]), Unread>
    ensures { Gives (λ x. (x.0, x.1.now)) result (number_at front.now (2 ^ 16) bytes.now) }
{
    let rest = take_front(front, bytes)?;
    let (n, rest) = take_small(u64::from(u16::MAX), rest)?;
    Ok((n as u16, rest))
}

#[tactic(auto, unfolding(crate::specs::Fields::number_at))]
pub(crate) fn take_u32<'a>(front: &[u8], bytes: &'a [u8]) -> Result<(u32, &'a [u8]), Unread>
    ensures { Gives (λ x. (x.0, x.1.now)) result (number_at front.now (2 ^ 32) bytes.now) }
{
    let rest = take_front(front, bytes)?;
    let (n, rest) = take_small(u64::from(u32::MAX), rest)?;
    Ok((n as u32, rest))
}

#[tactic(auto, unfolding(crate::specs::Fields::number_at))]
pub(crate) fn take_u64<'a>(front: &[u8], bytes: &'a [u8]) -> Result<(u64, &'a [u8]), Unread>
    ensures { Gives (λ x. (x.0, x.1.now)) result (number_at front.now (2 ^ 64) bytes.now) }
{
    let rest = take_front(front, bytes)?;
    take_small(u64::MAX, rest)
}

// The byte that the front stands for in quotes, and the bytes after that front.
#[tactic(auto, unfolding(crate::specs::Fields::unquoted_after))]
fn first_unquoted(bytes: &[u8]) -> Option<(u8, &[u8])>
    requires some { 0 < length bytes.now }
    requires no_quote { slice_index bytes.now 0 ≡ quote → ⊥ }
    ensures some { IfSome result (λ first. (text : List ℕ)
        → unquoted_after text false bytes.now ≡ unquoted_after (text ++ first.0 ∷ []) false first.1.now) }
    ensures none { IfNone result ((text : List ℕ) → unquoted_after text false bytes.now ≡ None) }
    ensures shorter { IfSome result (λ first. length first.1.now < length bytes.now) }
{
    match bytes {
        [b'\\', b'n', rest @ ..] => Some((b'\n', rest)),
        [b'\\', b'\\', rest @ ..] => Some((b'\\', rest)),
        [b'\\', b'q', rest @ ..] => Some((b'\'', rest)),
        [b'\\', ..] => None,
        [b'\n', ..] => None,
        [byte, rest @ ..] => Some((*byte, rest)),
        [] => None,
    }
}

// The text up to the closing quote, and the bytes after that.
#[tactic(auto, unfolding(crate::specs::Fields::unquoted_after))]
fn take_unquoted(alloc: Global, bytes: &[u8]) -> Result<(Bytes, &[u8]), Unread>
    ensures { Gives (λ x. (x.0, x.1.now)) result (unquoted_after [] false bytes.now) }
{
    let mut text = Items::new(alloc);
    let mut rest = bytes;
    while !rest.is_empty() {
        if rest[0] == b'\'' {
            return Ok((text, rest.split_at(1).1));
        }
        match first_unquoted(rest) {
            Some((byte, after)) => {
                text.push(byte)?;
                rest = after;
            }
            None => return Err(Unread::NotWords),
        }
    }
    Err(Unread::NotWords)
}

fn has_nul(bytes: &[u8]) -> bool
    ensures { result ≡ list_any (λ b. b == 0) bytes.now }
{
    bytes.contains(&0)
}

#[tactic(auto, unfolding(ninep_types::specs::Fields::is_text))]
fn is_string(bytes: &[u8]) -> bool
    ensures { result ≡ is_string bytes.now }
{
    is_utf8(bytes) && !has_nul(bytes) && bytes.len() < SHORT
}

/// A string in quotes: UTF-8 without NUL, of fewer than 65,536 bytes.
#[tactic(auto, unfolding(crate::specs::Fields::quoted_at))]
fn take_quoted(alloc: Global, bytes: &[u8]) -> Result<(Bytes, &[u8]), Unread>
    ensures { Gives (λ x. (x.0, x.1.now)) result (quoted_at bytes.now) }
{
    let inside = take_front(b"'", bytes)?;
    let (text, rest) = take_unquoted(alloc, inside)?;
    if !is_string(text.as_slice()) {
        return Err(Unread::NotWords);
    }
    Ok((text, rest))
}

#[tactic(auto, unfolding(crate::specs::Fields::text_at))]
pub(crate) fn take_text<'a>(
    alloc: Global,
    front: &[u8],
    bytes: &'a [u8],
) -> Result<(Bytes, &'a [u8]), Unread>
    ensures { Gives (λ x. (x.0, x.1.now)) result (text_at front.now bytes.now) }
{
    take_quoted(alloc, take_front(front, bytes)?)
}

// The bytes that the digits spell, all of them.
fn take_hex(alloc: Global, digits: &[u8]) -> Result<Bytes, Unread>
    ensures { Gives (λ bytes. bytes) result (bytes_of_hex digits.now) }
{
    match bytes_of_hex(alloc, digits)? {
        Some(bytes) => Ok(bytes),
        None => Err(Unread::NotWords),
    }
}

/// Fewer bytes than a limit, in hexadecimal, to the end of the line.
#[tactic(auto, unfolding(crate::specs::Fields::bytes_in_hex_at))]
pub(crate) fn take_bytes<'a>(
    alloc: Global,
    front: &[u8],
    limit: usize,
    bytes: &'a [u8],
) -> Result<(Bytes, &'a [u8]), Unread>
    ensures { Gives (λ x. (x.0, x.1.now)) result (bytes_in_hex_at front.now limit bytes.now) }
{
    let digits = take_front(front, bytes)?;
    let read = take_hex(alloc, digits)?;
    if read.len() >= limit {
        return Err(Unread::NotWords);
    }
    Ok((read, digits.split_at(digits.len()).1))
}

/// A qid: its type, its version and its path, with full stops.
#[tactic(auto, unfolding(crate::specs::Fields::qid_at))]
fn take_qid_text(bytes: &[u8]) -> Result<(Qid, &[u8]), Unread>
    ensures { Gives (λ x. (x.0, x.1.now)) result (qid_at bytes.now) }
{
    let (kind, rest) = take_small(u64::from(u8::MAX), bytes)?;
    let (vers, rest) = take_small(u64::from(u32::MAX), take_front(b".", rest)?)?;
    let (path, rest) = take_small(u64::MAX, take_front(b".", rest)?)?;
    let qid = Qid {
        kind: kind as u8,
        vers: vers as u32,
        path,
    };
    Ok((qid, rest))
}

#[tactic(auto, unfolding(crate::specs::Fields::qid_field_at))]
pub(crate) fn take_qid<'a>(front: &[u8], bytes: &'a [u8]) -> Result<(Qid, &'a [u8]), Unread>
    ensures { Gives (λ x. (x.0, x.1.now)) result (qid_field_at front.now bytes.now) }
{
    take_qid_text(take_front(front, bytes)?)
}

/// The number of members of a list, at most 16.
#[tactic(auto, unfolding(crate::specs::Fields::number_at))]
fn take_count<'a>(front: &[u8], bytes: &'a [u8]) -> Result<(u8, &'a [u8]), Unread>
    ensures { Gives (λ x. (x.0, x.1.now)) result (number_at front.now (max_names + 1) bytes.now) }
{
    let (n, rest) = take_small(u64::from(MAX_NAMES), take_front(front, bytes)?)?;
    Ok((n as u8, rest))
}

fn take_several_names(alloc: Global, count: u8, bytes: &[u8]) -> Result<(Names, &[u8]), Unread>
    ensures { Gives (λ x. (x.0, x.1.now)) result (several_at quoted_at count bytes.now) }
{
    let mut names = Items::new(alloc);
    let mut rest = bytes;
    for _ in 0..count {
        let behind = take_front(b" ", rest)?;
        let (name, after) = take_quoted(alloc, behind)?;
        names.push(name)?;
        rest = after;
    }
    Ok((names, rest))
}

/// The names of a walk, at most 16: their number, and each after a blank.
#[tactic(auto, unfolding(crate::specs::Fields::listed_at))]
pub(crate) fn take_names<'a>(
    alloc: Global,
    front: &[u8],
    bytes: &'a [u8],
) -> Result<(Names, &'a [u8]), Unread>
    ensures { Gives (λ x. (x.0, x.1.now)) result (listed_at front.now quoted_at bytes.now) }
{
    let (count, rest) = take_count(front, bytes)?;
    take_several_names(alloc, count, rest)
}

fn take_several_qids(alloc: Global, count: u8, bytes: &[u8]) -> Result<(Qids, &[u8]), Unread>
    ensures { Gives (λ x. (x.0, x.1.now)) result (several_at qid_at count bytes.now) }
{
    let mut qids = Items::new(alloc);
    let mut rest = bytes;
    for _ in 0..count {
        let behind = take_front(b" ", rest)?;
        let (qid, after) = take_qid_text(behind)?;
        qids.push(qid)?;
        rest = after;
    }
    Ok((qids, rest))
}

/// The qids of a walk, at most 16: their number, and each after a blank.
#[tactic(auto, unfolding(crate::specs::Fields::listed_at))]
pub(crate) fn take_qids<'a>(
    alloc: Global,
    front: &[u8],
    bytes: &'a [u8],
) -> Result<(Qids, &'a [u8]), Unread>
    ensures { Gives (λ x. (x.0, x.1.now)) result (listed_at front.now qid_at bytes.now) }
{
    let (count, rest) = take_count(front, bytes)?;
    take_several_qids(alloc, count, rest)
}
