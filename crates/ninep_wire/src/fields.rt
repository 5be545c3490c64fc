//! The kinds of fields, each taken from the front of the bytes.

ghost use Rattle.std.specs.Prelude.{◌≡◌, ◌==◌, length};
ghost use Rattle.std.specs.List.{list_any};
ghost use Rattle.std.specs.Int.{w16, w32, w64};
ghost use Rattle.ninep_types.specs.Fields.{Gives, bytes_at, number_at, byte_at, string_at, counted_at, qid_at};
ghost use Rattle.ninep_types.specs.Fields.{count_at, several_at, listed_at, is_text};
ghost use Rattle.ninep_types.specs.Reading.{head_at};

use am_text::{Bytes, Items, Names, is_utf8};
use ninep_types::{MAX_NAMES, Qid, Qids, WireError, WireFault};
use std::alloc::Global;

pub(crate) fn take_u8(bytes: &[u8]) -> Result<(u8, &[u8]), WireError>
    ensures { Gives (λ x. (x.0, x.1.now)) result (byte_at bytes.now) }
{
    match bytes {
        [b, rest @ ..] => Ok((*b, rest)),
        [] => Err(WireError::Fault(WireFault::Short)),
    }
}

pub(crate) fn take_u16(bytes: &[u8]) -> Result<(u16, &[u8]), WireError>
    ensures { Gives (λ x. (x.0, x.1.now)) result (number_at w16 bytes.now) }
{
    if bytes.len() < 2 {
        return Err(WireError::Fault(WireFault::Short));
    }
    let (front, rest) = bytes.split_at(2);
    Ok((u16::from_le_bytes([front[0], front[1]]), rest))
}

pub(crate) fn take_u32(bytes: &[u8]) -> Result<(u32, &[u8]), WireError>
    ensures { Gives (λ x. (x.0, x.1.now)) result (number_at w32 bytes.now) }
{
    if bytes.len() < 4 {
        return Err(WireError::Fault(WireFault::Short));
    }
    let (front, rest) = bytes.split_at(4);
    let number = u32::from_le_bytes([front[0], front[1], front[2], front[3]]);
    Ok((number, rest))
}

pub(crate) fn take_u64(bytes: &[u8]) -> Result<(u64, &[u8]), WireError>
    ensures { Gives (λ x. (x.0, x.1.now)) result (number_at w64 bytes.now) }
{
    if bytes.len() < 8 {
        return Err(WireError::Fault(WireFault::Short));
    }
    let (front, rest) = bytes.split_at(8);
    let number = u64::from_le_bytes([
        front[0], front[1], front[2], front[3], front[4], front[5], front[6], front[7],
    ]);
    Ok((number, rest))
}

/// So many bytes.
fn take_bytes(bytes: &[u8], len: usize) -> Result<(&[u8], &[u8]), WireError>
    ensures { Gives (λ x. (x.0.now, x.1.now)) result (bytes_at len bytes.now) }
{
    if bytes.len() < len {
        return Err(WireError::Fault(WireFault::Short));
    }
    Ok(bytes.split_at(len))
}

fn has_nul(bytes: &[u8]) -> bool
    ensures { result ≡ list_any (λ b. b == 0) bytes.now }
{
    bytes.contains(&0)
}

#[tactic(auto, unfolding(ninep_types::specs::Fields::is_text))]
fn is_text(bytes: &[u8]) -> bool
    ensures { result ≡ is_text bytes.now }
{
    is_utf8(bytes) && !has_nul(bytes)
}

/// A string: two bytes of its length, and UTF-8 without NUL.
#[tactic(auto, unfolding(ninep_types::specs::Fields::string_at))]
pub(crate) fn take_string(alloc: Global, bytes: &[u8]) -> Result<(Bytes, &[u8]), WireError>
    ensures { Gives (λ x. (x.0, x.1.now)) result (string_at bytes.now) }
{
    let (len, rest) = take_u16(bytes)?;
    let (text, rest) = take_bytes(rest, len as usize)?;
    if !is_text(text) {
        return Err(WireError::Fault(WireFault::Text));
    }
    Ok((Items::copied(alloc, text)?, rest))
}

/// The data of a read or a write: four bytes of their number, and the bytes.
#[tactic(auto, unfolding(ninep_types::specs::Fields::counted_at))]
pub(crate) fn take_data(alloc: Global, bytes: &[u8]) -> Result<(Bytes, &[u8]), WireError>
    ensures { Gives (λ x. (x.0, x.1.now)) result (counted_at w32 bytes.now) }
{
    let (len, rest) = take_u32(bytes)?;
    let (text, rest) = take_bytes(rest, len as usize)?;
    Ok((Items::copied(alloc, text)?, rest))
}

/// A stat record, carried as bytes: two bytes of their number, and the bytes.
#[tactic(auto, unfolding(ninep_types::specs::Fields::counted_at))]
pub(crate) fn take_stat(alloc: Global, bytes: &[u8]) -> Result<(Bytes, &[u8]), WireError>
    ensures { Gives (λ x. (x.0, x.1.now)) result (counted_at w16 bytes.now) }
{
    let (len, rest) = take_u16(bytes)?;
    let (stat, rest) = take_bytes(rest, len as usize)?;
    Ok((Items::copied(alloc, stat)?, rest))
}

/// A qid: type[1] vers[4] path[8].
#[tactic(auto, unfolding(ninep_types::specs::Fields::qid_at))]
pub(crate) fn take_qid(bytes: &[u8]) -> Result<(Qid, &[u8]), WireError>
    ensures { Gives (λ x. (x.0, x.1.now)) result (qid_at bytes.now) }
{
    let (kind, rest) = take_u8(bytes)?;
    let (vers, rest) = take_u32(rest)?;
    let (path, rest) = take_u64(rest)?;
    Ok((Qid { kind, vers, path }, rest))
}

/// The number of members of a list, at most 16.
fn take_count(bytes: &[u8]) -> Result<(u16, &[u8]), WireError>
    ensures { Gives (λ x. (x.0, x.1.now)) result (count_at bytes.now) }
{
    let (count, rest) = take_u16(bytes)?;
    if count > MAX_NAMES {
        return Err(WireError::Fault(WireFault::Names));
    }
    Ok((count, rest))
}

fn take_strings(alloc: Global, count: u16, bytes: &[u8]) -> Result<(Names, &[u8]), WireError>
    ensures { Gives (λ x. (x.0, x.1.now)) result (several_at string_at count bytes.now) }
{
    let mut names = Items::new(alloc);
    let mut rest = bytes;
    for _ in 0..count {
        let (name, after) = take_string(alloc, rest)?;
        names.push(name)?;
        rest = after;
    }
    Ok((names, rest))
}

/// The names of a walk: two bytes of their number, and each as a string.
#[tactic(auto, unfolding(ninep_types::specs::Fields::listed_at))]
pub(crate) fn take_names(alloc: Global, bytes: &[u8]) -> Result<(Names, &[u8]), WireError>
    ensures { Gives (λ x. (x.0, x.1.now)) result (listed_at string_at bytes.now) }
{
    let (count, rest) = take_count(bytes)?;
    take_strings(alloc, count, rest)
}

fn take_several_qids(alloc: Global, count: u16, bytes: &[u8]) -> Result<(Qids, &[u8]), WireError>
    ensures { Gives (λ x. (x.0, x.1.now)) result (several_at qid_at count bytes.now) }
{
    let mut qids = Items::new(alloc);
    let mut rest = bytes;
    for _ in 0..count {
        let (qid, after) = take_qid(rest)?;
        qids.push(qid)?;
        rest = after;
    }
    Ok((qids, rest))
}

/// The qids of a walk: two bytes of their number, and each qid.
#[tactic(auto, unfolding(ninep_types::specs::Fields::listed_at))]
pub(crate) fn take_qids(alloc: Global, bytes: &[u8]) -> Result<(Qids, &[u8]), WireError>
    ensures { Gives (λ x. (x.0, x.1.now)) result (listed_at qid_at bytes.now) }
{
    let (count, rest) = take_count(bytes)?;
    take_several_qids(alloc, count, rest)
}

/// The type byte, the tag, and the bytes after them.
#[tactic(auto, unfolding(ninep_types::specs::Reading::head_at))]
pub(crate) fn take_head(bytes: &[u8]) -> Result<(u8, u16, &[u8]), WireError>
    ensures { Gives (λ x. (x.0, x.1, x.2.now)) result (head_at bytes.now) }
{
    match bytes {
        [a, b, c, d, kind, e, f, rest @ ..] => {
            let size = u32::from_le_bytes([*a, *b, *c, *d]);
            if size as usize != bytes.len() {
                return Err(WireError::Fault(WireFault::Size));
            }
            Ok((*kind, u16::from_le_bytes([*e, *f]), rest))
        }
        _ => Err(WireError::Fault(WireFault::Size)),
    }
}
