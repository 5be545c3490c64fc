//! Reading messages.

ghost use Rattle.std.specs.Prelude.{◌≡◌, ◌≤◌, length, IfOk};
ghost use Rattle.plumb_msg.specs.Fields.{Gives, unfinished};
ghost use Rattle.plumb_msg.specs.Reading.{text_at, attrs_at, count_of, is_count_front, count_at, bytes_at, body_at};
ghost use Rattle.plumb_msg.specs.Reading.{msg_at, read_of};
ghost use Rattle.plumb_msg.specs.declared.message.PlumbRead.TheVariants.{Whole};

use crate::limits::MAX_DATA;
use crate::message::{Attrs, PlumbMsg, PlumbRead};
use crate::scanning::{is_attrs_front, read_attrs};
use crate::texts::{has_newline, is_text_front};
use crate::unread::{Stop, Unread};
use am_text::{Bytes, NoMemory, cut_line, is_utf8, read_decimal};
use std::alloc::Global;

// Why a line without its newline can't be read.
fn unfinished(begun: bool) -> Unread
    ensures { result ≡ unfinished begun }
{
    if begun { Unread::More } else { Unread::Bad }
}

fn text_line(alloc: Global, bytes: &[u8]) -> Result<(Bytes, &[u8]), Stop>
    ensures { Gives (λ x. (x.0, x.1.now)) result (text_at bytes.now) }
{
    if !has_newline(bytes) {
        return Err(Stop::Unread(unfinished(is_text_front(bytes))));
    }
    let (line, rest) = cut_line(bytes);
    if !is_utf8(line) {
        return Err(Stop::Unread(Unread::Bad));
    }
    Ok((Bytes::copied(alloc, line)?, rest))
}

fn attrs_line(alloc: Global, bytes: &[u8]) -> Result<(Attrs, &[u8]), Stop>
    ensures { Gives (λ x. (x.0, x.1.now)) result (attrs_at bytes.now) }
{
    if !has_newline(bytes) {
        return Err(Stop::Unread(unfinished(is_attrs_front(alloc, bytes)?)));
    }
    let (line, rest) = cut_line(bytes);
    match read_attrs(alloc, line)? {
        Some(attrs) => Ok((attrs, rest)),
        None => Err(Stop::Unread(Unread::Bad)),
    }
}

/// The number of bytes of data that a line tells, if it is one.
pub(crate) fn count_of(line: &[u8]) -> Option<usize>
    ensures { result ≡ count_of line.now }
{
    match read_decimal(line) {
        Some(n) if n <= MAX_DATA as u64 => Some(n as usize),
        _ => None,
    }
}

fn is_count_front(bytes: &[u8]) -> bool
    ensures { result ≡ is_count_front bytes.now }
{
    bytes.is_empty() || count_of(bytes).is_some()
}

fn count_line(bytes: &[u8]) -> Result<(usize, &[u8]), Stop>
    ensures { Gives (λ x. (x.0, x.1.now)) result (count_at bytes.now) }
{
    if !has_newline(bytes) {
        return Err(Stop::Unread(unfinished(is_count_front(bytes))));
    }
    let (line, rest) = cut_line(bytes);
    match count_of(line) {
        Some(count) => Ok((count, rest)),
        None => Err(Stop::Unread(Unread::Bad)),
    }
}

fn take_bytes(alloc: Global, count: usize, bytes: &[u8]) -> Result<(Bytes, &[u8]), Stop>
    ensures { Gives (λ x. (x.0, x.1.now)) result (bytes_at count bytes.now) }
{
    if bytes.len() < count {
        return Err(Stop::Unread(Unread::More));
    }
    let (body, rest) = bytes.split_at(count);
    Ok((Bytes::copied(alloc, body)?, rest))
}

fn body(alloc: Global, bytes: &[u8]) -> Result<(Bytes, &[u8]), Stop>
    ensures { Gives (λ x. (x.0, x.1.now)) result (body_at bytes.now) }
{
    let (count, rest) = count_line(bytes)?;
    take_bytes(alloc, count, rest)
}

#[tactic(auto, unfolding(crate::specs::Reading::msg_at))]
fn message(alloc: Global, bytes: &[u8]) -> Result<(PlumbMsg, &[u8]), Stop>
    ensures { Gives (λ x. (x.0, x.1.now)) result (msg_at bytes.now) }
{
    let (src, rest) = text_line(alloc, bytes)?;
    let (dst, rest) = text_line(alloc, rest)?;
    let (wdir, rest) = text_line(alloc, rest)?;
    let (sort, rest) = text_line(alloc, rest)?;
    let (attrs, rest) = attrs_line(alloc, rest)?;
    let (body, rest) = body(alloc, rest)?;
    let msg = PlumbMsg {
        src,
        dst,
        wdir,
        sort,
        attrs,
        body,
    };
    Ok((msg, rest))
}

/// What stands at the front of the bytes: a message and how many bytes it takes, a proper front of a message, or
/// neither. The texts of a message are UTF-8, and its data have at most 1,048,576 bytes.
pub fn read_msg(alloc: Global, bytes: &[u8]) -> Result<PlumbRead, NoMemory>
    ensures exact { IfOk result (λ told. told ≡ read_of bytes.now) }
{
    match message(alloc, bytes) {
        Ok((msg, rest)) => Ok(PlumbRead::Whole(msg, bytes.len() - rest.len())),
        Err(Stop::Unread(Unread::More)) => Ok(PlumbRead::More),
        Err(Stop::Unread(Unread::Bad)) => Ok(PlumbRead::Bad),
        Err(Stop::NoMemory) => Err(NoMemory),
    }
}
