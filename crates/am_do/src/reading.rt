//! Reading the lines.

ghost use Rattle.std.specs.Prelude.{◌≡◌, ◌≤◌, ◌<◌, length, IfOk, IfErr, IfSome, Ok, Err};
ghost use Rattle.am_text.specs.Lines.{lines_of};
ghost use Rattle.am_do.specs.declared.reading.LinesFault.TheVariants.{NoMemory};
ghost use Rattle.am_do.specs.Lines.{open_at, read_at, write_at, close_at, line_of, lines_from};
ghost use Rattle.am_do.specs.Lawful.{IsLawful, AreLawful, IsRefused};

use crate::fields::{bytes_of, count_of, fid_of, mode_of};
use crate::line::{DoLine, DoLines};
use crate::names::names_of;
use am_text::{Items, after_front, cut_field, read_decimal, split_line};
use std::alloc::Global;

fn open_of(alloc: Global, rest: &[u8]) -> Result<Option<DoLine>, am_text::NoMemory>
    ensures { IfOk result (λ line. line ≡ open_at rest.now) }
{
    let (field, words) = cut_field(rest);
    let (word, mode) = cut_field(words);
    let Some(fid) = fid_of(field) else {
        return Ok(None);
    };
    let Some(names) = names_of(alloc, word)? else {
        return Ok(None);
    };
    match mode_of(mode) {
        Some(mode) => Ok(Some(DoLine::Open { fid, names, mode })),
        None => Ok(None),
    }
}

fn read_of(rest: &[u8]) -> Option<DoLine>
    ensures { result ≡ read_at rest.now }
{
    let (field, words) = cut_field(rest);
    let (offset, count) = cut_field(words);
    let fid = fid_of(field)?;
    let offset = read_decimal(offset)?;
    let count = count_of(count)?;
    Some(DoLine::Read { fid, offset, count })
}

fn write_of(alloc: Global, rest: &[u8]) -> Result<Option<DoLine>, am_text::NoMemory>
    ensures { IfOk result (λ line. line ≡ write_at rest.now) }
{
    let (field, words) = cut_field(rest);
    let (offset, text) = cut_field(words);
    let Some(fid) = fid_of(field) else {
        return Ok(None);
    };
    let Some(offset) = read_decimal(offset) else {
        return Ok(None);
    };
    match bytes_of(alloc, text)? {
        Some(bytes) => Ok(Some(DoLine::Write { fid, offset, bytes })),
        None => Ok(None),
    }
}

fn close_of(rest: &[u8]) -> Option<DoLine>
    ensures { result ≡ close_at rest.now }
{
    let fid = fid_of(rest)?;
    Some(DoLine::Close { fid })
}

#[tactic(auto, unfolding(crate::specs::Lines::line_of))]
fn line_in(alloc: Global, line: &[u8]) -> Result<Option<DoLine>, am_text::NoMemory>
    ensures { IfOk result (λ found. found ≡ line_of line.now) }
{
    if let Some(rest) = after_front(b"open ", line) {
        return open_of(alloc, rest);
    }
    if let Some(rest) = after_front(b"read ", line) {
        return Ok(read_of(rest));
    }
    if let Some(rest) = after_front(b"write ", line) {
        return write_of(alloc, rest);
    }
    if let Some(rest) = after_front(b"close ", line) {
        return Ok(close_of(rest));
    }
    Ok(None)
}

/// What a line without its newline asks for, or none where it isn't in the grammar.
pub fn read_do_line(alloc: Global, line: &[u8]) -> Result<Option<DoLine>, am_text::NoMemory>
    ensures exact { IfOk result (λ found. found ≡ line_of line.now) }
    // Its messages have a spelling.
    ensures lawful { IfOk result (λ found. IfSome found IsLawful) }
{
    line_in(alloc, line)
}

/// Why an input can't be done.
#[derive(Clone, Copy, Debug, PartialEq, Eq)]
pub enum LinesFault {
    /// The line of this number, from 1, is the first that isn't in the grammar.
    Line(u64),
    /// There isn't memory enough.
    NoMemory,
}

impl From<am_text::NoMemory> for LinesFault {
    ghost from_gives = { λ _ e. e ≡ NoMemory };

    fn from(_e: am_text::NoMemory) -> LinesFault {
        LinesFault::NoMemory
    }
}

/// All lines of an input, in order, or the first that isn't in the grammar.
#[tactic(auto, unfolding(crate::specs::Lines::lines_from))]
pub fn read_do_lines(alloc: Global, input: &[u8]) -> Result<DoLines, LinesFault>
    ensures ok { IfOk result (λ lines. lines_from 1 (lines_of input.now) ≡ Ok lines) }
    ensures lawful { IfOk result AreLawful }
    ensures err { IfErr result (λ e. IsRefused e (lines_from 1 (lines_of input.now))) }
{
    let mut lines = Items::new(alloc);
    let mut rest = input;
    let mut k: u64 = 1;
    while !rest.is_empty() {
        let (line, after) = split_line(rest);
        match read_do_line(alloc, line)? {
            Some(line) => lines.push(line)?,
            None => return Err(LinesFault::Line(k)),
        }
        rest = after;
        k += 1;
    }
    Ok(lines)
}
