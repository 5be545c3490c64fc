//! Lines, and texts in one line.

ghost use Rattle.std.specs.Prelude.{◌≡◌, ◌≤◌, ◌<◌, ◌++◌, ◌+◌, ◌∷◌, length, map, IfOk};
ghost use Rattle.std.specs.List.{flat_map};
ghost use Rattle.am_text.specs.Lines.{spans_of, line_at, escaped, first_line, after_line, lines_of, first_field};
ghost use Rattle.am_text.specs.Lines.{after_field};

use crate::ascii::{BACKSLASH, NEWLINE};
use crate::items::{Bytes, Items};
use crate::memory::NoMemory;
use crate::range::{Range, Spans};
use crate::utf8::push_rune;
use std::alloc::Global;

fn spans_in(alloc: Global, bytes: &[u8]) -> Result<Spans, NoMemory>
    ensures { IfOk result (λ spans. spans ≡ spans_of bytes.now) }
{
    let mut spans = Items::new(alloc);
    let mut from = 0;
    let mut at = 0;
    for b in bytes {
        if *b == b'\n' {
            spans.push(Range { q0: from, q1: at })?;
            from = at + 1;
        }
        at += 1;
    }
    if from < at {
        spans.push(Range { q0: from, q1: at })?;
    }
    Ok(spans)
}

/// The spans between newlines, and a last one where bytes follow the last newline.
#[tactic(auto, using(crate::proofs::Spanned::lines_spans))]
pub fn lines(alloc: Global, bytes: &[u8]) -> Result<Spans, NoMemory>
    ensures exact { IfOk result (λ spans. spans ≡ spans_of bytes.now) }
    // What they span are the lines.
    ensures each { IfOk result (λ spans. map (line_at bytes.now) spans ≡ lines_of bytes.now) }
{
    spans_in(alloc, bytes)
}

/// The bytes up to the first newline, and those after it.
pub fn cut_line(bytes: &[u8]) -> (&[u8], &[u8])
    ensures line { result.0.now ≡ first_line bytes.now }
    ensures rest { result.1.now ≡ after_line bytes.now }
{
    let mut at = 0;
    for b in bytes {
        if *b == b'\n' {
            let (line, rest) = bytes.split_at(at);
            return (line, rest.split_at(1).1);
        }
        at += 1;
    }
    bytes.split_at(at)
}

/// The bytes up to the first blank, and those after it.
pub fn cut_field(bytes: &[u8]) -> (&[u8], &[u8])
    ensures field { result.0.now ≡ first_field bytes.now }
    ensures rest { result.1.now ≡ after_field bytes.now }
{
    let mut at = 0;
    for b in bytes {
        if *b == b' ' {
            let (field, rest) = bytes.split_at(at);
            return (field, rest.split_at(1).1);
        }
        at += 1;
    }
    bytes.split_at(at)
}

/// The first line without its newline, and the bytes after that.
#[tactic(auto, using(crate::proofs::Escaped::splitting))]
pub fn split_line(bytes: &[u8]) -> (&[u8], &[u8])
    requires { 0 < length bytes.now }
    ensures lines { lines_of bytes.now ≡ result.0.now ∷ lines_of result.1.now }
    ensures shorter { length result.1.now < length bytes.now }
{
    cut_line(bytes)
}

/// A text in one line.
#[tactic(auto, using(crate::proofs::Escaped::escapes_more))]
pub fn escape(alloc: Global, text: &[u32]) -> Result<Bytes, NoMemory>
    ensures { IfOk result (λ bytes. bytes ≡ flat_map escaped text.now) }
{
    let mut bytes = Items::new(alloc);
    for rune in text {
        match *rune {
            NEWLINE => bytes.append(b"\\n")?,
            BACKSLASH => bytes.append(b"\\\\")?,
            other => push_rune(&mut bytes, other)?,
        }
    }
    Ok(bytes)
}
