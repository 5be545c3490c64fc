//! The fields of a line, and what answers are made of.

ghost use Rattle.std.specs.Prelude.{IfOk};
ghost use Rattle.sam_address.specs.Value.{IsInside};

use crate::fault::Fault;
use am_text::{JobKind, Range, Rune, Runes, escape, unescape};
use std::alloc::Global;
use std::str::FromStr;

/// The first field of a line, and the fields behind it.
pub fn cut(fields: &str) -> Result<(&str, &str), Fault> {
    fields.split_once('\t').ok_or(Fault::NoCase)
}

/// The first two fields of a line, and the fields behind them.
pub fn cut_twice(fields: &str) -> Result<(&str, &str, &str), Fault> {
    let (first, fields) = cut(fields)?;
    let (second, fields) = cut(fields)?;
    Ok((first, second, fields))
}

/// The text of an escaped field.
pub fn text_of(alloc: Global, field: &str) -> Result<Runes, Fault> {
    match unescape(alloc, field.as_bytes())? {
        Some(text) => Ok(text),
        None => Err(Fault::NoCase),
    }
}

/// The number that a field is.
pub fn number_of<N: FromStr>(field: &str) -> Result<N, Fault>
where
    N::Err: Drop,
{
    match field.parse() {
        Ok(number) => Ok(number),
        Err(_) => Err(Fault::NoCase),
    }
}

/// The range of a text that a field is: two places with a comma between them.
pub fn range_in(field: &str, text: &Runes) -> Result<Range, Fault>
    ensures { IfOk result (IsInside text.now) }
{
    let Some((q0, q1)) = field.split_once(',') else {
        return Err(Fault::NoCase);
    };
    let range = Range {
        q0: number_of(q0)?,
        q1: number_of(q1)?,
    };
    if range.q0 <= range.q1 && range.q1 <= text.len() {
        Ok(range)
    } else {
        Err(Fault::NoCase)
    }
}

/// An answer that is a range.
pub fn range_line(alloc: Global, range: Range) -> Result<Vec<u8>, Fault> {
    Ok(format!(in alloc; "{} {}", range.q0, range.q1)?.into_bytes())
}

/// The word of a request to the outside.
pub fn kind_word(kind: JobKind) -> &'static str {
    match kind {
        JobKind::Run => "run",
        JobKind::Pipe => "pipe",
        JobKind::From => "from",
        JobKind::To => "to",
        JobKind::Save => "save",
        JobKind::Start => "start",
    }
}

/// An answer of one word.
pub fn says(alloc: Global, word: &str) -> Result<Vec<u8>, Fault> {
    Ok(word.as_bytes().to_vec(alloc)?)
}

/// Puts a word and an escaped text at the end of an answer.
pub fn put(alloc: Global, line: &mut Vec<u8>, word: &str, text: &[Rune]) -> Result<(), Fault> {
    line.extend_from_slice(word.as_bytes())?;
    line.extend_from_slice(escape(alloc, text)?.as_slice())?;
    Ok(())
}
