//! A line, cut into its parts.

use crate::fault::Fault;
use am_text::{Bytes, Ids, Range, Runes, encode, unescape};
use std::alloc::Global;
use wait_queue::Asker;

/// A call of a table.
#[derive(Drop)]
pub struct Call<'a> {
    pub name: &'a str,
    pub numbers: Ids,
    /// The fields behind the numbers, with one tab between them.
    pub texts: &'a str,
}

/// The first field, and the fields behind it.
pub fn cut(fields: &str) -> (&str, &str) {
    match fields.split_once('\t') {
        Some(parts) => parts,
        None => (fields, ""),
    }
}

fn number_of(field: &str) -> Result<u32, Fault> {
    match field.parse() {
        Ok(number) => Ok(number),
        Err(_) => Err(Fault::NoCase),
    }
}

fn numbers_of(alloc: Global, field: &str) -> Result<Ids, Fault> {
    let mut numbers = Ids::new(alloc);
    if field.is_empty() {
        return Ok(numbers);
    }
    for part in field.split(',') {
        numbers.push(number_of(part)?)?;
    }
    Ok(numbers)
}

/// The table of a line, and the call.
pub fn read_call<'a>(alloc: Global, line: &'a str) -> Result<(&'a str, Call<'a>), Fault> {
    let (table, fields) = cut(line);
    let (name, fields) = cut(fields);
    let (numbers, texts) = cut(fields);
    let numbers = numbers_of(alloc, numbers)?;
    Ok((
        table,
        Call {
            name,
            numbers,
            texts,
        },
    ))
}

/// The text of an escaped field.
pub fn text_of(alloc: Global, field: &str) -> Result<Runes, Fault> {
    match unescape(alloc, field.as_bytes())? {
        Some(text) => Ok(text),
        None => Err(Fault::NoCase),
    }
}

/// The text of an escaped field, in bytes.
pub fn bytes_of(alloc: Global, field: &str) -> Result<Bytes, Fault> {
    Ok(encode(alloc, &text_of(alloc, field)?)?)
}

/// The one number.
pub fn one_of(numbers: &[u32]) -> Result<u32, Fault> {
    match numbers {
        [number] => Ok(*number),
        _ => Err(Fault::NoCase),
    }
}

/// The two numbers.
pub fn two_of(numbers: &[u32]) -> Result<(u32, u32), Fault> {
    match numbers {
        [first, second] => Ok((*first, *second)),
        _ => Err(Fault::NoCase),
    }
}

/// The range of these two numbers.
pub fn range_of(numbers: &[u32]) -> Result<Range, Fault> {
    let (q0, q1) = two_of(numbers)?;
    Ok(Range {
        q0: q0 as usize,
        q1: q1 as usize,
    })
}

/// A number as a tag.
pub fn tag_of(number: u32) -> Result<u16, Fault> {
    match u16::try_from(number) {
        Ok(tag) => Ok(tag),
        Err(_) => Err(Fault::NoCase),
    }
}

/// The read of these four numbers.
pub fn asker_of(numbers: &[u32]) -> Result<Asker, Fault> {
    let [conn, tag, opening, count] = numbers else {
        return Err(Fault::NoCase);
    };
    Ok(Asker {
        conn: *conn,
        tag: tag_of(*tag)?,
        opening: *opening,
        count: *count,
    })
}
