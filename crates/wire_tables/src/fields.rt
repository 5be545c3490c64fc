//! Fields of a line, and what answers are made of.

use crate::fault::Fault;
use am_text::{Bytes, Items, Runes, decode_whole, encode, escape, unescape};
use hex::FromHexError;
use std::alloc::Global;
use std::str::FromStr;

/// The fields before and after the first tab.
pub fn cut(fields: &str) -> Result<(&str, &str), Fault> {
    match fields.split_once('\t') {
        Some(parts) => Ok(parts),
        None => Err(Fault::NoCase),
    }
}

/// The number that a field is.
pub fn number_of<N: FromStr>(field: &str) -> Result<N, Fault>
where
    N::Err: Drop,
{
    match field.parse() {
        Ok(number) => Ok(number),
        Err(_) => Err(Fault::NoCase),
    }
}

/// The text of an escaped field.
pub fn text_of(alloc: Global, field: &str) -> Result<Runes, Fault> {
    match unescape(alloc, field.as_bytes())? {
        Some(text) => Ok(text),
        None => Err(Fault::NoCase),
    }
}

fn bytes_of_text(alloc: Global, escaped: &str) -> Result<Bytes, Fault> {
    Ok(encode(alloc, &text_of(alloc, escaped)?)?)
}

/// Bytes: a colon and a text that is escaped, or hexadecimal digits.
pub fn bytes(alloc: Global, field: &str) -> Result<Bytes, Fault> {
    if let Some(escaped) = field.strip_prefix(':') {
        return bytes_of_text(alloc, escaped);
    }
    match hex::decode(alloc, field.as_bytes()) {
        Ok(bytes) => Ok(Items::from_vec(bytes)),
        Err(FromHexError::OutOfMemory) => Err(Fault::NoMemory),
        Err(_) => Err(Fault::NoCase),
    }
}

/// A line that was formatted.
pub fn line(text: String) -> Bytes {
    Items::from_vec(text.into_bytes())
}

/// Bytes as a text in one line.
pub fn in_one_line(alloc: Global, bytes: &[u8]) -> Result<Bytes, Fault> {
    Ok(escape(alloc, decode_whole(alloc, bytes)?.as_slice())?)
}
