//! The fields of a line.

ghost use Rattle.std.specs.Prelude.{◌≡◌, ◌≤◌, ◌<◌, IfOk, IfSome};
ghost use Rattle.am_do.specs.Fields.{fid_at, count_at, mode_at, few_bytes, bytes_at};

use am_text::{Bytes, NoMemory, encode, read_decimal, unescape};
use std::alloc::Global;

/// The largest number of a fid.
const MOST_FIDS: u64 = 1_000;

/// The most bytes that a line reads or writes.
const MOST_BYTES: usize = 8_000;

/// The modes of open(5): for reading, for writing, for both.
const READ: u8 = 0;

const WRITE: u8 = 1;

const READ_WRITE: u8 = 2;

/// The number of a fid.
pub(crate) fn fid_of(bytes: &[u8]) -> Option<u32>
    ensures { result ≡ fid_at bytes.now }
{
    match read_decimal(bytes) {
        Some(n) if 0 < n && n <= MOST_FIDS => Some(n as u32),
        _ => None,
    }
}

/// A number of bytes to read.
pub(crate) fn count_of(bytes: &[u8]) -> Option<u32>
    ensures { result ≡ count_at bytes.now }
{
    match read_decimal(bytes) {
        Some(n) if n <= MOST_BYTES as u64 => Some(n as u32),
        _ => None,
    }
}

/// The mode of an opening.
pub(crate) fn mode_of(word: &[u8]) -> Option<u8>
    ensures { result ≡ mode_at word.now }
{
    if word == b"r".as_slice() {
        Some(READ)
    } else if word == b"w".as_slice() {
        Some(WRITE)
    } else if word == b"rw".as_slice() {
        Some(READ_WRITE)
    } else {
        None
    }
}

fn few_bytes(bytes: Bytes) -> Option<Bytes>
    ensures { result ≡ few_bytes bytes }
{
    if bytes.len() <= MOST_BYTES {
        Some(bytes)
    } else {
        None
    }
}

/// The bytes of the text after a colon.
pub(crate) fn bytes_of(alloc: Global, bytes: &[u8]) -> Result<Option<Bytes>, NoMemory>
    ensures { IfOk result (λ text. text ≡ bytes_at bytes.now) }
{
    let [b':', escaped @ ..] = bytes else {
        return Ok(None);
    };
    match unescape(alloc, escaped)? {
        Some(text) => Ok(few_bytes(encode(alloc, &text)?)),
        None => Ok(None),
    }
}
