//! Cases of ninep_trace.
//!
//! | line | answer |
//! |---|---|
//! | `words` BYTES | what the line in words says, escaped: the event's line in a transcript, or `reply C HEX`; or
//! `none` |
//! | `words-t` BYTES | the message to the server that they are, from connection 7, in words, escaped; or the fault |
//! | `words-r` BYTES | the message from the server that they are, to connection 7, in words, escaped; or the fault |

use crate::fault::Fault;
use crate::fields::{in_one_line, line};
use crate::messages::fault_line;
use am_journal::write_line;
use am_text::Bytes;
use ninep_trace::{Line, read_words, words_r, words_t};
use ninep_wire::{read_r, read_t, write_r};
use std::alloc::Global;

// The most bytes of a message that has words.
const MAX_MESSAGE: usize = 65560;

fn reply(alloc: Global, conn: u32, message: &[u8]) -> Result<Bytes, Fault> {
    let written = hex::encode(alloc, message)?;
    Ok(line(format!(in alloc; "reply {conn} {written}")?))
}

pub fn meaning(alloc: Global, bytes: &[u8]) -> Result<Bytes, Fault> {
    match read_words(alloc, bytes)? {
        Some(Line::Event(event)) => in_one_line(alloc, write_line(alloc, &event)?.as_slice()),
        Some(Line::Reply(conn, msg)) => reply(alloc, conn, write_r(alloc, &msg)?.as_slice()),
        None => Ok(line(format!(in alloc; "none")?)),
    }
}

pub fn to_server(alloc: Global, bytes: &[u8]) -> Result<Bytes, Fault> {
    if bytes.len() > MAX_MESSAGE {
        return Err(Fault::NoCase);
    }
    match read_t(alloc, bytes) {
        Ok(msg) => in_one_line(alloc, words_t(alloc, 7, &msg)?.as_slice()),
        Err(error) => fault_line(alloc, error),
    }
}

pub fn from_server(alloc: Global, bytes: &[u8]) -> Result<Bytes, Fault> {
    if bytes.len() > MAX_MESSAGE {
        return Err(Fault::NoCase);
    }
    match read_r(alloc, bytes) {
        Ok(msg) => in_one_line(alloc, words_r(alloc, 7, &msg)?.as_slice()),
        Err(error) => fault_line(alloc, error),
    }
}
