//! Cases of ninep_wire.
//!
//! | line | answer |
//! |---|---|
//! | `t` BYTES | the size of the message to the server that they are, and how it is written, in hexadecimal |
//! | `t-fields` BYTES | the tag and the fields of a Tattach or a Tcreate |
//! | `r` BYTES | how the message from the server that they are is written, with the tag and the qid of an Rattach |
//!
//! Where the bytes are no message the answer is the fault.

use crate::fault::Fault;
use crate::fields::line;
use am_text::Bytes;
use ninep_wire::{RBody, TBody, TMsg, WireError, read_r, read_t, t_size, write_r, write_t};
use std::alloc::Global;

pub fn fault_line(alloc: Global, error: WireError) -> Result<Bytes, Fault> {
    match error {
        WireError::Fault(fault) => Ok(line(format!(in alloc; "{fault:?}")?)),
        WireError::NoMemory => Err(Fault::NoMemory),
    }
}

pub fn to_server(alloc: Global, bytes: &[u8]) -> Result<Bytes, Fault> {
    match read_t(alloc, bytes) {
        Ok(msg) => {
            let written = hex::encode(alloc, write_t(alloc, &msg)?.as_slice())?;
            Ok(line(format!(in alloc; "{} {written}", t_size(&msg))?))
        }
        Err(error) => fault_line(alloc, error),
    }
}

pub fn from_server(alloc: Global, bytes: &[u8]) -> Result<Bytes, Fault> {
    match read_r(alloc, bytes) {
        Ok(msg) => {
            let written = hex::encode(alloc, write_r(alloc, &msg)?.as_slice())?;
            match &msg.body {
                RBody::Attach { qid } => {
                    Ok(line(format!(in alloc; "{written} {} {qid:?}", msg.tag)?))
                }
                _ => Ok(line(written)),
            }
        }
        Err(error) => fault_line(alloc, error),
    }
}

fn fields_line(alloc: Global, msg: &TMsg) -> Result<Bytes, Fault> {
    match &msg.body {
        TBody::Attach {
            fid,
            afid,
            uname,
            aname,
        } => {
            let (uname, aname) = (uname.as_slice(), aname.as_slice());
            Ok(line(format!(in alloc; "{} {fid} {afid} {uname:?} {aname:?}", msg.tag)?))
        }
        TBody::Create {
            fid,
            name,
            perm,
            mode,
        } => {
            let name = name.as_slice();
            Ok(line(format!(in alloc; "{} {fid} {name:?} {perm} {mode}", msg.tag)?))
        }
        _ => Err(Fault::NoCase),
    }
}

pub fn fields(alloc: Global, bytes: &[u8]) -> Result<Bytes, Fault> {
    match read_t(alloc, bytes) {
        Ok(msg) => fields_line(alloc, &msg),
        Err(error) => fault_line(alloc, error),
    }
}
