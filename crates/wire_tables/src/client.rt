//! The cases of a client of 9P. A line is the word `client` and its fields, with one tab between them:
//!
//! `client` PIECE READS WRITES ROOM CALLS BYTES
//!
//! The client's source gives the bytes that BYTES spells in hexadecimal digits, in pieces of at most PIECE; its sink
//! has ROOM. READS and WRITES are the numbers of their calls that fail. CALLS, with commas between them, are done in
//! order:
//!
//! | call | what is done | answer |
//! |---|---|---|
//! | `version` | a Tversion is sent and its reply waited for, where no tag is asked | the reply's name, or why there is
//! none |
//! | `call` | the same with a Tclunk | the same |
//! | `send` | a Tclunk is sent | its tag, or why it isn't |
//! | `write` | a Twrite of 300 bytes is sent | the same |
//! | a number | the reply to this tag is waited for, where it is asked | the reply's name, or why there is none |
//!
//! The answers have a blank between them; `-` is that of a call that may not be made. Behind them stands what the sink
//! holds, in hexadecimal digits.

ghost use Rattle.std.specs.Prelude.{◌≡◌, ◌<◌, IfOk};

use crate::fault::Fault;
use crate::fields::{cut, number_of};
use crate::outside::{numbers_of, put, sink_of, source_of};
use am_base::{MemSink, MemSource};
use am_text::{Bytes, Items, decimal};
use ninep_client::{CallFault, Client, RBody, TBody, version_message};
use std::alloc::Global;

/// A client over objects in memory.
pub(crate) type MemClient = Client<MemSource, MemSink>;

// The fid that is given back.
const FID: u32 = 1;

// The most bytes of a message that are asked for.
const MSIZE: u32 = 256;

fn reply_word(reply: &RBody) -> &'static [u8] {
    match reply {
        RBody::Version { .. } => b"Rversion",
        RBody::Auth { .. } => b"Rauth",
        RBody::Error { .. } => b"Rerror",
        RBody::Flush => b"Rflush",
        RBody::Attach { .. } => b"Rattach",
        RBody::Walk { .. } => b"Rwalk",
        RBody::Open { .. } => b"Ropen",
        RBody::Create { .. } => b"Rcreate",
        RBody::Read { .. } => b"Rread",
        RBody::Write { .. } => b"Rwrite",
        RBody::Clunk => b"Rclunk",
        RBody::Remove => b"Rremove",
        RBody::Stat { .. } => b"Rstat",
        RBody::Wstat => b"Rwstat",
    }
}

pub(crate) fn fault_word(fault: &CallFault) -> &'static [u8] {
    match fault {
        CallFault::Remote(_) => b"remote",
        CallFault::Large => b"large",
        CallFault::Tags => b"tags",
        CallFault::Closed => b"closed",
        CallFault::WriteFault => b"write-fault",
        CallFault::ReadFault => b"read-fault",
        CallFault::Ended => b"ended",
        CallFault::Torn => b"torn",
        CallFault::Wire(_) => b"wire",
        CallFault::Unasked(_) => b"unasked",
        CallFault::Kind(_) => b"kind",
        CallFault::NoMemory => b"memory",
    }
}

fn answer_word(answer: &Result<RBody, CallFault>) -> &'static [u8] {
    match answer {
        Ok(reply) => reply_word(reply),
        Err(fault) => fault_word(fault),
    }
}

fn version_word(alloc: Global, client: &mut MemClient) -> Result<&'static [u8], Fault> {
    let version = version_message(alloc, MSIZE)?;
    if !client.is_idle() {
        return Ok(b"-");
    }
    Ok(answer_word(&client.call(version)))
}

fn clunk_word(client: &mut MemClient) -> &'static [u8] {
    answer_word(&client.call(TBody::Clunk { fid: FID }))
}

fn sent_text(alloc: Global, sent: Result<u16, CallFault>) -> Result<Bytes, Fault> {
    match sent {
        Ok(tag) => Ok(decimal(alloc, u64::from(tag))?),
        Err(fault) => Ok(Items::copied(alloc, fault_word(&fault))?),
    }
}

fn write_text(alloc: Global, client: &mut MemClient) -> Result<Bytes, Fault> {
    let bytes = Items::copied(alloc, &[b'x'; 300])?;
    sent_text(
        alloc,
        client.send(TBody::Write {
            fid: FID,
            offset: 0,
            bytes,
        }),
    )
}

fn wait_word(client: &mut MemClient, tag: u64) -> &'static [u8] {
    if u64::from(u16::MAX) < tag || !client.is_asked(tag as u16) {
        return b"-";
    }
    answer_word(&client.wait(tag as u16))
}

fn put_call(
    alloc: Global,
    line: &mut Bytes,
    client: &mut MemClient,
    call: &str,
) -> Result<(), Fault> {
    match call {
        "version" => put(line, version_word(alloc, client)?),
        "call" => put(line, clunk_word(client)),
        "send" => put(
            line,
            sent_text(alloc, client.send(TBody::Clunk { fid: FID }))?.as_slice(),
        ),
        "write" => put(line, write_text(alloc, client)?.as_slice()),
        tag => put(line, wait_word(client, number_of::<usize>(tag)? as u64)),
    }
}

pub(crate) fn bytes_of(alloc: Global, field: &str) -> Result<Bytes, Fault> {
    match hex::decode(alloc, field.as_bytes()) {
        Ok(bytes) => Ok(Items::from_vec(bytes)),
        Err(hex::FromHexError::OutOfMemory) => Err(Fault::NoMemory),
        Err(_) => Err(Fault::NoCase),
    }
}

// The fields of a case.
#[derive(Clone, Copy)]
struct Case<'a> {
    piece: &'a str,
    reads: &'a str,
    writes: &'a str,
    room: &'a str,
    calls: &'a str,
    digits: &'a str,
}

fn case_of(fields: &str) -> Result<Case<'_>, Fault> {
    let (piece, fields) = cut(fields)?;
    let (reads, fields) = cut(fields)?;
    let (writes, fields) = cut(fields)?;
    let (room, fields) = cut(fields)?;
    let (calls, digits) = cut(fields)?;
    Ok(Case {
        piece,
        reads,
        writes,
        room,
        calls,
        digits,
    })
}

// A source that fails at these calls, and gives the bytes that these digits spell.
pub(crate) fn told_source(
    alloc: Global,
    piece: &str,
    fails: &str,
    digits: &str,
) -> Result<MemSource, Fault> {
    let bytes = bytes_of(alloc, digits)?;
    source_of(alloc, piece, numbers_of(alloc, fails)?, bytes)
}

// A sink that fails at these calls.
pub(crate) fn told_sink(
    alloc: Global,
    piece: &str,
    fails: &str,
    room: &str,
) -> Result<MemSink, Fault> {
    sink_of(alloc, piece, numbers_of(alloc, fails)?, room)
}

fn client_of(alloc: Global, case: Case) -> Result<MemClient, Fault> {
    let source = told_source(alloc, case.piece, case.reads, case.digits)?;
    let sink = told_sink(alloc, case.piece, case.writes, case.room)?;
    Ok(Client::new(alloc, source, sink))
}

fn put_calls(
    alloc: Global,
    line: &mut Bytes,
    client: &mut MemClient,
    calls: &str,
) -> Result<(), Fault> {
    for call in calls.split(',') {
        put_call(alloc, line, client, call)?;
    }
    Ok(())
}

// What a sink holds, in hexadecimal digits.
pub(crate) fn put_held(alloc: Global, line: &mut Bytes, sink: &MemSink) -> Result<(), Fault> {
    put(line, hex::encode(alloc, sink.held())?.as_bytes())
}

/// The answer to the fields behind the word `client`.
pub(crate) fn client_line(alloc: Global, fields: &str) -> Result<Bytes, Fault> {
    let case = case_of(fields)?;
    let mut client = client_of(alloc, case)?;
    let mut line = Bytes::new(alloc);
    put_calls(alloc, &mut line, &mut client, case.calls)?;
    let (_, sink) = client.parts();
    put_held(alloc, &mut line, &sink)?;
    Ok(line)
}
