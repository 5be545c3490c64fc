//! The cases of the objects in memory. A line is a word and its fields, with one tab between them. FAILS is a list
//! of the numbers of the calls that fail, with commas between them; none are written `-`. TEXT is given in pieces of
//! at most PIECE bytes, and taken so.
//!
//! | line | what is done | answer |
//! |---|---|---|
//! | `whole` PIECE LIMIT FAILS TEXT | the text is read to its end | the text, `too long`, or `failed` |
//! | `sure` PIECE LIMIT TEXT | the same, of a source that never fails | the same |
//! | `reads` PIECE FAILS TIMES TEXT | so often four bytes are asked for | for each read what it gave, or `failed` |
//! | `writes` PIECE FAILS ROOM TIMES TEXT | the text is written so often | for each time `done` or `failed`, and what
//! the sink holds then |
//! | `link` HOW | both halves are asked for twice | for each time `done` or `failed` |
//! | `gate` HOW | two connections are taken | the same |
//! | `host` FAILS PATH SLOTS | a host with a gate for slot 1 of `/tmp/acme` is asked for those of these slots of a path
//! | the same |
//! | `dial` FAILS PATH TIMES | a host whose gates of `/tmp/acme` give, fail and give is so often dialled at a path |
//! the same |
//!
//! A link or a gate whose HOW is `gives` hands out, and one whose HOW is `fails` never does. SLOTS are numbers with
//! commas between them. The answers of several calls have a blank between them.

ghost use Rattle.std.specs.Prelude.{◌≡◌, IfOk};

use crate::fault::Fault;
use crate::fields::{cut, number_of};
use am_base::{
    Failed, Gate, Host, Link, MemGate, MemHost, MemLink, MemSink, MemSource, NeverFails, ReadStop,
    Source, read_to_end, write_all,
};
use am_text::{Bytes, Items, Numbers};
use std::alloc::Global;

// What one read asks for.
const ROOM: usize = 4;

// Stands between the answers of two calls.
const BLANK: u8 = b' ';

// How often a link or a gate is asked.
const TIMES: usize = 2;

// What the gates are for.
const PATH: &str = "/tmp/acme";

const SLOT: u32 = 1;

pub(crate) fn numbers_of(alloc: Global, field: &str) -> Result<Numbers, Fault> {
    let mut numbers = Items::new(alloc);
    if field == "-" {
        return Ok(numbers);
    }
    for number in field.split(',') {
        numbers.push(number_of::<u64>(number)?)?;
    }
    Ok(numbers)
}

fn is_failing(field: &str) -> Result<bool, Fault> {
    match field {
        "fails" => Ok(true),
        "gives" => Ok(false),
        _ => Err(Fault::NoCase),
    }
}

fn text_of(alloc: Global, text: &str) -> Result<Bytes, Fault> {
    Ok(Bytes::copied(alloc, text.as_bytes())?)
}

pub(crate) fn source_of(
    alloc: Global,
    piece: &str,
    fails: Numbers,
    bytes: Bytes,
) -> Result<MemSource, Fault>
    ensures { IfOk result (λ source. source.calls.fail_at ≡ fails) }
{
    let piece = number_of::<usize>(piece)?;
    if piece == 0 {
        return Err(Fault::NoCase);
    }
    Ok(MemSource::new(bytes, piece, fails))
}

pub(crate) fn sink_of(
    alloc: Global,
    piece: &str,
    fails: Numbers,
    room: &str,
) -> Result<MemSink, Fault> {
    let piece = number_of::<usize>(piece)?;
    if piece == 0 {
        return Err(Fault::NoCase);
    }
    Ok(MemSink::new(alloc, number_of::<usize>(room)?, piece, fails)?)
}

// Puts what a call gave behind the answers before it.
pub(crate) fn put(line: &mut Bytes, word: &[u8]) -> Result<(), Fault> {
    if !line.is_empty() {
        line.push(BLANK)?;
    }
    line.append(word)?;
    Ok(())
}

fn word_of<T: Drop>(outcome: Result<T, Failed>) -> &'static [u8] {
    match outcome {
        Ok(_) => b"done",
        Err(Failed) => b"failed",
    }
}

fn read_all<S: Source>(alloc: Global, source: &mut S, limit: &str) -> Result<Bytes, Fault> {
    match read_to_end(alloc, source, number_of::<usize>(limit)?) {
        Ok(bytes) => Ok(bytes),
        Err(ReadStop::ReadFault) => Ok(Bytes::copied(alloc, b"failed")?),
        Err(ReadStop::TooLong) => Ok(Bytes::copied(alloc, b"too long")?),
        Err(ReadStop::NoMemory) => Err(Fault::NoMemory),
    }
}

fn whole_line(alloc: Global, fields: &str) -> Result<Bytes, Fault> {
    let (piece, fields) = cut(fields)?;
    let (limit, fields) = cut(fields)?;
    let (fails, text) = cut(fields)?;
    let mut source = source_of(
        alloc,
        piece,
        numbers_of(alloc, fails)?,
        text_of(alloc, text)?,
    )?;
    read_all(alloc, &mut source, limit)
}

fn sure_line(alloc: Global, fields: &str) -> Result<Bytes, Fault> {
    let (piece, fields) = cut(fields)?;
    let (limit, text) = cut(fields)?;
    let source = source_of(alloc, piece, Numbers::new(alloc), text_of(alloc, text)?)?;
    read_all(alloc, &mut NeverFails::new(source), limit)
}

fn put_read(line: &mut Bytes, source: &mut MemSource) -> Result<(), Fault> {
    let mut room = [0; ROOM];
    match source.read(&mut room) {
        Ok(count) => put(line, &room[..count]),
        Err(Failed) => put(line, b"failed"),
    }
}

fn reads_line(alloc: Global, fields: &str) -> Result<Bytes, Fault> {
    let (piece, fields) = cut(fields)?;
    let (fails, fields) = cut(fields)?;
    let (times, text) = cut(fields)?;
    let mut source = source_of(
        alloc,
        piece,
        numbers_of(alloc, fails)?,
        text_of(alloc, text)?,
    )?;
    let mut line = Bytes::new(alloc);
    for _ in 0..number_of::<usize>(times)? {
        put_read(&mut line, &mut source)?;
    }
    Ok(line)
}

fn put_write(line: &mut Bytes, sink: &mut MemSink, text: &str) -> Result<(), Fault> {
    let outcome = write_all(sink, text.as_bytes());
    put(line, word_of(outcome))?;
    put(line, sink.held())
}

fn writes_line(alloc: Global, fields: &str) -> Result<Bytes, Fault> {
    let (piece, fields) = cut(fields)?;
    let (fails, fields) = cut(fields)?;
    let (room, fields) = cut(fields)?;
    let (times, text) = cut(fields)?;
    let mut sink = sink_of(alloc, piece, numbers_of(alloc, fails)?, room)?;
    let mut line = Bytes::new(alloc);
    for _ in 0..number_of::<usize>(times)? {
        put_write(&mut line, &mut sink, text)?;
    }
    Ok(line)
}

fn link_of(alloc: Global, how: &str) -> Result<MemLink, Fault> {
    let source = source_of(alloc, "1", Numbers::new(alloc), Bytes::new(alloc))?;
    let sink = sink_of(alloc, "1", Numbers::new(alloc), "1")?;
    Ok(MemLink::new(source, sink, is_failing(how)?))
}

fn link_line(alloc: Global, how: &str) -> Result<Bytes, Fault> {
    let mut link = link_of(alloc, how)?;
    let mut line = Bytes::new(alloc);
    for _ in 0..TIMES {
        put(&mut line, word_of(link.halves()))?;
    }
    Ok(line)
}

fn gate_of(alloc: Global, how: &str) -> Result<MemGate, Fault> {
    let path = Bytes::copied(alloc, PATH.as_bytes())?;
    Ok(MemGate::new(path, SLOT, link_of(alloc, "gives")?, is_failing(how)?))
}

fn gate_line(alloc: Global, how: &str) -> Result<Bytes, Fault> {
    let mut gate = gate_of(alloc, how)?;
    let mut line = Bytes::new(alloc);
    for _ in 0..TIMES {
        put(&mut line, word_of(gate.accept()))?;
    }
    Ok(line)
}

fn dial_line(alloc: Global, fields: &str) -> Result<Bytes, Fault> {
    let (fails, fields) = cut(fields)?;
    let (path, times) = cut(fields)?;
    let mut gates = Items::new(alloc);
    for how in ["gives", "fails", "gives"] {
        gates.push(gate_of(alloc, how)?)?;
    }
    let mut host = MemHost::new(gates, numbers_of(alloc, fails)?);
    let mut line = Bytes::new(alloc);
    for _ in 0..number_of::<usize>(times)? {
        put(&mut line, word_of(host.dial(path)))?;
    }
    Ok(line)
}

fn host_line(alloc: Global, fields: &str) -> Result<Bytes, Fault> {
    let (fails, fields) = cut(fields)?;
    let (path, slots) = cut(fields)?;
    let mut gates = Items::new(alloc);
    gates.push(gate_of(alloc, "gives")?)?;
    let mut host = MemHost::new(gates, numbers_of(alloc, fails)?);
    let mut line = Bytes::new(alloc);
    for slot in slots.split(',') {
        put(&mut line, word_of(host.bind(path, number_of::<u32>(slot)?)))?;
    }
    Ok(line)
}

/// The answer to a line of this word, without its newline.
pub fn answer(alloc: Global, word: &str, fields: &str) -> Result<Bytes, Fault> {
    match word {
        "whole" => whole_line(alloc, fields),
        "sure" => sure_line(alloc, fields),
        "reads" => reads_line(alloc, fields),
        "writes" => writes_line(alloc, fields),
        "link" => link_line(alloc, fields),
        "gate" => gate_line(alloc, fields),
        "host" => host_line(alloc, fields),
        "dial" => dial_line(alloc, fields),
        _ => Err(Fault::NoCase),
    }
}
