//! One line.

ghost use Rattle.std.specs.Prelude.{◌≡◌, ◌≤◌, [], length, IfOk, IfErr, OnOk};
ghost use Rattle.ninep_types.specs.Spelling.{AreNames};
ghost use Rattle.am_do.specs.LineLimits.{most_bytes};
ghost use Rattle.am_do.specs.Lawful.{IsLawful};
ghost use Rattle.am_do.specs.Sorting.{said_as};
ghost use Rattle.am_do.specs.Talks.{line_told, back_told, open_told, walk_told, read_told, write_told, close_told};
ghost use Rattle.am_do.specs.Went.{IsReady, Went, Halted, ends};

use crate::DoLine;
use crate::answers::{error_line, ok_line, ok_or_error, read_answer, walked, write_answer};
use crate::asking::ask;
use crate::stop::Stop;
use am_base::{Sink, Source};
use am_text::{Bytes, Names, NoMemory};
use ninep_client::{CallFault, Client, TBody};
use std::alloc::Global;

// Stands for the error of a walk that stops in the middle.
const STOPPED: &[u8] = b"walk stopped";

// The fid of the root.
const ROOT: u32 = 0;

// A text, or the end of the talk for want of memory.
fn said(text: Result<Bytes, NoMemory>) -> Result<Bytes, Stop>
    ensures { result ≡ said_as text }
{
    match text {
        Ok(text) => Ok(text),
        Err(NoMemory) => Err(Stop::Fault(CallFault::NoMemory)),
    }
}

// Gives back a fid whose opening was refused, and tells of the refusal.
fn give_back<R: Source, W: Sink>(
    alloc: Global,
    client: &mut Client<R, W>,
    fid: u32,
    text: &[u8],
) -> Result<Bytes, Stop>
    requires ready { IsReady client.old.talk }
    ensures ok { IfOk result (λ line. Went (back_told client.old.talk.msize fid text.now) client.old.talk
        client.new.talk
        (W.told client.old.sink).bytes (W.told client.new.sink).bytes (R.told client.old.source).bytes (R.told client.new.source).bytes line tt) }
    ensures ready { OnOk result (IsReady client.new.talk) }
    ensures most { OnOk result (client.new.talk.msize ≡ client.old.talk.msize) }
    ensures err { IfErr result (λ stop. Halted stop (back_told client.old.talk.msize fid text.now) client.old.talk
        (ends (W.told client.old.sink) (W.told client.new.sink)
        (R.told client.old.source) (R.told client.new.source)) []) }
    ensures later_sink { (W.told client.old.sink).faults ≤ (W.told client.new.sink).faults }
    ensures later_source { (R.told client.old.source).faults ≤ (R.told client.new.source).faults }
{
    match ask(alloc, client, TBody::Clunk { fid }) {
        Ok(_) => said(error_line(alloc, text)),
        Err(stop) => Err(stop),
    }
}

// Opens a fid that was walked to, and gives it back where that is refused.
fn open_walked<R: Source, W: Sink>(
    alloc: Global,
    client: &mut Client<R, W>,
    fid: u32,
    mode: u8,
) -> Result<Bytes, Stop>
    requires ready { IsReady client.old.talk }
    ensures ok { IfOk result (λ text. Went (open_told client.old.talk.msize fid mode) client.old.talk client.new.talk
        (W.told client.old.sink).bytes (W.told client.new.sink).bytes (R.told client.old.source).bytes (R.told client.new.source).bytes text tt) }
    ensures ready { OnOk result (IsReady client.new.talk) }
    ensures most { OnOk result (client.new.talk.msize ≡ client.old.talk.msize) }
    ensures err { IfErr result (λ stop. Halted stop (open_told client.old.talk.msize fid mode) client.old.talk
        (ends (W.told client.old.sink) (W.told client.new.sink)
        (R.told client.old.source) (R.told client.new.source)) []) }
    ensures later_sink { (W.told client.old.sink).faults ≤ (W.told client.new.sink).faults }
    ensures later_source { (R.told client.old.source).faults ≤ (R.told client.new.source).faults }
{
    match ask(alloc, client, TBody::Open { fid, mode }) {
        Ok(Ok(_)) => said(ok_line(alloc)),
        Ok(Err(text)) => give_back(alloc, client, fid, text.as_slice()),
        Err(stop) => Err(stop),
    }
}

// Walks to a file and opens it.
fn walk_and_open<R: Source, W: Sink>(
    alloc: Global,
    client: &mut Client<R, W>,
    fid: u32,
    names: Names,
    mode: u8,
) -> Result<Bytes, Stop>
    requires ready { IsReady client.old.talk }
    requires names { AreNames names }
    ensures ok { IfOk result (λ text. Went (walk_told client.old.talk.msize fid names mode) client.old.talk
        client.new.talk
        (W.told client.old.sink).bytes (W.told client.new.sink).bytes (R.told client.old.source).bytes (R.told client.new.source).bytes text tt) }
    ensures ready { OnOk result (IsReady client.new.talk) }
    ensures most { OnOk result (client.new.talk.msize ≡ client.old.talk.msize) }
    ensures err { IfErr result (λ stop. Halted stop (walk_told client.old.talk.msize fid names mode) client.old.talk
        (ends (W.told client.old.sink) (W.told client.new.sink)
        (R.told client.old.source) (R.told client.new.source)) []) }
    ensures later_sink { (W.told client.old.sink).faults ≤ (W.told client.new.sink).faults }
    ensures later_source { (R.told client.old.source).faults ≤ (R.told client.new.source).faults }
{
    let wanted = names.len();
    match ask(
        alloc,
        client,
        TBody::Walk {
            fid: ROOT,
            newfid: fid,
            names,
        },
    ) {
        Ok(Ok(reply)) => {
            if walked(&reply) < wanted {
                return said(error_line(alloc, STOPPED));
            }
            open_walked(alloc, client, fid, mode)
        }
        Ok(Err(text)) => said(error_line(alloc, text.as_slice())),
        Err(stop) => Err(stop),
    }
}

fn read<R: Source, W: Sink>(
    alloc: Global,
    client: &mut Client<R, W>,
    fid: u32,
    offset: u64,
    count: u32,
) -> Result<Bytes, Stop>
    requires ready { IsReady client.old.talk }
    ensures ok { IfOk result (λ text. Went (read_told client.old.talk.msize fid offset count) client.old.talk
        client.new.talk
        (W.told client.old.sink).bytes (W.told client.new.sink).bytes (R.told client.old.source).bytes (R.told client.new.source).bytes text tt) }
    ensures ready { OnOk result (IsReady client.new.talk) }
    ensures most { OnOk result (client.new.talk.msize ≡ client.old.talk.msize) }
    ensures err { IfErr result (λ stop. Halted stop (read_told client.old.talk.msize fid offset count) client.old.talk
        (ends (W.told client.old.sink) (W.told client.new.sink)
        (R.told client.old.source) (R.told client.new.source)) []) }
    ensures later_sink { (W.told client.old.sink).faults ≤ (W.told client.new.sink).faults }
    ensures later_source { (R.told client.old.source).faults ≤ (R.told client.new.source).faults }
{
    match ask(alloc, client, TBody::Read { fid, offset, count }) {
        Ok(reply) => said(read_answer(alloc, reply)),
        Err(stop) => Err(stop),
    }
}

fn write<R: Source, W: Sink>(
    alloc: Global,
    client: &mut Client<R, W>,
    fid: u32,
    offset: u64,
    bytes: Bytes,
) -> Result<Bytes, Stop>
    requires ready { IsReady client.old.talk }
    requires few { length bytes ≤ most_bytes }
    ensures ok { IfOk result (λ text. Went (write_told client.old.talk.msize fid offset bytes) client.old.talk
        client.new.talk
        (W.told client.old.sink).bytes (W.told client.new.sink).bytes (R.told client.old.source).bytes (R.told client.new.source).bytes text tt) }
    ensures ready { OnOk result (IsReady client.new.talk) }
    ensures most { OnOk result (client.new.talk.msize ≡ client.old.talk.msize) }
    ensures err { IfErr result (λ stop. Halted stop (write_told client.old.talk.msize fid offset bytes) client.old.talk
        (ends (W.told client.old.sink) (W.told client.new.sink)
        (R.told client.old.source) (R.told client.new.source)) []) }
    ensures later_sink { (W.told client.old.sink).faults ≤ (W.told client.new.sink).faults }
    ensures later_source { (R.told client.old.source).faults ≤ (R.told client.new.source).faults }
{
    match ask(alloc, client, TBody::Write { fid, offset, bytes }) {
        Ok(reply) => said(write_answer(alloc, reply)),
        Err(stop) => Err(stop),
    }
}

fn close<R: Source, W: Sink>(
    alloc: Global,
    client: &mut Client<R, W>,
    fid: u32,
) -> Result<Bytes, Stop>
    requires ready { IsReady client.old.talk }
    ensures ok { IfOk result (λ text. Went (close_told client.old.talk.msize fid) client.old.talk client.new.talk
        (W.told client.old.sink).bytes (W.told client.new.sink).bytes (R.told client.old.source).bytes (R.told client.new.source).bytes text tt) }
    ensures ready { OnOk result (IsReady client.new.talk) }
    ensures most { OnOk result (client.new.talk.msize ≡ client.old.talk.msize) }
    ensures err { IfErr result (λ stop. Halted stop (close_told client.old.talk.msize fid) client.old.talk
        (ends (W.told client.old.sink) (W.told client.new.sink)
        (R.told client.old.source) (R.told client.new.source)) []) }
    ensures later_sink { (W.told client.old.sink).faults ≤ (W.told client.new.sink).faults }
    ensures later_source { (R.told client.old.source).faults ≤ (R.told client.new.source).faults }
{
    match ask(alloc, client, TBody::Clunk { fid }) {
        Ok(reply) => said(ok_or_error(alloc, reply)),
        Err(stop) => Err(stop),
    }
}

/// Does one line, and answers the line that is written for it.
pub(crate) fn do_line<R: Source, W: Sink>(
    alloc: Global,
    client: &mut Client<R, W>,
    line: DoLine,
) -> Result<Bytes, Stop>
    requires ready { IsReady client.old.talk }
    requires lawful { IsLawful line }
    ensures ok { IfOk result (λ text. Went (line_told client.old.talk.msize line) client.old.talk client.new.talk
        (W.told client.old.sink).bytes (W.told client.new.sink).bytes (R.told client.old.source).bytes (R.told client.new.source).bytes text tt) }
    ensures ready { OnOk result (IsReady client.new.talk) }
    ensures most { OnOk result (client.new.talk.msize ≡ client.old.talk.msize) }
    ensures err { IfErr result (λ stop. Halted stop (line_told client.old.talk.msize line) client.old.talk
        (ends (W.told client.old.sink) (W.told client.new.sink)
        (R.told client.old.source) (R.told client.new.source)) []) }
    ensures later_sink { (W.told client.old.sink).faults ≤ (W.told client.new.sink).faults }
    ensures later_source { (R.told client.old.source).faults ≤ (R.told client.new.source).faults }
{
    match line {
        DoLine::Open { fid, names, mode } => walk_and_open(alloc, client, fid, names, mode),
        DoLine::Read { fid, offset, count } => read(alloc, client, fid, offset, count),
        DoLine::Write { fid, offset, bytes } => write(alloc, client, fid, offset, bytes),
        DoLine::Close { fid } => close(alloc, client, fid),
    }
}
