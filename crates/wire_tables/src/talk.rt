//! The cases of a talk of `do`. A line is the word `do` and its fields, with one tab between them:
//!
//! `do` READS WRITES OUTPUT TREE LINES BYTES
//!
//! The client's source gives the bytes that BYTES spells in hexadecimal digits. READS and WRITES are the numbers of the
//! calls of its source and its sink that fail, and OUTPUT of those of the output. TREE is `acme` or `plumb`. LINES are
//! the lines, with `;` in the place of a newline.
//!
//! The answer is how the talk ended, with `cut` behind it where the output has failed, then what the output holds, with
//! `;` in the place of a newline, and what the sink holds, in hexadecimal digits. Lines that are refused are answered
//! `line` and the number of the first.

ghost use Rattle.std.specs.Prelude.{IfOk, ◌≡◌};
ghost use Rattle.ninep_types.specs.Spelling.{IsString};
ghost use Rattle.ninep_client.specs.Asking.{begun};
ghost use Rattle.am_do.specs.Lawful.{AreLawful};

use crate::client::{MemClient, fault_word, put_held, told_sink, told_source};
use crate::fault::Fault;
use crate::fields::cut;
use crate::outside::put;
use am_base::MemSink;
use am_do::{DoLines, Done, LinesFault, Stop, do_lines, read_do_lines};
use am_text::{Bytes, decimal};
use ninep_client::Client;
use std::alloc::Global;

// What one read or write moves at most.
const PIECE: &str = "8192";

// What a sink takes at most.
const ROOM: &str = "4096";

// Stands for a newline in a line of the table.
const MARK: u8 = b';';

const NEWLINE: u8 = b'\n';

fn put_exchanged(line: &mut Bytes, bytes: &[u8], old: u8, new: u8) -> Result<(), Fault> {
    for byte in bytes {
        line.push(if *byte == old { new } else { *byte })?;
    }
    Ok(())
}

#[tactic(auto, using(crate::proofs::TreeNames::acme_is, crate::proofs::TreeNames::plumb_is))]
fn tree_of(field: &str) -> Result<&'static [u8], Fault>
    ensures { IfOk result (λ tree. IsString tree.now) }
{
    match field {
        "acme" => Ok(b"acme"),
        "plumb" => Ok(b"plumb"),
        _ => Err(Fault::NoCase),
    }
}

fn end_word(stop: &Option<Stop>) -> &'static [u8] {
    match stop {
        None => b"done",
        Some(Stop::Refused) => b"refused",
        Some(Stop::Fault(fault)) => fault_word(fault),
    }
}

// How a talk ended, and what its output and its sink hold.
fn told(alloc: Global, done: &Done, output: &MemSink, sink: &MemSink) -> Result<Bytes, Fault> {
    let mut line = Bytes::new(alloc);
    put(&mut line, end_word(&done.stop))?;
    if done.failed {
        put(&mut line, b"cut")?;
    }
    put(&mut line, b"")?;
    put_exchanged(&mut line, output.held(), NEWLINE, MARK)?;
    put_held(alloc, &mut line, sink)?;
    Ok(line)
}

fn talk(
    alloc: Global,
    client: MemClient,
    output: MemSink,
    tree: &[u8],
    lines: DoLines,
) -> Result<Bytes, Fault>
    requires begun { client.talk ≡ begun }
    requires tree { IsString tree.now }
    requires lawful { AreLawful lines }
{
    let mut client = client;
    let mut output = output;
    let done = do_lines(alloc, &mut client, tree, lines, &mut output);
    let (_, sink) = client.parts();
    told(alloc, &done, &output, &sink)
}

fn refused(alloc: Global, number: u64) -> Result<Bytes, Fault> {
    let mut line = Bytes::new(alloc);
    put(&mut line, b"line")?;
    put(&mut line, decimal(alloc, number)?.as_slice())?;
    Ok(line)
}

// The fields of a case.
#[derive(Clone, Copy)]
struct Case<'a> {
    reads: &'a str,
    writes: &'a str,
    fails: &'a str,
    tree: &'a str,
    lines: &'a str,
    digits: &'a str,
}

fn case_of(fields: &str) -> Result<Case<'_>, Fault> {
    let (reads, fields) = cut(fields)?;
    let (writes, fields) = cut(fields)?;
    let (fails, fields) = cut(fields)?;
    let (tree, fields) = cut(fields)?;
    let (lines, digits) = cut(fields)?;
    Ok(Case {
        reads,
        writes,
        fails,
        tree,
        lines,
        digits,
    })
}

fn client_of(alloc: Global, case: Case) -> Result<MemClient, Fault>
    ensures { IfOk result (λ client. client.talk ≡ begun) }
{
    let source = told_source(alloc, PIECE, case.reads, case.digits)?;
    let sink = told_sink(alloc, PIECE, case.writes, ROOM)?;
    Ok(Client::new(alloc, source, sink))
}

// The lines of a case, or the first that is refused.
fn lines_of(alloc: Global, lines: &str) -> Result<Result<DoLines, u64>, Fault>
    ensures { IfOk result (λ read. IfOk read AreLawful) }
{
    let mut input = Bytes::new(alloc);
    put_exchanged(&mut input, lines.as_bytes(), MARK, NEWLINE)?;
    match read_do_lines(alloc, input.as_slice()) {
        Ok(lines) => Ok(Ok(lines)),
        Err(LinesFault::Line(number)) => Ok(Err(number)),
        Err(LinesFault::NoMemory) => Err(Fault::NoMemory),
    }
}

fn talked(alloc: Global, case: Case, lines: DoLines) -> Result<Bytes, Fault>
    requires { AreLawful lines }
{
    let tree = tree_of(case.tree)?;
    let client = client_of(alloc, case)?;
    let output = told_sink(alloc, PIECE, case.fails, ROOM)?;
    talk(alloc, client, output, tree, lines)
}

/// The answer to the fields behind the word `do`.
pub(crate) fn do_line(alloc: Global, fields: &str) -> Result<Bytes, Fault> {
    let case = case_of(fields)?;
    match lines_of(alloc, case.lines)? {
        Ok(lines) => talked(alloc, case, lines),
        Err(number) => refused(alloc, number),
    }
}
