// Tables of cases: each line of standard input is a case, and its answer is written in a line. A line is a word and
// its fields, with one tab before each; the last field may have tabs. Texts are escaped: a newline as `\n`, a
// backslash as `\\`. A line that is no case is answered `?`.
//
// | word | its cases are in |
// |---|---|
// | `addr`, `address` | addresses.rt |
// | `piece` | pieces.rt |
// | `edit`, `command` | commands.rt |
// | `re` | expressions.rt |
// | `machines` | machines.rt |
// | `names` | names.rt |
// | `rules`, `bytes`, `sets` | rules.rt |
// | `times` COUNT FRONT BEHIND LINE | the line, with each `@` of it as so many FRONT and then so many BEHIND |
//
// It is a test program. Its stored input and output are compared when it is run; no contract says what it
// writes.
#![tactic(auto)]

mod addresses;
mod commands;
mod expressions;
mod fault;
mod fields;
mod machines;
mod names;
mod pieces;
mod plans;
mod rules;

use commands::Reader;
use fault::Fault;
use fields::{cut, cut_twice, number_of};
use name_tree::Tree;
use plumb_rules::Vars;
use rules::Coding;
use std::alloc::{AllocError, Global};
use std::io::{self, BufRead, BufReader, BufWriter, Write};

// What lives on from line to line: the tree of `names`, and the variables that rules know.
#[derive(Drop)]
struct State {
    tree: Tree,
    known: Vars,
}

// The answer to a case of a table.
fn found(alloc: Global, state: &mut State, word: &str, case: &str) -> Result<Vec<u8>, Fault> {
    match word {
        "addr" => addresses::valued(alloc, case),
        "address" => addresses::ended(alloc, case),
        "piece" => pieces::first(alloc, case),
        "edit" => commands::done(alloc, case, Reader::ParseEdit),
        "command" => commands::done(alloc, case, Reader::ReadEdit),
        "re" => Ok(expressions::answer(alloc, case)?.into_vec()),
        "machines" => machines::answer(alloc, case),
        "names" => names::answer(alloc, &mut state.tree, case),
        "rules" => rules::routed(alloc, &state.known, case, Coding::Utf8),
        "bytes" => rules::routed(alloc, &state.known, case, Coding::Bytes),
        "sets" => rules::counted(alloc, &mut state.known, case),
        _ => Err(Fault::NoCase),
    }
}

fn asked(alloc: Global, state: &mut State, line: &str) -> Result<Vec<u8>, Fault> {
    let (word, case) = cut(line)?;
    found(alloc, state, word, case)
}

// So many of one part, and then so many of another.
fn repeated(alloc: Global, count: usize, front: &str, behind: &str) -> Result<String, AllocError> {
    let mut parts = front.repeat(alloc, count)?;
    parts.push_str(behind.repeat(alloc, count)?.as_str())?;
    Ok(parts)
}

// The line with parts repeated in it.
fn widened(alloc: Global, fields: &str) -> Result<String, Fault> {
    let (count, front, fields) = cut_twice(fields)?;
    let (behind, line) = cut(fields)?;
    let parts = repeated(alloc, number_of(count)?, front, behind)?;
    Ok(line.replace(alloc, '@', parts.as_str())?)
}

fn answer(alloc: Global, state: &mut State, line: &str) -> Result<Vec<u8>, Fault> {
    match line.strip_prefix("times\t") {
        Some(fields) => asked(alloc, state, widened(alloc, fields)?.as_str()),
        None => asked(alloc, state, line),
    }
}

fn main(rt: HostRuntime) -> io::Result<()> {
    let alloc = rt.alloc();
    let mut state = State {
        tree: Tree::new(alloc),
        known: Vars::new(alloc),
    };
    let mut output = BufWriter::new(alloc, io::writer(&rt))?;
    for line in BufReader::new(alloc, rt.reader())?.lines(alloc) {
        match answer(alloc, &mut state, line?.as_str()) {
            Ok(text) => output.write_all(text.as_slice())?,
            Err(Fault::NoCase) => output.write_all(b"?")?,
            Err(Fault::Bad(place)) => write!(output, "bad {place}")?,
            Err(Fault::Says(cause)) => output.write_all(cause.as_bytes())?,
            Err(Fault::NoMemory) => return Err(AllocError.into()),
        }
        output.write_all(b"\n")?;
    }
    output.flush()
}
