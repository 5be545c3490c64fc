// Tables of cases for values that calls change: each line of standard input is a call, and its answer is written in a
// line. A line that is no call, or whose call isn't allowed as things are, is answered `?`.
//
// It is a test program. Its stored input and output are compared when it is run; no contract says what it
// writes.
#![tactic(auto)]

mod answers;
mod body;
mod book;
mod call;
mod edits;
mod fault;
mod items;
mod log;
mod ports;
mod queue;
mod stores;
mod tables;

use fault::Fault;
use std::alloc::AllocError;
use std::io::{self, BufRead, BufReader, BufWriter, Write};
use tables::{Tables, answer};

// Answers the lines of the input. The tables are borrowed, since `main` would drop them at each `?`.
fn answer_lines<R: Input + Print + AllocGlobal>(rt: &R, tables: &mut Tables) -> io::Result<()> {
    let alloc = rt.alloc();
    let mut output = BufWriter::new(alloc, io::writer(rt))?;
    for line in BufReader::new(alloc, rt.reader())?.lines(alloc) {
        match answer(alloc, tables, line?.as_str()) {
            Ok(text) => output.write_all(text.as_slice())?,
            Err(Fault::NoCase) => output.write_all(b"?")?,
            Err(Fault::NoMemory) => return Err(AllocError.into()),
        }
        output.write_all(b"\n")?;
    }
    output.flush()
}

fn main(rt: HostRuntime) -> io::Result<()> {
    let mut tables = Tables::new(rt.alloc()).map_err(|_| AllocError)?;
    answer_lines(&rt, &mut tables)
}
