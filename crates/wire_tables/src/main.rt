// Tables of cases for bytes and lines, and for the trees: each line of standard input is a case, and its answer is
// written in a line. A line that is no case is answered `?`. The heads of the modules have the cases: `texts` those of
// am_text, `messages` of ninep_wire, `records` of ninep_frame, `streams` of ninep_cut, `journal` of am_journal, `words`
// of ninep_trace, `events` of win_events, `plumbing` of plumb_msg, `trees` of acme_tree, `windows` of win_ctl,
// `outside` of the objects in memory that am_base has, `client` of ninep_client and `talk` of am_do over them.
//
// A line is a word, a tab and fields, with a tab between two. BYTES are a colon and a text in which a newline is
// written
// `\n` and a backslash `\\`, or they are in hexadecimal.
//
// It is a test program. Its stored input and output are compared when it is run; no contract says what it
// writes.
#![tactic(auto)]

mod client;
mod events;
mod fault;
mod fields;
mod journal;
mod messages;
mod outside;
mod plumbing;
mod records;
mod streams;
mod talk;
mod texts;
mod trees;
mod windows;
mod words;

use am_text::Bytes;
use fault::Fault;
use fields::cut;
use std::alloc::{AllocError, Global};
use std::io::{self, BufRead, BufReader, BufWriter, Write};
use streams::Stream;

// The answer to a line whose field are bytes.
fn with_bytes(alloc: Global, word: &str, bytes: &[u8]) -> Result<Bytes, Fault> {
    match word {
        "text" => fields::in_one_line(alloc, bytes),
        "lines" => texts::spans(alloc, bytes),
        "t" => messages::to_server(alloc, bytes),
        "t-fields" => messages::fields(alloc, bytes),
        "r" => messages::from_server(alloc, bytes),
        "stat" => records::record(alloc, bytes),
        "line" => journal::event(alloc, bytes),
        "words" => words::meaning(alloc, bytes),
        "words-t" => words::to_server(alloc, bytes),
        "words-r" => words::from_server(alloc, bytes),
        "back" => events::written_back(alloc, bytes),
        "plumb" => plumbing::message(alloc, bytes),
        "attr" => plumbing::attribute(alloc, bytes),
        _ => Err(Fault::NoCase),
    }
}

fn cut_stream(alloc: Global, stream: &mut Stream, fields: &str) -> Result<Bytes, Fault> {
    let (count, piece) = cut(fields)?;
    let Ok(count) = count.parse() else {
        return Err(Fault::NoCase);
    };
    stream.cut(alloc, count, fields::bytes(alloc, piece)?.as_slice())
}

fn pair(alloc: Global, fields: &str) -> Result<Bytes, Fault> {
    let (first, second) = cut(fields)?;
    plumbing::pair(alloc, first, second)
}

// The answer to a line, without its newline.
fn answer(alloc: Global, stream: &mut Stream, line: &str) -> Result<Bytes, Fault> {
    let (word, fields) = cut(line)?;
    match word {
        "surrogate" => texts::surrogate(alloc),
        "room" => texts::room(alloc),
        "stream" => {
            *stream = Stream::new(alloc)?;
            Ok(Bytes::new(alloc))
        }
        "cut" => cut_stream(alloc, stream, fields),
        "report" => journal::small_report(alloc),
        "spell" => events::spelled(alloc, fields),
        "pair" => pair(alloc, fields),
        "node" | "walk" | "pass" | "open" | "list" | "full" => trees::answer(alloc, word, fields),
        "tag" => windows::tag(alloc, fields),
        "index" => windows::index(alloc, fields),
        "whole" | "sure" | "reads" | "writes" | "link" | "gate" | "host" | "dial" => {
            outside::answer(alloc, word, fields)
        }
        "client" => client::client_line(alloc, fields),
        "do" => talk::do_line(alloc, fields),
        _ => with_bytes(alloc, word, fields::bytes(alloc, fields)?.as_slice()),
    }
}

fn main(rt: HostRuntime) -> io::Result<()> {
    let alloc = rt.alloc();
    let mut stream = match Stream::new(alloc) {
        Ok(stream) => stream,
        Err(_) => return Err(AllocError.into()),
    };
    let mut output = BufWriter::new(alloc, io::writer(&rt))?;
    for line in BufReader::new(alloc, rt.reader())?.lines(alloc) {
        match answer(alloc, &mut stream, line?.as_str()) {
            Ok(text) => output.write_all(text.as_slice())?,
            Err(Fault::NoCase) => output.write_all(b"?")?,
            Err(Fault::NoMemory) => return Err(AllocError.into()),
        }
        output.write_all(b"\n")?;
    }
    output.flush()
}
