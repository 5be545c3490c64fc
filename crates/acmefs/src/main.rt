//! acmefs: the files of Acme over 9P2000.
#![tactic(auto)]

mod asked;
mod doing;
mod drill;
mod outcome;
mod program;
mod replaying;
mod serving;
mod status;

use am_base::{InputSource, OutputSink, UnixHost};
use am_text::{Items, NoMemory, Words};
use program::acmefs;
use status::Status;
use std::alloc::Global;
use std::env;
use std::fs::File;
use std::io::{self, ErrorKind};
use std::os::fd::AsRawFd;
use std::process::ExitCode;
use std::rt::{Env, Files};

// The descriptor of the standard error. Those of the input and the output are below it.
const LAST_STANDARD: i32 = 2;

// The words after the program's name, or none where one isn't UTF-8.
fn words_of(rt: &(impl Env + AllocGlobal)) -> Result<Option<Words>, NoMemory> {
    let mut words = Items::new(rt.alloc());
    let args = match env::args(rt) {
        Ok(args) => args,
        Err(error) if error.kind() == ErrorKind::InvalidData => return Ok(None),
        Err(_) => return Err(NoMemory),
    };
    for (k, arg) in args.enumerate() {
        if 0 < k {
            words.push(Items::from_vec(arg.into_bytes()))?;
        }
    }
    Ok(Some(words))
}

// A folder in place of a standard stream that the program was started without: it can be neither read nor written. Else
// the first socket would stand there. None where all three are there, or where it can't be opened.
fn stand_in<R: Files<File = File>>(rt: &R) -> Option<File> {
    let folder = File::open(rt, "/").ok()?;
    if folder.as_raw_fd() <= LAST_STANDARD {
        Some(folder)
    } else {
        None
    }
}

fn main(rt: HostRuntime) -> ExitCode {
    let _stand_ins = (stand_in(&rt), stand_in(&rt), stand_in(&rt));
    let words = match words_of(&rt) {
        Ok(Some(words)) => words,
        Ok(None) => return ExitCode::from(Status::Usage.number()),
        Err(NoMemory) => return ExitCode::from(Status::NoMemory.number()),
    };
    let mut input = InputSource::new(rt.reader());
    let mut output = OutputSink::new(io::writer(&rt));
    let mut host = UnixHost::new(&rt);
    let outcome = acmefs(&rt, rt.alloc(), &words, &mut input, &mut output, &mut host);
    ExitCode::from(outcome.status.number())
}
