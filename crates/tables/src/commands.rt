//! Commands of Edit: what they do to a text.
//!
//! A line is `edit`, the number and the name of a window, its text, dot and a command. Dot is two places with a comma
//! between them. A line with `command` in place of `edit` is read by `read_edit`.
//!
//! | answer | is |
//! |---|---|
//! | `Q0,Q1`, the text, the prints | dot and the text after the command, and what it prints |
//! | kind, window, directory, command, input | behind that, for each request |
//! | `range`, `no match`, `order`, `sequence`, `overlap` | why it can't be done |
//! | `bad PLACE`, `nodes`, `deep` | why it is no command |
//! | `none` | that it is none, of `command` |

ghost use Rattle.std.specs.Prelude.{◌≡◌, IfOk};

use crate::fault::Fault;
use crate::fields::{cut_twice, number_of, range_in, text_of};
use crate::plans::plan_line;
use am_text::{Range, Rune, Runes};
use edit_run::{EditFault, Site, changes};
use sam_syntax::{Cmd, parse_edit, read_edit};
use std::alloc::Global;

impl From<EditFault> for Fault {
    fn from(fault: EditFault) -> Fault {
        match fault {
            EditFault::Range => Fault::Says("range"),
            EditFault::NoMatch => Fault::Says("no match"),
            EditFault::Order => Fault::Says("order"),
            EditFault::Sequence => Fault::Says("sequence"),
            EditFault::Overlap => Fault::Says("overlap"),
            EditFault::NoMemory => Fault::NoMemory,
        }
    }
}

/// Which call reads a command.
#[derive(Clone, Copy)]
pub enum Reader {
    ParseEdit,
    ReadEdit,
}

fn read(alloc: Global, text: &[Rune]) -> Result<Cmd, Fault> {
    match read_edit(alloc, text)? {
        Some(command) => Ok(command),
        None => Err(Fault::Says("none")),
    }
}

fn command_of(alloc: Global, field: &str, reader: Reader) -> Result<Cmd, Fault> {
    let text = text_of(alloc, field)?;
    match reader {
        Reader::ParseEdit => Ok(parse_edit(alloc, text.as_slice())?),
        Reader::ReadEdit => read(alloc, text.as_slice()),
    }
}

fn site_of(alloc: Global, window: &str, name: &str, dot: Range) -> Result<Site, Fault>
    ensures { IfOk result (λ site. site.dot ≡ dot) }
{
    let window = number_of(window)?;
    let name = text_of(alloc, name)?;
    Ok(Site { window, name, dot })
}

// What a command does to a text in a window with this number and name.
fn done_in(
    alloc: Global,
    (window, name): (&str, &str),
    text: &Runes,
    dot: &str,
    command: &Cmd,
) -> Result<Vec<u8>, Fault> {
    let dot = range_in(dot, text)?;
    let site = site_of(alloc, window, name, dot)?;
    let plan = changes(alloc, command, text, &site)?;
    plan_line(alloc, &plan, text)
}

/// What a command does.
pub fn done(alloc: Global, case: &str, reader: Reader) -> Result<Vec<u8>, Fault> {
    let (window, name, fields) = cut_twice(case)?;
    let (text, dot, command) = cut_twice(fields)?;
    let text = text_of(alloc, text)?;
    let command = command_of(alloc, command, reader)?;
    done_in(alloc, (window, name), &text, dot, &command)
}
