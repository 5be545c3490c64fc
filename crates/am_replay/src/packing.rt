//! The events that a text in words spells, and their lines.

ghost use Rattle.std.specs.Prelude.{◌≡◌, ◌++◌, ◌<◌, false, true, length, IfOk, OnOk};
ghost use Rattle.std.specs.List.{AllByRecursion};
ghost use Rattle.am_text.specs.Lines.{lines_of};
ghost use Rattle.am_journal.specs.Journal.{is_report, events_text};
ghost use Rattle.am_journal.specs.Lawful.{IsLawful, IsInRange};
ghost use Rattle.am_replay.specs.Packing.{all_of, refused_at, fault_word, packing_in, refusal_text, packed_text};
ghost use Rattle.am_replay.specs.Packing.{DidLine};

use crate::script::empty_journal;
use am_journal::{Journal, heading, refused_line, split_heading, write_line};
use am_serve::first_line;
use am_text::{Bytes, Items, NoMemory, split_line};
use ninep_trace::{Event, Line, read_words};
use std::alloc::Global;

/// Why a text is refused.
#[derive(Clone, Copy, Debug, PartialEq, Eq)]
pub enum Fault {
    /// A line isn't in words.
    Line,
    /// The whole text is too long.
    Input,
}

/// The line that is refused, by its number from 1, and why. The number of the whole text is 0.
#[derive(Clone, Copy, Debug, PartialEq, Eq)]
pub struct Refusal {
    pub line: u64,
    pub fault: Fault,
}

/// The events that a text spells, in order, and what is refused, if anything is.
#[derive(Drop)]
pub struct Packing {
    pub journal: Journal,
    pub refused: Option<Refusal>,
}

/// What reading a line did.
#[derive(Clone, Copy, Debug, PartialEq, Eq)]
pub(crate) enum Did {
    /// Its event was put behind the others, or it is a message to a connection, which is dropped.
    Read,
    /// It ends the text.
    Report,
    /// It isn't in words.
    Nothing,
}

fn is_report(line: &[u8]) -> bool
    ensures { result ≡ is_report line.now }
{
    line == b"report".as_slice()
}

fn put_line(alloc: Global, journal: &mut Journal, line: &[u8]) -> Result<Did, NoMemory>
    requires lawful { AllByRecursion IsLawful journal.old.events }
    requires in_range { AllByRecursion IsInRange journal.old.events }
    ensures did { IfOk result (λ did. DidLine did journal.old line.now journal.new) }
    ensures lawful { IfOk result (λ did. AllByRecursion IsLawful journal.new.events) }
    ensures in_range { IfOk result (λ did. AllByRecursion IsInRange journal.new.events) }
{
    if is_report(line) {
        return Ok(Did::Report);
    }
    match read_words(alloc, line)? {
        Some(Line::Event(event)) => {
            journal.events.push(event)?;
            Ok(Did::Read)
        }
        Some(Line::Reply(_, _)) => Ok(Did::Read),
        None => Ok(Did::Nothing),
    }
}

fn at_end(journal: Journal) -> Packing
    ensures { result ≡ all_of journal }
{
    Packing {
        journal,
        refused: None,
    }
}

pub(crate) fn refused_at(journal: Journal, line: u64, fault: Fault) -> Packing
    ensures { result ≡ refused_at journal line fault }
{
    Packing {
        journal,
        refused: Some(Refusal { line, fault }),
    }
}

/// What the lines of a text spell.
pub(crate) fn read_lines(alloc: Global, input: &[u8]) -> Result<Packing, NoMemory>
    ensures exact { IfOk result (λ packing. packing ≡ packing_in (lines_of input.now)) }
    ensures lawful { IfOk result (λ packing. AllByRecursion IsLawful packing.journal.events) }
    ensures in_range { IfOk result (λ packing. AllByRecursion IsInRange packing.journal.events) }
{
    let (format, mut rest) = split_heading(input);
    let mut journal = empty_journal(alloc, format);
    let mut k = first_line(format);
    while !rest.is_empty() {
        let (line, after) = split_line(rest);
        match put_line(alloc, &mut journal, line)? {
            Did::Read => {
                rest = after;
                k += 1;
            }
            Did::Report => return Ok(at_end(journal)),
            Did::Nothing => return Ok(refused_at(journal, k, Fault::Line)),
        }
    }
    Ok(at_end(journal))
}

fn put_events(alloc: Global, text: &mut Bytes, events: &[Event]) -> Result<(), NoMemory>
    requires { AllByRecursion IsLawful events.now }
    ensures { OnOk result (text.new ≡ text.old ++ events_text events.now) }
{
    for event in events {
        text.append(write_line(alloc, event)?.as_slice())?;
        text.append(b"\n")?;
    }
    Ok(())
}

fn fault_word(fault: Fault) -> &'static [u8]
    ensures { result.now ≡ fault_word fault }
{
    match fault {
        Fault::Line => b"line",
        Fault::Input => b"input",
    }
}

fn put_refusal(alloc: Global, text: &mut Bytes, refused: Option<Refusal>) -> Result<(), NoMemory>
    ensures { OnOk result (text.new ≡ text.old ++ refusal_text refused) }
{
    match refused {
        Some(Refusal { line, fault }) => {
            text.append(refused_line(alloc, line, fault_word(fault))?.as_slice())
        }
        None => Ok(()),
    }
}

/// The journal's lines, and a line `refused` where something is.
pub(crate) fn packed_text(alloc: Global, packing: &Packing) -> Result<Bytes, NoMemory>
    requires { AllByRecursion IsLawful packing.now.journal.events }
    ensures { IfOk result (λ text. text ≡ packed_text packing.now) }
{
    let mut text = Items::copied(alloc, heading(packing.journal.format))?;
    put_events(alloc, &mut text, packing.journal.events.as_slice())?;
    put_refusal(alloc, &mut text, packing.refused)?;
    Ok(text)
}
