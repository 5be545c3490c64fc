//! Doing the lines of a transcript.

ghost use Rattle.std.specs.Prelude.{◌≡◌, [], IfOk};
ghost use Rattle.am_text.specs.Lines.{lines_of};
ghost use Rattle.am_base.specs.Seen.{seen};
ghost use Rattle.am_journal.specs.Journal.{journal_in, is_report};
ghost use Rattle.acme_core.specs.Run.{run, settled};
ghost use Rattle.am_replay.specs.Scripts.{script_behind, reply_lines, replied};
ghost use Rattle.am_replay.specs.Playing.{DidLine, Put, Stops, Shows};

use acme_core::{Core, Refused};
use am_base::{Sink, write_all};
use am_journal::{Format, Journal, read_line, reply_line};
use am_serve::{LineFault, first_line};
use am_text::{Bytes, Items, NoMemory, split_line};
use std::alloc::Global;

/// What a line did.
#[derive(Clone, Copy, Debug, PartialEq, Eq)]
pub enum Did {
    /// Its event was done.
    Event,
    /// It ends the script.
    Report,
    /// It is refused.
    Refused(LineFault),
    /// There was no memory for it.
    NoMemory,
}

/// Where a script stopped.
#[derive(Clone, Copy, Debug, PartialEq, Eq)]
pub enum Stop {
    /// At its end.
    Report,
    /// At a line that is refused.
    Refused { line: u64, fault: LineFault },
    /// For want of memory.
    NoMemory,
}

/// Where a script stopped, and whether the output has failed.
#[derive(Clone, Copy, Debug, PartialEq, Eq)]
pub struct Played {
    pub stop: Stop,
    pub failed: bool,
}

/// The empty journal of this format.
pub fn empty_journal(alloc: Global, format: Format) -> Journal
    ensures { result ≡ journal_in format [] }
{
    Journal {
        format,
        events: Items::new(alloc),
    }
}

fn is_report(line: &[u8]) -> bool
    ensures { result ≡ is_report line.now }
{
    line == b"report".as_slice()
}

/// Does one line of a transcript.
pub(crate) fn do_line(alloc: Global, core: &mut Core, k: u64, line: &[u8]) -> Did
    requires { core.old ≡ settled core.old.journal }
    ensures settled { core.new ≡ settled core.new.journal }
    ensures did { DidLine result core.old.journal k line.now core.new.journal }
{
    if is_report(line) {
        return Did::Report;
    }
    match read_line(alloc, line) {
        Err(NoMemory) => Did::NoMemory,
        Ok(None) => Did::Refused(LineFault::Line),
        Ok(Some(event)) => match core.step(event) {
            Ok(_) => Did::Event,
            Err(Refused::NotEnabled(why)) => Did::Refused(LineFault::NotEnabled(why)),
            Err(Refused::NoMemory) => Did::NoMemory,
        },
    }
}

#[tactic(auto, using(crate::proofs::Replied::lines_more), unfolding(crate::specs::Scripts::reply_lines))]
fn replies_text(alloc: Global, core: &Core) -> Result<Bytes, NoMemory>
    ensures { IfOk result (λ text. text ≡ reply_lines (run core.now.journal).replies) }
{
    let mut text = Items::new(alloc);
    let mut k = 0;
    while let Some((conn, message)) = core.last_reply(k) {
        text.append(reply_line(alloc, conn, message)?.as_slice())?;
        k += 1;
    }
    Ok(text)
}

/// Writes a text, unless the output has failed before, and answers whether it has failed by now.
pub(crate) fn put<O: Sink>(output: &mut O, failed: bool, text: &[u8]) -> bool
    ensures { Put failed result
        (seen (O.told output.old) (O.told output.new))
        text.now }
{
    if failed {
        return true;
    }
    match write_all(output, text) {
        Ok(()) => false,
        Err(_) => true,
    }
}

/// Does the lines behind the heading of a transcript from the empty editor on, and writes the replies after each event.
pub(crate) fn play<O: Sink>(alloc: Global, core: &mut Core, output: &mut O, input: &[u8]) -> Played
    requires { core.old ≡ settled (journal_in core.old.journal.format []) }
    ensures settled { core.new ≡ settled core.new.journal }
    ensures stops { Stops result.stop (script_behind core.old.journal.format (lines_of input.now)) core.new.journal }
    ensures shows { Shows result.stop result.failed
        (seen (O.told output.old) (O.told output.new))
        core.new.journal (replied core.new.journal) }
{
    let mut failed = false;
    let mut rest = input;
    let mut k = first_line(core.format());
    while !rest.is_empty() {
        let (line, after) = split_line(rest);
        let stop = match do_line(alloc, core, k, line) {
            Did::Event => match replies_text(alloc, core) {
                Ok(text) => {
                    failed = put(output, failed, text.as_slice());
                    rest = after;
                    k += 1;
                    continue;
                }
                Err(NoMemory) => Stop::NoMemory,
            },
            Did::Report => Stop::Report,
            Did::Refused(fault) => Stop::Refused { line: k, fault },
            Did::NoMemory => Stop::NoMemory,
        };
        return Played { stop, failed };
    }
    Played {
        stop: Stop::Report,
        failed,
    }
}
