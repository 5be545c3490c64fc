//! Replaying a transcript.

ghost use Rattle.std.specs.Prelude.{◌≡◌, [], None, codes, IfOk};
ghost use Rattle.am_text.specs.Lines.{lines_of};
ghost use Rattle.am_journal.specs.Journal.{journal_in};
ghost use Rattle.am_base.specs.Seen.{seen};
ghost use Rattle.acme_core.specs.Run.{settled};
ghost use Rattle.core_laws.specs.Journals.{JournalLaws};
ghost use Rattle.am_replay.specs.Scripts.{script_in, none_read, end_of, refused_at};
ghost use Rattle.am_replay.specs.Ends.{Ran, Says};
ghost use Rattle.am_replay.specs.Playing.{EndText, Finishes, end_at};
ghost use Rattle.am_replay.specs.Traces.{Traces};

use crate::script::{Played, Stop, empty_journal, play, put};
use acme_core::Core;
use am_base::{INPUT_LIMIT, ReadStop, Sink, Source, read_to_end};
use am_journal::{Format, Journal, refused_line, report, split_heading};
use am_serve::fault_word;
use am_text::{Bytes, NoMemory};
use core_laws::journals_are_lawful;
use std::alloc::Global;

/// How a run ended.
#[derive(Clone, Copy, Debug, PartialEq, Eq)]
pub enum End {
    /// All was done and written.
    Done,
    /// The words ask for nothing that is known.
    Usage,
    /// A line, or the whole input, is refused.
    Script,
    /// The input could not be read.
    ReadFault,
    /// The output could not be written.
    WriteFault,
    /// Memory ran out.
    NoMemory,
}

/// How a run ended, and the events that were done.
#[derive(Drop)]
pub struct Ended {
    pub end: End,
    pub journal: Journal,
}

// The events that were done, at the end.
fn journal_of(core: Core) -> Journal
    ensures journal { result ≡ core.journal }
    ensures laws { JournalLaws result }
{
    // law: each event was enabled, and could be done, at its place
    core.events_were_enabled();
    core.events_were_possible();
    // law: journals are lawful
    journals_are_lawful();
    core.into_journal()
}

pub(crate) fn no_events(alloc: Global, format: Format, end: End) -> Ended
    ensures end { result.end ≡ end }
    ensures journal { result.journal ≡ journal_in format [] }
    ensures laws { JournalLaws result.journal }
{
    // law: journals are lawful
    journals_are_lawful();
    Ended {
        end,
        journal: empty_journal(alloc, format),
    }
}

#[tactic(auto, unfolding(crate::specs::Scripts::end_of))]
fn report_text(alloc: Global, core: &Core) -> Result<Bytes, NoMemory>
    requires { core.now ≡ settled core.now.journal }
    ensures { IfOk result (λ text. text ≡ end_of core.now.journal None) }
{
    let view = core.view()?;
    report(alloc, &view)
}

// What is written at a stop; a stop for want of memory has none.
fn end_text(alloc: Global, core: &Core, stop: Stop) -> Result<Bytes, NoMemory>
    requires { core.now ≡ settled core.now.journal }
    ensures { IfOk result (λ text. EndText stop core.now.journal text) }
{
    match stop {
        Stop::Report => report_text(alloc, core),
        Stop::Refused { line, fault } => refused_line(alloc, line, fault_word(fault)),
        Stop::NoMemory => Err(NoMemory),
    }
}

// How a run ends that stopped so.
fn end_at(stop: Stop, failed: bool) -> End
    ensures { result ≡ end_at stop failed }
{
    match stop {
        Stop::Report => { if failed { End::WriteFault } else { End::Done } }
        Stop::Refused { .. } => End::Script,
        Stop::NoMemory => End::NoMemory,
    }
}

/// Writes what stands at the end of a run that stopped so.
pub(crate) fn finish<O: Sink>(alloc: Global, core: Core, played: Played, output: &mut O) -> Ended
    requires { core ≡ settled core.journal }
    ensures ends { Finishes played.stop played.failed
        (seen (O.told output.old) (O.told output.new))
        core.journal result.end }
    ensures journal { result.journal ≡ core.journal }
    ensures laws { JournalLaws result.journal }
{
    match end_text(alloc, &core, played.stop) {
        Ok(text) => {
            let failed = put(output, played.failed, text.as_slice());
            Ended {
                end: end_at(played.stop, failed),
                journal: journal_of(core),
            }
        }
        Err(NoMemory) => Ended {
            end: End::NoMemory,
            journal: journal_of(core),
        },
    }
}

/// Refuses a transcript that is too long.
pub(crate) fn refuse_input<O: Sink>(alloc: Global, output: &mut O) -> Ended
    ensures ran { Ran result.end (refused_at none_read 0 (codes "input"))
        (seen (O.told output.old) (O.told output.new))
        result.journal }
    ensures traces { Traces result.end (refused_at none_read 0 (codes "input"))
        (seen (O.told output.old) (O.told output.new))
        result.journal }
    ensures laws { JournalLaws result.journal }
{
    match refused_line(alloc, 0, b"input") {
        Ok(text) => {
            let _failed = put(output, false, text.as_slice());
            no_events(alloc, Format::One, End::Script)
        }
        Err(NoMemory) => no_events(alloc, Format::One, End::NoMemory),
    }
}

/// Replays a transcript of lawful length.
fn replay_lines<O: Sink>(alloc: Global, bytes: &[u8], output: &mut O) -> Ended
    ensures ran { Ran result.end (script_in (lines_of bytes.now))
        (seen (O.told output.old) (O.told output.new))
        result.journal }
    ensures laws { JournalLaws result.journal }
{
    let (format, lines) = split_heading(bytes);
    let Ok(mut core) = Core::new(alloc, format) else {
        return no_events(alloc, format, End::NoMemory);
    };
    let played = play(alloc, &mut core, output, lines);
    finish(alloc, core, played, output)
}

/// Replays the transcript that the input gives.
pub fn replay<I: Source, O: Sink>(alloc: Global, input: &mut I, output: &mut O) -> Ended
    ensures says { Says result.end (I.told input.old) (I.told input.new)
        (seen (O.told output.old) (O.told output.new))
        result.journal }
    ensures laws { JournalLaws result.journal }
{
    match read_to_end(alloc, input, INPUT_LIMIT) {
        Ok(bytes) => replay_lines(alloc, bytes.as_slice(), output),
        Err(ReadStop::TooLong) => refuse_input(alloc, output),
        Err(ReadStop::ReadFault) => no_events(alloc, Format::One, End::ReadFault),
        Err(ReadStop::NoMemory) => no_events(alloc, Format::One, End::NoMemory),
    }
}
