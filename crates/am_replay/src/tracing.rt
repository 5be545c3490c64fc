//! A trace: a replay in words.

ghost use Rattle.std.specs.Prelude.{◌≡◌, ◌++◌, ◌<◌, ◌∷◌, [], List, length, IfOk, OnOk};
ghost use Rattle.std.specs.List.{AllByRecursion};
ghost use Rattle.am_text.specs.Lines.{lines_of};
ghost use Rattle.am_base.specs.Seen.{seen};
ghost use Rattle.am_journal.specs.declared.event.Event.{Event};
ghost use Rattle.am_journal.specs.declared.event.Journal.{Journal};
ghost use Rattle.am_journal.specs.Journal.{heading_text, journal_in, longer};
ghost use Rattle.ninep_types.specs.Reading.{r_of};
ghost use Rattle.acme_core.specs.Run.{run, settled};
ghost use Rattle.core_laws.specs.Journals.{JournalLaws};
ghost use Rattle.am_replay.specs.Playing.{Stops};
ghost use Rattle.am_replay.specs.Scripts.{script_behind, script_in};
ghost use Rattle.am_replay.specs.Written.{Wrote};
ghost use Rattle.am_replay.specs.Traces.{event_line, message_line, replies_words, HasWords, Shown, Traces, TraceSays};

use crate::replaying::{End, Ended, finish, no_events, refuse_input};
use crate::script::{Did, Played, Stop, do_line, put};
use acme_core::Core;
use am_base::{INPUT_LIMIT, ReadStop, Sink, Source, read_to_end};
use am_journal::{CONNECTIONS, Format, heading, split_heading};
use am_serve::first_line;
use am_text::{Bytes, Items, NoMemory, split_line};
use ninep_trace::{words_of, words_r};
use ninep_types::MAX_MSIZE;
use ninep_wire::read_r;
use std::alloc::Global;

// The line in words of the last event, with its newline.
fn last_event(alloc: Global, core: &Core) -> Result<Bytes, NoMemory>
    requires { 0 < length core.now.journal.events }
    ensures { IfOk result (λ line. (before : Journal) (e : Event) → core.now.journal ≡ longer before e → line
        ≡ event_line e) }
{
    core.events_were_enabled();
    let entries = core.events();
    let last = entries.len() - 1;
    let mut line = words_of(alloc, &entries[last])?;
    line.push(b'\n')?;
    Ok(line)
}

// The line in words of a message to a connection, with its newline. All replies are messages that have words; one that
// is none would end the trace as want of memory does.
fn reply_words(alloc: Global, conn: u32, bytes: &[u8]) -> Result<Bytes, NoMemory>
    ensures line { IfOk result (λ line. line ≡ message_line conn (r_of bytes.now)) }
    ensures worded { IfOk result (λ line. HasWords (record { conn = conn; bytes = bytes.now })) }
{
    if conn as usize >= CONNECTIONS || bytes.len() > MAX_MSIZE as usize {
        return Err(NoMemory);
    }
    match read_r(alloc, bytes) {
        Ok(message) => {
            let mut line = words_r(alloc, conn, &message)?;
            line.push(b'\n')?;
            Ok(line)
        }
        Err(_) => Err(NoMemory),
    }
}

// Puts the line in words of a message to a connection at the end.
fn put_reply(alloc: Global, text: &mut Bytes, conn: u32, bytes: &[u8]) -> Result<(), NoMemory>
    ensures line { OnOk result (text.new ≡ text.old ++ message_line conn (r_of bytes.now)) }
    ensures worded { OnOk result (HasWords (record { conn = conn; bytes = bytes.now })) }
{
    text.append(reply_words(alloc, conn, bytes)?.as_slice())
}

// Puts the lines in words of the last event's replies at the end.
#[tactic(auto, using(crate::proofs::Traced::trace_more), unfolding(crate::specs::Traces::replies_words))]
fn put_replies(alloc: Global, text: &mut Bytes, core: &Core) -> Result<(), NoMemory>
    ensures text { OnOk result (text.new ≡ text.old ++ replies_words (run core.now.journal).replies) }
    ensures worded { OnOk result (AllByRecursion HasWords (run core.now.journal).replies) }
{
    let mut k = 0;
    while let Some((conn, message)) = core.last_reply(k) {
        put_reply(alloc, text, conn, message)?;
        k += 1;
    }
    Ok(())
}

// The lines in words of the last event and of its replies.
fn entry_text(alloc: Global, core: &Core) -> Result<Bytes, NoMemory>
    requires { 0 < length core.now.journal.events }
    ensures text { IfOk result (λ text. (before : Journal) (e : Event) → core.now.journal ≡ longer before e
        → text ≡ event_line e ++ replies_words (run core.now.journal).replies) }
    ensures worded { IfOk result (λ text. AllByRecursion HasWords (run core.now.journal).replies) }
{
    let mut text = last_event(alloc, core)?;
    put_replies(alloc, &mut text, core)?;
    Ok(text)
}

// Writes the heading, and answers whether the output has failed.
fn put_heading<O: Sink>(core: &Core, output: &mut O) -> bool
    ensures { Wrote result
        (seen (O.told output.old) (O.told output.new))
        (heading_text core.now.journal.format) }
{
    put(output, false, heading(core.format()))
}

/// Does the lines behind the heading of a transcript from the empty editor on, and writes the heading, and each event
/// and its replies in words.
fn play_words<O: Sink>(alloc: Global, core: &mut Core, output: &mut O, input: &[u8]) -> Played
    requires { core.old ≡ settled (journal_in core.old.journal.format []) }
    ensures settled { core.new ≡ settled core.new.journal }
    ensures stops { Stops result.stop (script_behind core.old.journal.format (lines_of input.now)) core.new.journal }
    ensures shown { Shown result.stop result.failed
        (seen (O.told output.old) (O.told output.new))
        core.new.journal }
{
    let mut failed = put_heading(core, output);
    let mut rest = input;
    let mut k = first_line(core.format());
    while !rest.is_empty() {
        let (line, after) = split_line(rest);
        let stop = match do_line(alloc, core, k, line) {
            Did::Event => match entry_text(alloc, core) {
                Ok(text) => {
                    failed = put(output, failed, text.as_slice());
                    rest = after;
                    k += 1;
                    continue;
                }
                Err(NoMemory) => Stop::NoMemory,
            },
            Did::Report => Stop::Report,
            Did::Refused(fault) => Stop::Refused { line: k, fault },
            Did::NoMemory => Stop::NoMemory,
        };
        return Played { stop, failed };
    }
    Played {
        stop: Stop::Report,
        failed,
    }
}

/// Traces a transcript of lawful length.
fn trace_lines<O: Sink>(alloc: Global, bytes: &[u8], output: &mut O) -> Ended
    ensures traces { Traces result.end (script_in (lines_of bytes.now))
        (seen (O.told output.old) (O.told output.new))
        result.journal }
    ensures laws { JournalLaws result.journal }
{
    let (format, lines) = split_heading(bytes);
    let Ok(mut core) = Core::new(alloc, format) else {
        return no_events(alloc, format, End::NoMemory);
    };
    let played = play_words(alloc, &mut core, output, lines);
    finish(alloc, core, played, output)
}

/// Traces the transcript that the input gives.
pub fn trace<I: Source, O: Sink>(alloc: Global, input: &mut I, output: &mut O) -> Ended
    ensures says { TraceSays result.end (I.told input.old) (I.told input.new)
        (seen (O.told output.old) (O.told output.new))
        result.journal }
    ensures laws { JournalLaws result.journal }
{
    match read_to_end(alloc, input, INPUT_LIMIT) {
        Ok(bytes) => trace_lines(alloc, bytes.as_slice(), output),
        Err(ReadStop::TooLong) => refuse_input(alloc, output),
        Err(ReadStop::ReadFault) => no_events(alloc, Format::One, End::ReadFault),
        Err(ReadStop::NoMemory) => no_events(alloc, Format::One, End::NoMemory),
    }
}
