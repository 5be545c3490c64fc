//! A replay, by its exit status.

ghost use Rattle.std.specs.Prelude.{◌≡◌};
ghost use Rattle.am_base.specs.Seen.{seen};
ghost use Rattle.acmefs.specs.Ends.{status_of};
ghost use Rattle.acmefs.specs.Top.{OfJournal};
ghost use Rattle.am_replay.specs.Ends.{Says};
ghost use Rattle.am_replay.specs.Own.{PutsOwn};
ghost use Rattle.event_laws.specs.Laws.{EventLaws};
ghost use Rattle.event_laws.specs.PortLaws.{PortLaws};

use crate::outcome::{ReplayEnd, status_of};
use am_base::{Sink, Source};
use am_replay::replay;
use event_laws::{events_are_lawful, ports_are_lawful};
use std::alloc::Global;

/// Replays the transcript that the input gives, and writes a line for each reply and the report.
pub fn replay_main<I: Source, O: Sink>(alloc: Global, input: &mut I, output: &mut O) -> ReplayEnd
    ensures headline { (end : _) × (result.status ≡ status_of end)
        × Says end (I.told input.old) (I.told input.new)
        (seen (O.told output.old) (O.told output.new))
        result.journal }
    // The output got the lines of the journal's replies, and then the report of its run or a line `refused`: by the
    // status all of it, or a front.
    ensures own_text { (end : _) × (result.status ≡ status_of end)
        × PutsOwn end (seen (O.told output.old) (O.told output.new)) result.journal }
    // Each event of the journal was enabled at its place, all laws of journals hold of it, and it is a transcript.
    ensures journal { OfJournal result.journal }
    // What came of the items of event files.
    ensures events { EventLaws result.journal }
    // What each opening of a port got of the messages that came to it.
    ensures ports { PortLaws result.journal }
{
    events_are_lawful();
    ports_are_lawful();
    let ended = replay(alloc, input, output);
    ReplayEnd {
        status: status_of(ended.end),
        journal: ended.journal,
    }
}
