//! A drill, by its exit status.

ghost use Rattle.std.specs.Prelude.{◌≡◌, ◌≤◌};
ghost use Rattle.am_base.specs.Seen.{seen};
ghost use Rattle.am_drill.specs.Drill.{most_rounds};
ghost use Rattle.acmefs.specs.Ends.{drill_status, Drilled};
ghost use Rattle.acmefs.specs.Top.{OfJournal};
ghost use Rattle.event_laws.specs.Laws.{EventLaws};
ghost use Rattle.event_laws.specs.PortLaws.{PortLaws};

use crate::outcome::ReplayEnd;
use crate::status::Status;
use am_base::Sink;
use am_drill::{DrillEnd, drill, drill_is_played};
use core_laws::journals_are_lawful;
use event_laws::{events_are_lawful, ports_are_lawful};
use std::alloc::Global;

fn drill_status(end: DrillEnd) -> Status
    ensures { result ≡ drill_status end }
{
    match end {
        DrillEnd::Done => Status::Done,
        DrillEnd::WriteFault => Status::WriteFault,
        DrillEnd::NoMemory => Status::NoMemory,
    }
}

/// Does the events of a drill of so many rounds from the empty editor on, and writes the summary of their run
/// (docs/formats/drill.md). The status is 0 where all was done and written, 4 where the output failed, 6 where memory
/// ran out.
pub fn drill_main<O: Sink>(alloc: Global, rounds: u64, output: &mut O) -> ReplayEnd
    requires rounds { (1 ≤ rounds) × (rounds ≤ most_rounds) }
    ensures drills { Drilled result.status rounds
        (seen (O.told output.old) (O.told output.new)) result.journal }
    // Each event of the journal was enabled at its place, all laws of journals hold of it, and it is a transcript.
    ensures journal { OfJournal result.journal }
    // What came of the items of event files.
    ensures events { EventLaws result.journal }
    // What each opening of a port got of the messages that came to it.
    ensures ports { PortLaws result.journal }
{
    drill_is_played();
    events_are_lawful();
    ports_are_lawful();
    journals_are_lawful();
    let drilled = drill(alloc, rounds, output);
    ReplayEnd {
        status: drill_status(drilled.end),
        journal: drilled.journal,
    }
}
