//! What the words ask for.

ghost use Rattle.std.specs.Prelude.{◌≡◌, ◌≤◌, [], None};
ghost use Rattle.am_base.specs.Seen.{given, seen};
ghost use Rattle.am_drill.specs.Drill.{most_rounds};
ghost use Rattle.am_journal.specs.Journal.{AreSpelled};
ghost use Rattle.am_replay.specs.Ends.{Says};
ghost use Rattle.am_replay.specs.PackEnds.{PackSays};
ghost use Rattle.am_replay.specs.Traces.{TraceSays};
ghost use Rattle.am_slots.specs.Slots.{outside};
ghost use Rattle.am_words.specs.Words.{asks_do, asks_serve};
ghost use Rattle.acmefs.specs.Ends.{Drilled, status_of};
ghost use Rattle.acmefs.specs.Packs.{pack_status};
ghost use Rattle.acmefs.specs.Top.{OfJournal, OfWords, run};

use crate::doing::do_main;
use crate::drill::drill_main;
use crate::outcome::{Outcome, idle, status_of};
use crate::replaying::replay_main;
use crate::serving::serve_main;
use crate::status::Status;
use am_base::{Host, Sink, Source};
use am_replay::{End, PackEnd, pack, trace};
use am_slots::Site;
use am_text::{Items, NoMemory, Words};
use am_words::{Asked, read_words};
use std::alloc::Global;
use std::sync::Wait;
use std::thread::Threads;

// What a replay comes to.
fn replayed<I: Source, O: Sink, H: Host>(alloc: Global, input: &mut I, output: &mut O) -> Outcome<H>
    ensures says { (end : _) × (result.status ≡ status_of end)
        × Says end (I.told input.old) (I.told input.new)
        (seen (O.told output.old) (O.told output.new)) result.journal }
    ensures journal { OfJournal result.journal }
    ensures unserved { result.served ≡ [] }
{
    let ended = replay_main(alloc, input, output);
    Outcome {
        status: ended.status,
        journal: ended.journal,
        served: Items::new(alloc),
    }
}

// What a trace comes to.
fn traced<I: Source, O: Sink, H: Host>(alloc: Global, input: &mut I, output: &mut O) -> Outcome<H>
    ensures says { (end : _) × (result.status ≡ status_of end)
        × TraceSays end (I.told input.old) (I.told input.new)
        (seen (O.told output.old) (O.told output.new)) result.journal }
    ensures journal { OfJournal result.journal }
    ensures unserved { result.served ≡ [] }
{
    let ended = trace(alloc, input, output);
    Outcome {
        status: status_of(ended.end),
        journal: ended.journal,
        served: Items::new(alloc),
    }
}

// The status of an end of packing.
fn pack_status(end: PackEnd) -> Status
    ensures { result ≡ pack_status end }
{
    match end {
        PackEnd::Done => Status::Done,
        PackEnd::Script => Status::Refused,
        PackEnd::ReadFault => Status::ReadFault,
        PackEnd::WriteFault => Status::WriteFault,
        PackEnd::NoMemory => Status::NoMemory,
    }
}

// What packing comes to.
fn packed<I: Source, O: Sink, H: Host>(alloc: Global, input: &mut I, output: &mut O) -> Outcome<H>
    ensures says { (end : _) × (result.status ≡ pack_status end)
        × PackSays end (I.told input.old) (I.told input.new)
        (seen (O.told output.old) (O.told output.new)) result.journal }
    ensures spelled { AreSpelled result.journal.events }
    ensures unserved { result.served ≡ [] }
{
    let ended = pack(alloc, input, output);
    Outcome {
        status: pack_status(ended.end),
        journal: ended.journal,
        served: Items::new(alloc),
    }
}

// What a drill comes to.
fn drilled<O: Sink, H: Host>(alloc: Global, rounds: u64, output: &mut O) -> Outcome<H>
    requires rounds { (1 ≤ rounds) × (rounds ≤ most_rounds) }
    ensures drills { Drilled result.status rounds
        (seen (O.told output.old) (O.told output.new)) result.journal }
    ensures journal { OfJournal result.journal }
    ensures unserved { result.served ≡ [] }
{
    let ended = drill_main(alloc, rounds, output);
    Outcome {
        status: ended.status,
        journal: ended.journal,
        served: Items::new(alloc),
    }
}

/// Does what the words ask for.
pub(crate) fn do_asked<I: Source, O: Sink, H: Host, R: Threads + Wait + Sync>(
    rt: &R,
    alloc: Global,
    words: &Words,
    input: &mut I,
    output: &mut O,
    host: &mut H,
) -> Outcome<H>
    ensures words { OfWords words.now (run result.status
        (outside H.G.told H.G.L.told H.G.L.R.told H.G.L.W.told)
        (given (I.told input.old) (I.told input.new) (H.told host.old) (H.told host.new))
        (seen (O.told output.old) (O.told output.new)) result.journal result.served) }
    // Only words that ask for serving, or for doing lines, touch the host.
    ensures untouched { asks_serve words.now ≡ None → asks_do words.now ≡ None → host.new ≡ host.old }
    // It is asked for nothing where no slot and no client is told of.
    ensures unasked { result.served ≡ [] → host.new ≡ host.old }
{
    match read_words(alloc, words.as_slice()) {
        Ok(Some(Asked::Replay)) => replayed(alloc, input, output),
        Ok(Some(Asked::Trace)) => traced(alloc, input, output),
        Ok(Some(Asked::Pack)) => packed(alloc, input, output),
        Ok(Some(Asked::Drill { rounds })) => drilled(alloc, rounds, output),
        Ok(Some(Asked::Serve { path, clients })) => {
            let site = Site {
                path: &path,
                clients,
            };
            serve_main(rt, alloc, &site, input, output, host)
        }
        Ok(Some(Asked::Do { path, tree })) => do_main(alloc, &path, tree, input, output, host),
        Ok(None) => idle(alloc, End::Usage),
        Err(NoMemory) => idle(alloc, End::NoMemory),
    }
}
