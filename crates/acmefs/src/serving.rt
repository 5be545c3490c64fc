//! Serving, by its exit status.

ghost use Rattle.std.specs.Prelude.{◌≡◌, ◌≤◌, []};
ghost use Rattle.am_base.specs.Seen.{given, seen};
ghost use Rattle.am_journal.specs.Limits.{connection_count};
ghost use Rattle.acmefs.specs.Ends.{serve_status};
ghost use Rattle.acmefs.specs.Top.{OfServe, run};
ghost use Rattle.am_slots.specs.Slots.{outside};
ghost use Rattle.event_laws.specs.Laws.{EventLaws};
ghost use Rattle.event_laws.specs.PortLaws.{PortLaws};

use crate::outcome::Outcome;
use crate::status::Status;
use am_base::{Host, Sink, Source};
use am_server::{HostServing, ServeEnd, Serving, serve};
use am_slots::Site;
use core_laws::journals_are_lawful;
use event_laws::{events_are_lawful, ports_are_lawful};
use std::alloc::Global;
use std::sync::Wait;
use std::thread::Threads;

// The status of an end of serving.
fn serve_status(end: ServeEnd) -> Status
    ensures { result ≡ serve_status end }
{
    match end {
        ServeEnd::Done => Status::Done,
        ServeEnd::Script => Status::Refused,
        ServeEnd::ReadFault => Status::ReadFault,
        ServeEnd::WriteFault => Status::WriteFault,
        ServeEnd::HostFault => Status::HostFault,
        ServeEnd::NoMemory => Status::NoMemory,
    }
}

fn outcome_of<H: Host>(serving: HostServing<H>) -> Outcome<H>
    ensures status { result.status ≡ serve_status serving.end }
    ensures journal { result.journal ≡ serving.journal }
    ensures served { result.served ≡ serving.served }
{
    let Serving {
        end,
        journal,
        served,
    } = serving;
    Outcome {
        status: serve_status(end),
        journal,
        served,
    }
}

/// Serves a connection for each of so many slots of a path, and does the script that the input gives beside them.
pub fn serve_main<I: Source, O: Sink, H: Host, R: Threads + Wait + Sync>(
    rt: &R,
    alloc: Global,
    site: &Site<'_>,
    input: &mut I,
    output: &mut O,
    host: &mut H,
) -> Outcome<H>
    requires clients { (1 ≤ site.now.clients) × (site.now.clients ≤ connection_count) }
    // What serving promises.
    ensures serves { OfServe site.now.path.now site.now.clients (run result.status
        (outside H.G.told H.G.L.told H.G.L.R.told H.G.L.W.told)
        (given (I.told input.old) (I.told input.new) (H.told host.old) (H.told host.new))
        (seen (O.told output.old) (O.told output.new)) result.journal result.served) }
    // Where no slot is told of, the host was asked for nothing.
    ensures unasked { result.served ≡ [] → host.new ≡ host.old }
    // What came of the items of event files.
    ensures events { EventLaws result.journal }
    // What each opening of a port got of the messages that came to it.
    ensures ports { PortLaws result.journal }
{
    journals_are_lawful();
    events_are_lawful();
    ports_are_lawful();
    outcome_of(serve(rt, alloc, site, input, output, host))
}
