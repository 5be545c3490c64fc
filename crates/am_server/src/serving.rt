//! Serving connections, with a script beside them.

ghost use Rattle.std.specs.Prelude.{◌≡◌, ◌≤◌, []};
ghost use Rattle.am_base.specs.Seen.{given, host_seen, seen};
ghost use Rattle.acme_core.specs.Run.{IsPossible};
ghost use Rattle.am_slots.specs.Slots.{outside};
ghost use Rattle.am_journal.specs.Limits.{connection_count};
ghost use Rattle.am_server.specs.Ends.{ServesLines, IsTooLong, SaysServe};

use crate::writing::{ServeEnd, Serving, finish, idle};
use am_base::{Gate, Host, INPUT_LIMIT, Link, ReadStop, Sink, Source, read_to_end, write_all};
use am_desk::ServingDesk;
use am_journal::refused_line;
use am_slots::{Service, Site, serve_slots};
use am_text::NoMemory;
use core_laws::ended_connections_get_nothing_more;
use ninep_cut::pieces_are_joined;
use std::alloc::Global;
use std::sync::Wait;
use std::thread::Threads;

/// What came of serving the slots of a host.
pub type HostServing<H> = Serving<
    <H as Host>::G,
    <<H as Host>::G as Gate>::L,
    <<<H as Host>::G as Gate>::L as Link>::R,
    <<<H as Host>::G as Gate>::L as Link>::W,
>;

// Serves with a script of lawful length.
fn serve_lines<O: Sink, H: Host, R: Threads + Wait + Sync>(
    rt: &R,
    alloc: Global,
    service: &Service<'_>,
    output: &mut O,
    host: &mut H,
) -> HostServing<H>
    requires clients { (1 ≤ service.now.clients) × (service.now.clients ≤ connection_count) }
    ensures serves { ServesLines (outside H.G.told H.G.L.told H.G.L.R.told H.G.L.W.told)
        service.now.path.now service.now.clients service.now.script.now (host_seen (H.told host.old) (H.told host.new))
        (seen (O.told output.old) (O.told output.new))
        result.journal result.served result.end }
    ensures possible { IsPossible result.journal }
    ensures untouched { result.served ≡ [] → host.new ≡ host.old }
{
    let Ok(served) = Vec::with_capacity(alloc, service.clients as usize) else {
        return idle(alloc, ServeEnd::NoMemory);
    };
    let Ok((desk, mut seat)) = ServingDesk::new(alloc, 2 * u64::from(service.clients) + 1) else {
        return idle(alloc, ServeEnd::NoMemory);
    };
    // An ended connection is replied nothing more, and its messages don't depend on the pieces that were read.
    ended_connections_get_nothing_more();
    pieces_are_joined();
    match serve_slots(rt, alloc, &desk, &mut seat, host, service) {
        Ok((slots, end)) => finish(alloc, desk.close(seat), slots, end, served, output),
        Err(NoMemory) => idle(alloc, ServeEnd::NoMemory),
    }
}

// Refuses a script that is too long.
fn refuse_input<O: Sink, G, L, S, K>(alloc: Global, output: &mut O) -> Serving<G, L, S, K>
    ensures long { IsTooLong
        (seen (O.told output.old) (O.told output.new)) result.journal result.served result.end }
    ensures possible { IsPossible result.journal }
{
    match refused_line(alloc, 0, b"input") {
        Ok(text) => {
            let _written = write_all(output, text.as_slice());
            idle(alloc, ServeEnd::Script)
        }
        Err(NoMemory) => idle(alloc, ServeEnd::NoMemory),
    }
}

/// Reads a script to its end, binds the gates of a site's slots, serves a connection of each at once, and does the
/// script beside them. Writes the journal and the report once all have ended.
pub fn serve<I: Source, O: Sink, H: Host, R: Threads + Wait + Sync>(
    rt: &R,
    alloc: Global,
    site: &Site<'_>,
    input: &mut I,
    output: &mut O,
    host: &mut H,
) -> HostServing<H>
    requires clients { (1 ≤ site.now.clients) × (site.now.clients ≤ connection_count) }
    ensures says { SaysServe (outside H.G.told H.G.L.told H.G.L.R.told H.G.L.W.told)
        site.now.path.now site.now.clients (given (I.told input.old) (I.told input.new) (H.told host.old) (H.told host.new))
        (seen (O.told output.old) (O.told output.new))
        result.journal result.served result.end }
    // What each event of the journal does could be done at its place.
    ensures possible { IsPossible result.journal }
    // Where no slot is told of, the host was asked for nothing: it is only once the script was read, and there was
    // memory to begin.
    ensures untouched { result.served ≡ [] → host.new ≡ host.old }
{
    match read_to_end(alloc, input, INPUT_LIMIT) {
        Ok(script) => {
            let service = Service {
                path: site.path,
                clients: site.clients,
                script: script.as_slice(),
            };
            serve_lines(rt, alloc, &service, output, host)
        }
        Err(ReadStop::TooLong) => refuse_input(alloc, output),
        Err(ReadStop::ReadFault) => idle(alloc, ServeEnd::ReadFault),
        Err(ReadStop::NoMemory) => idle(alloc, ServeEnd::NoMemory),
    }
}
