//! Serving all slots, and a script beside them.

ghost use Rattle.std.specs.Prelude.{◌≡◌, ℕ, ◌<◌, ◌≤◌, ◌*◌, ◌+◌, List, [], All, IfOk, OnErr, length};
ghost use Rattle.std.specs.Fork.{AcceptsEach};
ghost use Rattle.am_serve.specs.Gained.{Gains, gained};
ghost use Rattle.am_serve.specs.Script.{EndsScript};
ghost use Rattle.am_journal.specs.Limits.{connection_count};
ghost use Rattle.am_slots.specs.Binding.{AreWaiting, HaveNames};
ghost use Rattle.am_slots.specs.Slots.{outside, unbound, HasGiven, HasRisenBy};
ghost use Rattle.am_slots.specs.Working.{HasRoom, IsReady, Works, ServesEach, EachWorks, IsFresh};
ghost use Rattle.am_slots.specs.Serving.{ServesAll, EachTells};

use crate::binding::bind_all;
use crate::room::Room;
use crate::service::Service;
use crate::serving::serve_slot;
use crate::slot::{HostSlots, Slots};
use crate::working::{Worker, gather, hire};
use am_base::{Gate, Host, Link, Sink, Source};
use am_counter::{Counter, Seats};
use am_serve::{Script, ScriptEnd, Station, script_side};
use am_text::NoMemory;
use std::alloc::Global;
use std::sync::Wait;
use std::thread::{Threads, for_each_mut, join_mut};

// Serves each worker, all at once.
fn serve_each<W: Send, F: Fn(usize, &mut W) + Sync, R: Threads + Sync>(
    rt: &R,
    workers: &mut [W],
    serve: &F,
)
    requires { AcceptsEach F.Fn serve.now workers.old }
    ensures each { ServesEach F.Fn serve.now workers.old workers.new }
{
    let count = workers.len();
    if count == 0 {
        return;
    }
    for_each_mut(rt, workers, count, serve);
}

// Serves each worker, and does the script beside them.
fn serve_beside<
    C: Seats<Seat = T> + Sync,
    T: Send + Drop,
    W: Send,
    F: Fn(usize, &mut W) + Sync,
    R: Threads + Wait + Sync,
>(
    rt: &R,
    alloc: Global,
    script: &Script<'_, C>,
    seat: &mut T,
    serve: &F,
    workers: &mut [W],
) -> ScriptEnd
    requires fits { C.fits script.now.desk.now seat.old }
    requires clients { script.now.clients ≤ connection_count }
    requires accepts { AcceptsEach F.Fn serve.now workers.old }
    ensures fits { C.fits script.now.desk.now seat.new }
    ensures gains { Gains (C.known seat.old) (gained (C.known seat.old) (C.known seat.new)) (C.known seat.new) }
    ensures ends { EndsScript C.enabled C.answer script.now.clients (C.known seat.old)
        script.now.lines.now result (C.known seat.new) }
    ensures each { ServesEach F.Fn serve.now workers.old workers.new }
{
    // Where no thread can be made the script comes last: it may wait for connections.
    let (end, _) = join_mut(
        rt,
        &mut || script_side(rt, alloc, script, seat),
        &mut ||
            requires { AcceptsEach F.Fn serve.now workers.now }
            ensures { ServesEach F.Fn serve.entry.now workers.entry.now workers.exit.now }
        {
            script.bells.await_script();
            serve_each(rt, workers, serve)
        },
    );
    end
}

// Serves the slots of all workers, and does the script beside them.
fn serve_workers<
    C: Seats<Seat = T> + Sync,
    T: Send + Drop,
    G: Gate<L = L> + Send,
    L: Link<R = S, W = K> + Send,
    S: Source + Drop + Send,
    K: Sink + Drop + Send,
    R: Threads + Wait + Sync,
>(
    rt: &R,
    alloc: Global,
    script: &Script<'_, C>,
    seat: &mut T,
    workers: &mut [Worker<T, G, L, S, K>],
) -> ScriptEnd
    requires fits { C.fits script.now.desk.now seat.old }
    requires clients { script.now.clients ≤ connection_count }
    requires ready { All (IsReady (C.fits script.now.desk.now) C.known G.told) workers.old }
    requires few { length workers.old ≤ connection_count }
    ensures fits { C.fits script.now.desk.now seat.new }
    ensures gains { Gains (C.known seat.old) (gained (C.known seat.old) (C.known seat.new)) (C.known seat.new) }
    ensures ends { EndsScript C.enabled C.answer script.now.clients (C.known seat.old)
        script.now.lines.now result (C.known seat.new) }
    ensures works { EachWorks (C.fits script.now.desk.now) C.known (outside G.told L.told S.told K.told)
        C.enabled C.unsent C.answer workers.old workers.new }
{
    let serve = |conn: usize, worker: &mut Worker<T, G, L, S, K>|
        requires { (conn < connection_count) × IsReady (C.fits script.now.desk.now) C.known G.told worker.now }
        ensures { Works (C.fits script.entry.now.desk.now) C.known (outside G.told L.told S.told K.told)
            C.enabled C.unsent C.answer conn worker.entry.now worker.exit.now }
    {
        let at = Station {
            desk: script.desk,
            bells: script.bells,
            conn: conn as u32,
        };
        serve_slot(rt, alloc, &at, worker)
    };
    serve_beside(rt, alloc, script, seat, &serve, workers)
}

// Serves slots whose gates were tried, and does the script beside them.
fn serve_bound<
    C: Seats<Seat = T> + Sync,
    T: Send + Drop,
    G: Gate<L = L> + Send,
    L: Link<R = S, W = K> + Send,
    S: Source + Drop + Send,
    K: Sink + Drop + Send,
    R: Threads + Wait + Sync,
>(
    rt: &R,
    alloc: Global,
    desk: &C,
    seat: &mut T,
    bound: Slots<G, L, S, K>,
    room: Room<T, G, L, S, K>,
    service: &Service<'_>,
) -> (Slots<G, L, S, K>, ScriptEnd)
    requires fits { C.fits desk.now seat.old }
    requires clients { (service.now.clients ≤ connection_count) × (length bound ≡ service.now.clients) }
    requires fresh { IsFresh (2 * service.now.clients + 1) (C.known seat.old) × ((C.known seat.old).seen ≡ []) }
    requires waiting { AreWaiting G.told bound }
    requires room { HasRoom service.now.clients room }
    ensures fits { C.fits desk.now seat.new }
    ensures parts { (C.known seat.new).parts ≡ (C.known seat.old).parts }
    ensures count { length result.0 ≡ service.now.clients }
    ensures serves { ServesAll (outside G.told L.told S.told K.told)
        C.enabled C.unsent C.answer service.now.clients service.now.script.now result.0 result.1 (C.known seat.new) }
    ensures tells { (path : List ℕ) → HaveNames G.told path 0 bound
        → EachTells (outside G.told L.told S.told K.told) path 0 result.0 }
    ensures unbound { unbound result.0 ≡ unbound bound }
{
    let Room {
        workers,
        slots,
        bells,
    } = room;
    let mut workers = hire(desk, seat, bound, workers);
    let script = Script {
        desk,
        bells: &bells,
        lines: service.script,
        clients: service.clients,
    };
    let end = serve_workers(rt, alloc, &script, seat, workers.as_mut_slice());
    (gather(rt, desk, seat, workers, slots), end)
}

/// Binds a gate for each of so many slots, and then takes a connection at each and serves it, all at once, and does the
/// script beside them, until all have ended. Want of memory for the slots themselves is told before anything is bound;
/// a connection that found none is in its slot.
pub fn serve_slots<H: Host, C: Seats<Seat = T> + Sync, T: Send + Drop, R: Threads + Wait + Sync>(
    rt: &R,
    alloc: Global,
    desk: &C,
    seat: &mut T,
    host: &mut H,
    service: &Service<'_>,
) -> Result<(HostSlots<H>, ScriptEnd), NoMemory>
    requires fits { C.fits desk.now seat.old }
    requires clients { service.now.clients ≤ connection_count }
    requires fresh { IsFresh (2 * service.now.clients + 1) (C.known seat.old) × ((C.known seat.old).seen ≡ []) }
    ensures fits { C.fits desk.now seat.new }
    ensures parts { (C.known seat.new).parts ≡ (C.known seat.old).parts }
    ensures count { IfOk result (λ r. length r.0 ≡ service.now.clients) }
    ensures serves { IfOk result (λ r. ServesAll
        (outside H.G.told H.G.L.told H.G.L.R.told H.G.L.W.told)
        C.enabled C.unsent C.answer service.now.clients service.now.script.now r.0 r.1 (C.known seat.new)) }
    ensures tells { IfOk result (λ r. EachTells
        (outside H.G.told H.G.L.told H.G.L.R.told H.G.L.W.told) service.now.path.now 0 r.0) }
    ensures risen { IfOk result (λ r. HasRisenBy (unbound r.0) (H.told host.old).faults (H.told host.new).faults) }
    ensures later { (H.told host.old).faults ≤ (H.told host.new).faults }
    // Each slot was asked for once.
    ensures given { IfOk result (λ r. HasGiven service.now.clients (unbound r.0) (H.told host.old).given
        (H.told host.new).given) }
    ensures err { OnErr result (C.known seat.new ≡ C.known seat.old) }
    // Without memory nothing was bound.
    ensures untouched { OnErr result (host.new ≡ host.old) }
{
    let clients = service.clients as usize;
    let room = Room::new(alloc, clients)?;
    let bound = Vec::with_capacity(alloc, clients)?;
    let bound = bind_all(host, service.path, service.clients, bound);
    Ok(serve_bound(rt, alloc, desk, seat, bound, room, service))
}
