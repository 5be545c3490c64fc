//! Serving one slot.

ghost use Rattle.std.specs.Prelude.{◌≡◌, ℕ, ◌<◌, true, List, [], ◌∷◌};
ghost use Rattle.am_base.specs.Outside.{AreTold, IsNamed};
ghost use Rattle.am_base.specs.Seen.{seen};
ghost use Rattle.am_counter.specs.Known.{lists_of};
ghost use Rattle.am_counter.specs.Played.{has_dial};
ghost use Rattle.am_journal.specs.Limits.{connection_count};
ghost use Rattle.am_slots.specs.Slots.{Has, Tells, HasName, outside, unbound};
ghost use Rattle.am_slots.specs.Working.{DidRead, DidWrite, HasDialled, IsFresh, IsReady, Works};

use crate::slot::{Objects, Slot};
use crate::working::Worker;
use am_base::{Gate, Link, Sink, Source};
use am_counter::{Counter, Seats, Told};
use am_journal::{Ending, Event};
use am_serve::{Station, WriteEnd, read_side, write_side};
use std::alloc::Global;
use std::mem;
use std::sync::Wait;
use std::thread::{Threads, join_mut};

// The two sides of a connection, at once.
fn serve_sides<
    C: Seats<Seat = T> + Sync,
    T: Send,
    G,
    L,
    S: Source + Drop + Send,
    K: Sink + Drop + Send,
    R: Threads + Wait + Sync,
>(
    rt: &R,
    alloc: Global,
    at: &Station<'_, C>,
    seat: &mut T,
    other: &mut T,
    objects: &mut Objects<G, L, S, K>,
) -> (Option<Ending>, WriteEnd)
    requires fits { C.fits at.now.desk.now seat.old × C.fits at.now.desk.now other.old }
    requires conn { at.now.conn < connection_count }
    requires dialled { (has_dial (C.known seat.old).seen at.now.conn ≡ true)
        × (has_dial (C.known other.old).seen at.now.conn ≡ true) }
    ensures fits { C.fits at.now.desk.now seat.new × C.fits at.now.desk.now other.new }
    ensures read { DidRead C.enabled C.answer at.now.conn (C.known seat.old) (C.known seat.new)
        (seen (S.told objects.old.reader) (S.told objects.new.reader))
        result.0 }
    ensures wrote { DidWrite C.unsent at.now.conn (C.known other.old) (C.known other.new)
        (seen (K.told objects.old.writer) (K.told objects.new.writer))
        result.1 }
    ensures others { (objects.new.gate ≡ objects.old.gate) × (objects.new.link ≡ objects.old.link) }
{
    let reader = &mut objects.reader;
    let writer = &mut objects.writer;
    // Where no thread can be made the side that writes comes last: it would wait for the other.
    let (wrote, read) = join_mut(
        rt,
        &mut || write_side(rt, alloc, at, other, writer),
        &mut || read_side(rt, alloc, at, seat, reader),
    );
    (read, wrote)
}

// A connection that was dialled, until it has ended.
fn serve_connection<
    C: Seats<Seat = T> + Sync,
    T: Send + Drop,
    G: Gate<L = L>,
    L: Link<R = S, W = K>,
    S: Source + Drop + Send,
    K: Sink + Drop + Send,
    R: Threads + Wait + Sync,
>(
    rt: &R,
    alloc: Global,
    at: &Station<'_, C>,
    seat: &mut T,
    objects: Objects<G, L, S, K>,
) -> Slot<G, L, S, K>
    requires fits { C.fits at.now.desk.now seat.old }
    requires conn { at.now.conn < connection_count }
    requires dialled { HasDialled at.now.conn (C.known seat.old) }
    requires parts { (C.known seat.old).parts ≡ 2 }
    requires begins { ((S.told objects.reader).bytes ≡ (L.told objects.link).begins)
        × AreTold (K.told objects.writer).bytes [] }
    requires fresh { ((S.told objects.reader).faults ≡ 0) × ((K.told objects.writer).faults ≡ 0) }
    requires asked { ((G.told objects.gate).given ≡ 1) × ((L.told objects.link).is_halved ≡ true) }
    ensures fits { C.fits at.now.desk.now seat.new }
    ensures parts { (C.known seat.new).parts ≡ 2 }
    ensures has { Has (outside G.told L.told S.told K.told)
        C.enabled C.unsent C.answer at.now.conn (C.known seat.new).seen result (lists_of (C.known seat.new)) }
    ensures tells { Tells (outside G.told L.told S.told K.told) result }
    ensures named { (path : List ℕ) → IsNamed (G.told objects.gate).name path at.now.conn
        → HasName G.told path at.now.conn result }
    ensures bound { unbound (result ∷ []) ≡ 0 }
{
    let mut objects = objects;
    let mut other = at.desk.split(seat, 1);
    let (read, wrote) = serve_sides(rt, alloc, at, seat, &mut other, &mut objects);
    at.desk.take_in(rt, seat, other);
    Slot::Served(objects, read, wrote)
}

// A connection that isn't served: its client finds the end of it.
fn closed<G, L, S: Source, K: Sink>(objects: Objects<G, L, S, K>) -> Objects<G, L, S, K>
    ensures ended { ((S.told result.reader).is_ended ≡ true) × ((K.told result.writer).is_ended ≡ true) }
    ensures others { (result.gate ≡ objects.gate) × (result.link ≡ objects.link) }
{
    let mut objects = objects;
    objects.reader.end();
    objects.writer.end();
    objects
}

// Takes a connection at a gate, and serves it.
fn serve_gate<
    C: Seats<Seat = T> + Sync,
    T: Send + Drop,
    G: Gate<L = L>,
    L: Link<R = S, W = K>,
    S: Source + Drop + Send,
    K: Sink + Drop + Send,
    R: Threads + Wait + Sync,
>(rt: &R, alloc: Global, at: &Station<'_, C>, seat: &mut T, gate: G) -> Slot<G, L, S, K>
    requires fits { C.fits at.now.desk.now seat.old }
    requires conn { at.now.conn < connection_count }
    requires fresh { IsFresh 2 (C.known seat.old) }
    requires waits { ((G.told gate).faults ≡ 0) × ((G.told gate).given ≡ 0) }
    ensures fits { C.fits at.now.desk.now seat.new }
    ensures parts { (C.known seat.new).parts ≡ 2 }
    ensures has { Has (outside G.told L.told S.told K.told)
        C.enabled C.unsent C.answer at.now.conn (C.known seat.new).seen result (lists_of (C.known seat.new)) }
    ensures tells { Tells (outside G.told L.told S.told K.told) result }
    ensures named { (path : List ℕ) → IsNamed (G.told gate).name path at.now.conn
        → HasName G.told path at.now.conn result }
    ensures bound { unbound (result ∷ []) ≡ 0 }
{
    let mut gate = gate;
    let Ok(mut link) = gate.accept() else {
        return Slot::Unlinked(gate);
    };
    let Ok((reader, writer)) = link.halves() else {
        return Slot::Unhalved(gate, link);
    };
    let objects = Objects {
        gate,
        link,
        reader,
        writer,
    };
    let event = Event::Dial { conn: at.conn };
    // Nobody waits for a dialling, and it replies to none.
    match at.desk.submit(rt, seat, event, &mut Told::none()) {
        Ok(_) => serve_connection(rt, alloc, at, seat, objects),
        Err(refused) => Slot::Undialled(closed(objects), refused),
    }
}

/// Serves a slot whose gate is bound.
pub(crate) fn serve_slot<
    C: Seats<Seat = T> + Sync,
    T: Send + Drop,
    G: Gate<L = L>,
    L: Link<R = S, W = K>,
    S: Source + Drop + Send,
    K: Sink + Drop + Send,
    R: Threads + Wait + Sync,
>(rt: &R, alloc: Global, at: &Station<'_, C>, worker: &mut Worker<T, G, L, S, K>)
    requires ready { IsReady (C.fits at.now.desk.now) C.known G.told worker.old }
    requires conn { at.now.conn < connection_count }
    ensures { Works (C.fits at.now.desk.now) C.known (outside G.told L.told S.told K.told)
        C.enabled C.unsent C.answer at.now.conn worker.old worker.new }
{
    let slot = mem::replace(&mut worker.slot, Slot::Unbound);
    worker.slot = match slot {
        Slot::Bound(gate) => serve_gate(rt, alloc, at, &mut worker.seat, gate),
        slot => slot,
    };
}
