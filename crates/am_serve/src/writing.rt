//! The side of a connection that writes replies.

ghost use Rattle.std.specs.Prelude.{◌≡◌, ◌<◌, ◌≤◌, true, []};
ghost use Rattle.am_base.specs.Outside.{HasRisen};
ghost use Rattle.am_counter.specs.Played.{IsPlayed, has_dial, has_hang};
ghost use Rattle.am_journal.specs.Limits.{connection_count};
ghost use Rattle.am_serve.specs.Gained.{Gains, gained};
ghost use Rattle.am_serve.specs.Writing.{AreWritten, Gets, taken_bytes, Wrote};
ghost use Rattle.am_serve.specs.declared.writing.WriteEnd.TheVariants as end;

use crate::hanging::hang_up;
use crate::station::Station;
use am_base::{Sink, write_all};
use am_counter::{Counter, Taken};
use am_journal::Ending;
use am_text::{Bytes, Items, NoMemory};
use std::alloc::Global;
use std::sync::Wait;

/// Why a side stopped writing.
#[derive(Clone, Copy, Debug, PartialEq, Eq)]
pub enum WriteEnd {
    /// The connection has ended, and all its replies are written.
    Ended,
    /// The sink has failed.
    Gone,
    /// There was no memory for the replies.
    NoMemory,
}

// Until the connection has ended or the sink fails.
fn write_replies<C: Counter, K: Sink, R: Wait>(
    rt: &R,
    alloc: Global,
    at: &Station<'_, C>,
    seat: &mut C::Seat,
    sink: &mut K,
) -> WriteEnd
    requires fits { C.fits at.now.desk.now seat.old }
    requires conn { at.now.conn < connection_count }
    ensures fits { C.fits at.now.desk.now seat.new }
    ensures played { result ≡ end.Ended → IsPlayed C.enabled (C.known seat.new).seen }
    ensures wrote { Wrote C.unsent at.now.conn (C.known seat.old) (C.known seat.new) result (K.told sink.old).bytes
        (K.told sink.new).bytes }
    ensures ended { result ≡ end.Ended → (has_hang (C.known seat.new).seen at.now.conn ≡ true)
        × (C.unsent (C.known seat.new).seen at.now.conn ≡ []) }
    ensures later { (K.told sink.old).faults ≤ (K.told sink.new).faults }
    ensures gone { result ≡ end.Gone → HasRisen (K.told sink.old).faults (K.told sink.new).faults }
{
    let mut replies = Items::new(alloc);
    let mut rung = 0;
    for _ in rt.forever() {
        match at.desk.take(rt, seat, at.conn, &mut replies) {
            Ok(Taken::Bytes) => {
                at.bells.taken(at.conn);
                if write_all(sink, replies.as_slice()).is_err() {
                    return WriteEnd::Gone;
                }
                // An ended connection gets no ring any more.
                if !at.bells.is_over(at.conn) {
                    rung = at.bells.wait_for_replies(rt, at.conn, rung);
                }
            }
            Ok(Taken::NothingYet) => rung = at.bells.wait_for_replies(rt, at.conn, rung),
            Ok(Taken::Ended) => return WriteEnd::Ended,
            Err(NoMemory) => return WriteEnd::NoMemory,
        }
    }
    unreachable!()
}

/// Takes the replies of a connection and writes them, until it has ended and none is left. Where the sink fails, or
/// memory runs out, it ends the connection, unless that has ended. It rings where it has taken replies, and where it
/// has ended the connection, and waits for its bell where there is no reply yet. It ends its sink last.
pub fn write_side<C: Counter, K: Sink, R: Wait>(
    rt: &R,
    alloc: Global,
    at: &Station<'_, C>,
    seat: &mut C::Seat,
    sink: &mut K,
) -> WriteEnd
    requires fits { C.fits at.now.desk.now seat.old }
    requires conn { at.now.conn < connection_count }
    requires dialled { has_dial (C.known seat.old).seen at.now.conn ≡ true }
    ensures fits { C.fits at.now.desk.now seat.new }
    ensures played { IsPlayed C.enabled (C.known seat.new).seen }
    ensures gains { Gains (C.known seat.old) (gained (C.known seat.old) (C.known seat.new)) (C.known seat.new) }
    ensures entries { AreWritten at.now.conn result (C.known seat.old) (C.known seat.new) }
    // The sink got the bytes that they took.
    ensures gets { Gets result (K.told sink.old).bytes
        (taken_bytes C.unsent (C.known seat.new).seen (gained (C.known seat.old) (C.known seat.new))) (K.told sink.new).bytes }
    ensures ended { has_hang (C.known seat.new).seen at.now.conn ≡ true }
    ensures nothing_unsent { result ≡ end.Ended → C.unsent (C.known seat.new).seen at.now.conn ≡ [] }
    ensures later { (K.told sink.old).faults ≤ (K.told sink.new).faults }
    ensures gone { result ≡ end.Gone → HasRisen (K.told sink.old).faults (K.told sink.new).faults }
    // Whatever the ending, nothing more is to go.
    ensures closed { (K.told sink.new).is_ended ≡ true }
{
    at.bells.begin_writing(at.conn);
    let end = write_replies(rt, alloc, at, seat, sink);
    // The sink is ended last: who wakes by it finds the connection ended.
    match end {
        WriteEnd::Ended => sink.end(),
        WriteEnd::Gone => {
            hang_up(rt, at, seat, Ending::Gone);
            sink.end();
        }
        WriteEnd::NoMemory => {
            hang_up(rt, at, seat, Ending::NoMemory);
            sink.end();
        }
    }
    end
}
