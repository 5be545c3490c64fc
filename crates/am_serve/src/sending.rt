//! Submitting messages, and reading what they are cut from.

ghost use Rattle.std.specs.Prelude.{◌≡◌, ◌<◌, ◌≤◌, ◌++◌, ℕ, List, true, false, length, IfOk, IfErr, OnOk};
ghost use Rattle.ninep_cut.specs.Cuts.{IsMessage};
ghost use Rattle.am_counter.specs.declared.ask.Ask.TheVariants as ask;
ghost use Rattle.am_counter.specs.Known.{Looks};
ghost use Rattle.am_counter.specs.Played.{has_dial};
ghost use Rattle.am_base.specs.Seen.{seen};
ghost use Rattle.am_journal.specs.Limits.{connection_count};
ghost use Rattle.am_serve.specs.Sending.{HasEnded, Sends, Keeps, Tries, sent_for, EndsIn, IsFed};

use crate::due::Due;
use crate::station::Station;
use am_base::{PIECE_LIMIT, Source};
use am_counter::{Ask, Counter};
use am_journal::{Bad, Ending, Event, Refused, Why};
use ninep_cut::Cutter;
use ninep_types::{TBody, WireError};
use ninep_wire::read_t;
use std::alloc::Global;
use std::sync::Wait;

/// Why reading stopped.
#[derive(Clone, Copy, Debug, PartialEq, Eq)]
pub(crate) enum Stop {
    /// The connection has ended.
    Ended,
    /// The connection is to end with this cause.
    Ends(Ending),
}

/// What came of a message.
#[derive(Clone, Copy, Debug, PartialEq, Eq)]
pub(crate) enum Sent {
    Done,
    /// It has to wait until replies are taken.
    Waits,
    Stops(Stop),
}

/// Waits until a message may come on a connection, and answers whether one may, or the connection has ended. Each
/// question gives up the turn that the seat may have kept behind messages. Only then does it ring for what is due, so
/// that who wakes finds the turn free.
pub(crate) fn wait_for_room<C: Counter, R: Wait>(
    rt: &R,
    at: &Station<'_, C>,
    seat: &mut C::Seat,
    due: &mut Due,
) -> bool
    requires fits { C.fits at.now.desk.now seat.old }
    requires conn { at.now.conn < connection_count }
    ensures fits { C.fits at.now.desk.now seat.new }
    ensures looks { Looks (C.known seat.old) (C.known seat.new) }
    ensures room { result ≡ true → C.answer (C.known seat.new).seen (ask.Room at.now.conn) ≡ true }
    ensures ended { result ≡ false → HasEnded C.enabled at.now.conn (C.known seat.new).seen }
{
    let mut rung = 0;
    for _ in rt.forever() {
        if at.bells.is_over(at.conn) && at.desk.look(rt, seat, Ask::Ended(at.conn)) {
            return false;
        }
        let has_room = at.desk.look(rt, seat, Ask::Room(at.conn));
        due.ring(at.bells);
        if has_room {
            return true;
        }
        rung = at.bells.wait_for_room(rt, at.conn, rung);
    }
    unreachable!()
}

fn sent_for(why: Why) -> Sent
    ensures { result ≡ sent_for why }
{
    match why {
        Why::Size => Sent::Stops(Stop::Ends(Ending::Broken(Bad::Size))),
        Why::Tag => Sent::Stops(Stop::Ends(Ending::Broken(Bad::Tag))),
        Why::Replies => Sent::Waits,
        // A message on a connection that was dialled is refused for no other reason than that it has ended.
        _ => Sent::Stops(Stop::Ended),
    }
}

// Submits the message that the bytes spell, if they spell one.
fn try_message<C: Counter, R: Wait>(
    rt: &R,
    alloc: Global,
    at: &Station<'_, C>,
    seat: &mut C::Seat,
    due: &mut Due,
    message: &[u8],
) -> Sent
    requires fits { C.fits at.now.desk.now seat.old }
    requires conn { at.now.conn < connection_count }
    requires dialled { has_dial (C.known seat.old).seen at.now.conn ≡ true }
    requires message { IsMessage message.now }
    ensures fits { C.fits at.now.desk.now seat.new }
    ensures tries { Tries C.enabled at.now.conn (C.known seat.old) message.now result (C.known seat.new) }
{
    match read_t(alloc, message) {
        Ok(msg) => {
            let opens = matches!(&msg.body, TBody::Open { .. });
            let event = Event::Msg { conn: at.conn, msg };
            match at.desk.submit(rt, seat, event, &mut due.told) {
                Ok(_) => {
                    due.opened |= opens;
                    Sent::Done
                }
                Err(Refused::NotEnabled(why)) => sent_for(why),
                Err(Refused::NoMemory) => Sent::Stops(Stop::Ends(Ending::NoMemory)),
            }
        }
        Err(WireError::Fault(fault)) => Sent::Stops(Stop::Ends(Ending::Broken(Bad::Wire(fault)))),
        Err(WireError::NoMemory) => Sent::Stops(Stop::Ends(Ending::NoMemory)),
    }
}

/// Submits the message that the bytes spell, once there is room for its reply.
pub(crate) fn send_message<C: Counter, R: Wait>(
    rt: &R,
    alloc: Global,
    at: &Station<'_, C>,
    seat: &mut C::Seat,
    due: &mut Due,
    message: &[u8],
) -> Result<(), Stop>
    requires fits { C.fits at.now.desk.now seat.old }
    requires conn { at.now.conn < connection_count }
    requires dialled { has_dial (C.known seat.old).seen at.now.conn ≡ true }
    requires message { IsMessage message.now }
    ensures fits { C.fits at.now.desk.now seat.new }
    ensures ok { OnOk result (Sends C.enabled at.now.conn (C.known seat.old) message.now (C.known seat.new)) }
    ensures err { IfErr result (λ stop. Keeps C.enabled at.now.conn (C.known seat.old) message.now stop
        (C.known seat.new)) }
{
    for _ in rt.forever() {
        match try_message(rt, alloc, at, seat, due, message) {
            Sent::Done => return Ok(()),
            Sent::Stops(stop) => return Err(stop),
            Sent::Waits => {}
        }
        // The event was dropped, and is read anew.
        if !wait_for_room(rt, at, seat, due) {
            return Err(Stop::Ended);
        }
    }
    unreachable!()
}

/// Reads a piece, and feeds it.
pub(crate) fn read_piece<S: Source>(source: &mut S, cutter: &mut Cutter) -> Result<(), Ending>
    ensures ok { OnOk result (IsFed (S.told source.old).bytes (S.told source.new).bytes cutter.old cutter.new) }
    ensures err { IfErr result (EndsIn (seen (S.told source.old) (S.told source.new)) cutter.old) }
    ensures later { (S.told source.old).faults ≤ (S.told source.new).faults }
{
    let mut buf = [0; PIECE_LIMIT];
    let Ok(n) = source.read(&mut buf) else {
        return Err(Ending::ReadFault);
    };
    if n == 0 {
        return Err(if cutter.rest() == 0 {
            Ending::End
        } else {
            Ending::Torn
        });
    }
    match cutter.feed(&buf[..n]) {
        Ok(()) => Ok(()),
        Err(_) => Err(Ending::NoMemory),
    }
}
