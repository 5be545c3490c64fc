//! The side of a connection that reads messages.

ghost use Rattle.std.specs.Prelude.{◌≡◌, ◌<◌, ◌≤◌, true, [], Some, Option};
ghost use Rattle.am_base.specs.Outside.{AreTold, HasRisen};
ghost use Rattle.am_counter.specs.Played.{IsPlayed, has_dial, has_hang};
ghost use Rattle.am_journal.specs.declared.ending.Ending.TheVariants as ending;
ghost use Rattle.am_journal.specs.Limits.{connection_count};
ghost use Rattle.am_serve.specs.Gained.{Gains, gained};
ghost use Rattle.am_serve.specs.Reading.{AreRead, GivesOf, spellings};
ghost use Rattle.am_serve.specs.Sending.{HasEnded, ReadUntil};
ghost use Rattle.am_serve.specs.declared.sending.Stop.TheVariants as stop;

use crate::budget::Budget;
use crate::due::Due;
use crate::hanging::hang_up;
use crate::sending::{Stop, read_piece, send_message, wait_for_room};
use crate::station::Station;
use am_base::Source;
use am_counter::Counter;
use am_journal::{Bad, Ending};
use am_text::{Items, NoMemory};
use ninep_cut::{Cut, Cutter, pieces_are_joined};
use ninep_types::WireFault;
use std::alloc::Global;
use std::sync::Wait;

// Submits messages until something stops it.
fn read_messages<C: Counter, S: Source, R: Wait>(
    rt: &R,
    alloc: Global,
    at: &Station<'_, C>,
    seat: &mut C::Seat,
    due: &mut Due,
    source: &mut S,
) -> Stop
    requires fits { C.fits at.now.desk.now seat.old }
    requires conn { at.now.conn < connection_count }
    requires dialled { has_dial (C.known seat.old).seen at.now.conn ≡ true }
    ensures fits { C.fits at.now.desk.now seat.new }
    ensures reads { ReadUntil C.enabled C.answer at.now.conn (C.known seat.old) (C.known seat.new) result
        (S.told source.old).bytes (S.told source.new).bytes }
    ensures ended { result ≡ stop.Ended → HasEnded C.enabled at.now.conn (C.known seat.new).seen }
    ensures end { result ≡ stop.Ends ending.End → AreTold (S.told source.new).bytes [] }
    ensures torn { result ≡ stop.Ends ending.Torn → AreTold (S.told source.new).bytes [] }
    ensures fault { result ≡ stop.Ends ending.ReadFault → HasRisen (S.told source.old).faults
        (S.told source.new).faults }
    ensures later { (S.told source.old).faults ≤ (S.told source.new).faults }
{
    // No reply would ever be written.
    if !at.bells.has_writer(at.conn) {
        return Stop::Ends(Ending::NoMemory);
    }
    // The messages don't depend on the pieces that are fed.
    pieces_are_joined();
    let mut budget = Budget::new();
    let mut cutter = Cutter::new(alloc);
    let mut message = Items::new(alloc);
    for _ in rt.forever() {
        match cutter.next(&mut message) {
            Ok(Cut::Whole) => {
                let bytes = message.as_slice();
                if !budget.spend(bytes.len()) {
                    return Stop::Ends(Ending::Spent);
                }
                if let Err(stop) = send_message(rt, alloc, at, seat, due, bytes) {
                    return stop;
                }
            }
            Ok(Cut::More) => {
                if !wait_for_room(rt, at, seat, due) {
                    return Stop::Ended;
                }
                if let Err(why) = read_piece(source, &mut cutter) {
                    return Stop::Ends(why);
                }
            }
            Ok(Cut::Broken(_)) => return Stop::Ends(Ending::Broken(Bad::Wire(WireFault::Size))),
            Err(NoMemory) => return Stop::Ends(Ending::NoMemory),
        }
    }
    unreachable!()
}

/// Cuts a source into messages and submits each, until something ends the connection, and answers the cause of the
/// hang-up that it makes then, or `None` where the connection had ended. It holds reading, and waits for its bell,
/// while the connection has no room for a reply. It rings for the sides that its entries did something for, once for
/// the messages of a piece. The causes: `End` and `Torn` at the end of the source, between two messages or inside one,
/// `ReadFault` where the source fails, `Spent` where the next message would be the 1,000,001st, or would bring the
/// bytes of all above 67,108,864, `Broken` where the next message can't be read, is above the connection's msize or has
/// a tag that waits, in this order, and
/// `NoMemory`, also where no thread could be made for the side that writes. It ends its source.
pub fn read_side<C: Counter, S: Source, R: Wait>(
    rt: &R,
    alloc: Global,
    at: &Station<'_, C>,
    seat: &mut C::Seat,
    source: &mut S,
) -> Option<Ending>
    requires fits { C.fits at.now.desk.now seat.old }
    requires conn { at.now.conn < connection_count }
    requires dialled { has_dial (C.known seat.old).seen at.now.conn ≡ true }
    ensures fits { C.fits at.now.desk.now seat.new }
    ensures played { IsPlayed C.enabled (C.known seat.new).seen }
    ensures gains { Gains (C.known seat.old) (gained (C.known seat.old) (C.known seat.new)) (C.known seat.new) }
    ensures entries { AreRead at.now.conn result (C.known seat.old) (C.known seat.new) }
    // Its messages are those of the bytes that were read, each piece of which was read once there was room.
    ensures gives { GivesOf C.enabled C.answer at.now.conn (C.known seat.new).seen
        (spellings (gained (C.known seat.old) (C.known seat.new)))
        (S.told source.old).bytes (S.told source.new).bytes result }
    ensures ended { has_hang (C.known seat.new).seen at.now.conn ≡ true }
    ensures end { result ≡ Some ending.End → AreTold (S.told source.new).bytes [] }
    ensures torn { result ≡ Some ending.Torn → AreTold (S.told source.new).bytes [] }
    ensures fault { result ≡ Some ending.ReadFault → HasRisen (S.told source.old).faults (S.told source.new).faults }
    ensures later { (S.told source.old).faults ≤ (S.told source.new).faults }
    // Whatever the ending, nothing more is to come.
    ensures closed { (S.told source.new).is_ended ≡ true }
{
    let mut due = Due::new();
    let stop = read_messages(rt, alloc, at, seat, &mut due, source);
    due.ring(at.bells);
    source.end();
    match stop {
        Stop::Ended => None,
        Stop::Ends(why) => {
            if hang_up(rt, at, seat, why) {
                Some(why)
            } else {
                None
            }
        }
    }
}
