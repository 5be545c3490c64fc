//! Ending a connection.

ghost use Rattle.std.specs.Prelude.{◌≡◌, ◌<◌, true};
ghost use Rattle.am_counter.specs.Played.{IsPlayed, has_dial, has_hang};
ghost use Rattle.am_journal.specs.Limits.{connection_count};
ghost use Rattle.am_serve.specs.Gained.{HangsUp};

use crate::station::Station;
use am_counter::{Counter, Told};
use am_journal::{Ending, Event};
use std::sync::Wait;

/// Ends a connection, unless it has ended, and answers whether it did.
pub(crate) fn hang_up<C: Counter, R: Wait>(
    rt: &R,
    at: &Station<'_, C>,
    seat: &mut C::Seat,
    why: Ending,
) -> bool
    requires fits { C.fits at.now.desk.now seat.old }
    requires conn { at.now.conn < connection_count }
    requires dialled { has_dial (C.known seat.old).seen at.now.conn ≡ true }
    ensures fits { C.fits at.now.desk.now seat.new }
    ensures played { IsPlayed C.enabled (C.known seat.new).seen }
    ensures hangs_up { HangsUp (C.known seat.old) at.now.conn why result (C.known seat.new) }
    ensures ended { has_hang (C.known seat.new).seen at.now.conn ≡ true }
{
    let mut told = Told::none();
    let event = Event::Hang { conn: at.conn, why };
    match at.desk.submit(rt, seat, event, &mut told) {
        Ok(_) => {
            at.bells.replied(&told);
            at.bells.ended(at.conn);
            true
        }
        Err(_) => false,
    }
}
