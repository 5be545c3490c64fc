//! What a step ends in the event files, the ports, and the files `log` and `jobs`.

ghost use Rattle.std.specs.Prelude.{◌≡◌};
ghost use Rattle.am_text.specs.Twice.{both, IsSteady};
ghost use Rattle.core_events.specs.Sound.{IsSound};
ghost use Rattle.core_events.specs.PortSound.{ArePortsSound};
ghost use Rattle.core_scene.specs.Scenes.{deleted_by};
ghost use Rattle.core_parts.specs.Doing.{Doing};
ghost use Rattle.core_watch.specs.Sound.{IsWatchSound};
ghost use Rattle.core_closing.specs.Closing.{left_book, closed_book, left_ports, left_watch, closed_watch};

use crate::prepared::Prepared;
use core_events::{
    Book, Ports, cancel_port_read, cancel_read, close_events, free_fids, free_openings,
    free_port_fids, free_port_openings, write_back,
};
use core_parts::Kind;
use core_watch::{Watch, cancel_watch_read, free_watch_fids, free_watch_openings, write_answer};
use fid_table::Sessions;

// Closes the openings of the fids that an event of this kind frees, and drops a read that it cancels.
fn leave_book(book: &mut Book, sessions: &Sessions, kind: Kind, prepared: &Prepared)
    requires steady { IsSteady book.old }
    requires sound { IsSound prepared.now.at book.old.present }
    ensures new { (d : Doing) → d.effect ≡ prepared.now.effect → d.events ≡ prepared.now.events → book.new
        ≡ both (left_book prepared.now.at sessions.now.present kind d book.old.present) }
    ensures sound { IsSound prepared.now.at book.new.present }
    ensures steady { IsSteady book.new }
{
    match kind {
        Kind::Asks { conn, .. } => {
            free_openings(book, sessions, conn, &prepared.effect, prepared.at);
            cancel_read(book, conn, prepared.events);
        }
        Kind::Ends { conn, .. } => free_fids(book, sessions, conn, prepared.at),
        Kind::Dials { .. } => {}
        Kind::Takes { .. } => {}
        Kind::Acts => {}
    }
}

/// Writes back the item that an event of this kind does, closes the openings of the fids that it frees and those of the
/// windows that it deletes, and drops a read that it cancels. The fids are still there. It takes no memory.
pub fn change_book(book: &mut Book, sessions: &Sessions, kind: Kind, prepared: &Prepared)
    requires steady { IsSteady book.old }
    requires sound { IsSound prepared.now.at book.old.present }
    ensures new { (d : Doing) → d.effect ≡ prepared.now.effect → d.events ≡ prepared.now.events → deleted_by d.deeds
        ≡ prepared.now.deleted → d.back ≡ prepared.now.back → book.new
        ≡ both (closed_book prepared.now.at sessions.now.present kind d book.old.present) }
    ensures sound { IsSound prepared.now.at book.new.present }
    ensures steady { IsSteady book.new }
{
    write_back(book, prepared.back, prepared.at);
    leave_book(book, sessions, kind, prepared);
    close_events(book, prepared.deleted.as_slice(), prepared.at);
}

/// Closes the openings of ports of the fids that an event of this kind frees, and drops a read that it cancels. The
/// fids are still there. It takes no memory.
pub fn change_ports(ports: &mut Ports, sessions: &Sessions, kind: Kind, prepared: &Prepared)
    requires steady { IsSteady ports.old }
    requires sound { ArePortsSound ports.old.present }
    ensures new { (d : Doing) → d.effect ≡ prepared.now.effect → d.events ≡ prepared.now.events → ports.new
        ≡ both (left_ports sessions.now.present kind d ports.old.present) }
    ensures sound { ArePortsSound ports.new.present }
    ensures steady { IsSteady ports.new }
{
    match kind {
        Kind::Asks { conn, .. } => {
            free_port_openings(ports, sessions, conn, &prepared.effect);
            cancel_port_read(ports, conn, prepared.events);
        }
        Kind::Ends { conn, .. } => free_port_fids(ports, sessions, conn),
        Kind::Dials { .. } => {}
        Kind::Takes { .. } => {}
        Kind::Acts => {}
    }
}

// Closes the openings of `log` and `jobs` of the fids that an event of this kind frees, and drops a read that it cancels.
fn leave_watch(watch: &mut Watch, sessions: &Sessions, kind: Kind, prepared: &Prepared)
    requires steady { IsSteady watch.old }
    requires sound { IsWatchSound watch.old.present }
    ensures new { (d : Doing) → d.effect ≡ prepared.now.effect → d.events ≡ prepared.now.events → watch.new
        ≡ both (left_watch prepared.now.at sessions.now.present kind d watch.old.present) }
    ensures sound { IsWatchSound watch.new.present }
    ensures steady { IsSteady watch.new }
{
    match kind {
        Kind::Asks { conn, .. } => {
            free_watch_openings(watch, sessions, conn, &prepared.effect, prepared.at);
            cancel_watch_read(watch, conn, prepared.events);
        }
        Kind::Ends { conn, .. } => free_watch_fids(watch, sessions, conn, prepared.at),
        Kind::Dials { .. } => {}
        Kind::Takes { .. } => {}
        Kind::Acts => {}
    }
}

/// Answers the request that an event of this kind answers, closes the openings of `log` and `jobs` of the fids that it
/// frees, and drops a read that it cancels. The fids are still there. It takes no memory.
pub fn change_watch(watch: &mut Watch, sessions: &Sessions, kind: Kind, prepared: &Prepared)
    requires steady { IsSteady watch.old }
    requires sound { IsWatchSound watch.old.present }
    ensures new { (d : Doing) → d.effect ≡ prepared.now.effect → d.events ≡ prepared.now.events → d.answers
        ≡ prepared.now.answers → watch.new
        ≡ both (closed_watch prepared.now.at sessions.now.present kind d watch.old.present) }
    ensures sound { IsWatchSound watch.new.present }
    ensures steady { IsSteady watch.new }
{
    write_answer(watch, &prepared.answers, prepared.at);
    leave_watch(watch, sessions, kind, prepared);
}
