//! What ends openings and waiting reads without a reply of their own, and items that are written back.

ghost use Rattle.std.specs.Prelude.{◌≡◌, ℕ, slice_get, option_copied};
ghost use Rattle.am_text.specs.Twice.{both, IsSteady};
ghost use Rattle.fid_table.specs.Tables.{fids_of};
ghost use Rattle.core_events.specs.Closing.{written_back, without_opening, opening_at, without_fids, opening_in, freed};
ghost use Rattle.core_events.specs.Closing.{cancelled, closed_with};
ghost use Rattle.core_events.specs.Sound.{IsSound};

use core_fids::{Effect, EventChange, event_opening};
use event_book::Book;
use fid_table::{Fid, Sessions};

/// An item of a window, by its number there.
#[derive(Clone, Copy, Debug, PartialEq, Eq)]
pub struct BackItem {
    pub window: u32,
    pub number: u64,
}

/// An item that was taken, and not written back before, is written back. It takes no memory.
pub fn write_back(book: &mut Book, back: Option<BackItem>, at: u64)
    requires steady { IsSteady book.old }
    requires sound { IsSound at book.old.present }
    ensures new { book.new ≡ both (written_back at book.old.present back) }
    ensures sound { IsSound at book.new.present }
    ensures steady { IsSteady book.new }
{
    if let Some(item) = back {
        if book.is_taken(item.window, item.number) {
            book.written(item.window, item.number, at);
        }
    }
}

// An opening closes, unless it did with its window.
fn close_opening(book: &mut Book, opening: Option<u32>, at: u64)
    requires steady { IsSteady book.old }
    requires sound { IsSound at book.old.present }
    ensures new { book.new ≡ both (without_opening at book.old.present opening) }
    ensures sound { IsSound at book.new.present }
{
    if let Some(opening) = opening {
        if book.is_living(opening) {
            book.leave(opening, at);
        }
    }
}

// The opening of an event file of a connection's k-th fid.
fn opening_at(sessions: &Sessions, conn: u32, k: usize) -> Option<u32>
    ensures { result ≡ opening_at (slice_get (fids_of sessions.now.present conn) k) }
{
    match sessions.fid_at(conn, k) {
        Some((_, fid)) => event_opening(fid),
        None => None,
    }
}

/// The openings of event files of all fids of a connection close. It takes no memory.
#[tactic(auto, using(crate::proofs::Sounds::steady_both))]
pub fn free_fids(book: &mut Book, sessions: &Sessions, conn: u32, at: u64)
    requires steady { IsSteady book.old }
    requires sound { IsSound at book.old.present }
    ensures new { book.new ≡ both (without_fids at book.old.present sessions.now.present conn) }
    ensures sound { IsSound at book.new.present }
{
    for k in 0..sessions.count(conn) {
        close_opening(book, opening_at(sessions, conn, k), at);
    }
}

fn opening_in(fid: Option<&Fid>) -> Option<u32>
    ensures { result ≡ opening_in (option_copied fid.entry) }
{
    match fid {
        Some(fid) => event_opening(fid),
        None => None,
    }
}

/// The openings of event files of the fids that a message frees close. It takes no memory.
#[tactic(auto, using(crate::proofs::Sounds::steady_both))]
pub fn free_openings(book: &mut Book, sessions: &Sessions, conn: u32, effect: &Effect, at: u64)
    requires steady { IsSteady book.old }
    requires sound { IsSound at book.old.present }
    ensures new { book.new ≡ both (freed at book.old.present sessions.now.present conn effect.now) }
    ensures sound { IsSound at book.new.present }
{
    match effect {
        Effect::Begins { .. } => free_fids(book, sessions, conn, at),
        Effect::Frees { number } => {
            close_opening(book, opening_in(sessions.fid(conn, *number)), at);
        }
        Effect::Nothing => {}
        Effect::Puts { .. } => {}
    }
}

/// A read that a Tflush names waits no more (flush(5)). It takes no memory.
pub fn cancel_read(book: &mut Book, conn: u32, events: EventChange)
    requires steady { IsSteady book.old }
    ensures new { book.new ≡ both (cancelled book.old.present conn events) }
    ensures sound { (at : ℕ) → IsSound at book.old.present → IsSound at book.new.present }
{
    match events {
        EventChange::Cancels { tag } => {
            book.cancel(conn, tag);
        }
        EventChange::Nothing => {}
        EventChange::Opens { .. } => {}
        EventChange::Joins { .. } => {}
        EventChange::Watches { .. } => {}
    }
}

/// The event files of windows that are deleted close, one after another. It takes no memory.
#[tactic(auto, using(crate::proofs::Sounds::deleting))]
pub fn close_events(book: &mut Book, windows: &[u32], at: u64)
    requires steady { IsSteady book.old }
    requires sound { IsSound at book.old.present }
    ensures new { book.new ≡ both (closed_with at book.old.present windows.now) }
    ensures sound { IsSound at book.new.present }
{
    let mut rest = windows;
    while let Some((window, after)) = rest.split_first() {
        book.delete(*window, at);
        rest = after;
    }
}
