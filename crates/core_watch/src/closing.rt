//! What ends openings of `log` and `jobs` and their waiting reads without a reply of their own.

ghost use Rattle.std.specs.Prelude.{◌≡◌, slice_get, option_copied};
ghost use Rattle.am_text.specs.Twice.{both, IsSteady};
ghost use Rattle.fid_table.specs.Tables.{fids_of};
ghost use Rattle.core_watch.specs.Closing.{left_in, without_opening, opening_at, watch_without_fids, opening_in};
ghost use Rattle.core_watch.specs.Closing.{watch_freed, watch_cancelled};
ghost use Rattle.core_watch.specs.Sound.{IsWatchSound, IsWatchIdle};

use acme_watch::{Watch, WatchFile};
use core_fids::{Effect, EventChange, WatchOpening, watch_opening};
use fid_table::{Fid, Sessions};

#[tactic(auto, using(crate::proofs::Steps::closing))]
fn leave(watch: &mut Watch, opening: WatchOpening, at: u64)
    requires steady { IsSteady watch.old }
    requires sound { IsWatchSound watch.old.present }
    ensures new { watch.new ≡ both (left_in at watch.old.present opening.file opening.opening) }
    ensures sound { IsWatchSound watch.new.present }
    ensures idle { IsWatchIdle watch.old.present → IsWatchIdle watch.new.present }
{
    match opening.file {
        WatchFile::Log => watch.leave_log(opening.opening),
        WatchFile::Jobs => watch.leave_jobs(opening.opening, at),
    }
}

#[tactic(auto, using(crate::proofs::Steps::closing))]
fn close_opening(watch: &mut Watch, opening: Option<WatchOpening>, at: u64)
    requires steady { IsSteady watch.old }
    requires sound { IsWatchSound watch.old.present }
    ensures new { watch.new ≡ both (without_opening at watch.old.present opening) }
    ensures sound { IsWatchSound watch.new.present }
    ensures idle { IsWatchIdle watch.old.present → IsWatchIdle watch.new.present }
{
    if let Some(opening) = opening {
        leave(watch, opening, at);
    }
}

// The opening of `log` or `jobs` of a connection's k-th fid.
fn opening_at(sessions: &Sessions, conn: u32, k: usize) -> Option<WatchOpening>
    ensures { result ≡ opening_at (slice_get (fids_of sessions.now.present conn) k) }
{
    match sessions.fid_at(conn, k) {
        Some((_, fid)) => watch_opening(fid),
        None => None,
    }
}

/// The openings of `log` and `jobs` of all fids of a connection close at this entry. It takes no memory.
#[tactic(auto, using(crate::proofs::Steps::closing))]
pub fn free_watch_fids(watch: &mut Watch, sessions: &Sessions, conn: u32, at: u64)
    requires steady { IsSteady watch.old }
    requires sound { IsWatchSound watch.old.present }
    ensures new { watch.new ≡ both (watch_without_fids at watch.old.present sessions.now.present conn) }
    ensures sound { IsWatchSound watch.new.present }
    ensures idle { IsWatchIdle watch.old.present → IsWatchIdle watch.new.present }
{
    for k in 0..sessions.count(conn) {
        close_opening(watch, opening_at(sessions, conn, k), at);
    }
}

fn opening_in(fid: Option<&Fid>) -> Option<WatchOpening>
    ensures { result ≡ opening_in (option_copied fid.entry) }
{
    match fid {
        Some(fid) => watch_opening(fid),
        None => None,
    }
}

/// The openings of `log` and `jobs` of the fids that a message frees close at this entry. It takes no memory.
#[tactic(auto, using(crate::proofs::Steps::closing))]
pub fn free_watch_openings(
    watch: &mut Watch,
    sessions: &Sessions,
    conn: u32,
    effect: &Effect,
    at: u64,
)
    requires steady { IsSteady watch.old }
    requires sound { IsWatchSound watch.old.present }
    ensures new { watch.new ≡ both (watch_freed at watch.old.present sessions.now.present conn effect.now) }
    ensures sound { IsWatchSound watch.new.present }
    ensures idle { IsWatchIdle watch.old.present → IsWatchIdle watch.new.present }
{
    match effect {
        Effect::Begins { .. } => free_watch_fids(watch, sessions, conn, at),
        Effect::Frees { number } => {
            close_opening(watch, opening_in(sessions.fid(conn, *number)), at);
        }
        Effect::Nothing => {}
        Effect::Puts { .. } => {}
    }
}

/// A read of one of the files that a Tflush names waits no more (flush(5)). It takes no memory.
#[tactic(auto, using(crate::proofs::Steps::cancelling))]
pub fn cancel_watch_read(watch: &mut Watch, conn: u32, events: EventChange)
    requires steady { IsSteady watch.old }
    requires sound { IsWatchSound watch.old.present }
    ensures new { watch.new ≡ both (watch_cancelled watch.old.present conn events) }
    ensures sound { IsWatchSound watch.new.present }
    ensures idle { IsWatchIdle watch.old.present → IsWatchIdle watch.new.present }
{
    match events {
        EventChange::Cancels { tag } => {
            watch.cancel(conn, tag);
        }
        EventChange::Nothing => {}
        EventChange::Opens { .. } => {}
        EventChange::Joins { .. } => {}
        EventChange::Watches { .. } => {}
    }
}
