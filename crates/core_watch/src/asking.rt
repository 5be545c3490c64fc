//! Opening and reading `log` and `jobs`.

ghost use Rattle.std.specs.Prelude.{◌≡◌, ◌+◌, ◌<◌, ◌^◌, IfOk, IfSome, IsTrue, OnOk};
ghost use Rattle.fid_table.specs.Tables.{HasJoined};
ghost use Rattle.acme_watch.specs.Watching.{has_opening, asked_of, after_ask};
ghost use Rattle.core_fids.specs.Done.{IsSent};
ghost use Rattle.ninep_types.specs.Limits.{rread_head};
ghost use Rattle.core_watch.specs.Asking.{can_open, with_opening, opened_with, read_refusal, watch_said, watch_read};
ghost use Rattle.core_watch.specs.Asking.{tables_read_watch};
ghost use Rattle.core_watch.specs.Sound.{IsWatchSound, IsWatchIdle};

use acme_watch::{Watch, WatchFile, WatchRead};
use am_text::NoMemory;
use core_events::reads_are_full;
use core_fids::{EventChange, RBody, Refusal, error};
use fid_table::Sessions;
use std::alloc::Global;
use wait_queue::Asked;

/// A read of one of the files at the entry of this number: the fid that is read, and who asks for how much of which
/// opening.
#[derive(Clone, Copy, Debug, PartialEq, Eq)]
pub struct ReadAt {
    pub fid: u32,
    pub read: WatchRead,
    pub at: u64,
}

// Whether one opening more of the file can be counted.
fn can_open(watch: &Watch, file: WatchFile) -> bool
    ensures { result ≡ can_open watch.now.present file }
{
    match file {
        WatchFile::Log => watch.opened().log < u32::MAX,
        WatchFile::Jobs => watch.opened().jobs < u32::MAX,
    }
}

fn add_opening(watch: &mut Watch, file: WatchFile) -> Result<(), NoMemory>
    requires { IsTrue (can_open watch.old.present file) }
    ensures kept { watch.new.kept ≡ watch.old.kept }
    ensures ok { OnOk result (watch.new.present ≡ with_opening watch.old.present file) }
{
    match file {
        WatchFile::Log => watch.open_log(watch.opened().log + 1),
        WatchFile::Jobs => watch.open_jobs(watch.opened().jobs + 1),
    }
}

/// Makes an opening more of a file, where the message asks for one and it can be counted.
pub fn open_watch(watch: &mut Watch, events: EventChange) -> Result<(), NoMemory>
    requires { IsWatchSound watch.old.present }
    ensures kept { watch.new.kept ≡ watch.old.kept }
    ensures ok { OnOk result (watch.new.present ≡ opened_with watch.old.present events) }
    ensures sound { OnOk result (IsWatchSound watch.new.present) }
    ensures idle { IsWatchIdle watch.old.present → OnOk result (IsWatchIdle watch.new.present) }
{
    match events {
        EventChange::Watches { file } => {
            if can_open(watch, file) {
                add_opening(watch, file)?;
            }
            Ok(())
        }
        EventChange::Nothing => Ok(()),
        EventChange::Opens { .. } => Ok(()),
        EventChange::Joins { .. } => Ok(()),
        EventChange::Cancels { .. } => Ok(()),
    }
}

// Why a read is refused, if it is.
fn read_refusal(watch: &Watch, sessions: &Sessions, read: WatchRead) -> Option<Refusal>
    ensures { result ≡ read_refusal sessions.now.present watch.now.present read }
{
    let asker = read.asker;
    if !watch.is_open(read.file, asker.opening) {
        return Some(Refusal::FidIsNotOpen);
    }
    if watch.must_wait(read) && reads_are_full(sessions, asker.conn) {
        return Some(Refusal::TooManyWaitingReads);
    }
    None
}

fn ask(watch: &mut Watch, read: WatchRead, at: u64) -> Result<Asked, NoMemory>
    requires { IsTrue (has_opening watch.old.present read.file read.asker.opening) }
    ensures answer { IfOk result (λ asked. asked ≡ asked_of watch.old.present read) }
    ensures kept { watch.new.kept ≡ watch.old.kept }
    ensures ok { OnOk result (watch.new.present ≡ after_ask watch.old.present read at) }
{
    match read.file {
        WatchFile::Log => watch.ask_log(read.asker),
        WatchFile::Jobs => watch.ask_jobs(read.asker, at),
    }
}

/// A read of one of the files: what is said to it at once, None where it waits.
#[tactic(auto, using(crate::proofs::Steps::reading))]
pub fn read_watch(
    alloc: Global,
    watch: &mut Watch,
    sessions: &mut Sessions,
    read: ReadAt,
) -> Result<Option<RBody>, NoMemory>
    requires sound { IsWatchSound watch.old.present }
    requires small { read.read.asker.count + rread_head < 2 ^ 32 }
    requires joined { HasJoined sessions.old.present read.read.asker.conn }
    ensures said { IfOk result (λ said. said ≡ watch_said sessions.old.present watch.old.present read.read) }
    ensures sent { IfOk result (λ said. IfSome said IsSent) }
    ensures watch { OnOk result (watch.new.present
        ≡ watch_read sessions.old.present watch.old.present read.read read.at) }
    ensures tables { OnOk result (sessions.new.present
        ≡ tables_read_watch sessions.old.present watch.old.present read.read read.fid) }
    ensures kept_watch { watch.new.kept ≡ watch.old.kept }
    ensures kept_tables { sessions.new.kept ≡ sessions.old.kept }
    ensures sound { OnOk result (IsWatchSound watch.new.present) }
    ensures idle { IsWatchIdle watch.old.present → OnOk result (IsWatchIdle watch.new.present) }
{
    let ReadAt { fid, read, at } = read;
    if let Some(refusal) = read_refusal(watch, sessions, read) {
        return Ok(Some(error(alloc, refusal)?));
    }
    match ask(watch, read, at)? {
        Asked::Now(piece) => Ok(Some(RBody::Read { bytes: piece.bytes })),
        Asked::Waits => {
            sessions.wait(read.asker.conn, read.asker.tag, fid)?;
            Ok(None)
        }
    }
}
