//! Opening and reading event files.

ghost use Rattle.std.specs.Prelude.{◌≡◌, ℕ, ◌+◌, ◌<◌, ◌^◌, IfOk, IfSome, OnOk};
ghost use Rattle.am_text.specs.Twice.{IsSteady};
ghost use Rattle.fid_table.specs.Tables.{HasJoined};
ghost use Rattle.core_fids.specs.Done.{IsSent};
ghost use Rattle.ninep_types.specs.Limits.{rread_head};
ghost use Rattle.core_events.specs.Limits.{max_reads};
ghost use Rattle.core_events.specs.Asking.{opened, reads_are_full, read_said, book_read, tables_read};
ghost use Rattle.core_events.specs.Sound.{IsSound};

use am_journal::Format;
use am_text::NoMemory;
use core_fids::{EventChange, RBody, Refusal, error};
use event_book::Book;
use fid_table::Sessions;
use std::alloc::Global;
use wait_queue::{Asked, Asker, MAX_OPENINGS};

// The most reads of a connection that wait.
fn max_reads(format: Format) -> usize
    ensures { result ≡ max_reads format }
{
    match format {
        Format::One => 64,
        Format::Two => 256,
    }
}

/// A read of an event file at the entry of this number: the fid that is read, and who asks for how much of which
/// opening.
#[derive(Clone, Copy, Debug, PartialEq, Eq)]
pub struct EventRead {
    pub fid: u32,
    pub asker: Asker,
    pub at: u64,
}

/// Makes an opening more of a window's event file, where the message asks for one.
pub fn open_events(book: &mut Book, events: EventChange) -> Result<(), NoMemory>
    ensures kept { book.new.kept ≡ book.old.kept }
    ensures ok { OnOk result (book.new.present ≡ opened book.old.present events) }
    ensures sound { (at : ℕ) → IsSound at book.old.present → OnOk result (IsSound at book.new.present) }
{
    match events {
        EventChange::Opens { window } => {
            if book.openings() < MAX_OPENINGS {
                book.add_opening(window)?;
            }
            Ok(())
        }
        EventChange::Nothing => Ok(()),
        EventChange::Joins { .. } => Ok(()),
        EventChange::Watches { .. } => Ok(()),
        EventChange::Cancels { .. } => Ok(()),
    }
}

/// Whether as many reads of a connection wait as may.
pub fn reads_are_full(sessions: &Sessions, conn: u32) -> bool
    ensures { result ≡ reads_are_full sessions.now.present conn }
{
    sessions.waiting(conn) >= max_reads(sessions.format())
}

/// What is said at once to a read of an event file, None where it waits.
pub fn read_events(
    alloc: Global,
    book: &mut Book,
    sessions: &mut Sessions,
    read: EventRead,
) -> Result<Option<RBody>, NoMemory>
    requires steady { IsSteady book.old }
    requires sound { IsSound read.at book.old.present }
    requires small { read.asker.count + rread_head < 2 ^ 32 }
    requires joined { HasJoined sessions.old.present read.asker.conn }
    ensures said { IfOk result (λ said. said ≡ read_said sessions.old.present book.old.present read.asker) }
    ensures sent { IfOk result (λ said. IfSome said IsSent) }
    ensures book { OnOk result (book.new.present ≡ book_read sessions.old.present book.old.present read.asker read.at) }
    ensures tables { OnOk result (sessions.new.present ≡ tables_read sessions.old.present book.old.present read.asker
        read.fid) }
    ensures kept_book { book.new.kept ≡ book.old.kept }
    ensures kept_tables { sessions.new.kept ≡ sessions.old.kept }
    ensures sound { OnOk result (IsSound read.at book.new.present) }
{
    let EventRead { fid, asker, at } = read;
    if !book.is_living(asker.opening) {
        return Ok(Some(error(alloc, Refusal::WindowDeleted)?));
    }
    match book.ask(asker, at)? {
        Asked::Now(piece) => Ok(Some(RBody::Read { bytes: piece.bytes })),
        Asked::Waits if reads_are_full(sessions, asker.conn) => {
            book.back();
            Ok(Some(error(alloc, Refusal::TooManyWaitingReads)?))
        }
        Asked::Waits => {
            sessions.wait(asker.conn, asker.tag, fid)?;
            Ok(None)
        }
    }
}
