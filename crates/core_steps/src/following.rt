//! A message that reads `log` or `jobs`.

ghost use Rattle.std.specs.Prelude.{◌≡◌, IfOk, IfSome, OnOk};
ghost use Rattle.core_events.specs.Responses.{AreSaid};
ghost use Rattle.core_watch.specs.Sound.{IsWatchSound};
ghost use Rattle.core_steps.specs.WatchReads.{watch_asked, watch_read_in, watch_read_of, followed_said, followed_watch};
ghost use Rattle.core_steps.specs.WatchReads.{followed_tables, IsFollowable};

use crate::saying::one;
use am_text::{Items, NoMemory};
use core_events::{Responses, watch_feed};
use core_fids::{Answer, WatchOpening};
use core_parts::Kind;
use core_watch::{ReadAt, Watch, WatchRead, read_watch};
use fid_table::Sessions;
use std::alloc::Global;
use wait_queue::Asker;

fn watch_asked(conn: u32, tag: u16, opening: WatchOpening, count: u32) -> WatchRead
    ensures { result ≡ watch_asked conn tag opening count }
{
    WatchRead {
        file: opening.file,
        asker: Asker {
            conn,
            tag,
            opening: opening.opening,
            count,
        },
    }
}

fn watch_read_in(conn: u32, tag: u16, answer: &Option<Answer>, at: u64) -> Option<ReadAt>
    ensures { result ≡ watch_read_in conn tag answer.now at }
{
    match answer {
        Some(
            Answer::ReadsWatch {
                fid,
                opening,
                count,
            },
        ) => Some(ReadAt {
            fid: *fid,
            read: watch_asked(conn, tag, *opening, *count),
            at,
        }),
        Some(Answer::ReadsPort { .. }) => None,
        Some(Answer::Reads { .. }) => None,
        Some(Answer::Says(_)) => None,
        None => None,
    }
}

/// The read of `log` or `jobs` that an event of this kind is at this entry, by how it is to be answered, if it is one.
pub(crate) fn watch_read_of(kind: Kind, answer: &Option<Answer>, at: u64) -> Option<ReadAt>
    ensures { result ≡ watch_read_of kind answer.now at }
{
    match kind {
        Kind::Asks { conn, tag } => watch_read_in(conn, tag, answer, at),
        Kind::Dials { .. } => None,
        Kind::Ends { .. } => None,
        Kind::Takes { .. } => None,
        Kind::Acts => None,
    }
}

/// What is said to a read of `log` or `jobs` at once. It is nothing where there is no such read, or it waits.
#[tactic(auto, using(crate::proofs::Saids::saying))]
pub(crate) fn follow(
    alloc: Global,
    watch: &mut Watch,
    sessions: &mut Sessions,
    read: Option<ReadAt>,
) -> Result<Responses, NoMemory>
    requires sound { IsWatchSound watch.old.present }
    requires followable { IfSome read (IsFollowable sessions.old.present) }
    ensures exact { IfOk result (λ said. said ≡ followed_said sessions.old.present watch.old.present read) }
    ensures said { IfOk result AreSaid }
    ensures watch { OnOk result (watch.new.present ≡ followed_watch sessions.old.present watch.old.present read) }
    ensures tables { OnOk result (sessions.new.present ≡ followed_tables sessions.old.present watch.old.present read) }
    ensures kept_watch { watch.new.kept ≡ watch.old.kept }
    ensures kept_tables { sessions.new.kept ≡ sessions.old.kept }
    ensures sound { OnOk result (IsWatchSound watch.new.present) }
{
    let Some(read) = read else {
        return Ok(Items::new(alloc));
    };
    let WatchRead { file, asker } = read.read;
    let opening = WatchOpening {
        file,
        opening: asker.opening,
    };
    match read_watch(alloc, watch, sessions, read)? {
        Some(body) => one(
            alloc,
            asker.conn,
            asker.tag,
            body,
            Some(watch_feed(opening)),
        ),
        None => Ok(Items::new(alloc)),
    }
}
