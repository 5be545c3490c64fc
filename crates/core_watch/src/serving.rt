//! Waiting reads that can be answered now are answered, the oldest first over both files.

ghost use Rattle.std.specs.Prelude.{◌≡◌, IfOk, OnOk};
ghost use Rattle.acme_watch.specs.Watching.{after_serve};
ghost use Rattle.core_events.specs.Responses.{AreSaid};
ghost use Rattle.core_watch.specs.Serving.{next_served, response_to, watch_served, watch_after_serving};
ghost use Rattle.core_watch.specs.Sound.{IsWatchSound, IsWatchIdle};

use acme_watch::{Watch, WatchRead};
use am_text::{Items, NoMemory};
use core_events::{Response, Responses, watch_feed};
use core_fids::WatchOpening;
use ninep_types::{RBody, RMsg};
use std::alloc::Global;
use wait_queue::Piece;

// Answers the oldest waiting read that can be answered.
fn serve_next(watch: &mut Watch, at: u64) -> Result<Option<(WatchRead, Piece)>, NoMemory>
    ensures answer { IfOk result (λ served. served ≡ next_served watch.old.present) }
    ensures kept { watch.new.kept ≡ watch.old.kept }
    ensures ok { OnOk result (watch.new.present ≡ after_serve watch.old.present at) }
{
    let Some(read) = watch.next() else {
        return Ok(None);
    };
    match watch.serve(at)? {
        Some((_, piece)) => Ok(Some((read, piece))),
        None => Ok(None),
    }
}

// The answer to a read that waited.
fn response_to(read: WatchRead, piece: Piece) -> Response
    ensures { result ≡ response_to (read, piece) }
{
    let asker = read.asker;
    Response {
        conn: asker.conn,
        message: RMsg {
            tag: asker.tag,
            body: RBody::Read { bytes: piece.bytes },
        },
        feed: Some(watch_feed(WatchOpening {
            file: read.file,
            opening: asker.opening,
        })),
    }
}

/// Answers the waiting reads of both files that can be answered at this entry, the oldest first, until none can.
pub fn serve_watch(alloc: Global, watch: &mut Watch, at: u64) -> Result<Responses, NoMemory>
    requires { IsWatchSound watch.old.present }
    ensures exact { IfOk result (λ said. said ≡ watch_served at watch.old.present) }
    ensures said { IfOk result AreSaid }
    ensures kept { watch.new.kept ≡ watch.old.kept }
    ensures ok { OnOk result (watch.new.present ≡ watch_after_serving at watch.old.present) }
    ensures sound { OnOk result (IsWatchSound watch.new.present) }
    ensures idle { OnOk result (IsWatchIdle watch.new.present) }
{
    let mut said = Items::new(alloc);
    while let Some((read, piece)) = serve_next(watch, at)? {
        said.push(response_to(read, piece))?;
    }
    Ok(said)
}
