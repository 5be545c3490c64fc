//! Waiting reads that can be answered now are answered, the oldest first.

ghost use Rattle.std.specs.Prelude.{◌≡◌, IfOk, OnOk};
ghost use Rattle.core_events.specs.Responses.{AreSaid};
ghost use Rattle.core_events.specs.Serving.{served_all, book_served_all};
ghost use Rattle.core_events.specs.Sound.{IsSound};

use crate::response::{Feed, FeedKind, Response, Responses};
use am_text::{Items, NoMemory};
use core_fids::RBody;
use event_book::Book;
use ninep_types::RMsg;
use std::alloc::Global;

/// Answers the waiting reads that can be answered, the oldest first, until none can.
pub fn serve_all(alloc: Global, book: &mut Book, at: u64) -> Result<Responses, NoMemory>
    requires { IsSound at book.old.present }
    ensures exact { IfOk result (λ said. said ≡ served_all at book.old.present) }
    ensures said { IfOk result AreSaid }
    ensures kept { book.new.kept ≡ book.old.kept }
    ensures ok { OnOk result (book.new.present ≡ book_served_all at book.old.present) }
    ensures sound { OnOk result (IsSound at book.new.present) }
{
    let mut said = Items::new(alloc);
    while let Some((asker, piece)) = book.serve(at)? {
        said.push(Response {
            conn: asker.conn,
            message: RMsg {
                tag: asker.tag,
                body: RBody::Read { bytes: piece.bytes },
            },
            feed: Some(Feed {
                kind: FeedKind::Events,
                opening: asker.opening,
            }),
        })?;
    }
    Ok(said)
}
