//! What an event asks of event files: an answer, where it is a message, and an opening.

ghost use Rattle.std.specs.Prelude.{◌≡◌, ◌+◌, ◌<◌, ◌^◌, IfOk, OnOk};
ghost use Rattle.am_text.specs.Twice.{IsSteady};
ghost use Rattle.ninep_types.specs.Limits.{rread_head};
ghost use Rattle.fid_table.specs.Tables.{HasJoined};
ghost use Rattle.core_events.specs.Responses.{AreSaid};
ghost use Rattle.core_events.specs.Asking.{opened, read_said, book_read, tables_read};
ghost use Rattle.core_events.specs.Sound.{IsSound, IsIdle};
ghost use Rattle.core_parts.specs.Connections.{IsJoinedFor, IsOfJoined, grown};
ghost use Rattle.core_intents.specs.Doings.{IsAnswerable};
ghost use Rattle.core_steps.specs.Stages.{if_said, message_said, message_book, message_tables};

use crate::saying::one;
use crate::sessions::grow_sessions;
use am_text::{Items, NoMemory};
use core_events::{Book, EventRead, Responses, event_feed, open_events, read_events};
use core_fids::{Answer, Effect, EventChange};
use core_parts::Kind;
use fid_table::Sessions;
use std::alloc::Global;
use wait_queue::Asker;

/// What an event of this kind asks of event files at the entry of this number: an answer, where it is a
/// message, and an opening.
#[derive(Drop)]
pub(crate) struct Asks {
    pub kind: Kind,
    pub answer: Option<Answer>,
    pub events: EventChange,
    pub at: u64,
}

// What is said at once to a read of an event file.
#[tactic(auto, using(crate::proofs::Saids::saying))]
fn read(
    alloc: Global,
    book: &mut Book,
    sessions: &mut Sessions,
    read: EventRead,
) -> Result<Responses, NoMemory>
    requires steady { IsSteady book.old }
    requires sound { IsSound read.at book.old.present }
    requires small { read.asker.count + rread_head < 2 ^ 32 }
    requires joined { HasJoined sessions.old.present read.asker.conn }
    ensures exact { IfOk result (λ said. said ≡ if_said read.asker.conn read.asker.tag read.asker.opening
        (read_said sessions.old.present book.old.present read.asker)) }
    ensures said { IfOk result AreSaid }
    ensures book { OnOk result (book.new.present ≡ book_read sessions.old.present book.old.present read.asker read.at) }
    ensures tables { OnOk result (sessions.new.present
        ≡ tables_read sessions.old.present book.old.present read.asker read.fid) }
    ensures kept_book { book.new.kept ≡ book.old.kept }
    ensures kept_tables { sessions.new.kept ≡ sessions.old.kept }
    ensures sound { OnOk result (IsSound read.at book.new.present) }
{
    let asker = read.asker;
    let feed = event_feed(asker.opening);
    match read_events(alloc, book, sessions, read)? {
        Some(body) => one(alloc, asker.conn, asker.tag, body, Some(feed)),
        None => Ok(Items::new(alloc)),
    }
}

// What is said to an event of this kind at once: it is answered where it is a message, unless it reads a port, `log` or
// `jobs`.
#[tactic(auto, using(crate::proofs::Saids::saying))]
fn answer_message(
    alloc: Global,
    book: &mut Book,
    sessions: &mut Sessions,
    asks: Asks,
) -> Result<Responses, NoMemory>
    requires steady { IsSteady book.old }
    requires sound { IsSound asks.at book.old.present }
    requires answerable { IsAnswerable asks.answer }
    requires joined { IsOfJoined sessions.old.present asks.kind }
    ensures exact { IfOk result (λ said. said ≡ message_said sessions.old.present book.old.present
        asks.kind asks.answer) }
    ensures said { IfOk result AreSaid }
    ensures book { OnOk result (book.new.present ≡ message_book sessions.old.present book.old.present asks.kind
        asks.answer asks.at) }
    ensures tables { OnOk result (sessions.new.present
        ≡ message_tables sessions.old.present book.old.present asks.kind asks.answer) }
    ensures kept_book { book.new.kept ≡ book.old.kept }
    ensures kept_tables { sessions.new.kept ≡ sessions.old.kept }
    ensures sound { OnOk result (IsSound asks.at book.new.present) }
{
    let Asks {
        kind,
        answer,
        at,
        ..
    } = asks;
    let Kind::Asks { conn, tag } = kind else {
        return Ok(Items::new(alloc));
    };
    match answer {
        None => Ok(Items::new(alloc)),
        Some(Answer::Says(body)) => one(alloc, conn, tag, body, None),
        Some(
            Answer::Reads {
                fid,
                opening,
                count,
            },
        ) => {
            let asker = Asker {
                conn,
                tag,
                opening,
                count,
            };
            read(alloc, book, sessions, EventRead { fid, asker, at })
        }
        Some(Answer::ReadsPort { .. }) => Ok(Items::new(alloc)),
        Some(Answer::ReadsWatch { .. }) => Ok(Items::new(alloc)),
    }
}

/// The sessions and the event files with what a message puts, opens and reads; and what is said to it.
#[tactic(auto, using(crate::proofs::Joins::joining, crate::proofs::Idling::asking))]
pub(crate) fn grow_files(
    alloc: Global,
    book: &mut Book,
    sessions: &mut Sessions,
    asks: Asks,
    effect: &Effect,
) -> Result<Responses, NoMemory>
    requires steady { IsSteady book.old }
    requires sound { IsSound asks.at book.old.present }
    requires idle { IsIdle book.old.present }
    requires answerable { IsAnswerable asks.answer }
    requires joined { IsJoinedFor sessions.old.present asks.kind }
    ensures exact { IfOk result (λ said. said ≡ message_said (grown sessions.old.present asks.kind effect.now)
        book.old.present asks.kind asks.answer) }
    ensures said { IfOk result AreSaid }
    ensures book { OnOk result (book.new.present ≡ opened
        (message_book (grown sessions.old.present asks.kind effect.now) book.old.present asks.kind asks.answer asks.at)
        asks.events) }
    ensures tables { OnOk result (sessions.new.present
        ≡ message_tables (grown sessions.old.present asks.kind effect.now) book.old.present asks.kind asks.answer) }
    ensures kept_book { book.new.kept ≡ book.old.kept }
    ensures kept_tables { sessions.new.kept ≡ sessions.old.kept }
    ensures sound { OnOk result (IsSound asks.at book.new.present) }
    ensures idle { OnOk result (IsIdle book.new.present) }
    ensures there { OnOk result (IsOfJoined sessions.new.present asks.kind) }
{
    let events = asks.events;
    // law: the book is lawful
    book.is_lawful();
    grow_sessions(alloc, sessions, asks.kind, effect)?;
    let said = answer_message(alloc, book, sessions, asks)?;
    open_events(book, events)?;
    Ok(said)
}
