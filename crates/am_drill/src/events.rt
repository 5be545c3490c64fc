//! The events of a drill.

ghost use Rattle.std.specs.Prelude.{◌≡◌, ◌∷◌, [], codes, IfOk};
ghost use Rattle.ninep_types.specs.Limits.{no_tag, no_fid, version_name};
ghost use Rattle.am_drill.specs.Drill.{asked_msize, message, opening, write, poll, flush, key, read};

use am_journal::{Event, Events, Side};
use am_text::{Items, Names, NoMemory, Rune};
use ninep_types::{NO_FID, NO_TAG, TBody, TMsg, VERSION_NAME};
use std::alloc::Global;

/// The msize that is asked for.
const ASKED_MSIZE: u32 = 8_192;

/// How many bytes of the event file are read at once, and how many of the body.
const EVENT_BYTES: u32 = 64;

const BODY_BYTES: u32 = 32;

// A message of connection 0.
fn message(tag: u16, body: TBody) -> Event
    ensures { result ≡ message tag body }
{
    Event::Msg {
        conn: 0,
        msg: TMsg { tag, body },
    }
}

fn names(alloc: Global, first: &[u8], second: &[u8]) -> Result<Names, NoMemory>
    ensures { IfOk result (λ names. names ≡ first.now ∷ second.now ∷ []) }
{
    let mut names = Items::new(alloc);
    names.push(Items::copied(alloc, first)?)?;
    names.push(Items::copied(alloc, second)?)?;
    Ok(names)
}

fn version(alloc: Global) -> Result<Event, NoMemory>
    ensures { IfOk result (λ e. e ≡ message no_tag (TBody.Version asked_msize version_name)) }
{
    Ok(message(
        NO_TAG,
        TBody::Version {
            msize: ASKED_MSIZE,
            version: Items::copied(alloc, VERSION_NAME)?,
        },
    ))
}

fn attach(alloc: Global) -> Result<Event, NoMemory>
    ensures { IfOk result (λ e. e ≡ message 1 (TBody.Attach 0 no_fid (codes "u") [])) }
{
    Ok(message(
        1,
        TBody::Attach {
            fid: 0,
            afid: NO_FID,
            uname: Items::copied(alloc, b"u")?,
            aname: Items::new(alloc),
        },
    ))
}

// A walk of two names from the root.
fn walk(alloc: Global, newfid: u32, first: &[u8], second: &[u8]) -> Result<Event, NoMemory>
    ensures { IfOk result (λ e. e ≡ message 2 (TBody.Walk 0 newfid (first.now ∷ second.now ∷ []))) }
{
    Ok(message(
        2,
        TBody::Walk {
            fid: 0,
            newfid,
            names: names(alloc, first, second)?,
        },
    ))
}

fn open(fid: u32, mode: u8) -> Event
    ensures { result ≡ message 3 (TBody.Open fid mode) }
{
    message(3, TBody::Open { fid, mode })
}

/// The events that come before the rounds.
pub(crate) fn opening(alloc: Global) -> Result<Events, NoMemory>
    ensures { IfOk result (λ events. events ≡ opening) }
{
    let mut events = Items::new(alloc);
    events.push(Event::Dial { conn: 0 })?;
    events.push(version(alloc)?)?;
    events.push(attach(alloc)?)?;
    events.push(walk(alloc, 1, b"new", b"body")?)?;
    events.push(open(1, 2))?;
    events.push(walk(alloc, 2, b"1", b"event")?)?;
    events.push(open(2, 0))?;
    Ok(events)
}

/// A letter is written to the body.
pub(crate) fn write(alloc: Global, letter: u8) -> Result<Event, NoMemory>
    ensures { IfOk result (λ e. e ≡ write letter) }
{
    Ok(message(
        4,
        TBody::Write {
            fid: 1,
            offset: 0,
            bytes: Items::copied(alloc, &[letter])?,
        },
    ))
}

/// The event file is read.
pub(crate) fn poll() -> Event
    ensures { result ≡ poll }
{
    message(
        10,
        TBody::Read {
            fid: 2,
            offset: 0,
            count: EVENT_BYTES,
        },
    )
}

/// The read of the event file is flushed.
pub(crate) fn flush() -> Event
    ensures { result ≡ flush }
{
    message(11, TBody::Flush { oldtag: 10 })
}

/// A letter is typed into the body.
pub(crate) fn key(alloc: Global, letter: u8) -> Result<Event, NoMemory>
    ensures { IfOk result (λ e. e ≡ key letter) }
{
    Ok(Event::Key {
        window: 1,
        side: Side::Body,
        text: Items::copied(alloc, &[Rune::from(letter)])?,
    })
}

/// The body is read.
pub(crate) fn read() -> Event
    ensures { result ≡ read }
{
    message(
        5,
        TBody::Read {
            fid: 1,
            offset: 0,
            count: BODY_BYTES,
        },
    )
}
