//! What kind of thing an event is.

ghost use Rattle.std.specs.Prelude.{◌≡◌};
ghost use Rattle.core_parts.specs.Kinds.{kind_of, conn_of, is_hang};

use am_journal::{Ending, Event};

/// What an event is to connections. It is decided once; the stages of a step go by it.
#[derive(Clone, Copy, Debug, PartialEq, Eq)]
pub enum Kind {
    /// The connection is dialled.
    Dials { conn: u32 },
    /// A message of the connection with this tag comes.
    Asks { conn: u32, tag: u16 },
    /// The connection ends.
    Ends { conn: u32, why: Ending },
    /// The unsent replies of the connection are taken.
    Takes { conn: u32 },
    /// The event is one of no connection.
    Acts,
}

/// The kind of an event.
pub fn kind_of(event: &Event) -> Kind
    ensures { result ≡ kind_of event.now }
{
    match event {
        Event::Dial { conn } => Kind::Dials { conn: *conn },
        Event::Msg { conn, msg } => Kind::Asks {
            conn: *conn,
            tag: msg.tag,
        },
        Event::Hang { conn, why } => Kind::Ends {
            conn: *conn,
            why: *why,
        },
        Event::Took { conn } => Kind::Takes { conn: *conn },
        Event::New => Kind::Acts,
        Event::Key { .. } => Kind::Acts,
        Event::Sel { .. } => Kind::Acts,
        Event::Exec { .. } => Kind::Acts,
        Event::Arg { .. } => Kind::Acts,
        Event::Look { .. } => Kind::Acts,
        Event::File { .. } => Kind::Acts,
        Event::Dir { .. } => Kind::Acts,
    }
}

/// The connection of an event of this kind, 0 where it has none.
pub fn conn_of(kind: Kind) -> u32
    ensures { result ≡ conn_of kind }
{
    match kind {
        Kind::Dials { conn } => conn,
        Kind::Asks { conn, .. } => conn,
        Kind::Ends { conn, .. } => conn,
        Kind::Takes { conn } => conn,
        Kind::Acts => 0,
    }
}

/// Whether the event is a hang-up.
pub fn is_hang(event: &Event) -> bool
    ensures { result ≡ is_hang event.now }
{
    match event {
        Event::Hang { .. } => true,
        Event::Dial { .. } => false,
        Event::Msg { .. } => false,
        Event::Took { .. } => false,
        Event::New => false,
        Event::Key { .. } => false,
        Event::Sel { .. } => false,
        Event::Exec { .. } => false,
        Event::Arg { .. } => false,
        Event::Look { .. } => false,
        Event::File { .. } => false,
        Event::Dir { .. } => false,
    }
}
