//! Connections.

ghost use Rattle.std.specs.Prelude.{◌≡◌};
ghost use Rattle.core_parts.specs.Connections.{connection_at};

use am_journal::Ending;

/// What a connection is.
#[derive(Clone, Copy, Debug, PartialEq, Eq)]
pub enum Connection {
    /// It was never dialled.
    Undialed,
    /// It lives.
    Live,
    /// It has ended.
    Ended(Ending),
}

/// The connection of that number.
pub fn connection_at(connections: &[Connection], conn: u32) -> Connection
    ensures { result ≡ connection_at connections.now conn }
{
    match connections.get(conn as usize) {
        Some(connection) => *connection,
        None => Connection::Undialed,
    }
}
