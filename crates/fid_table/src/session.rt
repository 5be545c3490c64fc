//! A connection's session, and a read that waits.

ghost use Rattle.std.specs.Prelude.{◌≡◌, ◌<◌, length, find, position, option_copied, IfSome};
ghost use Rattle.fid_table.specs.Tables.{is_session};

use crate::fids::Fids;

/// A connection that joined: the msize of its session, None where none is open, and its fids.
#[derive(Drop)]
pub struct Session {
    pub conn: u32,
    pub msize: Option<u32>,
    pub fids: Fids,
}

/// A read that waits: its connection, its tag, and the fid that it reads.
#[derive(Clone, Copy, Debug, PartialEq, Eq)]
pub struct Waiting {
    pub conn: u32,
    pub tag: u16,
    pub fid: u32,
}

/// The session of a connection.
pub fn session_of(sessions: &[Session], conn: u32) -> Option<&Session>
    ensures { option_copied result ≡ find (is_session conn) sessions.now }
{
    sessions.iter().find(|s| s.conn == conn)
}

/// The place of a connection's session.
pub fn place_of(sessions: &[Session], conn: u32) -> Option<usize>
    ensures place { result ≡ position (is_session conn) sessions.now }
    ensures within { IfSome result (λ place. place < length sessions.now) }
{
    sessions.iter().position(|s| s.conn == conn)
}
