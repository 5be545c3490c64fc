//! The names of sockets.

ghost use Rattle.std.specs.Prelude.{◌≡◌, ◌≤◌, ◌+◌, [], ◌++◌, length, take, IfSome, OnOk};
ghost use Rattle.am_base.specs.Sockets.{name_of_slot};

use std::fmt::Write;
use std::marker::Model;
use std::{fmt, str};

// The bytes of the longest name that the system takes.
const ROOM: usize = 107;

/// A name of a socket, as far as it is written. It takes no memory.
#[derive(Drop)]
pub(crate) struct SocketName {
    room: [u8; ROOM],
    len: usize,
}

impl Model for SocketName {
    ghost use Rattle.std.specs.Prelude.{ℕ, List, take, ◌≤◌};

    ghost Value = { List ℕ };

    ghost view = { λ n. take n.len n.room };

    ghost invariant = { λ n. n.len ≤ 107 };
}

impl SocketName {
    fn empty() -> SocketName
        ensures { result ≡ [] }
    {
        SocketName {
            room: [0; ROOM],
            len: 0,
        }
    }

    /// The path, a full stop and the slot in decimal, or `None` where there is no room for them.
    pub(crate) fn new(path: &str, slot: u32) -> Option<SocketName>
        ensures { IfSome result (λ name. name ≡ name_of_slot path.now slot) }
    {
        let mut name = SocketName::empty();
        name.add(path, slot).ok()?;
        Some(name)
    }

    fn add(&mut self, path: &str, slot: u32) -> fmt::Result
        ensures { OnOk result (self.new ≡ self.old ++ name_of_slot path.now slot) }
    {
        write!(self, "{path}.{slot}")
    }

    /// The name as text.
    pub(crate) fn as_str(&self) -> Option<&str>
        ensures { IfSome result (λ text. text.now ≡ self.now) }
    {
        str::from_utf8(&self.room[..self.len]).ok()
    }
}

impl fmt::Write for SocketName {
    ghost write_str_gives = { λ before text after. after ≡ before ++ text };

    fn write_str(&mut self, s: &str) -> fmt::Result {
        if ROOM - self.len < s.len() {
            return Err(fmt::Error);
        }
        put(&mut self.room, self.len, s.as_bytes());
        self.len += s.len();
        Ok(())
    }
}

// Writes a text at a place.
#[tactic(auto, using(crate::proofs::Names::grown))]
fn put(room: &mut [u8], at: usize, text: &[u8])
    requires { at + length text.now ≤ length room.old }
    ensures len { length room.new ≡ length room.old }
    ensures text { take (at + length text.now) room.new ≡ take at room.old ++ text.now }
{
    let (_, rest) = room.split_at_mut(at);
    let (place, _) = rest.split_at_mut(text.len());
    place.copy_from_slice(text);
}
