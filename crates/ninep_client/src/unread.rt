//! Bytes that came and weren't read as messages yet.

ghost use Rattle.std.specs.Prelude.{◌≡◌, ◌≤◌, ◌<◌, [], ◌++◌, length, drop, IfOk, OnOk, OnErr, IfErr};
ghost use Rattle.am_base.specs.Outside.{HasRisen};
ghost use Rattle.ninep_client.specs.Hearing.{Reads, ReadFails};

use crate::fault::CallFault;
use am_base::{Failed, PIECE_LIMIT, Source};
use std::alloc::Global;
use std::marker::Model;

/// Bytes that came from a source, in order.
#[derive(Drop)]
pub(crate) struct Unread {
    held: Vec<u8>,
    // how many of the bytes held were read
    at: usize,
}

impl Model for Unread {
    ghost use Rattle.std.specs.Prelude.{ℕ, List, ◌≤◌, drop, length};

    ghost Value = { List ℕ };

    ghost view = { λ u. drop u.at u.held.items };

    ghost invariant = { λ u. u.at ≤ length u.held.items };
}

impl Unread {
    /// None yet. It takes no memory.
    pub(crate) fn new(alloc: Global) -> Unread
        ensures { result ≡ [] }
    {
        Unread {
            held: Vec::new(alloc),
            at: 0,
        }
    }

    /// The bytes that are unread.
    pub(crate) fn bytes(&self) -> &[u8]
        ensures { result.now ≡ self.now }
    {
        let (_, unread) = self.held.as_slice().split_at(self.at);
        unread
    }

    /// So many bytes from the front were read.
    pub(crate) fn skip(&mut self, count: usize)
        requires { count ≤ length self.old }
        ensures { self.new ≡ drop count self.old }
    {
        self.at += count;
    }

    // Drops the bytes that were read, where no more are unread than these: so a byte that was read pays for the
    // move of one that is unread.
    fn drop_read(&mut self)
        ensures { self.new ≡ self.old }
    {
        let unread = self.held.len() - self.at;
        if unread <= self.at {
            self.held.copy_within(self.at.., 0);
            self.held.truncate(unread);
            self.at = 0;
        }
    }

    /// Reads bytes from a source, and answers how many came; none at its end alone. Room is taken first, so that no
    /// byte is lost for want of memory.
    pub(crate) fn read<S: Source>(&mut self, source: &mut S) -> Result<usize, CallFault>
        ensures ok { IfOk result (λ n. Reads n (S.told source.old).bytes (S.told source.new).bytes self.old self.new) }
        ensures err { OnErr result (self.new ≡ self.old) }
        ensures left { OnErr result ((S.told source.new).bytes ≡ (S.told source.old).bytes) }
        ensures later { (S.told source.old).faults ≤ (S.told source.new).faults }
        ensures cause { IfErr result (λ e. ReadFails e (S.told source.old).faults (S.told source.new).faults) }
    {
        let mut piece = [0; PIECE_LIMIT];
        self.drop_read();
        if self.held.reserve(PIECE_LIMIT).is_err() {
            return Err(CallFault::NoMemory);
        }
        match source.read(&mut piece) {
            Ok(n) => {
                match self.held.extend_from_slice(&piece[..n]) {
                    Ok(()) => Ok(n),
                    Err(_) => unreachable!(),
                }
            }
            Err(Failed) => Err(CallFault::ReadFault),
        }
    }
}
