//! The replies of one connection that aren't taken yet.

ghost use Rattle.std.specs.Prelude.{◌≡◌, ◌<◌, ◌≤◌, length, take, OnOk, OnErr};
ghost use Rattle.am_text.specs.Twice.{both};
ghost use Rattle.core_outputs.specs.Unsent.{with_reply, nothing_unsent};

use am_text::NoMemory;
use std::alloc::Global;
use std::marker::Model;

/// The unsent replies of a connection, in two states: what came since the last `keep` stands behind the kept ones.
#[derive(Drop)]
pub struct Unsent {
    bytes: Vec<u8>,
    count: usize,
    kept: usize,
    kept_count: usize,
}

impl Model for Unsent {
    ghost use Rattle.am_text.specs.Twice.{Twice};
    ghost use Rattle.core_outputs.specs.Unsent.{Unsent};

    ghost Value = { Twice Unsent };

    ghost use Rattle.std.specs.Prelude.{◌≤◌, length, take};

    ghost view = { λ u. record {
      present = record { count = u.count; bytes = u.bytes.items };
      kept = record { count = u.kept_count; bytes = take u.kept u.bytes.items };
    } };

    // Each reply has bytes.
    ghost invariant = { λ u. (u.count ≤ length u.bytes.items) × (u.kept_count ≤ u.kept)
        × (u.kept ≤ length u.bytes.items) };
}

impl Unsent {
    /// No reply. It takes no memory.
    pub(crate) fn new(alloc: Global) -> Unsent
        ensures { result ≡ both nothing_unsent }
    {
        Unsent {
            bytes: Vec::new(alloc),
            count: 0,
            kept: 0,
            kept_count: 0,
        }
    }

    /// How many replies are kept.
    pub(crate) fn count(&self) -> usize
        ensures { result ≡ self.now.kept.count }
    {
        self.kept_count
    }

    /// The bytes of the kept replies.
    pub(crate) fn as_slice(&self) -> &[u8]
        ensures { result.now ≡ self.now.kept.bytes }
    {
        &self.bytes.as_slice()[..self.kept]
    }

    /// The present state becomes the kept one. It takes no memory.
    pub(crate) fn keep(&mut self)
        ensures { self.new ≡ both self.old.present }
    {
        self.kept = self.bytes.len();
        self.kept_count = self.count;
    }

    /// The kept state becomes the present one again. It takes no memory.
    pub(crate) fn back(&mut self)
        ensures { self.new ≡ both self.old.kept }
    {
        self.bytes.truncate(self.kept);
        self.count = self.kept_count;
    }

    /// Puts a reply at the end.
    pub(crate) fn put(&mut self, reply: &[u8]) -> Result<(), NoMemory>
        requires { 0 < length reply.now }
        ensures ok { OnOk result (self.new ≡ record self.old { present = with_reply self.old.present reply.now }) }
        ensures err { OnErr result (self.new ≡ self.old) }
    {
        self.bytes.extend_from_slice(reply)?;
        let _len = self.bytes.len();
        self.count += 1;
        Ok(())
    }
}
