//! Which connections were replied to.

ghost use Rattle.std.specs.Prelude.{◌≡◌, ◌<◌, true, false, replicate, slice_index_or, slice_set};
ghost use Rattle.am_journal.specs.Limits.{connection_count};

use am_journal::CONNECTIONS;

/// A set of connections, each below 64: those that entries replied to.
#[derive(Clone, Debug, PartialEq, Eq, Drop)]
pub struct Told {
    /// For each connection whether it is in the set.
    pub are: [bool; CONNECTIONS],
}

impl Told {
    /// The empty set.
    pub fn none() -> Told
        ensures { result.are ≡ replicate connection_count false }
    {
        Told {
            are: [false; CONNECTIONS],
        }
    }

    /// Adds a connection. One that isn't below 64 is left out.
    pub fn add(&mut self, conn: u32)
        ensures { self.new.are ≡ slice_set self.old.are conn true }
    {
        let conn = conn as usize;
        if conn < self.are.len() {
            self.are[conn] = true;
        }
    }

    /// Whether a connection is in the set.
    pub fn has(&self, conn: u32) -> bool
        ensures { result ≡ slice_index_or self.now.are conn false }
    {
        let conn = conn as usize;
        conn < self.are.len() && self.are[conn]
    }
}
