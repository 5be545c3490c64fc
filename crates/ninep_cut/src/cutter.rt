//! A cutter of messages, which contracts see as the bytes that it has left.

ghost use Rattle.std.specs.Prelude.{◌≡◌, [], ◌++◌, length, IfOk, OnOk, OnErr};
ghost use Rattle.ninep_cut.specs.Cuts.{cut_of, Takes};

use crate::cut::{Cut, cut_of, first_of};
use am_text::{Bytes, Items, NoMemory};
use std::alloc::Global;
use std::marker::Model;

/// Cuts a stream of 9P messages that comes in pieces.
///
/// Feeding a stream and taking all its messages takes time linear in its bytes.
#[derive(Drop)]
pub struct Cutter {
    alloc: Global,
    held: Vec<u8>,
    // how many of the bytes held were given
    given: usize,
}

impl Model for Cutter {
    ghost use Rattle.std.specs.Prelude.{ℕ, List, ◌≤◌, drop, length};

    ghost Value = { List ℕ };

    ghost view = { λ c. drop c.given c.held.items };

    ghost invariant = { λ c. c.given ≤ length c.held.items };
}

impl Cutter {
    /// A cutter that was fed nothing. It takes no memory.
    pub fn new(alloc: Global) -> Cutter
        ensures { result ≡ [] }
    {
        Cutter {
            alloc,
            held: Vec::new(alloc),
            given: 0,
        }
    }

    /// How many bytes are left.
    pub fn rest(&self) -> usize
        ensures { result ≡ length self.now }
    {
        self.held.len() - self.given
    }

    // The bytes that are left.
    fn left(&self) -> &[u8]
        ensures { result.now ≡ self.now }
    {
        let (_, left) = self.held.as_slice().split_at(self.given);
        left
    }

    // Drops the bytes that were given, where no more are left than these: so a byte that is given pays for the
    // move of one that is left.
    fn drop_given(&mut self)
        ensures { self.new ≡ self.old }
    {
        let left = self.held.len() - self.given;
        if left <= self.given {
            self.held.copy_within(self.given.., 0);
            self.held.truncate(left);
            self.given = 0;
        }
    }

    /// Puts a piece of the stream behind the bytes that are left. Want of memory changes nothing.
    pub fn feed(&mut self, piece: &[u8]) -> Result<(), NoMemory>
        ensures ok { OnOk result (self.new ≡ self.old ++ piece.now) }
        ensures err { OnErr result (self.new ≡ self.old) }
    {
        self.drop_given();
        self.held.extend_from_slice(piece)?;
        Ok(())
    }

    /// Sets `into` to the next whole message, which is then no longer left. `More` and `Broken` change nothing, and
    /// neither does want of memory, which comes only where there is a message to give.
    #[tactic(auto, using(crate::proofs::Streams::takes))]
    pub fn next(&mut self, into: &mut Bytes) -> Result<Cut, NoMemory>
        ensures answer { IfOk result (λ cut. cut ≡ cut_of self.old) }
        ensures takes { IfOk result (λ cut. Takes cut self.old self.new into.old into.new) }
        ensures refused { OnErr result (cut_of self.old ≡ Cut.Whole) }
        ensures err { OnErr result (self.new ≡ self.old) }
        ensures err_into { OnErr result (into.new ≡ into.old) }
    {
        let left = self.left();
        match cut_of(left) {
            Cut::Whole => {
                let message = first_of(left);
                *into = Items::copied(self.alloc, message)?;
                self.given += message.len();
                Ok(Cut::Whole)
            }
            Cut::More => Ok(Cut::More),
            Cut::Broken(size) => Ok(Cut::Broken(size)),
        }
    }
}
