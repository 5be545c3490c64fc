//! The messages that a port keeps.

ghost use Rattle.std.specs.Prelude.{◌≡◌, [], ◌∷◌, ◌++◌, OnOk, OnErr};
ghost use Rattle.plumb_ports.specs.Undo.{without_last};

use am_text::{Bytes, NoMemory};
use std::alloc::Global;
use std::marker::Model;

/// Messages in the order of delivery.
#[derive(Drop)]
pub struct KeptMessages {
    all: Vec<Bytes>,
}

impl Model for KeptMessages {
    ghost use Rattle.std.specs.Prelude.{List, ℕ};

    ghost Value = { List (List ℕ) };

    ghost view = { λ k. k.all.items };
}

impl KeptMessages {
    /// No messages. It takes no memory.
    pub fn new(alloc: Global) -> Self
        ensures { result ≡ [] }
    {
        KeptMessages {
            all: Vec::new(alloc),
        }
    }

    /// The messages, the first first.
    pub fn as_slice(&self) -> &[Bytes]
        ensures { result.now ≡ self.now }
    {
        self.all.as_slice()
    }

    /// One more, the last. A refusal changes nothing.
    pub fn push(&mut self, message: Bytes) -> Result<(), NoMemory>
        ensures ok { OnOk result (self.new ≡ self.old ++ message ∷ []) }
        ensures err { OnErr result (self.new ≡ self.old) }
    {
        self.all.push(message)?;
        Ok(())
    }

    /// Drops the last one. It takes no memory.
    pub fn pop(&mut self)
        ensures { self.new ≡ without_last self.old }
    {
        self.all.pop();
    }
}
