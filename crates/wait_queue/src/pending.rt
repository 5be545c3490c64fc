//! Items that nobody has taken.

ghost use Rattle.std.specs.Prelude.{◌≡◌, ◌≢◌, [], ◌∷◌, ◌++◌, IfOk, OnOk, OnErr, drop, slice_get, option_copied, IsTrue};
ghost use Rattle.std.specs.Prelude.{◌↔◌};
ghost use Rattle.am_text.specs.Twice.{Twice, both, IsSteady};

use am_text::{Bytes, NoMemory};
use std::alloc::Global;
use std::collections::VecDeque;
use std::marker::Model;

/// An item that nobody has taken.
#[derive(Drop)]
pub struct Pending {
    pub number: u64,
    pub bytes: Bytes,
}

/// Items in order, in two states: the ones taken since the last `keep` are still here, before the
/// present ones, and the ones put since then stand after the kept ones.
#[derive(Drop)]
pub struct PendingItems {
    all: VecDeque<Pending>,
    taken: usize,
    kept: usize,
}

impl Model for PendingItems {
    ghost use Rattle.std.specs.Prelude.{List, take, drop, length, ◌≤◌};
    ghost use Rattle.am_text.specs.Twice.{Twice};
    ghost use Rattle.wait_queue.specs.declared.pending.Pending.{Pending};

    ghost Value = { Twice (List Pending) };

    ghost view = { λ q. record { present = drop q.taken q.all.items; kept = take q.kept q.all.items } };

    ghost invariant = { λ q. (q.taken ≤ length q.all.items) × (q.kept ≤ length q.all.items) };
}

impl PendingItems {
    pub fn new(alloc: Global) -> Self
        ensures { result ≡ both [] }
    {
        PendingItems {
            all: VecDeque::new(alloc),
            taken: 0,
            kept: 0,
        }
    }

    pub fn push(&mut self, item: Pending) -> Result<(), NoMemory>
        ensures ok { OnOk result
            (self.new ≡ record self.old { present = self.old.present ++ item ∷ [] }) }
        ensures err { OnErr result (self.new ≡ self.old) }
    {
        self.all.push_back(item)?;
        Ok(())
    }

    pub fn first(&self) -> Option<&Pending>
        ensures { option_copied result ≡ slice_get self.now.present 0 }
    {
        self.all.get(self.taken)
    }

    pub fn take_first(&mut self)
        requires { self.old.present ≢ [] }
        ensures { self.new ≡ record self.old { present = drop 1 self.old.present } }
    {
        self.taken += 1;
    }

    pub fn keep(&mut self)
        ensures { self.new ≡ both self.old.present }
    {
        for _ in 0..self.taken {
            self.all.pop_front();
        }
        self.taken = 0;
        self.kept = self.all.len();
    }

    pub fn back(&mut self)
        ensures { self.new ≡ both self.old.kept }
    {
        self.all.truncate(self.kept);
        self.taken = 0;
    }

    pub fn clear(&mut self)
        ensures { self.new ≡ both [] }
    {
        self.all.clear();
        self.taken = 0;
        self.kept = 0;
    }
}
