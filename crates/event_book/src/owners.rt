//! The window of each opening.

ghost use Rattle.std.specs.Prelude.{◌≡◌, [], ◌∷◌, ◌++◌, length, OnOk, OnErr};
ghost use Rattle.am_text.specs.Twice.{Twice, both};
ghost use Rattle.event_book.specs.BookState.{window_of};

use am_text::NoMemory;
use std::alloc::Global;
use std::marker::Model;

/// The window of each opening ever added, in order, in two states.
#[derive(Drop)]
pub struct Owners {
    all: Vec<u32>,
    kept: usize,
}

impl Model for Owners {
    ghost use Rattle.std.specs.Prelude.{List, ℕ, take, length, ◌≤◌};
    ghost use Rattle.am_text.specs.Twice.{Twice};

    ghost Value = { Twice (List ℕ) };

    ghost view = { λ o. record { present = o.all.items; kept = take o.kept o.all.items } };

    ghost invariant = { λ o. o.kept ≤ length o.all.items };
}

impl Owners {
    /// No openings. It takes no memory.
    pub fn new(alloc: Global) -> Self
        ensures { result ≡ both [] }
    {
        Owners {
            all: Vec::new(alloc),
            kept: 0,
        }
    }

    /// How many openings were added.
    pub fn len(&self) -> usize
        ensures { result ≡ length self.now.present }
    {
        self.all.len()
    }

    /// Adds an opening of this window.
    pub fn push(&mut self, window: u32) -> Result<(), NoMemory>
        ensures ok { OnOk result (self.new ≡ record self.old { present = self.old.present ++ window ∷ [] }) }
        ensures err { OnErr result (self.new ≡ self.old) }
    {
        self.all.push(window)?;
        Ok(())
    }

    /// The window of this opening, 0 if it was never added.
    pub fn window(&self, opening: u32) -> u32
        ensures { result ≡ window_of self.now.present opening }
    {
        if opening == 0 {
            return 0;
        }
        match self.all.get(opening as usize - 1) {
            Some(window) => *window,
            None => 0,
        }
    }

    /// The present state becomes the kept one. It takes no memory.
    pub fn keep(&mut self)
        ensures { self.new ≡ both self.old.present }
    {
        self.kept = self.all.len();
    }

    /// The kept state becomes the present one again. It takes no memory.
    pub fn back(&mut self)
        ensures { self.new ≡ both self.old.kept }
    {
        self.all.truncate(self.kept);
    }
}
