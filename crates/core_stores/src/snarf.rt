//! The snarfed text.

ghost use Rattle.std.specs.Prelude.{◌≡◌, []};
ghost use Rattle.am_text.specs.Twice.{both};

use crate::swapped::Swapped;
use am_text::{Rune, Runes};
use std::alloc::Global;
use std::marker::Model;

/// The text that Cut or Snarf took last, which Paste puts, in two states. There is one for all windows, as in acme(1).
pub struct Snarf {
    text: Swapped<Runes>,
}

// By hand, so that a crate that drops a snarfed text goes by this drop, and has not to prove those of all that is in
// it.
impl Drop for Snarf {
    fn drop(self) {
        let Snarf { text: _ } = self;
    }
}

impl Model for Snarf {
    ghost use Rattle.std.specs.Prelude.{List, ℕ};
    ghost use Rattle.am_text.specs.Twice.{Twice};

    ghost Value = { Twice (List ℕ) };

    ghost view = { λ s. s.text };
}

impl Snarf {
    /// No text. It takes no memory.
    pub fn new(alloc: Global) -> Snarf
        ensures { result ≡ both [] }
    {
        Snarf {
            text: Swapped::new(Runes::new(alloc)),
        }
    }

    /// The present text.
    pub fn text(&self) -> &[Rune]
        ensures { result.now ≡ self.now.present }
    {
        self.text.get().as_slice()
    }

    /// Puts another text in its place. It takes no memory.
    pub fn put(&mut self, text: Runes)
        ensures { self.new ≡ record self.old { present = text } }
    {
        self.text.set(text);
    }

    /// The present state becomes the kept one. It takes no memory.
    pub fn keep(&mut self)
        ensures { self.new ≡ both self.old.present }
    {
        self.text.keep();
    }

    /// The kept state becomes the present one again. It takes no memory.
    pub fn back(&mut self)
        ensures { self.new ≡ both self.old.kept }
    {
        self.text.back();
    }
}
