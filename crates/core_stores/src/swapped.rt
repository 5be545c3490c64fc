//! A value that another takes the place of, in two states.

ghost use Rattle.std.specs.Prelude.{◌≡◌};
ghost use Rattle.am_text.specs.Twice.{both};

use std::marker::Model;
use std::mem;

/// A value that another takes the place of, in two states.
#[derive(Drop)]
pub(crate) struct Swapped<T> {
    present: T,
    // What was there at the last `keep`, where another took its place.
    before: Option<T>,
}

impl<T> Model for Swapped<T> {
    ghost use Rattle.am_text.specs.Twice.{Twice};
    ghost use Rattle.core_stores.specs.Stores.{first_of};

    ghost Value = { Twice T };

    ghost view = { λ s. record { present = s.present; kept = first_of s.before s.present } };
}

impl<T> Swapped<T> {
    /// This value, in both states.
    pub(crate) fn new(value: T) -> Swapped<T>
        ensures { result ≡ both value }
    {
        Swapped {
            present: value,
            before: None,
        }
    }

    /// The present value.
    pub(crate) fn get(&self) -> &T
        ensures { result.now ≡ self.now.present }
    {
        &self.present
    }
}

impl<T: Drop> Swapped<T> {
    /// Puts another value in its place. It takes no memory.
    pub(crate) fn set(&mut self, value: T)
        ensures { self.new ≡ record self.old { present = value } }
    {
        let present = mem::replace(&mut self.present, value);
        if self.before.is_none() {
            self.before = Some(present);
        }
    }

    /// The present state becomes the kept one. It takes no memory.
    pub(crate) fn keep(&mut self)
        ensures { self.new ≡ both self.old.present }
    {
        self.before = None;
    }

    /// The kept state becomes the present one again. It takes no memory.
    pub(crate) fn back(&mut self)
        ensures { self.new ≡ both self.old.kept }
    {
        if let Some(before) = self.before.take() {
            self.present = before;
        }
    }
}
