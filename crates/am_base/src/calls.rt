//! Which calls of an object in memory fail.

ghost use Rattle.std.specs.Prelude.{◌≡◌, ◌≤◌, IsTrue};
ghost use Rattle.am_base.specs.Outside.{HasRisen, one_more};
ghost use Rattle.am_base.specs.Memory.{no_calls, fails_next, is_next_numbered, after_call, begun_calls, ended_calls};

use am_text::Numbers;
use std::marker::Model;

/// The calls that were made, the numbers of those that fail, and whether all later ones do.
#[derive(Drop)]
pub(crate) struct Calls {
    fail_at: Numbers,
    made: u64,
    faults: u64,
    is_ended: bool,
}

impl Model for Calls {
    ghost use Rattle.am_base.specs.Memory.{CallLog};

    ghost Value = { CallLog };

    ghost view = { λ c. record { fail_at = c.fail_at; made = c.made; faults = c.faults; is_ended = c.is_ended } };
}

impl Calls {
    /// None made yet; those with these numbers, from 1, fail.
    pub(crate) fn new(fail_at: Numbers) -> Calls
        ensures { result ≡ no_calls fail_at }
    {
        Calls {
            fail_at,
            made: 0,
            faults: 0,
            is_ended: false,
        }
    }

    /// Counts a call that failed or didn't.
    pub(crate) fn count(&mut self, failed: bool)
        ensures state { self.new ≡ after_call self.old failed }
        ensures later { self.old.faults ≤ self.new.faults }
        ensures risen { IsTrue failed → HasRisen self.old.faults self.new.faults }
    {
        self.made = raised(self.made);
        if failed {
            self.faults = raised(self.faults);
        }
    }

    /// Whether the next call fails, by its number, or since the object was ended.
    pub(crate) fn fails_next(&self) -> bool
        ensures { result ≡ fails_next self.now }
    {
        self.is_ended || self.is_next_numbered()
    }

    // Whether the number of the next call is among those that fail.
    fn is_next_numbered(&self) -> bool
        ensures { result ≡ is_next_numbered self.now }
    {
        let number = u128::from(self.made) + 1;
        self.fail_at
            .as_slice()
            .iter()
            .any(|at| u128::from(*at) == number)
    }

    /// Begins the count of faults. An object that was ended isn't any more.
    pub(crate) fn begin(&mut self)
        ensures { self.new ≡ begun_calls self.old }
    {
        self.faults = 0;
        self.is_ended = false;
    }

    /// Lets all later calls fail.
    pub(crate) fn end(&mut self)
        ensures { self.new ≡ ended_calls self.old }
    {
        self.is_ended = true;
    }
}

/// A count, one further. It stays at its type's end.
pub(crate) fn raised(count: u64) -> u64
    ensures state { result ≡ one_more count }
    ensures later { count ≤ result }
    ensures risen { HasRisen count result }
{
    if count < u64::MAX { count + 1 } else { count }
}
