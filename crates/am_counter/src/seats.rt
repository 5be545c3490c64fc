//! Seats that are split, and taken in.

ghost use Rattle.std.specs.Prelude.{◌≡◌, ◌<◌, ◌≤◌};
ghost use Rattle.am_counter.specs.Known.{without_parts, new_known, TakesIn};
ghost use Rattle.am_counter.specs.Played.{IsPlayed};

use crate::counter::Counter;
use std::sync::Wait;

/// A counter whose seats can be split, so that threads have seats of their own.
pub trait Seats: Counter {
    /// A second seat, which gets these parts. It has seen what the first has, and has no entry of its own.
    fn split(&self, seat: &mut Self::Seat, parts: u64) -> Self::Seat
        requires fits { Self.fits self.now seat.old }
        requires parts { (1 ≤ parts) × (parts < (Self.known seat.old).parts) }
        ensures fits { Self.fits self.now seat.new }
        ensures new_fits { Self.fits self.now result }
        ensures known { Self.known seat.new ≡ without_parts parts (Self.known seat.old) }
        ensures new { Self.known result ≡ new_known parts (Self.known seat.old) };

    /// Takes in a seat that has ended: its parts, and its own entries. The journal is seen as it is then, in a turn,
    /// and begins with what both seats had seen.
    fn take_in<R: Wait>(&self, rt: &R, seat: &mut Self::Seat, other: Self::Seat)
        requires fits { Self.fits self.now seat.old × Self.fits self.now other }
        ensures fits { Self.fits self.now seat.new }
        ensures played { IsPlayed Self.enabled (Self.known seat.new).seen }
        ensures known { TakesIn (Self.known seat.old) (Self.known other) (Self.known seat.new) };
}
