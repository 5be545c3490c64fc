//! A desk whose journal is of format 2, as `serve` has one: what its seats say is said of that format alone.

ghost use Rattle.std.specs.Prelude.{◌≡◌, ◌≤◌, IfOk};
ghost use Rattle.std.specs.List.{AllByRecursion};
ghost use Rattle.turn_lock.specs.Journal.{AllStand};
ghost use Rattle.turn_lock.specs.Kinds.{KeepsOrder};
ghost use Rattle.am_journal.specs.declared.event.Format.TheVariants.{Two};
ghost use Rattle.am_journal.specs.Journal.{journal_in};
ghost use Rattle.am_journal.specs.Lawful.{IsInRange};
ghost use Rattle.am_counter.specs.Known.{lists_of};
ghost use Rattle.am_counter.specs.Played.{IsPlayed};
ghost use Rattle.acme_core.specs.Run.{enabled_in, settled};
ghost use Rattle.am_desk.specs.Desks.{seat_format};
ghost use Rattle.am_desk.specs.Knowing.{first_known, EachOnce};

use crate::desk::{Desk, DeskSeat};
use acme_core::{Core, Format, NoMemory};
use std::alloc::Global;

/// A desk of format 2.
#[derive(Drop)]
pub struct ServingDesk {
    pub(crate) desk: Desk,
}

/// The right to take turns at a desk of format 2.
#[derive(Drop)]
pub struct ServingSeat {
    pub(crate) seat: DeskSeat,
    ghost two: { seat_format seat ≡ Two },
}

impl ServingDesk {
    ghost use Rattle.am_desk.specs.Serving.{serving_id, serving_parts, serving_lock, serving_known};

    /// A desk with the empty editor, whose journal will be of format 2, and its first seat, which has all parts. Only
    /// want of memory refuses it.
    pub fn new(alloc: Global, parts: u64) -> Result<(ServingDesk, ServingSeat), NoMemory>
        requires { 1 ≤ parts }
        ensures lock { IfOk result (λ made. serving_lock made.1 ≡ serving_id made.0) }
        ensures parts { IfOk result (λ made. serving_parts made.0 ≡ parts) }
        ensures known { IfOk result (λ made. serving_known made.1 ≡ first_known parts) }
    {
        let (desk, seat) = Desk::new(alloc, Format::Two, parts)?;
        Ok((ServingDesk { desk }, ServingSeat { seat }))
    }

    /// The core, from the seat that has all parts. What the seat has seen is the whole journal, and each entry stands
    /// in just one of its lists, once.
    pub fn close(self, seat: ServingSeat) -> Core
        requires lock { serving_lock seat ≡ serving_id self }
        requires whole { (serving_known seat).parts ≡ serving_parts self }
        ensures journal { result ≡ settled (journal_in Two (serving_known seat).seen) }
        ensures played { IsPlayed (enabled_in Two) (serving_known seat).seen }
        ensures in_range { AllByRecursion IsInRange (serving_known seat).seen }
        ensures own { AllStand (serving_known seat).seen (lists_of (serving_known seat)) }
        ensures once { EachOnce (serving_known seat) }
        ensures order { KeepsOrder (serving_known seat).seen (lists_of (serving_known seat)) }
    {
        let ServingDesk { desk } = self;
        let ServingSeat { seat } = seat;
        desk.close(seat)
    }
}
