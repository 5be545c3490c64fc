//! A journal that seats add to.

ghost use Rattle.std.specs.Prelude.{◌≡◌, ℕ, ◌<◌, Bool, List, [], Option, Ok, false, true, IfOk, OnOk, OnErr, IfErr};
ghost use Rattle.am_journal.specs.declared.event.Event.{Event};
ghost use Rattle.am_journal.specs.declared.event.Why.{Why};
ghost use Rattle.am_journal.specs.Lawful.{IsLawful, IsInRange};
ghost use Rattle.am_counter.specs.declared.ask.Ask.{Ask};
ghost use Rattle.am_counter.specs.declared.ask.Ask.TheVariants as ask;
ghost use Rattle.am_counter.specs.declared.ask.Taken.TheVariants as taken;
ghost use Rattle.am_counter.specs.Known.{Known, Looks, Submits, TakesBytes};
ghost use Rattle.am_counter.specs.Laws.{TellsConnections};
ghost use Rattle.am_counter.specs.Played.{IsPlayed, IsHang, IsWhy, Refuses};
ghost use Rattle.am_counter.specs.Telling.{with_told};

use crate::ask::{Ask, Taken};
use crate::told::Told;
use am_journal::{Event, Refused};
use am_text::{Bytes, NoMemory};
use std::sync::Wait;

/// One journal, to which many seats add events, each in a turn of its own. What a call does is said of the journal as
/// it is at its turn: the seat has seen it then.
pub trait Counter {
    /// The right to take turns. Each side of a connection has one.
    type Seat;

    /// The seat is of this counter.
    ghost fits: { Self → Self.Seat → Type 0 };

    /// What the seat knows.
    ghost known: { Self.Seat → Known };

    /// The reason for which an event isn't enabled after a journal.
    ghost enabled: { List Event → Event → Option Why };

    /// The bytes of a connection's unsent replies after a journal.
    ghost unsent: { List Event → ℕ → List ℕ };

    /// The answer to a question after a journal.
    ghost answer: { List Event → Ask → Bool };

    /// The connections that the last entry of a journal replied to, in the order of the replies.
    ghost told_by: { List Event → List ℕ };

    /// Does an event in one turn, if it is enabled then, and answers the number of its entry. The connections that it
    /// replied to are added to `told`. A refusal changes nothing but what the seat has seen.
    fn submit<R: Wait>(
        &self,
        rt: &R,
        seat: &mut Self::Seat,
        event: Event,
        told: &mut Told,
    ) -> Result<u64, Refused>
        requires fits { fits self.now seat.old }
        requires lawful { IsLawful event }
        requires in_range { IsInRange event }
        ensures fits { fits self.now seat.new }
        ensures played { IsPlayed enabled (known seat.new).seen }
        ensures ok { IfOk result (λ n. Submits enabled (known seat.old) event n (known seat.new)) }
        ensures err { OnErr result (Looks (known seat.old) (known seat.new)) }
        ensures refused { IfErr result (λ e. Refuses e (enabled (known seat.new).seen event)) }
        ensures told { OnOk result (told.new.are ≡ with_told told.old.are (told_by (known seat.new).seen)) }
        ensures untold { OnErr result (told.new ≡ told.old) }
        // A hang-up is never refused for memory.
        ensures hang { IsHang event → IfErr result IsWhy };

    /// Takes the unsent replies of a connection in one turn, all of them, into `into`. Where there is none, or
    /// memory runs out, nothing changes but what the seat has seen. A connection that was never dialled has none
    /// yet, whatever its number.
    fn take<R: Wait>(
        &self,
        rt: &R,
        seat: &mut Self::Seat,
        conn: u32,
        into: &mut Bytes,
    ) -> Result<Taken, NoMemory>
        requires fits { fits self.now seat.old }
        ensures fits { fits self.now seat.new }
        ensures played { IsPlayed enabled (known seat.new).seen }
        ensures bytes { result ≡ Ok taken.Bytes → TakesBytes enabled unsent (known seat.old) conn into.new
            (known seat.new) }
        ensures nothing_yet { result ≡ Ok taken.NothingYet → Looks (known seat.old) (known seat.new)
            × (into.new ≡ into.old)
            × (answer (known seat.new).seen (ask.Ended conn) ≡ false) × (unsent (known seat.new).seen conn ≡ []) }
        ensures ended { result ≡ Ok taken.Ended → Looks (known seat.old) (known seat.new) × (into.new ≡ into.old)
            × (answer (known seat.new).seen (ask.Ended conn) ≡ true) × (unsent (known seat.new).seen conn ≡ []) }
        ensures err { OnErr result (Looks (known seat.old) (known seat.new) × (into.new ≡ into.old)) };

    /// Answers a question in one turn.
    fn look<R: Wait>(&self, rt: &R, seat: &mut Self::Seat, ask: Ask) -> bool
        requires fits { fits self.now seat.old }
        ensures fits { fits self.now seat.new }
        ensures played { IsPlayed enabled (known seat.new).seen }
        ensures seen { Looks (known seat.old) (known seat.new) }
        ensures answer { result ≡ answer (known seat.new).seen ask };

    /// What its journals say of connections.
    ghost connections: { TellsConnections enabled answer };
}
