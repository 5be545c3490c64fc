//! The desk, and its seats.

ghost use Rattle.std.specs.Prelude.{◌≡◌, ◌<◌, ◌≤◌, false, true, [], IfOk, OnOk, OnErr, IfErr, Ok};
ghost use Rattle.std.specs.List.{AllByRecursion};
ghost use Rattle.turn_lock.specs.Words.{view_of, lock_of, value_of};
ghost use Rattle.turn_lock.specs.Views.{with_turn, after_leave};
ghost use Rattle.turn_lock.specs.Journal.{AllStand};
ghost use Rattle.turn_lock.specs.Kinds.{KeepsOrder};
ghost use Rattle.am_journal.specs.Journal.{journal_in};
ghost use Rattle.am_journal.specs.Lawful.{IsLawful, IsInRange};
ghost use Rattle.am_counter.specs.declared.ask.Ask.TheVariants as ask;
ghost use Rattle.am_counter.specs.declared.ask.Taken.TheVariants as taken;
ghost use Rattle.am_counter.specs.Known.{Looks, Submits, TakesBytes, without_parts, new_known, lists_of, TakesIn};
ghost use Rattle.am_counter.specs.Played.{IsPlayed, IsPrefix, IsHang, IsWhy, Refuses};
ghost use Rattle.am_counter.specs.Telling.{with_told};
ghost use Rattle.acme_core.specs.Asks.{answers_in};
ghost use Rattle.acme_core.specs.Run.{enabled_in, output_in, settled};
ghost use Rattle.am_desk.specs.Journals.{entries_of, format_with, journal_of, number_of};
ghost use Rattle.am_desk.specs.Knowing.{first_known, joined, EachOnce};
ghost use Rattle.am_desk.specs.Replies.{told_in};
ghost use Rattle.am_desk.specs.Staying.{Stays, stays-prop};

use crate::settled::Settled;
use acme_core::{Ask, Bytes, Core, Event, Format, NoMemory, Refused};
use am_counter::{Taken, Told};
use std::alloc::Global;
use std::sync::Wait;
use turn_lock::{Held, Seat, Stay, Turn};

/// One editor that threads share.
#[derive(Drop)]
pub struct Desk {
    turn: Turn<Settled>,
}

/// The right to take turns at a desk. Each caller has one of its own. Behind a message that was done the seat keeps its
/// turn for the next call, so that messages which come together take one turn. Any other call gives the turn up, and so
/// does a message that is refused: who submits messages has to make such a call before it waits for anything.
#[derive(Drop)]
pub struct DeskSeat {
    seat: Seat<Settled>,
    // The editor, while the seat keeps its turn.
    stay: Option<Stay<Settled>>,
    ghost stays: { Stays stay (view_of seat) } by { stays-prop stay (view_of seat) },
}

// Behind a message the seat keeps its turn.
fn is_message(event: &Event) -> bool {
    matches!(event, Event::Msg { .. })
}

impl Desk {
    ghost use Rattle.am_desk.specs.Desks.{desk_id, desk_parts, seat_format, seat_lock, known_in, known_of};

    /// A desk with the empty editor, whose journal will be of this format, and its first seat, which has all parts.
    /// Only want of memory refuses it.
    pub fn new(alloc: Global, format: Format, parts: u64) -> Result<(Desk, DeskSeat), NoMemory>
        requires { 1 ≤ parts }
        ensures lock { IfOk result (λ made. seat_lock made.1 ≡ desk_id made.0) }
        ensures parts { IfOk result (λ made. desk_parts made.0 ≡ parts) }
        ensures format { IfOk result (λ made. seat_format made.1 ≡ format) }
        ensures known { IfOk result (λ made. known_of made.1 ≡ first_known parts) }
    {
        let (turn, seat) = Turn::new(alloc, Settled::new(alloc, format)?, parts)?;
        Ok((Desk { turn }, DeskSeat { seat, stay: None }))
    }

    // The turn that the seat keeps, or else a new one.
    fn enter<R: Wait>(
        &self,
        rt: &R,
        place: &mut Seat<Settled>,
        stay: &mut Option<Stay<Settled>>,
    ) -> Held<Settled>
        requires lock { lock_of place.old ≡ desk_id self.now }
        requires stays { Stays stay.old (view_of place.old) }
        ensures lock { lock_of place.new ≡ lock_of place.old }
        ensures none { stay.new ≡ None }
        ensures view { view_of place.new ≡ with_turn (view_of place.old) (entries_of (value_of result)) }
        ensures seen { IsPrefix (view_of place.old).seen (entries_of (value_of result)) }
        ensures journal { journal_of (value_of result)
            ≡ journal_in (format_with (view_of place.old).number) (entries_of (value_of result)) }
        ensures number { number_of (value_of result) ≡ (view_of place.old).number }
    {
        match stay.take() {
            Some(stay) => stay.resume(),
            None => self.turn.enter(rt, place),
        }
    }

    // The turn's end, or the value set aside where the seat keeps it.
    fn end(
        &self,
        place: &mut Seat<Settled>,
        stay: &mut Option<Stay<Settled>>,
        held: Held<Settled>,
        keeps: bool,
    )
        requires lock { lock_of place.old ≡ desk_id self.now }
        requires turn { (view_of place.old).turn ≡ true }
        requires none { stay.old ≡ None }
        requires noted { entries_of (value_of held) ≡ (view_of place.old).seen }
        requires number { number_of (value_of held) ≡ (view_of place.old).number }
        ensures lock { lock_of place.new ≡ lock_of place.old }
        ensures known { known_in (view_of place.new) ≡ known_in (view_of place.old) }
        ensures number { (view_of place.new).number ≡ (view_of place.old).number }
        ensures stays { Stays stay.new (view_of place.new) }
    {
        if keeps {
            *stay = Some(held.stay());
        } else {
            self.turn.leave(place, held);
        }
    }

    // Gives up the turn that the seat keeps, if it does.
    fn give_up(&self, place: &mut Seat<Settled>, stay: &mut Option<Stay<Settled>>)
        requires lock { lock_of place.old ≡ desk_id self.now }
        requires stays { Stays stay.old (view_of place.old) }
        ensures lock { lock_of place.new ≡ lock_of place.old }
        ensures none { stay.new ≡ None }
        ensures view { view_of place.new ≡ after_leave (view_of place.old) }
    {
        if let Some(stay) = stay.take() {
            self.turn.leave(place, stay.resume());
        }
    }

    // A seat without the turn that it keeps, if it does.
    fn idle(&self, seat: DeskSeat) -> Seat<Settled>
        requires lock { seat_lock seat ≡ desk_id self.now }
        ensures lock { lock_of result ≡ seat_lock seat }
        ensures known { known_in (view_of result) ≡ known_of seat }
        ensures number { (view_of result).number ≡ (view_of seat.seat).number }
        ensures idle { (view_of result).turn ≡ false }
    {
        let DeskSeat {
            seat: mut place,
            mut stay,
        } = seat;
        self.give_up(&mut place, &mut stay);
        place
    }

    /// Does an event in one turn, if it is enabled then, and answers the number of its entry. The connections that it
    /// replied to are added to `told`. A refusal changes nothing but what the seat has seen. Behind a message that was
    /// done the seat keeps the turn.
    pub fn submit<R: Wait>(
        &self,
        rt: &R,
        seat: &mut DeskSeat,
        event: Event,
        told: &mut Told,
    ) -> Result<u64, Refused>
        requires lock { seat_lock seat.old ≡ desk_id self.now }
        requires lawful { IsLawful event }
        requires in_range { IsInRange event }
        ensures lock { seat_lock seat.new ≡ seat_lock seat.old }
        ensures format { seat_format seat.new ≡ seat_format seat.old }
        ensures played { IsPlayed (enabled_in (seat_format seat.old)) (known_of seat.new).seen }
        ensures ok { IfOk result (λ n. Submits (enabled_in (seat_format seat.old)) (known_of seat.old) event n
            (known_of seat.new)) }
        ensures err { OnErr result (Looks (known_of seat.old) (known_of seat.new)) }
        ensures refused { IfErr result (λ e. Refuses e
            (enabled_in (seat_format seat.old) (known_of seat.new).seen event)) }
        ensures told { OnOk result (told.new.are
            ≡ with_told told.old.are (told_in (seat_format seat.old) (known_of seat.new).seen)) }
        ensures untold { OnErr result (told.new ≡ told.old) }
        // A hang-up is never refused for memory.
        ensures hang { IsHang event → IfErr result IsWhy }
    {
        let keeps = is_message(&event);
        let mut held = self.enter(rt, &mut seat.seat, &mut seat.stay);
        match held.value().step(event, told) {
            Ok(number) => {
                self.turn.note(&mut seat.seat, &mut held);
                self.end(&mut seat.seat, &mut seat.stay, held, keeps);
                Ok(number)
            }
            Err(refused) => {
                self.end(&mut seat.seat, &mut seat.stay, held, false);
                Err(refused)
            }
        }
    }

    /// Takes the unsent replies of a connection in one turn, all of them, into `into`. Where there is none, or memory
    /// runs out, nothing changes but what the seat has seen. A connection that was never dialled has none yet, whatever
    /// its number.
    pub fn take<R: Wait>(
        &self,
        rt: &R,
        seat: &mut DeskSeat,
        conn: u32,
        into: &mut Bytes,
    ) -> Result<Taken, NoMemory>
        requires lock { seat_lock seat.old ≡ desk_id self.now }
        ensures lock { seat_lock seat.new ≡ seat_lock seat.old }
        ensures format { seat_format seat.new ≡ seat_format seat.old }
        ensures played { IsPlayed (enabled_in (seat_format seat.old)) (known_of seat.new).seen }
        ensures bytes { result ≡ Ok taken.Bytes → TakesBytes (enabled_in (seat_format seat.old))
            (output_in (seat_format seat.old)) (known_of seat.old) conn into.new (known_of seat.new) }
        ensures nothing_yet { result ≡ Ok taken.NothingYet → Looks (known_of seat.old) (known_of seat.new)
            × (into.new ≡ into.old)
            × (answers_in (seat_format seat.old) (known_of seat.new).seen (ask.Ended conn) ≡ false)
            × (output_in (seat_format seat.old) (known_of seat.new).seen conn ≡ []) }
        ensures ended { result ≡ Ok taken.Ended → Looks (known_of seat.old) (known_of seat.new) × (into.new ≡ into.old)
            × (answers_in (seat_format seat.old) (known_of seat.new).seen (ask.Ended conn) ≡ true)
            × (output_in (seat_format seat.old) (known_of seat.new).seen conn ≡ []) }
        ensures err { OnErr result (Looks (known_of seat.old) (known_of seat.new) × (into.new ≡ into.old)) }
    {
        let mut held = self.enter(rt, &mut seat.seat, &mut seat.stay);
        match held.value().take(conn, into) {
            Ok(Taken::Bytes) => {
                self.turn.note(&mut seat.seat, &mut held);
                self.end(&mut seat.seat, &mut seat.stay, held, false);
                Ok(Taken::Bytes)
            }
            Ok(Taken::NothingYet) => {
                self.end(&mut seat.seat, &mut seat.stay, held, false);
                Ok(Taken::NothingYet)
            }
            Ok(Taken::Ended) => {
                self.end(&mut seat.seat, &mut seat.stay, held, false);
                Ok(Taken::Ended)
            }
            Err(NoMemory) => {
                self.end(&mut seat.seat, &mut seat.stay, held, false);
                Err(NoMemory)
            }
        }
    }

    /// Answers a question in one turn.
    pub fn look<R: Wait>(&self, rt: &R, seat: &mut DeskSeat, ask: Ask) -> bool
        requires { seat_lock seat.old ≡ desk_id self.now }
        ensures lock { seat_lock seat.new ≡ seat_lock seat.old }
        ensures format { seat_format seat.new ≡ seat_format seat.old }
        ensures played { IsPlayed (enabled_in (seat_format seat.old)) (known_of seat.new).seen }
        ensures seen { Looks (known_of seat.old) (known_of seat.new) }
        ensures answer { result ≡ answers_in (seat_format seat.old) (known_of seat.new).seen ask }
    {
        let mut held = self.enter(rt, &mut seat.seat, &mut seat.stay);
        let answer = held.value().look(ask);
        self.end(&mut seat.seat, &mut seat.stay, held, false);
        answer
    }

    /// A second seat, which gets these parts. It has seen what the first has, and has no entry of its own.
    pub fn split(&self, seat: &mut DeskSeat, parts: u64) -> DeskSeat
        requires lock { seat_lock seat.old ≡ desk_id self.now }
        requires parts { (1 ≤ parts) × (parts < (known_of seat.old).parts) }
        ensures lock { seat_lock seat.new ≡ seat_lock seat.old }
        ensures format { seat_format seat.new ≡ seat_format seat.old }
        ensures new_lock { seat_lock result ≡ seat_lock seat.old }
        ensures new_format { seat_format result ≡ seat_format seat.old }
        ensures known { known_of seat.new ≡ without_parts parts (known_of seat.old) }
        ensures new { known_of result ≡ new_known parts (known_of seat.old) }
    {
        self.give_up(&mut seat.seat, &mut seat.stay);
        let seat = self.turn.split(&mut seat.seat, parts);
        DeskSeat { seat, stay: None }
    }

    /// Takes in a seat that has ended: its parts, and its own entries. The longer `seen` stays.
    pub fn join(&self, seat: &mut DeskSeat, other: DeskSeat)
        requires lock { (seat_lock seat.old ≡ desk_id self.now) × (seat_lock other ≡ desk_id self.now) }
        ensures lock { seat_lock seat.new ≡ seat_lock seat.old }
        ensures format { seat_format seat.new ≡ seat_format seat.old }
        ensures known { known_of seat.new ≡ joined (known_of seat.old) (known_of other) }
    {
        let other = self.idle(other);
        self.give_up(&mut seat.seat, &mut seat.stay);
        self.turn.join(&mut seat.seat, other);
    }

    /// Takes in a seat that has ended, as `join` does, and sees the journal as it is then, in a turn. It begins with
    /// what both seats had seen.
    pub fn take_in<R: Wait>(&self, rt: &R, seat: &mut DeskSeat, other: DeskSeat)
        requires lock { (seat_lock seat.old ≡ desk_id self.now) × (seat_lock other ≡ desk_id self.now) }
        ensures lock { seat_lock seat.new ≡ seat_lock seat.old }
        ensures format { seat_format seat.new ≡ seat_format seat.old }
        ensures played { IsPlayed (enabled_in (seat_format seat.old)) (known_of seat.new).seen }
        ensures known { TakesIn (known_of seat.old) (known_of other) (known_of seat.new) }
    {
        let other = self.idle(other);
        self.give_up(&mut seat.seat, &mut seat.stay);
        let place = &mut seat.seat;
        self.turn.join(place, other);
        let mut held = self.turn.enter(rt, place);
        held.value().look(Ask::Ended(0));
        self.turn.leave(place, held);
    }

    /// The core, from the seat that has all parts. What the seat has seen is the whole journal, and each entry stands
    /// in just one of its lists, once.
    pub fn close(self, seat: DeskSeat) -> Core
        requires lock { seat_lock seat ≡ desk_id self }
        requires whole { (known_of seat).parts ≡ desk_parts self }
        ensures journal { result ≡ settled (journal_in (seat_format seat) (known_of seat).seen) }
        ensures played { IsPlayed (enabled_in (seat_format seat)) (known_of seat).seen }
        ensures in_range { AllByRecursion IsInRange (known_of seat).seen }
        ensures own { AllStand (known_of seat).seen (lists_of (known_of seat)) }
        ensures once { EachOnce (known_of seat) }
        ensures order { KeepsOrder (known_of seat).seen (lists_of (known_of seat)) }
    {
        let seat = self.idle(seat);
        let Desk { turn } = self;
        let core = turn.close(seat).into_core();
        core.events_were_enabled();
        core
    }
}
