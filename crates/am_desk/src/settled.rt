//! The value under the lock: a core without a plan that waits.

ghost use Rattle.std.specs.Prelude.{◌≡◌, ◌≢◌, ◌+◌, ◌<◌, ◌^◌, ◌++◌, ◌∷◌, [], None, length, IfOk, OnOk, OnErr, IfErr, Ok};
ghost use Rattle.std.specs.Prelude.{true, false};
ghost use Rattle.std.specs.List.{AllByRecursion};
ghost use Rattle.am_journal.specs.declared.event.Event.TheVariants.{Took};
ghost use Rattle.am_journal.specs.Journal.{journal_in, longer};
ghost use Rattle.am_journal.specs.Lawful.{IsLawful, IsInRange};
ghost use Rattle.am_counter.specs.declared.ask.Ask.TheVariants as ask;
ghost use Rattle.am_counter.specs.declared.ask.Taken.TheVariants as taken;
ghost use Rattle.am_counter.specs.Telling.{with_told};
ghost use Rattle.acme_core.specs.Asks.{answer_at};
ghost use Rattle.acme_core.specs.Run.{enabled, output_at, settled, AreEnabled, Refuses, IsHang, IsWhy};
ghost use Rattle.am_journal.specs.Limits.{connection_count};
ghost use Rattle.am_desk.specs.Knowing.{nothing_taken};
ghost use Rattle.am_desk.specs.Ranged.{ranged-prop};
ghost use Rattle.am_desk.specs.Replies.{told_by};

use acme_core::{Ask, Bytes, Core, Event, Format, Items, NoMemory, Refused};
use am_counter::{Taken, Told};
use am_journal::CONNECTIONS;
use std::alloc::Global;
use turn_lock::Kept;

/// A core without a plan that waits, with fewer than 2^64 entries, each number of which fits its field. It stands in a
/// box: each turn moves it out of the lock and back.
#[derive(Drop)]
pub struct Settled {
    alloc: Global,
    core: Box<Core>,
    ghost few: { length core.value.journal.events < 2 ^ 64 },
    ghost idle: { core.value.planned ≡ None },
    ghost in_range: { AllByRecursion IsInRange core.value.journal.events } by { ranged-prop core.value.journal.events },
}

// What came of a take where there is nothing to take.
fn nothing_taken(ended: bool) -> Taken
    ensures { result ≡ nothing_taken ended }
{
    if ended {
        Taken::Ended
    } else {
        Taken::NothingYet
    }
}

// Adds the connections that the last entry of a core replied to.
fn tell(core: &Core, told: &mut Told)
    ensures { told.new.are ≡ with_told told.old.are (told_by core.now.journal) }
{
    let mut k = 0;
    while let Some((conn, _)) = core.last_reply(k) {
        told.add(conn);
        k += 1;
    }
}

impl Kept for Settled {
    ghost use Rattle.am_desk.specs.Journals.{entries_of, number_of};

    type Entry = Event;

    ghost entries = { entries_of };

    ghost number = { number_of };

    ghost few = { λ x. x.few };
}

impl Settled {
    ghost use Rattle.am_desk.specs.Journals.{journal_of, number_of};

    /// The empty editor, whose journal will be of this format.
    #[tactic(auto, using(crate::proofs::Ranges::ranges))]
    pub fn new(alloc: Global, format: Format) -> Result<Settled, NoMemory>
        ensures { IfOk result (λ settled. journal_of settled ≡ journal_in format []) }
    {
        let core = Box::new(alloc, Core::new(alloc, format)?)?;
        Ok(Settled { alloc, core })
    }

    // One step of the core.
    #[tactic(auto, using(crate::proofs::Ranges::ranges))]
    fn step_alone(&mut self, event: Event) -> Result<u64, Refused>
        requires lawful { IsLawful event }
        requires in_range { IsInRange event }
        ensures ok { IfOk result (λ n. (enabled (journal_of self.old) event ≡ None)
            × (n ≡ length (journal_of self.old).events + 1)) }
        ensures done { OnOk result (journal_of self.new ≡ longer (journal_of self.old) event) }
        ensures refused { IfErr result (λ e. Refuses e (enabled (journal_of self.old) event)) }
        ensures err { OnErr result (journal_of self.new ≡ journal_of self.old) }
        ensures hang { IsHang event → IfErr result IsWhy }
        ensures number { number_of self.new ≡ number_of self.old }
        ensures played { AreEnabled (journal_of self.new) }
    {
        let answer = self.core.step(event);
        let _entries = self.core.events().len();
        self.core.events_were_enabled();
        answer
    }

    /// One step of the core. The connections that it replied to are added to `told`.
    pub fn step(&mut self, event: Event, told: &mut Told) -> Result<u64, Refused>
        requires lawful { IsLawful event }
        requires in_range { IsInRange event }
        ensures ok { IfOk result (λ n. (enabled (journal_of self.old) event ≡ None)
            × (n ≡ length (journal_of self.old).events + 1)) }
        ensures done { OnOk result (journal_of self.new ≡ longer (journal_of self.old) event) }
        ensures refused { IfErr result (λ e. Refuses e (enabled (journal_of self.old) event)) }
        ensures err { OnErr result (journal_of self.new ≡ journal_of self.old) }
        ensures hang { IsHang event → IfErr result IsWhy }
        ensures number { number_of self.new ≡ number_of self.old }
        ensures played { AreEnabled (journal_of self.new) }
        ensures told { OnOk result (told.new.are ≡ with_told told.old.are (told_by (journal_of self.new))) }
        ensures untold { OnErr result (told.new ≡ told.old) }
    {
        match self.step_alone(event) {
            Ok(number) => {
                tell(self.core.as_ref(), told);
                Ok(number)
            }
            Err(refused) => Err(refused),
        }
    }

    /// The answer to a question.
    pub fn look(&self, ask: Ask) -> bool
        ensures answer { result ≡ answer_at (journal_of self.now) ask }
        ensures played { AreEnabled (journal_of self.now) }
    {
        self.core.events_were_enabled();
        self.core.look(ask)
    }

    /// The unsent replies of a connection, copied.
    pub fn unsent(&self, conn: u32) -> Result<Bytes, NoMemory>
        ensures { IfOk result (λ bytes. bytes ≡ output_at (journal_of self.now) conn) }
    {
        Items::copied(self.alloc, self.core.output(conn))
    }

    // Takes the unsent replies of one of the connections that there are.
    fn take_within(&mut self, conn: u32, into: &mut Bytes) -> Result<Taken, NoMemory>
        requires { conn < connection_count }
        ensures number { number_of self.new ≡ number_of self.old }
        ensures played { AreEnabled (journal_of self.new) }
        ensures bytes { result ≡ Ok taken.Bytes → (journal_of self.new ≡ longer (journal_of self.old) (Took conn))
            × (enabled (journal_of self.old) (Took conn) ≡ None)
            × (into.new ≡ output_at (journal_of self.old) conn) × (output_at (journal_of self.old) conn ≢ []) }
        ensures nothing_yet { result ≡ Ok taken.NothingYet → (journal_of self.new ≡ journal_of self.old)
            × (into.new ≡ into.old)
            × (answer_at (journal_of self.old) (ask.Ended conn) ≡ false) × (output_at (journal_of self.old) conn ≡ []) }
        ensures ended { result ≡ Ok taken.Ended → (journal_of self.new ≡ journal_of self.old) × (into.new ≡ into.old)
            × (answer_at (journal_of self.old) (ask.Ended conn) ≡ true) × (output_at (journal_of self.old) conn ≡ []) }
        ensures err { OnErr result ((journal_of self.new ≡ journal_of self.old) × (into.new ≡ into.old)) }
    {
        let ended = self.look(Ask::Ended(conn));
        let bytes = self.unsent(conn)?;
        if bytes.is_empty() {
            return Ok(nothing_taken(ended));
        }
        match self.step_alone(Event::Took { conn }) {
            Ok(_) => {
                *into = bytes;
                Ok(Taken::Bytes)
            }
            Err(_) => Err(NoMemory),
        }
    }

    /// Takes the unsent replies of a connection into `into`, if there are any.
    pub fn take(&mut self, conn: u32, into: &mut Bytes) -> Result<Taken, NoMemory>
        ensures number { number_of self.new ≡ number_of self.old }
        ensures played { AreEnabled (journal_of self.new) }
        ensures bytes { result ≡ Ok taken.Bytes → (journal_of self.new ≡ longer (journal_of self.old) (Took conn))
            × (enabled (journal_of self.old) (Took conn) ≡ None)
            × (into.new ≡ output_at (journal_of self.old) conn) × (output_at (journal_of self.old) conn ≢ []) }
        ensures nothing_yet { result ≡ Ok taken.NothingYet → (journal_of self.new ≡ journal_of self.old)
            × (into.new ≡ into.old)
            × (answer_at (journal_of self.old) (ask.Ended conn) ≡ false) × (output_at (journal_of self.old) conn ≡ []) }
        ensures ended { result ≡ Ok taken.Ended → (journal_of self.new ≡ journal_of self.old) × (into.new ≡ into.old)
            × (answer_at (journal_of self.old) (ask.Ended conn) ≡ true) × (output_at (journal_of self.old) conn ≡ []) }
        ensures err { OnErr result ((journal_of self.new ≡ journal_of self.old) × (into.new ≡ into.old)) }
    {
        if conn as usize >= CONNECTIONS {
            self.core.events_were_enabled();
            return Ok(Taken::NothingYet);
        }
        self.take_within(conn, into)
    }

    /// The core, at the end.
    pub fn into_core(self) -> Core
        ensures settled { result ≡ settled (journal_of self) }
        ensures in_range { AllByRecursion IsInRange (journal_of self).events }
    {
        let Settled { alloc: _, core } = self;
        Box::into_inner(core)
    }
}
