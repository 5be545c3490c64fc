//! The editor of a drill.

ghost use Rattle.std.specs.Prelude.{◌≡◌, ◌∷◌, [], None, IfOk, OnOk, OnErr};
ghost use Rattle.am_journal.specs.declared.event.Format.TheVariants.{One};
ghost use Rattle.am_journal.specs.Journal.{journal_in, longer};
ghost use Rattle.am_drill.specs.Brief.{IsNext, AreNext, IsCounted, Stopped, followed};
ghost use Rattle.am_drill.specs.Drill.{poll, flush, read, played_turn, round, drawn};

use crate::counting::{Count, last_count};
use crate::events::{flush, key, poll, read, write};
use crate::numbers::{Turn, drawn, letter, turn_of};
use acme_core::{Core, Refused};
use am_journal::{Event, Events, Format};
use am_text::NoMemory;
use std::alloc::Global;

/// The editor, and the replies that it has made so far.
#[derive(Drop)]
pub struct Runner {
    pub(crate) core: Core,
    pub(crate) count: Count,
}

impl Runner {
    /// The empty editor.
    pub(crate) fn new(alloc: Global) -> Result<Runner, NoMemory>
        ensures journal { IfOk result (λ runner. runner.core.journal ≡ journal_in One []) }
        ensures idle { IfOk result (λ runner. runner.core.planned ≡ None) }
        ensures counted { IfOk result (λ runner. IsCounted runner.count runner.core.journal) }
    {
        Ok(Runner {
            core: Core::new(alloc, Format::One)?,
            count: Count {
                replies: 0,
                bytes: 0,
            },
        })
    }

    fn step(&mut self, event: Event) -> Result<(), NoMemory>
        requires next { IsNext self.old.core.journal event }
        requires idle { self.old.core.planned ≡ None }
        requires counted { IsCounted self.old.count self.old.core.journal }
        ensures ok { OnOk result (self.new.core.journal ≡ longer self.old.core.journal event) }
        ensures err { OnErr result (self.new.core.journal ≡ self.old.core.journal) }
        ensures idle { self.new.core.planned ≡ None }
        ensures counted { IsCounted self.new.count self.new.core.journal }
    {
        match self.core.step(event) {
            Ok(_) => {
                let more = last_count(&self.core);
                self.count.replies += more.replies;
                self.count.bytes += more.bytes;
                Ok(())
            }
            Err(Refused::NoMemory) => Err(NoMemory),
            Err(Refused::NotEnabled(_)) => unreachable!(),
        }
    }

    /// Does events, one after another. Where memory runs out, a front of them was done.
    pub(crate) fn play(&mut self, events: Events) -> Result<(), NoMemory>
        requires next { AreNext self.old.core.journal events }
        requires idle { self.old.core.planned ≡ None }
        requires counted { IsCounted self.old.count self.old.core.journal }
        ensures ok { OnOk result (self.new.core.journal ≡ followed self.old.core.journal events) }
        ensures err { OnErr result (Stopped self.old.core.journal events self.new.core.journal) }
        ensures idle { self.new.core.planned ≡ None }
        ensures counted { IsCounted self.new.count self.new.core.journal }
    {
        for event in events.into_vec() {
            self.step(event)?;
        }
        Ok(())
    }

    // Reads the event file, and flushes that read. Where memory runs out, a front of that was done.
    fn poll_and_flush(&mut self) -> Result<(), NoMemory>
        requires next { AreNext self.old.core.journal (poll ∷ flush ∷ []) }
        requires idle { self.old.core.planned ≡ None }
        requires counted { IsCounted self.old.count self.old.core.journal }
        ensures ok { OnOk result (self.new.core.journal ≡ followed self.old.core.journal (poll ∷ flush ∷ [])) }
        ensures err { OnErr result (Stopped self.old.core.journal (poll ∷ flush ∷ []) self.new.core.journal) }
        ensures idle { self.new.core.planned ≡ None }
        ensures counted { IsCounted self.new.count self.new.core.journal }
    {
        self.step(poll())?;
        self.step(flush())
    }

    // Reads the body, and takes the replies. Where memory runs out, a front of that was done.
    fn read_and_take(&mut self) -> Result<(), NoMemory>
        requires next { AreNext self.old.core.journal (read ∷ Event.Took 0 ∷ []) }
        requires idle { self.old.core.planned ≡ None }
        requires counted { IsCounted self.old.count self.old.core.journal }
        ensures ok { OnOk result (self.new.core.journal ≡ followed self.old.core.journal (read ∷ Event.Took 0 ∷ [])) }
        ensures err { OnErr result (Stopped self.old.core.journal (read ∷ Event.Took 0 ∷ []) self.new.core.journal) }
        ensures idle { self.new.core.planned ≡ None }
        ensures counted { IsCounted self.new.count self.new.core.journal }
    {
        self.step(read())?;
        self.step(Event::Took { conn: 0 })
    }

    // Does the events of a turn. Where memory runs out, a front of them was done.
    fn play_turn(&mut self, alloc: Global, turn: Turn, letter: u8) -> Result<(), NoMemory>
        requires next { AreNext self.old.core.journal (played_turn turn letter) }
        requires idle { self.old.core.planned ≡ None }
        requires counted { IsCounted self.old.count self.old.core.journal }
        ensures ok { OnOk result (self.new.core.journal ≡ followed self.old.core.journal (played_turn turn letter)) }
        ensures err { OnErr result (Stopped self.old.core.journal (played_turn turn letter) self.new.core.journal) }
        ensures idle { self.new.core.planned ≡ None }
        ensures counted { IsCounted self.new.count self.new.core.journal }
    {
        match turn {
            Turn::Write => self.step(write(alloc, letter)?),
            Turn::Events => self.poll_and_flush(),
            Turn::Key => self.step(key(alloc, letter)?),
            Turn::Read => self.step(read()),
        }
    }

    /// Does the events of the round of this number, from 1, with this seed. Where memory runs out,
    /// a front of them was done.
    pub(crate) fn play_round(
        &mut self,
        alloc: Global,
        number: u64,
        seed: u64,
    ) -> Result<(), NoMemory>
        requires next { AreNext self.old.core.journal (round number (drawn seed)) }
        requires idle { self.old.core.planned ≡ None }
        requires counted { IsCounted self.old.count self.old.core.journal }
        ensures ok { OnOk result (self.new.core.journal ≡ followed self.old.core.journal (round number (drawn seed))) }
        ensures err { OnErr result (Stopped self.old.core.journal (round number (drawn seed)) self.new.core.journal) }
        ensures idle { self.new.core.planned ≡ None }
        ensures counted { IsCounted self.new.count self.new.core.journal }
    {
        if number % 50 == 0 {
            return self.read_and_take();
        }
        let drawn = drawn(seed);
        self.play_turn(alloc, turn_of(drawn), letter(drawn))
    }
}
