//! The editor, which contracts see as its journal.

ghost use Rattle.std.specs.Prelude.{◌≡◌, ◌<◌, ◌+◌, ◌^◌, [], Some, None, length, slice_get, IsSome, OnSome};
ghost use Rattle.std.specs.Prelude.{IfOk, IfSome, OnOk, OnErr, IfErr, MatchOption};
ghost use Rattle.am_journal.specs.Lawful.{IsLawful};
ghost use Rattle.am_journal.specs.Journal.{journal_in, longer};
ghost use Rattle.acme_core.specs.Run.{enabled, run, output_at, Refuses, IsHang, AreEnabled, IsPossible, IsWhy};
ghost use Rattle.acme_core.specs.Run.{settled, ready};
ghost use Rattle.core_windows.specs.Stories.{AreLawful};
ghost use Rattle.core_windows.specs.WindowLaws.{AreNumbered};
ghost use Rattle.win_text.specs.Bodies.{IsInside};
ghost use Rattle.acme_core.specs.Addresses.{addr_at, body_at};
ghost use Rattle.event_book.specs.Laws.{WindowOrder, WhatAFidGets};
ghost use Rattle.core_events.specs.Sound.{IsIdle};
ghost use Rattle.core_events.specs.PortSound.{ArePortsIdle};
ghost use Rattle.core_watch.specs.Sound.{IsWatchIdle};
ghost use Rattle.acme_core.specs.Asks.{answer_at};
ghost use Rattle.acme_core.specs.Views.{ledger, view_of};

use crate::planning::prepare;
use am_counter::Ask;
use am_journal::{Event, Format, ItemViews, Journal, Refused, View};
use am_text::{NoMemory, Range, Roomy};
use core_closing::{Prepared, answer, view_of};
use core_outputs::reply_at;
use core_parts::Parts;
use core_scene::laws::deeds_show;
use core_steps::apply;
use core_windows::laws::{changes_are_lawful, group_numbers_never_fall};
use std::alloc::Global;
use std::marker::Model;

/// An editor of one thread. Its journal tells all that it is.
pub struct Core {
    alloc: Global,
    format: Format,
    events: Roomy<Event>,
    parts: Parts,
    prepared: Option<Prepared>,
}

// By hand, so that a crate that drops an editor goes by this drop, and has not to prove those of all that is in it.
impl Drop for Core {
    fn drop(self) {
        let Core {
            alloc: _,
            format: _,
            events: _,
            parts: _,
            prepared: _,
        } = self;
    }
}

impl Model for Core {
    ghost use Rattle.acme_core.specs.Run.{Editor};

    ghost Value = { Editor };

    ghost use Rattle.am_journal.specs.Journal.{journal_in};
    ghost use Rattle.acme_core.specs.Kept.{planned_of, IsKept};

    ghost view = { λ c. record { journal = journal_in c.format c.events.items; planned = planned_of c.prepared } };

    ghost invariant = { λ c. IsKept c.format c.events c.parts c.prepared };
}

/// A plan that can be committed, by the number that its entry will have.
#[derive(Drop)]
pub struct Plan {
    before: usize,
}

impl Model for Plan {
    ghost use Rattle.std.specs.Prelude.{ℕ};

    ghost Value = { ℕ };

    ghost use Rattle.std.specs.Prelude.{◌+◌};

    ghost view = { λ p. p.before + 1 };
}

impl Core {
    /// The empty editor, whose journal will be of this format.
    #[tactic(auto, unfolding(crate::specs::Run::run))]
    pub fn new(alloc: Global, format: Format) -> Result<Core, NoMemory>
        ensures { IfOk result (λ core. core ≡ settled (journal_in format [])) }
    {
        // law: windows are lawful at the start
        changes_are_lawful();
        Ok(Core {
            alloc,
            format,
            events: Roomy::new(alloc),
            parts: Parts::new(alloc, format)?,
            prepared: None,
        })
    }

    // Drops the plan that waits, if there is one, with what is ready for it. It takes no memory.
    fn drop_plan(&mut self)
        ensures { self.new ≡ settled self.old.journal }
    {
        match self.prepared.take() {
            Some(_) => self.parts.back(self.alloc),
            None => {}
        }
    }

    /// Decides whether an event is enabled, and makes everything ready that its step needs. What
    /// the editor means stays as it was, and an earlier plan that wasn't committed is dropped.
    #[tactic(auto, using(crate::proofs::Goes::asking))]
    pub fn plan(&mut self, event: Event) -> Result<Plan, Refused>
        requires { IsLawful event }
        ensures ok { IfOk result (λ plan. (enabled self.old.journal event ≡ None)
            × (plan ≡ length self.old.journal.events + 1)) }
        ensures ready { OnOk result (self.new ≡ ready self.old.journal event) }
        ensures refused { IfErr result (λ e. Refuses e (enabled self.old.journal event)) }
        ensures err { OnErr result (self.new ≡ settled self.old.journal) }
        // A hang-up is never refused for memory.
        ensures hang { IsHang event → IfErr result IsWhy }
    {
        self.drop_plan();
        let before = self.events.len();
        prepare(
            self.alloc,
            &mut self.events,
            &mut self.parts,
            event,
            &mut self.prepared,
        )?;
        Ok(Plan { before })
    }

    /// Does the step of the last plan, and answers the number of its entry. It takes no memory.
    pub fn commit(&mut self, plan: Plan) -> u64
        requires planned { IsSome self.old.planned }
        requires last { plan ≡ length self.old.journal.events + 1 }
        ensures new { IfSome self.old.planned (λ event. self.new ≡ settled (longer self.old.journal event)) }
        ensures number { result ≡ length self.new.journal.events }
    {
        let Plan { .. } = plan;
        let Some(prepared) = self.prepared.take() else {
            unreachable!()
        };
        // law: what the deeds do to the windows shows in their stories
        deeds_show();
        let event = apply(self.alloc, &mut self.parts, prepared);
        self.events.put(event);
        self.events.len() as u64
    }

    /// Does an event, if it is enabled, and answers the number of its entry. A refusal changes nothing.
    pub fn step(&mut self, event: Event) -> Result<u64, Refused>
        requires { IsLawful event }
        ensures ok { IfOk result (λ n. (enabled self.old.journal event ≡ None) × (n ≡ length self.old.journal.events + 1)) }
        ensures done { OnOk result (self.new ≡ settled (longer self.old.journal event)) }
        ensures refused { IfErr result (λ e. Refuses e (enabled self.old.journal event)) }
        ensures err { OnErr result (self.new ≡ settled self.old.journal) }
        // A hang-up is never refused for memory.
        ensures hang { IsHang event → IfErr result IsWhy }
    {
        let plan = self.plan(event)?;
        Ok(self.commit(plan))
    }

    /// The unsent replies of a connection, as bytes. There are none where it was never dialled.
    pub fn output(&self, conn: u32) -> &[u8]
        ensures { result.now ≡ output_at self.now.journal conn }
    {
        self.parts.outputs.bytes(conn)
    }

    /// The replies that the last entry made, in order: the connection and the bytes of number `k`.
    pub fn last_reply(&self, k: usize) -> Option<(u32, &[u8])>
        ensures exact { MatchOption result
            (slice_get (run self.now.journal).replies k ≡ None)
            (λ reply. slice_get (run self.now.journal).replies k
            ≡ Some (record { conn = reply.0; bytes = reply.1.now })) }
        ensures counted { OnSome result (k + 1 < 2 ^ 64) }
    {
        reply_at(self.parts.replies.as_slice(), k)
    }

    /// The range that the file `addr` of a window holds: as it was last set, moved by the edits that were made since.
    /// It lies in the text. `None` where the window doesn't live. It takes no memory.
    #[tactic(auto, using(crate::proofs::Viewed::addresses))]
    pub fn addr(&self, window: u32) -> Option<Range>
        ensures exact { result ≡ addr_at self.now.journal window }
        ensures inside { IfSome result (IsInside (body_at self.now.journal window)) }
    {
        self.parts.scene.windows.kept_addr(window)
    }

    /// Answers a question to the journal. It takes no memory.
    #[tactic(auto, using(crate::proofs::Goes::asking))]
    pub fn look(&self, ask: Ask) -> bool
        requires settled { self.now.planned ≡ None }
        ensures { result ≡ answer_at self.now.journal ask }
    {
        answer(&self.parts, ask)
    }

    /// What the report tells of the editor.
    #[tactic(auto, using(crate::proofs::Goes::asking), unfolding(crate::specs::Views::view_of))]
    pub fn view(&self) -> Result<View, NoMemory>
        requires settled { self.now.planned ≡ None }
        ensures { IfOk result (λ view. view ≡ view_of self.now.journal) }
    {
        let items = self.ledger()?;
        view_of(self.alloc, self.events.len() as u64, items, &self.parts)
    }

    /// All items that were ever made, each with its life and its spelling, by window and number.
    pub fn ledger(&self) -> Result<ItemViews, NoMemory>
        ensures { IfOk result (λ views. views ≡ ledger self.now.journal) }
    {
        self.parts.scene.book.kept_ledger()
    }

    /// In each journal of a core each event is lawful, and was enabled after those before it.
    pub fn events_were_enabled(&self)
        ensures { AreEnabled self.now.journal }
    {
        // law: it is the invariant of the core, known once a field is read
        let _entries = self.events.len();
    }

    /// In each journal of a core what each event does could be done at its place: the windows of its changes lived, and
    /// its edits and the ranges that it set lay in the text.
    pub fn events_were_possible(&self)
        ensures { IsPossible self.now.journal }
    {
        // law: it is the invariant of the core, known once a field is read
        let _entries = self.events.len();
    }

    /// In each journal of a core each window is lawful: each of its ranges was set inside the text of its time, and its
    /// text is what its groups of edits make of the empty text. So each range lies in the text, where the edits made
    /// since it was set have moved it (`win_text::ranges_are_inside`).
    pub fn windows_are_lawful(&self)
        ensures { AreLawful (run self.now.journal).windows }
    {
        // law: it is the invariant of the core, known once a field is read
        let _entries = self.events.len();
    }

    /// In each journal of a core, along the groups of edits of each live window that are past and then those that were
    /// undone, the numbers never fall, and none is above the number of entries.
    pub fn groups_are_numbered(&self)
        ensures { AreNumbered (length self.now.journal.events) (run self.now.journal).windows }
    {
        group_numbers_never_fall();
    }

    /// In each journal of a core the items of a window that nobody took are a suffix of its items; along the others the
    /// entry at which each was taken or dropped never falls, and an item pends only while its event file is open.
    #[tactic(auto, using(crate::proofs::Ordered::book_laws))]
    pub fn window_order(&self)
        ensures { WindowOrder (run self.now.journal).scene.book }
    {
        // law: the book is lawful
        self.parts.scene.book.is_lawful();
    }

    /// In each journal of a core what an open opening was given, with what it has left, is the joined spelling
    /// of the items that it took.
    #[tactic(auto, using(crate::proofs::Ordered::book_laws))]
    pub fn what_a_fid_gets(&self)
        ensures { WhatAFidGets (run self.now.journal).scene.book }
    {
        // law: the book is lawful
        self.parts.scene.book.is_lawful();
    }

    /// In each journal of a core no read of an event file, of a port, of `log` or of `jobs` waits that could be
    /// answered: what each waits for hasn't come yet.
    #[tactic(auto, using(crate::proofs::Idling::idling))]
    pub fn no_waiting_read_can_be_answered(&self)
        ensures events { IsIdle (run self.now.journal).scene.book }
        ensures ports { ArePortsIdle (run self.now.journal).scene.ports }
        ensures watch { IsWatchIdle (run self.now.journal).scene.watch }
    {
        // law: it is the invariant of the core, known once a field is read
        let _entries = self.events.len();
    }

    /// The number of an entry is its place in the journal, from 1.
    #[tactic(auto, using(crate::proofs::Goes::entries_counted))]
    pub fn entries_are_counted(&self)
        ensures { (run self.now.journal).entries ≡ length self.now.journal.events }
    {
        // law: it is the invariant of the core, known once a field is read
        let _entries = self.events.len();
    }

    /// The format of the journal.
    pub fn format(&self) -> Format
        ensures { result ≡ self.now.journal.format }
    {
        self.format
    }

    /// All events that were done, in order.
    pub fn events(&self) -> &[Event]
        ensures { result.now ≡ self.now.journal.events }
    {
        self.events.as_slice()
    }

    /// The journal, at the end.
    pub fn into_journal(self) -> Journal
        ensures { result ≡ self.journal }
    {
        let Core {
            alloc: _,
            format,
            events,
            parts: _,
            prepared: _,
        } = self;
        Journal {
            format,
            events: events.into_items(),
        }
    }
}
