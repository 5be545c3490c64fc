//! The book.

ghost use Rattle.std.specs.Prelude.{◌≡◌, ◌<◌, ◌≤◌, IfOk, OnOk, OnErr, option_copied, length};
ghost use Rattle.std.specs.List.{list_any};
ghost use Rattle.am_text.specs.Twice.{Twice, both, IsSteady};
ghost use Rattle.wait_queue.specs.Limits.{max_openings};
ghost use Rattle.wait_queue.specs.Reads.{is_read};
ghost use Rattle.event_book.specs.WindowFiles.{ledger_of};
ghost use Rattle.event_book.specs.BookState.{BookState, empty_book, is_open_window, is_living, IsOpen, IsLiving};
ghost use Rattle.event_book.specs.BookState.{IsTaken, is_taken_of, item_of, next_opening, after_add, next_number};
ghost use Rattle.event_book.specs.BookState.{after_put, asked_of, after_ask, served_of, after_serve, found_of};
ghost use Rattle.event_book.specs.BookState.{after_written, after_cancel, after_leave, after_delete};
ghost use Rattle.event_book.specs.Laws.{IsLawful, WindowOrder, WhatAFidGets};

use crate::finding::BackFault;
use crate::tables::Tables;
use am_journal::ItemViews;
use am_text::NoMemory;
use std::alloc::Global;
use std::marker::Model;
use wait_queue::{Asked, Asker, Piece};
use win_events::{BackMsg, Item};

/// The items of all windows with their lives, the openings of their event files, and the reads that
/// wait for an item, in two states.
///
/// An opening is one opening of a window's event file, numbered from 1 over all windows; the items of
/// a window are numbered from 1. `at` is the number of the entry at which a call is made.
pub struct Book {
    tables: Tables,
}

// By hand, so that a crate that drops a book goes by this drop, and has not to prove those of all that is in it.
impl Drop for Book {
    fn drop(self) {
        let Book { tables: _ } = self;
    }
}

impl Model for Book {
    ghost use Rattle.am_text.specs.Twice.{Twice};
    ghost use Rattle.event_book.specs.BookState.{BookState};

    ghost Value = { Twice BookState };

    ghost view = { λ b. b.tables };

    ghost use Rattle.event_book.specs.Laws.{IsLawful};

    ghost invariant = { λ b. IsLawful b.tables.present × IsLawful b.tables.kept };
}

impl Book {
    /// A book with nothing in it. It takes no memory.
    pub fn new(alloc: Global) -> Book
        ensures { result ≡ both empty_book }
    {
        Book {
            tables: Tables::new(alloc),
        }
    }

    /// The present state becomes the kept one. It takes no memory. It takes time for the windows
    /// that changed since the last time, each with all openings of its file, and where anything
    /// changed, for all waiting reads.
    pub fn keep(&mut self)
        ensures { self.new ≡ both self.old.present }
    {
        self.tables.keep();
    }

    /// The kept state becomes the present one again. It takes no memory, and time as `keep` does.
    pub fn back(&mut self)
        ensures { self.new ≡ both self.old.kept }
    {
        self.tables.back();
    }

    /// How many openings were added.
    pub fn openings(&self) -> usize
        ensures { result ≡ length self.now.present.owners }
    {
        self.tables.openings()
    }

    /// The latest entry of a call, which no later call may come before.
    pub fn latest(&self) -> u64
        ensures { result ≡ self.now.present.latest }
    {
        self.tables.latest()
    }

    /// Adds an opening of the window's event file, and answers its number.
    pub fn add_opening(&mut self, window: u32) -> Result<u32, NoMemory>
        requires { length self.old.present.owners < max_openings }
        ensures opening { IfOk result (λ opening. opening ≡ next_opening self.old.present) }
        ensures ok { OnOk result (self.new ≡ record self.old { present = after_add self.old.present window }) }
        ensures err { OnErr result (self.new ≡ both self.old.kept) }
    {
        self.tables.add_opening(window)
    }

    /// Whether the window's event file is open.
    pub fn is_open(&self, window: u32) -> bool
        ensures { result ≡ is_open_window self.now.present window }
    {
        self.tables.is_open(window)
    }

    /// Whether this opening is open: it was added, and neither left nor deleted with its window.
    pub fn is_living(&self, opening: u32) -> bool
        ensures { result ≡ is_living self.now.present opening }
    {
        self.tables.is_living(opening)
    }

    /// Puts an item at the end of the window's, and answers its number. It is pending.
    pub fn put(&mut self, window: u32, item: Item) -> Result<u64, NoMemory>
        requires { IsOpen self.old.present window }
        ensures number { IfOk result (λ number. number ≡ next_number self.old.present window) }
        ensures ok { OnOk result (self.new ≡ record self.old { present = after_put self.old.present window item }) }
        ensures err { OnErr result (self.new ≡ both self.old.kept) }
    {
        self.tables.put(window, item)
    }

    /// Answers a read on an opening, or makes it wait.
    ///
    /// A count of 0 gets no bytes at once. Else it gets the first bytes of what its opening has left
    /// of its last item, and where nothing is left, of the window's first pending item, which it
    /// takes. What the count cuts off is left to the opening. A read waits where neither is there.
    pub fn ask(&mut self, asker: Asker, at: u64) -> Result<Asked, NoMemory>
        requires living { IsLiving self.old.present asker.opening }
        requires later { self.old.present.latest ≤ at }
        ensures answer { IfOk result (λ asked. asked ≡ asked_of self.old.present asker) }
        ensures ok { OnOk result (self.new ≡ record self.old { present = after_ask self.old.present asker at }) }
        ensures err { OnErr result (self.new ≡ both self.old.kept) }
    {
        self.tables.ask(asker, at)
    }

    /// Answers the oldest waiting read over all windows that can be answered. None exactly where
    /// there is none, and then nothing changes.
    pub fn serve(&mut self, at: u64) -> Result<Option<(Asker, Piece)>, NoMemory>
        requires { self.old.present.latest ≤ at }
        ensures answer { IfOk result (λ served. served ≡ served_of self.old.present) }
        ensures ok { OnOk result (self.new ≡ record self.old { present = after_serve self.old.present at }) }
        ensures err { OnErr result (self.new ≡ both self.old.kept) }
    {
        self.tables.serve(at)
    }

    /// The number of the window's item that a message written back names: the one that was taken
    /// last, isn't yet written back, has the message's type, and has its range or that range as its
    /// expansion. Where no item that was taken and isn't yet written back fits: `Already` if a
    /// written-back one fits, else `NoSuch`. It takes no memory.
    pub fn find(&self, window: u32, message: &BackMsg) -> Result<u64, BackFault>
        ensures { result ≡ found_of self.now.present window message.now }
    {
        self.tables.find(window, message)
    }

    /// The window's item with this number. None exactly where there is none.
    pub fn item(&self, window: u32, number: u64) -> Option<&Item>
        ensures { option_copied result ≡ item_of self.now.present window number }
    {
        self.tables.item(window, number)
    }

    /// Whether the window's item with this number was taken, and not written back.
    pub fn is_taken(&self, window: u32, number: u64) -> bool
        ensures { result ≡ is_taken_of self.now.present window number }
    {
        self.tables.is_taken(window, number)
    }

    /// The item, which was taken, is written back. It takes no memory.
    pub fn written(&mut self, window: u32, number: u64, at: u64)
        requires steady { IsSteady self.old }
        requires taken { IsTaken self.old.present window number }
        requires later { self.old.present.latest ≤ at }
        ensures { self.new ≡ both (after_written self.old.present window number at) }
    {
        self.tables.written(window, number, at);
    }

    /// Whether the read with this tag on this connection waited. It waits no more, and takes
    /// nothing. It takes no memory.
    pub fn cancel(&mut self, conn: u32, tag: u16) -> bool
        requires { IsSteady self.old }
        ensures waited { result ≡ list_any (is_read conn tag) self.old.present.reads }
        ensures new { self.new ≡ both (after_cancel self.old.present conn tag) }
    {
        self.tables.cancel(conn, tag)
    }

    /// The opening closes, with what it has left and its waiting reads. The last one of a window
    /// drops the pending items. It takes no memory.
    pub fn leave(&mut self, opening: u32, at: u64)
        requires steady { IsSteady self.old }
        requires living { IsLiving self.old.present opening }
        requires later { self.old.present.latest ≤ at }
        ensures { self.new ≡ both (after_leave self.old.present opening at) }
    {
        self.tables.leave(opening, at);
    }

    /// All openings of the window close, with what they have left and their waiting reads, and the
    /// pending items are dropped. It takes no memory.
    pub fn delete(&mut self, window: u32, at: u64)
        requires steady { IsSteady self.old }
        requires later { self.old.present.latest ≤ at }
        ensures { self.new ≡ both (after_delete self.old.present window at) }
    {
        self.tables.delete(window, at);
    }

    /// All items with their lives and spellings, by window and number.
    pub fn ledger(&self) -> Result<ItemViews, NoMemory>
        ensures { IfOk result (λ views. views ≡ ledger_of self.now.present.files) }
    {
        self.tables.ledger()
    }

    /// All items of the kept state with their lives and spellings, by window and number.
    pub fn kept_ledger(&self) -> Result<ItemViews, NoMemory>
        ensures { IfOk result (λ views. views ≡ ledger_of self.now.kept.files) }
    {
        self.tables.kept_ledger()
    }

    /// What the laws of the calls ask of a state holds of every book, in both states.
    pub fn is_lawful(&self)
        ensures present { IsLawful self.now.present }
        ensures kept { IsLawful self.now.kept }
    {
        let _ = &self.tables;
    }

    /// In each window the pending items are a suffix, and along the others the entry at which each
    /// was taken or dropped never falls. An item is pending only while the event file is open.
    pub fn window_order(&self)
        ensures { WindowOrder self.now.present }
    {
        let _ = &self.tables;
    }

    /// What an open opening was given, with what it has left, is the joined spelling of the items
    /// that it took. What it has left is a proper suffix of the last one's.
    pub fn what_a_fid_gets(&self)
        ensures { WhatAFidGets self.now.present }
    {
        let _ = &self.tables;
    }
}
