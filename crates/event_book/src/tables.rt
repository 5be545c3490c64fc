//! What a book is made of.

ghost use Rattle.std.specs.Prelude.{◌≡◌, ◌<◌, ◌≤◌, ◌++◌, IfOk, OnOk, OnErr, option_copied, false, length};
ghost use Rattle.std.specs.List.{list_any};
ghost use Rattle.am_text.specs.Twice.{Twice, both, IsSteady};
ghost use Rattle.wait_queue.specs.Limits.{max_openings};
ghost use Rattle.wait_queue.specs.Reads.{is_read};
ghost use Rattle.event_book.specs.WindowFiles.{ledger_of};
ghost use Rattle.event_book.specs.BookState.{BookState, empty_book, is_open_window, is_living, IsOpen, IsLiving};
ghost use Rattle.event_book.specs.BookState.{item_of, is_taken_of, next_opening, after_add, next_number, after_put};
ghost use Rattle.event_book.specs.BookState.{read_waits, piece_for, after_answer, asked_of, after_ask, next_of};
ghost use Rattle.event_book.specs.BookState.{without_next, served_of, after_serve, found_of, after_written};
ghost use Rattle.event_book.specs.BookState.{after_cancel, after_leave, after_delete};
ghost use Rattle.event_book.specs.Laws.{AllLiving};

use crate::file_table::FileTable;
use crate::finding::BackFault;
use crate::owners::Owners;
use am_journal::ItemViews;
use am_text::NoMemory;
use std::alloc::Global;
use std::marker::Model;
use wait_queue::{Answers, Asked, Asker, Piece, Reads};
use win_events::{BackMsg, Item};

/// What there is for the waiting reads.
#[derive(Drop)]
struct Offer<'a> {
    files: &'a FileTable,
    owners: &'a Owners,
}

impl<'a> Answers for Offer<'a> {
    ghost use Rattle.event_book.specs.BookState.{is_ready};

    ghost answers = { λ o. is_ready o.files.now.present o.owners.now.present };

    fn can_answer(&self, asker: Asker) -> bool {
        !self
            .files
            .must_wait(self.owners.window(asker.opening), asker)
    }
}

/// The reads on openings of a window.
#[derive(Drop)]
struct OnWindow<'a> {
    owners: &'a Owners,
    window: u32,
}

impl<'a> Answers for OnWindow<'a> {
    ghost use Rattle.event_book.specs.BookState.{is_on_window};

    ghost answers = { λ o. is_on_window o.owners.now.present o.window };

    fn can_answer(&self, asker: Asker) -> bool {
        self.owners.window(asker.opening) == self.window
    }
}

/// The event files, the openings and the waiting reads, in two states.
#[derive(Drop)]
pub struct Tables {
    files: FileTable,
    owners: Owners,
    reads: Reads,
    latest: u64,
    kept_latest: u64,
    // Whether the present state may differ from the kept one.
    changed: bool,
}

impl Model for Tables {
    ghost use Rattle.am_text.specs.Twice.{Twice};
    ghost use Rattle.event_book.specs.BookState.{BookState};

    ghost Value = { Twice BookState };

    ghost view = { λ t. record {
      present = record { files = t.files.present; owners = t.owners.present; reads = t.reads.present; latest = t.latest };
      kept = record { files = t.files.kept; owners = t.owners.kept; reads = t.reads.kept; latest = t.kept_latest };
    } };

    ghost use Rattle.std.specs.Prelude.{◌≡◌, false};

    ghost invariant = { λ t. t.changed ≡ false → (t.files.present ≡ t.files.kept) × (t.owners.present ≡ t.owners.kept)
        × (t.reads.present ≡ t.reads.kept) × (t.latest ≡ t.kept_latest) };
}

impl Tables {
    /// Nothing. It takes no memory.
    pub fn new(alloc: Global) -> Self
        ensures { result ≡ both empty_book }
    {
        Tables {
            files: FileTable::new(alloc),
            owners: Owners::new(alloc),
            reads: Reads::new(alloc),
            latest: 0,
            kept_latest: 0,
            changed: false,
        }
    }

    /// The present state becomes the kept one. It takes no memory.
    pub fn keep(&mut self)
        ensures { self.new ≡ both self.old.present }
    {
        if self.changed {
            self.files.keep();
            self.owners.keep();
            self.reads.keep();
            self.kept_latest = self.latest;
            self.changed = false;
        }
    }

    /// The kept state becomes the present one again. It takes no memory.
    pub fn back(&mut self)
        ensures { self.new ≡ both self.old.kept }
    {
        if self.changed {
            self.files.back();
            self.owners.back();
            self.reads.back();
            self.latest = self.kept_latest;
            self.changed = false;
        }
    }

    /// Whether the window's event file is open.
    pub fn is_open(&self, window: u32) -> bool
        ensures { result ≡ is_open_window self.now.present window }
    {
        self.files.is_open(window)
    }

    /// Whether this opening is open.
    pub fn is_living(&self, opening: u32) -> bool
        ensures { result ≡ is_living self.now.present opening }
    {
        self.files.is_enlisted(self.owners.window(opening), opening)
    }

    /// How many openings were added.
    pub fn openings(&self) -> usize
        ensures { result ≡ length self.now.present.owners }
    {
        self.owners.len()
    }

    /// The latest entry of a call.
    pub fn latest(&self) -> u64
        ensures { result ≡ self.now.present.latest }
    {
        self.latest
    }

    /// Adds an opening of the window's event file, and answers its number.
    pub fn add_opening(&mut self, window: u32) -> Result<u32, NoMemory>
        requires { length self.old.present.owners < max_openings }
        ensures opening { IfOk result (λ opening. opening ≡ next_opening self.old.present) }
        ensures ok { OnOk result (self.new ≡ record self.old { present = after_add self.old.present window }) }
        ensures err { OnErr result (self.new ≡ both self.old.kept) }
    {
        self.changed = true;
        let opening = self.owners.len() as u32 + 1;
        if let Err(error) = self.owners.push(window) {
            self.back();
            return Err(error);
        }
        if let Err(error) = self.files.enlist(window, opening) {
            self.back();
            return Err(error);
        }
        Ok(opening)
    }

    /// Puts an item at the end of the window's, and answers its number.
    pub fn put(&mut self, window: u32, item: Item) -> Result<u64, NoMemory>
        requires { IsOpen self.old.present window }
        ensures number { IfOk result (λ number. number ≡ next_number self.old.present window) }
        ensures ok { OnOk result (self.new ≡ record self.old { present = after_put self.old.present window item }) }
        ensures err { OnErr result (self.new ≡ both self.old.kept) }
    {
        self.changed = true;
        match self.files.put(window, item) {
            Ok(number) => Ok(number),
            Err(error) => {
                self.back();
                Err(error)
            }
        }
    }

    // Whether this read has to wait.
    fn must_wait(&self, asker: Asker) -> bool
        ensures { result ≡ read_waits self.now.present asker }
    {
        self.files
            .must_wait(self.owners.window(asker.opening), asker)
    }

    // Answers a read that doesn't have to wait.
    fn answer(&mut self, asker: Asker, at: u64) -> Result<Piece, NoMemory>
        requires living { IsLiving self.old.present asker.opening }
        requires ready { read_waits self.old.present asker ≡ false }
        ensures piece { IfOk result (λ piece. piece ≡ piece_for self.old.present asker) }
        ensures ok { OnOk result (self.new ≡ record self.old { present = after_answer self.old.present asker at }) }
        ensures err { OnErr result (self.new.kept ≡ self.old.kept) }
    {
        self.changed = true;
        self.latest = at;
        self.files
            .give(self.owners.window(asker.opening), asker, at)
    }

    /// Answers a read at this entry, or makes it wait.
    pub fn ask(&mut self, asker: Asker, at: u64) -> Result<Asked, NoMemory>
        requires { IsLiving self.old.present asker.opening }
        ensures answer { IfOk result (λ asked. asked ≡ asked_of self.old.present asker) }
        ensures ok { OnOk result (self.new ≡ record self.old { present = after_ask self.old.present asker at }) }
        ensures err { OnErr result (self.new ≡ both self.old.kept) }
    {
        if self.must_wait(asker) {
            self.changed = true;
            self.latest = at;
            return match self.reads.push(asker) {
                Ok(()) => Ok(Asked::Waits),
                Err(error) => {
                    self.back();
                    Err(error)
                }
            };
        }
        match self.answer(asker, at) {
            Ok(piece) => Ok(Asked::Now(piece)),
            Err(error) => {
                self.back();
                Err(error)
            }
        }
    }

    // The oldest waiting read that can be answered.
    fn next(&self) -> Option<Asker>
        ensures { result ≡ next_of self.now.present }
    {
        self.reads.ready(&Offer {
            files: &self.files,
            owners: &self.owners,
        })
    }

    // The oldest waiting read that can be answered waits no more.
    fn take_next(&mut self)
        ensures { self.new ≡ record self.old { present = without_next self.old.present } }
    {
        self.changed = true;
        let offer = Offer {
            files: &self.files,
            owners: &self.owners,
        };
        self.reads.take_ready(&offer);
    }

    /// Answers the oldest waiting read that can be answered, at this entry.
    pub fn serve(&mut self, at: u64) -> Result<Option<(Asker, Piece)>, NoMemory>
        requires { AllLiving self.old.present }
        ensures answer { IfOk result (λ served. served ≡ served_of self.old.present) }
        ensures ok { OnOk result (self.new ≡ record self.old { present = after_serve self.old.present at }) }
        ensures err { OnErr result (self.new ≡ both self.old.kept) }
    {
        let Some(asker) = self.next() else {
            return Ok(None);
        };
        self.take_next();
        match self.answer(asker, at) {
            Ok(piece) => Ok(Some((asker, piece))),
            Err(error) => {
                self.back();
                Err(error)
            }
        }
    }

    /// The number of the window's item that a message written back names.
    pub fn find(&self, window: u32, message: &BackMsg) -> Result<u64, BackFault>
        ensures { result ≡ found_of self.now.present window message.now }
    {
        self.files.find(window, message)
    }

    /// The window's item with this number, if there is one.
    pub fn item(&self, window: u32, number: u64) -> Option<&Item>
        ensures { option_copied result ≡ item_of self.now.present window number }
    {
        self.files.item(window, number)
    }

    /// Whether the window's item with this number was taken, and not written back.
    pub fn is_taken(&self, window: u32, number: u64) -> bool
        ensures { result ≡ is_taken_of self.now.present window number }
    {
        self.files.is_taken(window, number)
    }

    /// The window's taken item with this number is written back at this entry. It takes no memory.
    pub fn written(&mut self, window: u32, number: u64, at: u64)
        requires { IsSteady self.old }
        ensures { self.new ≡ both (after_written self.old.present window number at) }
    {
        self.files.written(window, number, at);
        self.latest = at;
        self.kept_latest = at;
    }

    /// Whether the read with this tag on this connection waited. It waits no more. It takes no memory.
    pub fn cancel(&mut self, conn: u32, tag: u16) -> bool
        requires { IsSteady self.old }
        ensures waited { result ≡ list_any (is_read conn tag) self.old.present.reads }
        ensures new { self.new ≡ both (after_cancel self.old.present conn tag) }
    {
        self.reads.cancel(conn, tag)
    }

    /// The opening closes at this entry. It takes no memory.
    pub fn leave(&mut self, opening: u32, at: u64)
        requires { IsSteady self.old }
        ensures { self.new ≡ both (after_leave self.old.present opening at) }
    {
        let window = self.owners.window(opening);
        self.files.leave(window, opening, at);
        self.reads.remove_on(opening);
        self.latest = at;
        self.kept_latest = at;
    }

    /// All openings of the window close at this entry. It takes no memory.
    pub fn delete(&mut self, window: u32, at: u64)
        requires { IsSteady self.old }
        ensures { self.new ≡ both (after_delete self.old.present window at) }
    {
        self.files.delete(window, at);
        self.reads.remove_all(&OnWindow {
            owners: &self.owners,
            window,
        });
        self.latest = at;
        self.kept_latest = at;
    }

    /// All items with their lives and spellings, by window and number.
    pub fn ledger(&self) -> Result<ItemViews, NoMemory>
        ensures { IfOk result (λ views. views ≡ ledger_of self.now.present.files) }
    {
        self.files.ledger()
    }

    /// The same of the kept state.
    pub fn kept_ledger(&self) -> Result<ItemViews, NoMemory>
        ensures { IfOk result (λ views. views ≡ ledger_of self.now.kept.files) }
    {
        self.files.kept_ledger()
    }
}
