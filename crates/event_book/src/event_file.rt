//! The event file of a window: its items, its openings, and what each has left.

ghost use Rattle.std.specs.Prelude.{◌≡◌, ◌+◌, false, [], ◌∷◌, ◌++◌, length, IfOk, OnOk, OnErr, option_map};
ghost use Rattle.std.specs.Prelude.{option_copied, IsTrue};
ghost use Rattle.am_text.specs.Twice.{Twice, both, IsSteady};
ghost use Rattle.wait_queue.specs.WaitState.{IsEnlisted, must_wait, piece_of, after_piece, after_put};
ghost use Rattle.win_events.specs.Spelling.{spelling};
ghost use Rattle.win_events.specs.declared.item.Life.TheVariants.{Taken};
ghost use Rattle.event_book.specs.Lives.{fresh, numbered, has_taken, views_from};
ghost use Rattle.event_book.specs.Finding.{found_in};
ghost use Rattle.event_book.specs.WindowFiles.{unopened, queue_of, IsQueueOf, file_in, has_opening, is_enlisted};
ghost use Rattle.event_book.specs.WindowFiles.{enlisted, with_item, items_after, given, with_written, left, deleted};

use crate::finding::BackFault;
use crate::lives::ItemList;
use am_journal::ItemViews;
use am_text::NoMemory;
use std::alloc::Global;
use std::marker::Model;
use wait_queue::{Asked, Asker, Piece, WaitQueue};
use win_events::{BackMsg, Item, Life, spell};

/// A window's items with their lives and the queue of those that nobody has taken, in two states.
/// No read waits in the queue: the waiting reads of all windows are kept in one list.
#[derive(Drop)]
pub struct EventFile {
    alloc: Global,
    items: ItemList,
    queue: WaitQueue,
}

impl Model for EventFile {
    ghost use Rattle.am_text.specs.Twice.{Twice};
    ghost use Rattle.event_book.specs.WindowFiles.{EventFile as FileState};

    ghost Value = { Twice FileState };

    ghost view = { λ f. record {
      present = record { items = f.items.present; openings = f.queue.present.openings };
      kept = record { items = f.items.kept; openings = f.queue.kept.openings };
    } };

    ghost use Rattle.event_book.specs.WindowFiles.{IsQueueOf};

    ghost invariant = { λ f. IsQueueOf f.items f.queue };
}

// Puts an item into both. On an error their kept states stay.
fn put_both(
    alloc: Global,
    items: &mut ItemList,
    queue: &mut WaitQueue,
    item: Item,
) -> Result<u64, NoMemory>
    ensures number { IfOk result (λ number. number ≡ length items.old.present + 1) }
    ensures items { OnOk result (items.new ≡ record items.old { present = items.old.present ++ fresh item ∷ [] }) }
    ensures queue { OnOk result (queue.new ≡ record queue.old {
      present = after_put queue.old.present
          (length items.old.present + 1) (spelling item);
    }) }
    ensures err { OnErr result ((items.new.kept ≡ items.old.kept) × (queue.new.kept ≡ queue.old.kept)) }
{
    let spelled = spell(alloc, &item)?;
    items.push(item)?;
    let number = items.len() as u64;
    queue.put(number, spelled)?;
    Ok(number)
}

// Answers a read that doesn't have to wait.
fn ask(queue: &mut WaitQueue, asker: Asker) -> Result<Piece, NoMemory>
    requires enlisted { IsEnlisted queue.old.present asker.opening }
    requires ready { must_wait queue.old.present asker ≡ false }
    ensures piece { IfOk result (λ piece. piece ≡ piece_of queue.old.present asker) }
    ensures ok { OnOk result (queue.new ≡ record queue.old { present = after_piece queue.old.present asker }) }
    ensures err { OnErr result (queue.new ≡ both queue.old.kept) }
{
    match queue.ask(asker) {
        Ok(Asked::Now(piece)) => Ok(piece),
        Ok(Asked::Waits) => unreachable!(),
        Err(error) => Err(error),
    }
}

// The opening leaves the queue. The last one drops the pending items.
fn leave_both(items: &mut ItemList, queue: &mut WaitQueue, opening: u32, at: u64)
    requires items { IsSteady items.old }
    requires queue { IsSteady queue.old }
    requires agrees { IsQueueOf items.old queue.old }
    ensures items { items.new ≡ both (left (file_in items.old queue.old) opening at).items }
    ensures queue { queue.new ≡ both (queue_of (left (file_in items.old queue.old) opening at)) }
{
    queue.leave(opening);
    if queue.is_open() {
        return;
    }
    items.drop_pending(at);
    queue.close();
}

// An item that was taken has its life.
fn settle_taken(items: &mut ItemList, taken: Option<u64>, opening: u32, at: u64)
    ensures { items.new ≡ record items.old { present = items_after taken (Taken opening at) items.old.present } }
{
    if taken.is_some() {
        items.settle(Life::Taken { opening, at });
    }
}

impl EventFile {
    /// An event file that nobody has opened. It takes no memory.
    pub fn new(alloc: Global) -> Self
        ensures { result ≡ both unopened }
    {
        EventFile {
            alloc,
            items: ItemList::new(alloc),
            queue: WaitQueue::new(alloc),
        }
    }

    /// The present state becomes the kept one. It takes no memory.
    pub fn keep(&mut self)
        ensures { self.new ≡ both self.old.present }
    {
        self.items.keep();
        self.queue.keep();
    }

    /// The kept state becomes the present one again. It takes no memory.
    pub fn back(&mut self)
        ensures { self.new ≡ both self.old.kept }
    {
        self.items.back();
        self.queue.back();
    }

    /// Whether it has an opening.
    pub fn is_open(&self) -> bool
        ensures { result ≡ has_opening self.now.present }
    {
        self.queue.is_open()
    }

    /// Whether this opening is one of its.
    pub fn is_enlisted(&self, opening: u32) -> bool
        ensures { result ≡ is_enlisted self.now.present opening }
    {
        self.queue.is_enlisted(opening)
    }

    /// Whether this read has to wait.
    pub fn must_wait(&self, asker: Asker) -> bool
        ensures { result ≡ must_wait (queue_of self.now.present) asker }
    {
        self.queue.must_wait(asker)
    }

    /// Adds an opening.
    pub fn enlist(&mut self, opening: u32) -> Result<(), NoMemory>
        ensures ok { OnOk result (self.new ≡ record self.old { present = enlisted self.old.present opening }) }
        ensures err { OnErr result (self.new ≡ both self.old.kept) }
    {
        if let Err(error) = self.queue.enlist(opening) {
            self.items.back();
            return Err(error);
        }
        Ok(())
    }

    /// Puts an item at the end, and answers its number.
    pub fn put(&mut self, item: Item) -> Result<u64, NoMemory>
        ensures number { IfOk result (λ number. number ≡ length self.old.present.items + 1) }
        ensures ok { OnOk result (self.new ≡ record self.old { present = with_item self.old.present item }) }
        ensures err { OnErr result (self.new ≡ both self.old.kept) }
    {
        match put_both(self.alloc, &mut self.items, &mut self.queue, item) {
            Ok(number) => Ok(number),
            Err(error) => {
                self.items.back();
                self.queue.back();
                Err(error)
            }
        }
    }

    /// Answers a read that doesn't have to wait. An item that it takes is taken at this entry.
    pub fn give(&mut self, asker: Asker, at: u64) -> Result<Piece, NoMemory>
        requires living { IsTrue (is_enlisted self.old.present asker.opening) }
        requires ready { must_wait (queue_of self.old.present) asker ≡ false }
        ensures piece { IfOk result (λ piece. piece ≡ piece_of (queue_of self.old.present) asker) }
        ensures ok { OnOk result (self.new ≡ record self.old { present = given self.old.present asker at }) }
        ensures err { OnErr result (self.new ≡ both self.old.kept) }
    {
        match ask(&mut self.queue, asker) {
            Ok(piece) => {
                settle_taken(&mut self.items, piece.taken, asker.opening, at);
                Ok(piece)
            }
            Err(error) => {
                self.items.back();
                Err(error)
            }
        }
    }

    /// The taken item with this number is written back at this entry. It takes no memory.
    pub fn written(&mut self, number: u64, at: u64)
        requires { IsSteady self.old }
        ensures { self.new ≡ both (with_written self.old.present number at) }
    {
        self.items.set_back(number, at);
    }

    /// The opening closes. The last one drops the pending items. It takes no memory.
    pub fn leave(&mut self, opening: u32, at: u64)
        requires { IsSteady self.old }
        ensures { self.new ≡ both (left self.old.present opening at) }
    {
        leave_both(&mut self.items, &mut self.queue, opening, at);
    }

    /// All openings close, and the pending items are dropped. It takes no memory.
    pub fn delete(&mut self, at: u64)
        ensures { self.new ≡ both (deleted self.old.present at) }
    {
        self.items.drop_pending(at);
        self.queue = WaitQueue::new(self.alloc);
    }

    /// The number of the item that a message written back names. It takes no memory.
    pub fn find(&self, message: &BackMsg) -> Result<u64, BackFault>
        ensures { result ≡ found_in message.now self.now.present.items }
    {
        self.items.find(message)
    }

    /// The item with this number, if there is one.
    pub fn item(&self, number: u64) -> Option<&Item>
        ensures { option_copied result ≡ option_map (λ e. e.item) (numbered self.now.present.items number) }
    {
        self.items.item(number)
    }

    /// Whether the item with this number was taken, and not written back.
    pub fn is_taken(&self, number: u64) -> bool
        ensures { result ≡ has_taken (numbered self.now.present.items number) }
    {
        self.items.is_taken(number)
    }

    /// Puts all items with their lives and spellings into a ledger.
    pub fn append_views(
        &self,
        alloc: Global,
        window: u32,
        views: &mut ItemViews,
    ) -> Result<(), NoMemory>
        ensures { OnOk result (views.new ≡ views.old ++ views_from window 1 self.now.present.items) }
    {
        self.items.append_views(alloc, window, views)
    }

    /// Puts all kept items with their kept lives and their spellings into a ledger.
    pub fn append_kept_views(
        &self,
        alloc: Global,
        window: u32,
        views: &mut ItemViews,
    ) -> Result<(), NoMemory>
        ensures { OnOk result (views.new ≡ views.old ++ views_from window 1 self.now.kept.items) }
    {
        self.items.append_kept_views(alloc, window, views)
    }
}
