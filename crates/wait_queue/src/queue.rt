//! The queue itself.

ghost use Rattle.std.specs.Prelude.{◌≡◌, IfOk, OnOk, OnErr};
ghost use Rattle.std.specs.List.{list_any};
ghost use Rattle.am_text.specs.Twice.{Twice, both, IsSteady};
ghost use Rattle.wait_queue.specs.Reads.{is_read};
ghost use Rattle.wait_queue.specs.Carry.{is_of};
ghost use Rattle.wait_queue.specs.WaitState.{nothing, has_openings, must_wait, IsEnlisted, after_enlist, after_put};
ghost use Rattle.wait_queue.specs.WaitState.{piece_of, after_piece, asked_of, after_ask, next_of, served_of};
ghost use Rattle.wait_queue.specs.WaitState.{after_serve, after_cancel, after_leave, after_close};

use crate::carries::Carries;
use crate::pending::{Pending, PendingItems};
use crate::reads::{Answers, Reads};
use crate::types::{Asked, Asker, Piece};
use am_text::{Bytes, NoMemory};
use std::alloc::Global;
use std::marker::Model;

/// What a queue has for its reads.
#[derive(Drop)]
struct Offer<'a> {
    any_item: bool,
    carries: &'a Carries,
}

impl<'a> Answers for Offer<'a> {
    ghost use Rattle.wait_queue.specs.Reads.{can_answer};

    ghost answers = { λ o. can_answer o.any_item o.carries.now.present };

    fn can_answer(&self, asker: Asker) -> bool {
        self.any_item || !self.carries.carry(asker.opening).is_empty()
    }
}

/// Items, and the reads that wait for them, in two states.
pub struct WaitQueue {
    alloc: Global,
    items: PendingItems,
    carries: Carries,
    reads: Reads,
    // Whether the present state may differ from the kept one.
    changed: bool,
}

// By hand, so that a crate that drops a queue goes by this drop, and has not to prove those of all that is in it.
impl Drop for WaitQueue {
    fn drop(self) {
        let WaitQueue {
            alloc: _,
            items: _,
            carries: _,
            reads: _,
            changed: _,
        } = self;
    }
}

impl Model for WaitQueue {
    ghost use Rattle.am_text.specs.Twice.{Twice};
    ghost use Rattle.wait_queue.specs.WaitState.{WaitState};

    ghost Value = { Twice WaitState };

    ghost view = { λ q. record {
      present = record { items = q.items.present; openings = q.carries.present; reads = q.reads.present };
      kept = record { items = q.items.kept; openings = q.carries.kept; reads = q.reads.kept };
    } };

    ghost use Rattle.std.specs.Prelude.{◌≡◌, false};

    ghost invariant = { λ q. q.changed ≡ false → (q.items.present ≡ q.items.kept) × (q.carries.present ≡ q.carries.kept)
        × (q.reads.present ≡ q.reads.kept) };
}

impl WaitQueue {
    /// A queue with nothing in it. It takes no memory.
    pub fn new(alloc: Global) -> Self
        ensures { result ≡ both nothing }
    {
        WaitQueue {
            alloc,
            items: PendingItems::new(alloc),
            carries: Carries::new(alloc),
            reads: Reads::new(alloc),
            changed: false,
        }
    }

    /// The present state becomes the kept one. It takes no memory.
    pub fn keep(&mut self)
        ensures { self.new ≡ both self.old.present }
    {
        if self.changed {
            self.items.keep();
            self.carries.keep();
            self.reads.keep();
            self.changed = false;
        }
    }

    /// The kept state becomes the present one again. It takes no memory.
    pub fn back(&mut self)
        ensures { self.new ≡ both self.old.kept }
    {
        if self.changed {
            self.items.back();
            self.carries.back();
            self.reads.back();
            self.changed = false;
        }
    }

    /// Whether this opening is enlisted.
    pub fn is_enlisted(&self, opening: u32) -> bool
        ensures { result ≡ list_any (is_of opening) self.now.present.openings }
    {
        self.carries.has(opening)
    }

    /// Whether any opening is enlisted.
    pub fn is_open(&self) -> bool
        ensures { result ≡ has_openings self.now.present }
    {
        !self.carries.is_empty()
    }

    /// Whether this read would have to wait.
    pub fn must_wait(&self, asker: Asker) -> bool
        ensures { result ≡ must_wait self.now.present asker }
    {
        asker.count != 0
            && self.items.first().is_none()
            && self.carries.carry(asker.opening).is_empty()
    }

    /// An opening whose reads will be given items. It has nothing left of an item yet. An opening is
    /// enlisted once; of two with the same number the first counts.
    pub fn enlist(&mut self, opening: u32) -> Result<(), NoMemory>
        ensures ok { OnOk result
            (self.new ≡ record self.old { present = after_enlist self.old.present opening }) }
        ensures err { OnErr result (self.new ≡ both self.old.kept) }
    {
        self.changed = true;
        if let Err(error) = self.carries.enlist(self.alloc, opening) {
            self.back();
            return Err(error);
        }
        Ok(())
    }

    /// Puts an item at the end, with its number. It stays until a read takes it.
    pub fn put(&mut self, number: u64, item: Bytes) -> Result<(), NoMemory>
        ensures ok { OnOk result
            (self.new ≡ record self.old { present = after_put self.old.present number item }) }
        ensures err { OnErr result (self.new ≡ both self.old.kept) }
    {
        self.changed = true;
        if let Err(error) = self.items.push(Pending {
            number,
            bytes: item,
        }) {
            self.back();
            return Err(error);
        }
        Ok(())
    }

    // Gives a read what is there: of its opening's carry, else of the first item. On an error
    // nothing has changed.
    fn give(&mut self, asker: Asker) -> Result<Piece, NoMemory>
        ensures piece { IfOk result (λ piece. piece ≡ piece_of self.old.present asker) }
        ensures ok { OnOk result
            (self.new ≡ record self.old { present = after_piece self.old.present asker }) }
        ensures err { OnErr result (self.new ≡ self.old) }
    {
        self.changed = true;
        let count = asker.count as usize;
        if count == 0 {
            return Ok(Piece {
                bytes: Bytes::new(self.alloc),
                taken: None,
            });
        }
        if !self.carries.carry(asker.opening).is_empty() {
            let bytes = self.carries.give(self.alloc, asker.opening, count)?;
            return Ok(Piece { bytes, taken: None });
        }
        let Some(item) = self.items.first() else {
            return Ok(Piece {
                bytes: Bytes::new(self.alloc),
                taken: None,
            });
        };
        let all = item.bytes.as_slice();
        let (front, rest) = all.split_at(all.len().min(count));
        let bytes = Bytes::copied(self.alloc, front)?;
        let rest = Bytes::copied(self.alloc, rest)?;
        let number = item.number;
        self.items.take_first();
        self.carries.refill(asker.opening, rest);
        Ok(Piece {
            bytes,
            taken: Some(number),
        })
    }

    /// Answers a read, or makes it wait.
    ///
    /// A count of 0 gets no bytes at once. Else it gets the first bytes of what its opening has
    /// left of its last item, and where nothing is left, of the first item, which it takes. What
    /// the count cuts off is left to the opening. A read waits where neither is there.
    pub fn ask(&mut self, asker: Asker) -> Result<Asked, NoMemory>
        requires { IsEnlisted self.old.present asker.opening }
        ensures answer { IfOk result (λ asked. asked ≡ asked_of self.old.present asker) }
        ensures ok { OnOk result
            (self.new ≡ record self.old { present = after_ask self.old.present asker }) }
        ensures err { OnErr result (self.new ≡ both self.old.kept) }
    {
        if self.must_wait(asker) {
            self.changed = true;
            return match self.reads.push(asker) {
                Ok(()) => Ok(Asked::Waits),
                Err(error) => {
                    self.back();
                    Err(error)
                }
            };
        }
        match self.give(asker) {
            Ok(piece) => Ok(Asked::Now(piece)),
            Err(error) => {
                self.back();
                Err(error)
            }
        }
    }

    /// Answers the oldest waiting read that can be answered now. None exactly where there is none.
    pub fn serve(&mut self) -> Result<Option<(Asker, Piece)>, NoMemory>
        ensures answer { IfOk result (λ served. served ≡ served_of self.old.present) }
        ensures ok { OnOk result
            (self.new ≡ record self.old { present = after_serve self.old.present }) }
        ensures err { OnErr result (self.new ≡ both self.old.kept) }
    {
        let Some(asker) = self.next() else {
            return Ok(None);
        };
        self.changed = true;
        let offer = Offer {
            any_item: self.items.first().is_some(),
            carries: &self.carries,
        };
        self.reads.take_ready(&offer);
        match self.give(asker) {
            Ok(piece) => Ok(Some((asker, piece))),
            Err(error) => {
                self.back();
                Err(error)
            }
        }
    }

    /// Whether the read with this tag on this connection waited. It waits no more, and takes
    /// nothing. It takes no memory.
    pub fn cancel(&mut self, conn: u32, tag: u16) -> bool
        requires { IsSteady self.old }
        ensures waited { result ≡ list_any (is_read conn tag) self.old.present.reads }
        ensures new { self.new ≡ both (after_cancel self.old.present conn tag) }
    {
        self.reads.cancel(conn, tag)
    }

    /// Forgets an opening, with what it has left and its waiting reads. It takes no memory.
    pub fn leave(&mut self, opening: u32)
        requires { IsSteady self.old }
        ensures { self.new ≡ both (after_leave self.old.present opening) }
    {
        self.carries.remove(opening);
        self.reads.remove_on(opening);
    }

    /// Drops all items, waiting reads and what openings have left. The openings stay enlisted. It
    /// takes no memory.
    pub fn close(&mut self)
        requires { IsSteady self.old }
        ensures { self.new ≡ both (after_close self.old.present) }
    {
        self.items.clear();
        self.carries.clear();
        self.reads.clear();
    }

    /// The read that `serve` would answer. It takes no memory.
    pub fn next(&self) -> Option<Asker>
        ensures { result ≡ next_of self.now.present }
    {
        self.reads.ready(&Offer {
            any_item: self.items.first().is_some(),
            carries: &self.carries,
        })
    }
}
