//! What each opening has left of its last item.

ghost use Rattle.std.specs.Prelude.{◌≡◌, ◌≢◌, ◌<◌, ◌==◌, [], ◌∷◌, ◌++◌, map, filter, not, IfOk, IfSome, position};
ghost use Rattle.std.specs.Prelude.{unwrap_or, OnOk, OnErr, drop, take, length, IsTrue, ◌↔◌};
ghost use Rattle.std.specs.List.{list_any};
ghost use Rattle.am_text.specs.Twice.{Twice, both, IsSteady};
ghost use Rattle.wait_queue.specs.Carry.{carry_of, set_carry, without_opening, emptied, is_of};
ghost use Rattle.wait_queue.specs.Openings.{has_id, with_present, with_kept, with_none};

use am_text::{Bytes, NoMemory};
use std::alloc::Global;
use std::marker::Model;

/// What an opening has left of its last item, in two states.
///
/// Bytes that were given are passed over by a place. Where an item was taken since the last `keep`,
/// its rest stands beside the kept bytes.
#[derive(Drop)]
pub struct Carry {
    bytes: Bytes,
    kept_from: usize,
    next: Option<Bytes>,
    from: usize,
}

impl Model for Carry {
    ghost use Rattle.std.specs.Prelude.{List, ℕ, drop, length, ◌≤◌, unwrap_or};
    ghost use Rattle.std.specs.List.{list_any};
    ghost use Rattle.am_text.specs.Twice.{Twice};

    ghost Value = { Twice (List ℕ) };

    ghost view = { λ c. record { present = drop c.from (unwrap_or c.next c.bytes); kept = drop c.kept_from c.bytes } };

    ghost invariant = { λ c. (c.kept_from ≤ length c.bytes) × (c.from ≤ length (unwrap_or c.next c.bytes)) };
}

fn current<'a>(next: &'a Option<Bytes>, bytes: &'a Bytes) -> &'a [u8]
    ensures { result.now ≡ unwrap_or next.now bytes.now }
{
    match next {
        Some(next) => next.as_slice(),
        None => bytes.as_slice(),
    }
}

impl Carry {
    pub fn new(alloc: Global) -> Self
        ensures { result ≡ both [] }
    {
        Carry {
            bytes: Bytes::new(alloc),
            kept_from: 0,
            next: None,
            from: 0,
        }
    }

    pub fn present(&self) -> &[u8]
        ensures { result.now ≡ self.now.present }
    {
        &current(&self.next, &self.bytes)[self.from..]
    }

    /// Copies the first bytes out, at most `count`, and passes over them.
    pub fn give(&mut self, alloc: Global, count: usize) -> Result<Bytes, NoMemory>
        ensures bytes { IfOk result (λ bytes. bytes ≡ take count self.old.present) }
        ensures ok { OnOk result
            (self.new ≡ record self.old { present = drop count self.old.present }) }
        ensures err { OnErr result (self.new ≡ self.old) }
    {
        let whole = current(&self.next, &self.bytes);
        let end = self.from + count.min(whole.len() - self.from);
        let bytes = Bytes::copied(alloc, &whole[self.from..end])?;
        self.from = end;
        Ok(bytes)
    }

    pub fn refill(&mut self, next: Bytes)
        ensures { self.new ≡ record self.old { present = next } }
    {
        self.next = Some(next);
        self.from = 0;
    }

    pub fn clear(&mut self)
        ensures { self.new ≡ both [] }
    {
        self.next = None;
        self.from = self.bytes.len();
        self.kept_from = self.from;
    }

    pub fn keep(&mut self)
        ensures { self.new ≡ both self.old.present }
    {
        if let Some(next) = self.next.take() {
            self.bytes = next;
        }
        self.kept_from = self.from;
    }

    pub fn back(&mut self)
        ensures { self.new ≡ both self.old.kept }
    {
        self.next = None;
        self.from = self.kept_from;
    }
}

/// An opening and its carry.
#[derive(Drop)]
pub struct Opening {
    pub id: u32,
    pub carry: Carry,
}

fn place_of(all: &[Opening], id: u32) -> Option<usize>
    ensures place { result ≡ position (has_id id) all.now }
    ensures within { IfSome result (λ place. place < length all.now) }
{
    all.iter().position(|o| o.id == id)
}

fn has_opening(all: &[Opening], id: u32) -> bool
    ensures { result ≡ list_any (has_id id) all.now }
{
    all.iter().any(|o| o.id == id)
}

fn keep_each(all: &mut [Opening])
    ensures { all.new ≡ map with_present all.old }
{
    for opening in all.iter_mut() {
        opening.carry.keep();
    }
}

fn back_each(all: &mut [Opening])
    ensures { all.new ≡ map with_kept all.old }
{
    for opening in all.iter_mut() {
        opening.carry.back();
    }
}

fn clear_each(all: &mut [Opening])
    ensures { all.new ≡ map with_none all.old }
{
    for opening in all.iter_mut() {
        opening.carry.clear();
    }
}

fn remove_each(all: &mut Vec<Opening>, id: u32)
    ensures { all.new.items ≡ filter (λ o. not (has_id id o)) all.old.items }
{
    all.retain(|o| o.id != id);
}

/// The openings in the order of their enlisting, in two states. The ones enlisted since the last
/// `keep` stand after the kept ones.
#[derive(Drop)]
pub struct Carries {
    all: Vec<Opening>,
    kept: usize,
}

impl Model for Carries {
    ghost use Rattle.std.specs.Prelude.{List, take, map, length, ◌≤◌};
    ghost use Rattle.std.specs.List.{list_any};
    ghost use Rattle.am_text.specs.Twice.{Twice};
    ghost use Rattle.wait_queue.specs.Carry.{OpenCarry};

    ghost Value = { Twice (List OpenCarry) };

    ghost use Rattle.wait_queue.specs.Openings.{present_of, kept_of};

    ghost view = { λ c. record { present = map present_of c.all.items; kept = map kept_of (take c.kept c.all.items) } };

    ghost invariant = { λ c. c.kept ≤ length c.all.items };
}

impl Carries {
    pub fn new(alloc: Global) -> Self
        ensures { result ≡ both [] }
    {
        Carries {
            all: Vec::new(alloc),
            kept: 0,
        }
    }

    pub fn enlist(&mut self, alloc: Global, id: u32) -> Result<(), NoMemory>
        ensures ok { OnOk result
            (self.new ≡ record self.old {
              present = self.old.present ++ record { opening = id; carry = [] } ∷ [];
            }) }
        ensures err { OnErr result (self.new ≡ self.old) }
    {
        self.all.push(Opening {
            id,
            carry: Carry::new(alloc),
        })?;
        Ok(())
    }

    /// Whether the opening is there.
    pub fn has(&self, id: u32) -> bool
        ensures { result ≡ list_any (is_of id) self.now.present }
    {
        has_opening(self.all.as_slice(), id)
    }

    /// Whether none is there.
    pub fn is_empty(&self) -> bool
        ensures { result ≡ (length self.now.present == 0) }
    {
        self.all.is_empty()
    }

    pub fn carry(&self, id: u32) -> &[u8]
        ensures { result.now ≡ carry_of self.now.present id }
    {
        let Some(place) = place_of(self.all.as_slice(), id) else {
            return &[];
        };
        self.all[place].carry.present()
    }

    pub fn give(&mut self, alloc: Global, id: u32, count: usize) -> Result<Bytes, NoMemory>
        ensures bytes { IfOk result (λ bytes. bytes ≡ take count (carry_of self.old.present id)) }
        ensures ok { OnOk result
            (self.new ≡ record self.old {
              present = set_carry self.old.present id (drop count (carry_of self.old.present id));
            }) }
        ensures err { OnErr result (self.new ≡ self.old) }
    {
        let Some(place) = place_of(self.all.as_slice(), id) else {
            return Ok(Bytes::new(alloc));
        };
        let opening = &mut self.all[place];
        opening.carry.give(alloc, count)
    }

    pub fn refill(&mut self, id: u32, bytes: Bytes)
        ensures { self.new ≡ record self.old { present = set_carry self.old.present id bytes } }
    {
        let Some(place) = place_of(self.all.as_slice(), id) else {
            return;
        };
        let opening = &mut self.all[place];
        opening.carry.refill(bytes);
    }

    pub fn keep(&mut self)
        ensures { self.new ≡ both self.old.present }
    {
        keep_each(self.all.as_mut_slice());
        self.kept = self.all.len();
    }

    pub fn back(&mut self)
        ensures { self.new ≡ both self.old.kept }
    {
        self.all.truncate(self.kept);
        back_each(self.all.as_mut_slice());
    }

    pub fn remove(&mut self, id: u32)
        requires { IsSteady self.old }
        ensures { self.new ≡ both (without_opening self.old.present id) }
    {
        remove_each(&mut self.all, id);
        self.kept = self.all.len();
    }

    /// Each opening has nothing left.
    pub fn clear(&mut self)
        ensures { self.new ≡ both (map emptied self.old.present) }
    {
        clear_each(self.all.as_mut_slice());
        self.kept = self.all.len();
    }
}
