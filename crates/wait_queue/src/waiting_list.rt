//! A list of reads whose members are held in a slab.

ghost use Rattle.std.specs.Prelude.{false, ◌≡◌, ◌<◌, [], ◌∷◌, ◌++◌, filter, take, length, OnOk, OnErr, slice_index_or};
ghost use Rattle.std.specs.Prelude.{slice_set};
ghost use Rattle.slab.specs.Slab.{Slab as Slots};
ghost use Rattle.wait_queue.specs.Waiting.{is_here};
ghost use Rattle.wait_queue.specs.Held.{AreHeld, SameOn, is_kept, no_waiting};

use crate::types::Asker;
use am_text::NoMemory;
use slab::Slab;
use std::alloc::Global;
use std::marker::Model;

/// A read that waits, or waited at the last `keep` and was answered since.
#[derive(Clone, Copy, Debug)]
pub struct Waiting {
    pub asker: Asker,
    pub gone: bool,
}

/// Where a read is held, and whether it is gone.
#[derive(Clone, Copy, Debug)]
pub struct Place {
    key: usize,
    gone: bool,
}

/// Reads in a slab, with their order kept beside it.
#[derive(Drop)]
pub struct WaitingList {
    held: Slab<Asker>,
    order: Vec<Place>,
}

impl Model for WaitingList {
    ghost use Rattle.std.specs.Prelude.{List, map};
    ghost use Rattle.wait_queue.specs.declared.waiting_list.Waiting.{Waiting};

    ghost Value = { List Waiting };

    ghost use Rattle.wait_queue.specs.Held.{waiting_at, AreHeld};

    ghost view = { λ l. map (waiting_at l.held) l.order.items };

    ghost invariant = { λ l. AreHeld l.held l.order.items };
}

fn release_gone(held: &mut Slab<Asker>, order: &[Place])
    requires { AreHeld held.old order.now }
    ensures { SameOn held.new held.old (filter is_kept order.now) }
{
    for place in order {
        if place.gone {
            held.try_remove(place.key);
        }
    }
}

fn release_from(held: &mut Slab<Asker>, order: &[Place], n: usize)
    requires { AreHeld held.old order.now }
    ensures { SameOn held.new held.old (take n order.now) }
{
    for i in n..order.len() {
        held.try_remove(order[i].key);
    }
}

fn retain_kept(order: &mut Vec<Place>)
    ensures { order.new.items ≡ filter is_kept order.old.items }
{
    order.retain(|p| !p.gone);
}

impl WaitingList {
    pub fn new(alloc: Global) -> Self
        ensures { result ≡ [] }
    {
        WaitingList {
            held: Slab::new(alloc),
            order: Vec::new(alloc),
        }
    }

    pub fn len(&self) -> usize
        ensures { result ≡ length self.now }
    {
        self.order.len()
    }

    pub fn push(&mut self, asker: Asker) -> Result<(), NoMemory>
        ensures ok { OnOk result
            (self.new ≡ self.old ++ record { asker = asker; gone = false } ∷ []) }
        ensures err { OnErr result (self.new ≡ self.old) }
    {
        self.order.reserve(1)?;
        let key = self.held.insert(asker)?;
        self.order.push_reserved(Place { key, gone: false });
        Ok(())
    }

    pub fn get(&self, i: usize) -> Waiting
        requires { i < length self.now }
        ensures { result ≡ slice_index_or self.now i result }
    {
        let place = self.order[i];
        match self.held.get(place.key) {
            Some(asker) => Waiting {
                asker: *asker,
                gone: place.gone,
            },
            None => unreachable!(),
        }
    }

    pub fn set_gone(&mut self, i: usize, gone: bool)
        requires { i < length self.old }
        ensures { self.new ≡ slice_set self.old i (record {
          asker = (slice_index_or self.old i no_waiting).asker;
          gone =
              gone;
        }) }
    {
        let place = &mut self.order[i];
        place.gone = gone;
    }

    /// Drops the reads that are gone.
    pub fn retain_here(&mut self)
        ensures { self.new ≡ filter is_here self.old }
    {
        release_gone(&mut self.held, self.order.as_slice());
        retain_kept(&mut self.order);
    }

    pub fn truncate(&mut self, n: usize)
        ensures { self.new ≡ take n self.old }
    {
        release_from(&mut self.held, self.order.as_slice(), n);
        self.order.truncate(n);
    }

    pub fn clear(&mut self)
        ensures { self.new ≡ [] }
    {
        self.held.clear();
        self.order.clear();
    }
}
