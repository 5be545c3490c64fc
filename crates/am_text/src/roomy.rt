//! A vector with reserved room, which contracts see as a list and a number.

ghost use Rattle.std.specs.Prelude.{◌≡◌, ◌<◌, ◌≤◌, ◌+◌, ◌-◌, ◌^◌, ◌∷◌, [], ◌++◌, length, ◌==◌, OnOk, slice_get};
ghost use Rattle.std.specs.Prelude.{slice_set, remove, Some};

use crate::items::Items;
use crate::memory::NoMemory;
use std::alloc::Global;
use std::marker::Model;

/// A list that owns its members and has room for `spare` more.
#[derive(Drop)]
pub struct Roomy<T> {
    vec: Vec<T>,
}

impl<T> Model for Roomy<T> {
    ghost use Rattle.std.specs.Prelude.{◌-◌, vec_len, vec_capacity};
    ghost use Rattle.am_text.specs.Room.{Room};

    ghost Value = { Room T };

    ghost view = { λ a. record { items = a.vec.items; spare = vec_capacity a.vec - vec_len a.vec } };
}

impl<T> Roomy<T> {
    /// The empty list. It takes no memory.
    pub fn new(alloc: Global) -> Roomy<T>
        ensures { result.items ≡ [] }
    {
        Roomy {
            vec: Vec::new(alloc),
        }
    }

    /// How many members there are.
    pub fn len(&self) -> usize
        ensures { result ≡ length self.now.items }
    {
        self.vec.len()
    }

    /// Whether there is none.
    pub fn is_empty(&self) -> bool
        ensures { result ≡ (length self.now.items == 0) }
    {
        self.vec.is_empty()
    }

    /// The members as a slice.
    pub fn as_slice(&self) -> &[T]
        ensures { result.now ≡ self.now.items }
    {
        self.vec.as_slice()
    }

    /// The list alone.
    pub fn into_items(self) -> Items<T>
        ensures { result ≡ self.items }
    {
        let Roomy { vec } = self;
        Items::from_vec(vec)
    }

    /// Makes room for so many more members. The members stay, whatever the answer.
    pub fn reserve(&mut self, more: usize) -> Result<(), NoMemory>
        ensures items { self.new.items ≡ self.old.items }
        ensures ok { OnOk result (more ≤ self.new.spare) }
        ensures fits { OnOk result (length self.new.items + more < 2 ^ 64) }
        ensures spare { self.old.spare ≤ self.new.spare }
    {
        self.vec.reserve(more)?;
        Ok(())
    }

    /// Puts one member at the end, into the room that is there. It takes no memory.
    pub fn put(&mut self, item: T)
        requires { 0 < self.old.spare }
        ensures items { self.new.items ≡ self.old.items ++ item ∷ [] }
        ensures spare { self.new.spare ≡ self.old.spare - 1 }
    {
        self.vec.push_reserved(item);
    }
    /// Sets the member at a place. It takes no memory.
    pub fn set(&mut self, at: usize, item: T)
    where
        T: Drop,
        requires { at < length self.old.items }
        ensures { self.new ≡ record self.old { items = slice_set self.old.items at item } }
    {
        self.vec[at] = item;
    }

    /// Takes the member at a place away. It takes no memory.
    pub fn remove(&mut self, at: usize) -> T
        requires { at < length self.old.items }
        ensures items { self.new.items ≡ remove self.old.items at }
        ensures spare { self.new.spare ≡ self.old.spare + 1 }
        ensures member { slice_get self.old.items at ≡ Some result }
    {
        self.vec.remove(at)
    }
}

impl<T: Copy> Roomy<T> {
    /// Puts these members at the end, into the room that is there. It takes no memory.
    pub fn put_all(&mut self, items: &[T])
        requires { length items.now ≤ self.old.spare }
        ensures items { self.new.items ≡ self.old.items ++ items.now }
        ensures spare { self.old.spare ≤ self.new.spare + length items.now }
    {
        match self.vec.extend_from_slice(items) {
            Ok(()) => {}
            Err(_) => unreachable!(),
        }
    }
}
