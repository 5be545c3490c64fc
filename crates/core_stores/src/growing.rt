//! A list that grows, in two states.

ghost use Rattle.std.specs.Prelude.{◌≡◌, ◌++◌, ◌∷◌, [], take, drop, length, OnOk, OnErr};
ghost use Rattle.am_text.specs.Twice.{both};

use am_text::{Items, NoMemory};
use std::alloc::Global;
use std::marker::Model;
use std::mem;

/// A list that grows, in two states.
#[derive(Drop)]
pub(crate) struct Growing<T> {
    alloc: Global,
    items: Items<T>,
    // How many there were at the last `keep`.
    kept: usize,
}

impl<T> Model for Growing<T> {
    ghost use Rattle.std.specs.Prelude.{List, take, length, ◌≤◌};
    ghost use Rattle.am_text.specs.Twice.{Twice};

    ghost Value = { Twice (List T) };

    ghost view = { λ g. record { present = g.items; kept = take g.kept g.items } };

    ghost invariant = { λ g. g.kept ≤ length g.items };
}

// The first of these.
fn front<T: Drop>(items: Items<T>, count: usize) -> Items<T>
    ensures { result ≡ take count items }
{
    let mut all = items.into_vec();
    all.truncate(count);
    Items::from_vec(all)
}

impl<T> Growing<T> {
    /// The empty list. It takes no memory.
    pub(crate) fn new(alloc: Global) -> Growing<T>
        ensures { result ≡ both [] }
    {
        Growing {
            alloc,
            items: Items::new(alloc),
            kept: 0,
        }
    }

    /// The present list.
    pub(crate) fn items(&self) -> &Items<T>
        ensures { result.now ≡ self.now.present }
    {
        &self.items
    }

    /// Those that came since the last `keep`.
    pub(crate) fn made(&self) -> &[T]
        ensures { result.now ≡ drop (length self.now.kept) self.now.present }
    {
        &self.items.as_slice()[self.kept..]
    }

    /// The present state becomes the kept one. It takes no memory.
    pub(crate) fn keep(&mut self)
        ensures { self.new ≡ both self.old.present }
    {
        self.kept = self.items.len();
    }
}

impl<T: Drop> Growing<T> {
    /// Puts one behind the others. A refusal changes nothing.
    pub(crate) fn push(&mut self, item: T) -> Result<(), NoMemory>
        ensures ok { OnOk result (self.new ≡ record self.old { present = self.old.present ++ item ∷ [] }) }
        ensures err { OnErr result (self.new ≡ self.old) }
    {
        self.items.push(item)?;
        Ok(())
    }

    /// Puts these behind the others.
    pub(crate) fn extend(&mut self, more: Items<T>) -> Result<(), NoMemory>
        ensures ok { OnOk result (self.new.present ≡ self.old.present ++ more) }
        ensures kept { self.new.kept ≡ self.old.kept }
    {
        for item in more.into_vec() {
            self.push(item)?;
        }
        Ok(())
    }

    /// The kept state becomes the present one again. It takes no memory.
    pub(crate) fn back(&mut self)
        ensures { self.new ≡ both self.old.kept }
    {
        let items = mem::replace(&mut self.items, Items::new(self.alloc));
        self.items = front(items, self.kept);
    }
}

impl<T: Copy> Growing<T> {
    /// Puts these behind the others. A refusal changes nothing.
    pub(crate) fn append(&mut self, more: &[T]) -> Result<(), NoMemory>
        ensures ok { OnOk result (self.new ≡ record self.old { present = self.old.present ++ more.now }) }
        ensures err { OnErr result (self.new ≡ self.old) }
    {
        self.items.append(more)?;
        Ok(())
    }
}
