//! A vector that contracts see as a list.

ghost use Rattle.std.specs.Prelude.{◌≡◌, ◌<◌, ◌∷◌, [], ◌++◌, length, ◌==◌, IfOk, OnOk, OnErr};

use crate::memory::NoMemory;
use std::alloc::{AllocFailed, Global};
use std::marker::Model;

/// A list that owns its members. Every plural of the product is an alias of it.
#[derive(Drop)]
pub struct Items<T> {
    vec: Vec<T>,
}

/// A Unicode scalar value.
pub type Rune = u32;

/// A list of bytes.
pub type Bytes = Items<u8>;

/// A text as its runes.
pub type Runes = Items<Rune>;

/// A list of numbers of 32 bits.
pub type Ids = Items<u32>;

/// A list of numbers of 64 bits.
pub type Numbers = Items<u64>;

/// A list of names.
pub type Names = Items<Bytes>;

/// A list of words.
pub type Words = Items<Bytes>;

/// A list of names as texts.
pub type NameList = Items<Runes>;

impl<T> Model for Items<T> {
    ghost use Rattle.std.specs.Prelude.{List};

    ghost Value = { List T };

    ghost view = { λ a. a.vec.items };
}

impl<T> Items<T> {
    /// The empty list. It takes no memory.
    pub fn new(alloc: Global) -> Items<T>
        ensures { result ≡ [] }
    {
        Items {
            vec: Vec::new(alloc),
        }
    }

    /// A vector as a list.
    pub fn from_vec(vec: Vec<T>) -> Items<T>
        ensures { result ≡ vec.items }
    {
        Items { vec }
    }

    /// The vector of the members.
    pub fn into_vec(self) -> Vec<T>
        ensures { result.items ≡ self }
    {
        let Items { vec } = self;
        vec
    }

    /// How many members there are.
    pub fn len(&self) -> usize
        ensures { result ≡ length self.now }
    {
        self.vec.len()
    }

    /// Whether there is none.
    pub fn is_empty(&self) -> bool
        ensures { result ≡ (length self.now == 0) }
    {
        self.vec.is_empty()
    }

    /// The members as a slice.
    pub fn as_slice(&self) -> &[T]
        ensures { result.now ≡ self.now }
    {
        self.vec.as_slice()
    }
}

impl<T: Drop> Items<T> {
    /// Puts one member at the end. A refusal changes nothing.
    pub fn push(&mut self, item: T) -> Result<(), NoMemory>
        ensures ok { OnOk result (self.new ≡ self.old ++ item ∷ []) }
        ensures err { OnErr result (self.new ≡ self.old) }
    {
        self.vec.push(item)?;
        Ok(())
    }
}

impl<T: Copy> Items<T> {
    /// Puts these members at the end. A refusal changes nothing.
    pub fn append(&mut self, items: &[T]) -> Result<(), NoMemory>
        ensures ok { OnOk result (self.new ≡ self.old ++ items.now) }
        ensures err { OnErr result (self.new ≡ self.old) }
    {
        self.vec.extend_from_slice(items)?;
        Ok(())
    }

    /// A list with these members.
    pub fn copied(alloc: Global, items: &[T]) -> Result<Items<T>, NoMemory>
        ensures { IfOk result (λ list. list ≡ items.now) }
    {
        Ok(Items {
            vec: Vec::from_slice(alloc, items)?,
        })
    }
}
