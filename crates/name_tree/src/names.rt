//! The names in a place.

ghost use Rattle.std.specs.Prelude.{◌≡◌, [], length, OnOk, OnErr, IfOk};
ghost use Rattle.std.specs.Map.{lookup, remove_entry, keys_of};
ghost use Rattle.std.specs.List.Sorted.{IsStrictlySortedBy};
ghost use Rattle.std.specs.BTreeMap.{insert_entry, is_at};
ghost use Rattle.name_tree.specs.Entries.{byte_order};
ghost use Rattle.name_tree.specs.Lines.{lines_in};

use crate::listing::add_line_at;
use crate::types::Node;
use am_text::{Bytes, NoMemory};
use std::alloc::Global;
use std::collections::BTreeMap;
use std::marker::Model;

/// Names in byte order, each with the number of a place.
#[derive(Drop)]
pub struct Names {
    by_name: BTreeMap<Vec<u8>, usize>,
}

impl Model for Names {
    ghost use Rattle.std.specs.Prelude.{List, ℕ, map};

    ghost Value = { List (List ℕ × ℕ) };

    ghost view = { λ n. map (λ e. (e.0.items, e.1)) n.by_name.entries };
}

impl Names {
    /// No names. It takes no memory.
    pub fn new(alloc: Global) -> Self
        ensures { result ≡ [] }
    {
        Names {
            by_name: BTreeMap::new(alloc),
        }
    }

    /// How many there are. They ascend in byte order.
    pub fn len(&self) -> usize
        ensures len { result ≡ length self.now }
        ensures ordered { IsStrictlySortedBy byte_order (keys_of self.now) }
    {
        self.by_name.len()
    }

    /// The number of a name.
    pub fn get(&self, name: &[u8]) -> Option<usize>
        ensures { result ≡ lookup (is_at (byte_order name.now)) self.now }
    {
        self.by_name.get(name).copied()
    }

    /// Puts a name in its place. A refusal changes nothing.
    pub fn insert(&mut self, name: Vec<u8>, number: usize) -> Result<(), NoMemory>
        ensures ok { OnOk result (self.new ≡ insert_entry byte_order self.old name.items number) }
        ensures err { OnErr result (self.new ≡ self.old) }
    {
        self.by_name.insert(name, number)?;
        Ok(())
    }

    /// Takes a name out. It takes no memory.
    pub fn remove(&mut self, name: &[u8])
        ensures { self.new ≡ remove_entry (is_at (byte_order name.now)) self.old }
    {
        self.by_name.remove(name);
    }

    /// The lines of the names at whose places something stands.
    pub fn lines(&self, alloc: Global, nodes: &[Option<Node>]) -> Result<Bytes, NoMemory>
        ensures { IfOk result (λ text. text ≡ lines_in nodes.now self.now) }
    {
        let mut text = Bytes::new(alloc);
        for (name, place) in self.by_name.iter() {
            add_line_at(&mut text, name.as_slice(), nodes, *place)?;
        }
        Ok(text)
    }
}
