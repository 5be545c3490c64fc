//! The fids of one connection, by number.

ghost use Rattle.std.specs.Prelude.{◌≡◌, [], nat_eq, length, slice_get, option_copied, option_map, IfOk, OnOk, OnErr};
ghost use Rattle.std.specs.Map.{lookup, set_value};
ghost use Rattle.fid_table.specs.Fids.{with_fid, without_fid, AreDistinct, seen};

use crate::types::Fid;
use am_text::NoMemory;
use indexmap::IndexMap;
use std::alloc::Global;
use std::marker::Model;

/// Fids by number, in the order in which their numbers came into use.
#[derive(Drop)]
pub struct Fids {
    map: IndexMap<u32, Fid>,
}

impl Model for Fids {
    ghost use Rattle.std.specs.Prelude.{List, ℕ};
    ghost use Rattle.fid_table.specs.declared.types.Fid.{Fid};

    ghost Value = { List (ℕ × Fid) };

    ghost view = { λ f. f.map.entries };
}

impl Fids {
    /// No fids. It takes no memory.
    pub fn new(alloc: Global) -> Self
        ensures { result ≡ [] }
    {
        Fids {
            map: IndexMap::new(alloc),
        }
    }

    /// How many there are. Each number is in use once.
    pub fn len(&self) -> usize
        ensures len { result ≡ length self.now }
        ensures distinct { AreDistinct self.now }
    {
        self.map.len()
    }

    /// The fid of that number.
    pub fn get(&self, fid: u32) -> Option<&Fid>
        ensures { option_copied result ≡ lookup (nat_eq fid) self.now }
    {
        self.map.get(&fid)
    }

    /// The k-th number in use, with its fid.
    pub fn at(&self, k: usize) -> Option<(u32, &Fid)>
        ensures { option_map seen result ≡ slice_get self.now k }
    {
        match self.map.get_index(k) {
            Some((number, fid)) => Some((*number, fid)),
            None => None,
        }
    }

    /// Sets the fid of that number, and gives the one that it had. A refusal changes nothing.
    pub fn put(&mut self, fid: u32, value: Fid) -> Result<Option<Fid>, NoMemory>
        ensures before { IfOk result (λ before. before ≡ lookup (nat_eq fid) self.old) }
        ensures ok { OnOk result (self.new ≡ with_fid self.old fid value) }
        ensures err { OnErr result (self.new ≡ self.old) }
    {
        let before = self.map.insert(fid, value)?;
        Ok(before)
    }

    /// Takes the fid of that number out. The others keep their order. It takes no memory.
    pub fn take(&mut self, fid: u32) -> Option<Fid>
        ensures value { result ≡ lookup (nat_eq fid) self.old }
        ensures new { self.new ≡ without_fid self.old fid }
    {
        // `len` is called for its clause that each number is there once.
        let _len = self.map.len();
        self.map.shift_remove(&fid)
    }

    /// Sets the fid of a number that is in use. It takes no memory.
    pub fn restore(&mut self, fid: u32, value: Fid)
        ensures { self.new ≡ set_value (nat_eq fid) self.old value }
    {
        let Some(slot) = self.map.get_mut(&fid) else {
            return;
        };
        *slot = value;
    }

    /// Drops all. It takes no memory.
    pub fn clear(&mut self)
        ensures { self.new ≡ [] }
    {
        self.map.clear();
    }
}
