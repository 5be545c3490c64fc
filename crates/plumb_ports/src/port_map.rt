//! The ports by name, in one state.

ghost use Rattle.std.specs.Prelude.{◌≡◌, ◌<◌, ◌≤◌, [], ◌∷◌, ◌++◌, length, None, slice_get, option_copied, option_map};
ghost use Rattle.std.specs.Prelude.{true, IfOk, OnOk, OnErr};
ghost use Rattle.std.specs.List.{list_all};
ghost use Rattle.rule_syntax.specs.Verbs.{is_port_name};
ghost use Rattle.plumb_ports.specs.Limits.{max_ports};
ghost use Rattle.plumb_ports.specs.PortList.{Port, named, names_of, number_of, kept_of, with_kept};
ghost use Rattle.plumb_ports.specs.Undo.{without_last};

use crate::kept::KeptMessages;
use am_text::{Bytes, NoMemory};
use indexmap::IndexMap;
use std::alloc::Global;
use std::marker::Model;

/// The ports in the order in which their names were first seen, at most 65,536.
#[derive(Drop)]
pub struct PortMap {
    by_name: IndexMap<Vec<u8>, KeptMessages>,
    // The same names, as a slice of them is asked for.
    names: Vec<Bytes>,
}

impl Model for PortMap {
    ghost use Rattle.std.specs.Prelude.{List, map};
    ghost use Rattle.plumb_ports.specs.PortList.{Port};
    ghost use Rattle.plumb_ports.specs.Shown.{port_of, IsNamedBy};

    ghost Value = { List Port };

    ghost view = { λ m. map port_of m.by_name.entries };

    ghost invariant = { λ m. IsNamedBy m.names.items m.by_name.entries };
}

impl PortMap {
    /// No ports. It takes no memory.
    pub fn new(alloc: Global) -> Self
        ensures { result ≡ [] }
    {
        PortMap {
            by_name: IndexMap::new(alloc),
            names: Vec::new(alloc),
        }
    }

    /// How many ports there are.
    pub fn len(&self) -> usize
        ensures len { result ≡ length self.now }
        ensures at_most { result ≤ max_ports }
    {
        self.by_name.len()
    }

    /// The names of the ports.
    pub fn names(&self) -> &[Bytes]
        ensures names { result.now ≡ names_of self.now }
        ensures named_well { list_all is_port_name result.now ≡ true }
        ensures at_most { length result.now ≤ max_ports }
    {
        self.names.as_slice()
    }

    /// The number of the port of this name.
    pub fn number(&self, name: &[u8]) -> Option<u32>
        ensures { result ≡ number_of self.now name.now }
    {
        match self.by_name.get_index_of(name) {
            Some(place) => Some(place as u32),
            None => None,
        }
    }

    /// The messages that the port keeps.
    pub fn kept(&self, port: u32) -> &[Bytes]
        ensures { result.now ≡ kept_of self.now port }
    {
        match self.by_name.get_index(port as usize) {
            Some((_, kept)) => kept.as_slice(),
            None => &[],
        }
    }

    /// Adds a port of this name, which isn't there. A refusal changes nothing.
    pub fn add(&mut self, alloc: Global, name: &[u8]) -> Result<(), NoMemory>
        requires new_name { number_of self.old name.now ≡ None }
        requires few { length self.old < max_ports }
        requires named_well { is_port_name name.now ≡ true }
        ensures ok { OnOk result (self.new ≡ self.old ++ named name.now ∷ []) }
        ensures err { OnErr result (self.new ≡ self.old) }
    {
        self.names.reserve(1)?;
        let copy = Bytes::copied(alloc, name)?;
        let key = Vec::from_slice(alloc, name)?;
        self.by_name.insert(key, KeptMessages::new(alloc))?;
        self.names.push_reserved(copy);
        Ok(())
    }

    /// The newest port goes. It takes no memory.
    pub fn remove_last(&mut self)
        ensures { self.new ≡ without_last self.old }
    {
        self.by_name.pop();
        self.names.pop();
    }

    /// The port keeps one more message. A refusal changes nothing.
    pub fn keep_message(&mut self, port: u32, message: Bytes) -> Result<(), NoMemory>
        ensures ok { OnOk result (self.new ≡ with_kept self.old port (kept_of self.old port ++ message ∷ [])) }
        ensures err { OnErr result (self.new ≡ self.old) }
    {
        let Some(kept) = self.by_name.get_index_mut(port as usize) else {
            return Ok(());
        };
        kept.push(message)
    }

    /// The newest message that the port keeps goes. It takes no memory.
    pub fn unkeep(&mut self, port: u32)
        ensures { self.new ≡ with_kept self.old port (without_last (kept_of self.old port)) }
    {
        let Some(kept) = self.by_name.get_index_mut(port as usize) else {
            return;
        };
        kept.pop();
    }

    /// The port keeps these messages now. It takes no memory.
    pub fn restore(&mut self, port: u32, messages: KeptMessages)
        ensures { self.new ≡ with_kept self.old port messages }
    {
        let Some(kept) = self.by_name.get_index_mut(port as usize) else {
            return;
        };
        *kept = messages;
    }

    /// Takes all messages that the port keeps out. It takes no memory.
    pub fn take_kept(&mut self, alloc: Global, port: u32) -> KeptMessages
        ensures messages { result ≡ kept_of self.old port }
        ensures new { self.new ≡ with_kept self.old port [] }
    {
        let Some(kept) = self.by_name.get_index_mut(port as usize) else {
            return KeptMessages::new(alloc);
        };
        std::mem::replace(kept, KeptMessages::new(alloc))
    }
}
