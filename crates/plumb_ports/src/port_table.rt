//! The ports and what they keep, in two states.

ghost use Rattle.std.specs.Prelude.{◌≡◌, ◌<◌, ◌≤◌, true, [], ◌∷◌, ◌++◌, length, None, OnOk, OnErr};
ghost use Rattle.std.specs.List.{list_all};
ghost use Rattle.rule_syntax.specs.Verbs.{is_port_name};
ghost use Rattle.am_text.specs.Twice.{Twice, both};
ghost use Rattle.plumb_ports.specs.Limits.{max_ports};
ghost use Rattle.plumb_ports.specs.PortList.{named, names_of, number_of, kept_of, with_kept};

use crate::port_map::PortMap;
use crate::undo::{Undo, take_all_back};
use am_text::{Bytes, NoMemory};
use std::alloc::Global;
use std::marker::Model;

/// The ports in first-seen order with the messages that each keeps, in two states.
#[derive(Drop)]
pub struct PortTable {
    alloc: Global,
    ports: PortMap,
    // What takes the changes since the last `keep` back, the oldest first.
    trail: Vec<Undo>,
}

impl Model for PortTable {
    ghost use Rattle.std.specs.Prelude.{List};
    ghost use Rattle.am_text.specs.Twice.{Twice};
    ghost use Rattle.plumb_ports.specs.PortList.{Port};

    ghost Value = { Twice (List Port) };

    ghost use Rattle.plumb_ports.specs.Undo.{all_undone};

    ghost view = { λ t. record { present = t.ports; kept = all_undone t.trail.items t.ports } };
}

impl PortTable {
    /// No ports. It takes no memory.
    pub fn new(alloc: Global) -> Self
        ensures { result ≡ both [] }
    {
        PortTable {
            alloc,
            ports: PortMap::new(alloc),
            trail: Vec::new(alloc),
        }
    }

    /// The present state becomes the kept one. It takes no memory.
    pub fn keep(&mut self)
        ensures { self.new ≡ both self.old.present }
    {
        self.trail.clear(); // nothing is left to take back
    }

    /// The kept state becomes the present one again. It takes no memory, and time for what was
    /// changed since the last `keep` alone.
    pub fn back(&mut self)
        ensures { self.new ≡ both self.old.kept }
    {
        take_all_back(&mut self.ports, &mut self.trail);
    }

    /// How many ports there are.
    pub fn len(&self) -> usize
        ensures { result ≡ length self.now.present }
    {
        self.ports.len()
    }

    /// The names of the ports.
    pub fn names(&self) -> &[Bytes]
        ensures names { result.now ≡ names_of self.now.present }
        ensures named_well { list_all is_port_name result.now ≡ true }
        ensures at_most { length result.now ≤ max_ports }
    {
        self.ports.names()
    }

    /// The number of the port of this name.
    pub fn number(&self, name: &[u8]) -> Option<u32>
        ensures { result ≡ number_of self.now.present name.now }
    {
        self.ports.number(name)
    }

    /// The messages that the port keeps.
    pub fn kept(&self, port: u32) -> &[Bytes]
        ensures { result.now ≡ kept_of self.now.present port }
    {
        self.ports.kept(port)
    }

    /// Adds a port of this name, which isn't there. A refusal changes nothing.
    pub fn add(&mut self, name: &[u8]) -> Result<(), NoMemory>
        requires new_name { number_of self.old.present name.now ≡ None }
        requires few { length self.old.present < max_ports }
        requires named_well { is_port_name name.now ≡ true }
        ensures ok { OnOk result (self.new ≡ record self.old { present = self.old.present ++ named name.now ∷ [] }) }
        ensures err { OnErr result (self.new ≡ self.old) }
    {
        self.trail.reserve(1)?;
        self.ports.add(self.alloc, name)?;
        self.trail.push_reserved(Undo::Remove);
        Ok(())
    }

    /// The port keeps one more message. A refusal changes nothing.
    pub fn keep_message(&mut self, port: u32, message: Bytes) -> Result<(), NoMemory>
        ensures ok { OnOk result (self.new ≡ record self.old {
          present = with_kept self.old.present port
              (kept_of self.old.present port ++ message ∷ []);
        }) }
        ensures err { OnErr result (self.new ≡ self.old) }
    {
        self.trail.reserve(1)?;
        self.ports.keep_message(port, message)?;
        self.trail.push_reserved(Undo::Unkeep { port });
        Ok(())
    }

    /// The port keeps nothing now. A refusal changes nothing.
    pub fn empty(&mut self, port: u32) -> Result<(), NoMemory>
        ensures ok { OnOk result (self.new ≡ record self.old { present = with_kept self.old.present port [] }) }
        ensures err { OnErr result (self.new ≡ self.old) }
    {
        self.trail.reserve(1)?;
        let messages = self.ports.take_kept(self.alloc, port);
        self.trail.push_reserved(Undo::Restore { port, messages });
        Ok(())
    }
}
