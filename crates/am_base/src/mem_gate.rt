//! A gate in memory.

ghost use Rattle.std.specs.Prelude.{◌≡◌, Some, None, false, IfOk, OnErr};
ghost use Rattle.am_base.specs.Outside.{Counts, HasCause};
ghost use Rattle.am_base.specs.Memory.{link_of, dialled_link, after_accept, begun_gate, is_gate_of, is_gate_at};
ghost use Rattle.am_base.specs.Memory.{name_of};

use crate::calls::raised;
use crate::link::Gate;
use crate::mem_link::MemLink;
use crate::source::Failed;
use am_text::Bytes;
use std::marker::Model;

/// A link in memory behind a name, handed out once, or never. It tells its name.
#[derive(Drop)]
pub struct MemGate {
    path: Bytes,
    slot: u32,
    link: Option<MemLink>,
    fails: bool,
    given: u64,
    faults: u64,
}

impl Model for MemGate {
    ghost use Rattle.am_base.specs.Memory.{GateState};

    ghost Value = { GateState };

    ghost view = { λ g. record {
      path = g.path;
      slot = g.slot;
      link = g.link;
      fails = g.fails;
      given = g.given;
      faults =
          g.faults;
    } };
}

impl MemGate {
    /// The gate of this path and slot. It hands out this link once, and not where `fail` holds.
    /// The link's count of faults begins then. It takes no memory.
    pub fn new(path: Bytes, slot: u32, link: MemLink, fail: bool) -> MemGate
        ensures { result ≡ record { path = path; slot = slot; link = Some link; fails = fail; given = 0; faults = 0 } }
    {
        MemGate {
            path,
            slot,
            link: Some(link),
            fails: fail,
            given: 0,
            faults: 0,
        }
    }

    /// Whether the gate is of this path and slot.
    pub(crate) fn is_of(&self, path: &[u8], slot: u32) -> bool
        ensures { result ≡ is_gate_of path.now slot self.now }
    {
        self.path.as_slice() == path && self.slot == slot
    }

    /// Whether the gate is of this path.
    pub(crate) fn is_at(&self, path: &[u8]) -> bool
        ensures { result ≡ is_gate_at path.now self.now }
    {
        self.path.as_slice() == path
    }

    /// The gate as it is handed out: its counts begin.
    pub(crate) fn begun(self) -> MemGate
        ensures { result ≡ begun_gate self }
    {
        let mut gate = self;
        gate.given = 0;
        gate.faults = 0;
        gate
    }

    /// The link that it hands out to one who dials it.
    pub(crate) fn dialled(self) -> Result<MemLink, Failed>
        ensures fresh { IfOk result (λ link. link.faults ≡ 0) }
        ensures whole { IfOk result (λ link. link.is_halved ≡ false) }
        ensures dialled { IfOk result (λ link. link.dialled ≡ Some self.path) }
        ensures gives { IfOk result (λ link. dialled_link self ≡ Some link) }
        ensures fails { OnErr result (dialled_link self ≡ None) }
    {
        let mut gate = self;
        match gate.accept() {
            Ok(link) => Ok(link.dialled_at(gate.path)),
            Err(Failed) => Err(Failed),
        }
    }
}

impl Gate for MemGate {
    type L = MemLink;

    ghost told = { λ g. record { name = Some (name_of g); given = g.given; faults = g.faults } };

    fn accept(&mut self) -> Result<MemLink, Failed>
        ensures fresh { IfOk result (λ link. link.faults ≡ 0) }
        ensures whole { IfOk result (λ link. link.is_halved ≡ false) }
        ensures name { Some (name_of self.new) ≡ Some (name_of self.old) }
        ensures given { Counts self.old.given self.new.given result }
        ensures cause { HasCause self.old.faults self.new.faults result }
        // What is handed out, and which calls fail.
        ensures gives { IfOk result (λ link. link_of self.old ≡ Some link) }
        ensures fails { OnErr result (link_of self.old ≡ None) }
        ensures state { self.new ≡ after_accept self.old (link_of self.old) }
    {
        if self.fails {
            self.faults = raised(self.faults);
            return Err(Failed);
        }
        match self.link.take() {
            Some(link) => {
                self.given = raised(self.given);
                Ok(link.begun())
            }
            None => {
                self.faults = raised(self.faults);
                Err(Failed)
            }
        }
    }
}
