//! A host in memory.

ghost use Rattle.std.specs.Prelude.{◌≡◌, Some, None, false, IfOk, OnErr, ◌<◌, length, position, remove, slice_get};
ghost use Rattle.am_base.specs.Outside.{AreTold, Counts, HasCause};
ghost use Rattle.am_base.specs.Memory.{no_calls, place_of, after_bind, is_gate_of, gate_of, is_gate_at, dialled_place};
ghost use Rattle.am_base.specs.Memory.{dialled, after_dial};

use crate::calls::{Calls, raised};
use crate::link::Host;
use crate::mem_gate::MemGate;
use crate::mem_link::MemLink;
use crate::source::Failed;
use am_text::{Items, Numbers};
use std::marker::Model;

/// Gates in memory.
pub type MemGates = Items<MemGate>;

/// Gates in memory, each handed out or dialled once, with some calls that fail.
#[derive(Drop)]
pub struct MemHost {
    gates: Vec<MemGate>,
    calls: Calls,
    given: u64,
}

impl Model for MemHost {
    ghost use Rattle.am_base.specs.Memory.{HostState};

    ghost Value = { HostState };

    ghost view = { λ h. record { gates = h.gates.items; calls = h.calls; given = h.given } };
}

impl MemHost {
    /// Hands out or dials each of these gates once. The calls of `bind` and `dial` fail whose numbers,
    /// from 1, stand in `fail_at`, and those for which no gate is there, or one that hands out no link,
    /// and no others. It takes no memory.
    pub fn new(gates: MemGates, fail_at: Numbers) -> MemHost
        ensures { result ≡ record { gates = gates; calls = no_calls fail_at; given = 0 } }
    {
        MemHost {
            gates: gates.into_vec(),
            calls: Calls::new(fail_at),
            given: 0,
        }
    }

    /// Where the gate stands that the next call hands out, or `None` where that fails.
    fn place_of(&self, path: &[u8], slot: u32) -> Option<usize>
        ensures { result ≡ place_of self.now path.now slot }
    {
        if self.calls.fails_next() {
            return None;
        }
        self.place_by_name(path, slot)
    }

    fn place_by_name(&self, path: &[u8], slot: u32) -> Option<usize>
        ensures { result ≡ position (is_gate_of path.now slot) self.now.gates }
    {
        self.gates.iter().position(|gate| gate.is_of(path, slot))
    }

    /// Where the gate stands that the next call of `dial` takes, or `None` where that fails.
    fn dialled_place(&self, path: &[u8]) -> Option<usize>
        ensures { result ≡ dialled_place self.now path.now }
    {
        if self.calls.fails_next() {
            return None;
        }
        self.place_by_path(path)
    }

    fn place_by_path(&self, path: &[u8]) -> Option<usize>
        ensures { result ≡ position (is_gate_at path.now) self.now.gates }
    {
        self.gates.iter().position(|gate| gate.is_at(path))
    }

    /// Takes out the gate at a place.
    fn take(&mut self, at: usize) -> MemGate
        requires { at < length self.old.gates }
        ensures gate { slice_get self.old.gates at ≡ Some result }
        ensures rest { self.new ≡ record self.old { gates = remove self.old.gates at } }
    {
        self.gates.remove(at)
    }
}

impl Host for MemHost {
    type G = MemGate;

    ghost told = { λ h. record { given = h.given; faults = h.calls.faults } };

    fn bind(&mut self, path: &str, slot: u32) -> Result<MemGate, Failed>
        ensures named { IfOk result (λ gate. (gate.path ≡ path.now) × (gate.slot ≡ slot)) }
        ensures fresh { IfOk result (λ gate. gate.faults ≡ 0) }
        ensures unasked { IfOk result (λ gate. gate.given ≡ 0) }
        ensures given { Counts self.old.given self.new.given result }
        ensures cause { HasCause self.old.calls.faults self.new.calls.faults result }
        // What is handed out, and which calls fail.
        ensures gives { IfOk result (λ gate. gate_of self.old path.now slot ≡ Some gate) }
        ensures fails { OnErr result (gate_of self.old path.now slot ≡ None) }
        ensures state { self.new ≡ after_bind self.old (place_of self.old path.now slot) }
    {
        let Some(at) = self.place_of(path.as_bytes(), slot) else {
            self.calls.count(true);
            return Err(Failed);
        };
        self.calls.count(false);
        self.given = raised(self.given);
        Ok(self.take(at).begun())
    }

    fn dial(&mut self, path: &str) -> Result<MemLink, Failed>
        ensures fresh { IfOk result (λ link. link.faults ≡ 0) }
        ensures whole { IfOk result (λ link. link.is_halved ≡ false) }
        ensures dialled { IfOk result (λ link. AreTold link.dialled path.now) }
        ensures given { Counts self.old.given self.new.given result }
        ensures cause { HasCause self.old.calls.faults self.new.calls.faults result }
        // What is handed out, and which calls fail.
        ensures gives { IfOk result (λ link. dialled self.old path.now ≡ Some link) }
        ensures fails { OnErr result (dialled self.old path.now ≡ None) }
        ensures state { self.new ≡ after_dial self.old path.now }
    {
        let Some(at) = self.dialled_place(path.as_bytes()) else {
            self.calls.count(true);
            return Err(Failed);
        };
        match self.take(at).dialled() {
            Ok(link) => {
                self.calls.count(false);
                self.given = raised(self.given);
                Ok(link)
            }
            Err(Failed) => {
                self.calls.count(true);
                Err(Failed)
            }
        }
    }
}
