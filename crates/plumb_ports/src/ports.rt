//! The ports.

ghost use Rattle.std.specs.Prelude.{◌≡◌, ◌<◌, ◌⊎◌, false, ◌≤◌, true, [], ◌∷◌, length, None, Some, IfOk, IfErr, OnOk};
ghost use Rattle.std.specs.Prelude.{OnErr, IsTrue};
ghost use Rattle.std.specs.List.{list_all, list_any};
ghost use Rattle.am_text.specs.Twice.{Twice, both, IsSteady};
ghost use Rattle.wait_queue.specs.Reads.{is_read};
ghost use Rattle.rule_syntax.specs.Verbs.{is_port_name};
ghost use Rattle.wait_queue.specs.Limits.{max_openings};
ghost use Rattle.plumb_ports.specs.Limits.{max_ports};
ghost use Rattle.plumb_ports.specs.PortList.{named, names_of, edit_name, is_there, number_of};
ghost use Rattle.plumb_ports.specs.PortsState.{PortsState, beginning, is_open, is_full, has_joined, HasJoined};
ghost use Rattle.plumb_ports.specs.PortsState.{added_number, after_add, after_join, refusal, Refuses, after_fault};
ghost use Rattle.plumb_ports.specs.PortsState.{after_deliver, delivered_at, read_waits, piece_for, after_answer};
ghost use Rattle.plumb_ports.specs.PortsState.{asked_of, after_ask, next_of, without_next, served_of, after_serve};
ghost use Rattle.plumb_ports.specs.PortsState.{after_cancel, after_leave};

use crate::fault::PortFault;
use crate::limits::KEPT_MESSAGES;
use crate::opening_table::OpeningTable;
use crate::port_table::PortTable;
use am_text::{Bytes, NoMemory};
use std::alloc::Global;
use std::marker::Model;
use wait_queue::{Answers, Asked, Asker, Piece, Reads};

// The port `edit` alone, in both states.
#[tactic(auto, unfolding(crate::specs::PortList::edit_name, rule_syntax::specs::Verbs::is_port_name))]
fn edit_alone(alloc: Global) -> Result<PortTable, NoMemory>
    ensures { IfOk result (λ table. table ≡ both (named edit_name ∷ [])) }
{
    let mut table = PortTable::new(alloc);
    table.add(b"edit")?;
    table.keep();
    Ok(table)
}

/// What there is for the waiting reads.
#[derive(Drop)]
struct Offer<'a> {
    openings: &'a OpeningTable,
}

impl<'a> Answers for Offer<'a> {
    ghost use Rattle.plumb_ports.specs.PortsState.{is_ready};

    ghost answers = { λ o. is_ready o.openings.now.present };

    fn can_answer(&self, asker: Asker) -> bool {
        !self.openings.must_wait(asker.opening, asker.count)
    }
}

/// The ports of the plumber (plumber(4)), in two states: a present one, which every look answers
/// from, and a kept one.
///
/// A port is known by its name, and numbered from 0 in the order in which the names were added; port
/// `edit` is there from the start, with the number 0. A message to a port with openings is copied to
/// each of them. A port without openings may keep up to 64 messages, which the next opening takes.
/// Messages are bytes; the piece that takes one shows 0 as its number.
///
/// A call that may want memory changes the present state alone, and where it answers `NoMemory` the
/// present state is the kept one again. The other calls that change something want both states
/// equal, and change both.
pub struct Ports {
    alloc: Global,
    table: PortTable,
    openings: OpeningTable,
    joined: u32,
    kept_joined: u32,
    reads: Reads,
    // Whether the present state may differ from the kept one.
    changed: bool,
    // Whether it is known that no waiting read can be answered.
    idle: bool,
}

// By hand, so that a crate that drops ports goes by this drop, and has not to prove those of all that is in them.
impl Drop for Ports {
    fn drop(self) {
        let Ports {
            alloc: _,
            table: _,
            openings: _,
            joined: _,
            kept_joined: _,
            reads: _,
            changed: _,
            idle: _,
        } = self;
    }
}

impl Model for Ports {
    ghost use Rattle.am_text.specs.Twice.{Twice};
    ghost use Rattle.plumb_ports.specs.PortsState.{PortsState};

    ghost Value = { Twice PortsState };

    ghost view = { λ p. record {
      present = record { ports = p.table.present; openings = p.openings.present; joined = p.joined; reads = p.reads.present };
      kept = record { ports = p.table.kept; openings = p.openings.kept; joined = p.kept_joined; reads = p.reads.kept };
    } };

    ghost use Rattle.std.specs.Prelude.{◌≡◌, true, false};
    ghost use Rattle.plumb_ports.specs.PortsState.{AreIdle};

    ghost invariant = { λ p. (p.changed ≡ false → (p.table.present ≡ p.table.kept)
        × (p.openings.present ≡ p.openings.kept) × (p.joined ≡ p.kept_joined) × (p.reads.present ≡ p.reads.kept))
        × (p.idle ≡ true → AreIdle p.openings.present p.reads.present) };
}

impl Ports {
    /// The port `edit`, which keeps nothing and has no opening.
    pub fn new(alloc: Global) -> Result<Ports, NoMemory>
        ensures { IfOk result (λ ports. ports ≡ both beginning) }
    {
        Ok(Ports {
            alloc,
            table: edit_alone(alloc)?,
            openings: OpeningTable::new(alloc),
            joined: 0,
            kept_joined: 0,
            reads: Reads::new(alloc),
            changed: false,
            idle: true,
        })
    }

    /// The present state becomes the kept one. It takes no memory.
    pub fn keep(&mut self)
        ensures { self.new ≡ both self.old.present }
    {
        if self.changed {
            self.table.keep();
            self.openings.keep();
            self.kept_joined = self.joined;
            self.reads.keep();
            self.changed = false;
        }
    }

    /// The kept state becomes the present one again. It takes no memory.
    pub fn back(&mut self)
        ensures { self.new ≡ both self.old.kept }
    {
        if self.changed {
            self.table.back();
            self.openings.back();
            self.joined = self.kept_joined;
            self.reads.back();
            self.changed = false;
            self.idle = false;
        }
    }

    /// How many ports there are.
    pub fn len(&self) -> usize
        ensures { result ≡ length self.now.present.ports }
    {
        self.table.len()
    }

    /// The names of the ports, in the order in which they were added.
    pub fn names(&self) -> &[Bytes]
        ensures names { result.now ≡ names_of self.now.present.ports }
        ensures named_well { list_all is_port_name result.now ≡ true }
        ensures at_most { length result.now ≤ max_ports }
    {
        self.table.names()
    }

    /// How many openings ever joined.
    pub fn joined(&self) -> u32
        ensures { result ≡ self.now.present.joined }
    {
        self.joined
    }

    /// The number of the port of this name. None exactly where it was never added.
    pub fn number(&self, name: &[u8]) -> Option<u32>
        ensures { result ≡ number_of self.now.present.ports name.now }
    {
        self.table.number(name)
    }

    /// Whether the port with this number has an opening.
    pub fn is_open(&self, port: u32) -> bool
        ensures { result ≡ is_open self.now.present port }
    {
        self.openings.has_port(port)
    }

    /// Whether the port with this number keeps as many messages as it may.
    pub fn is_full(&self, port: u32) -> bool
        ensures { result ≡ is_full self.now.present port }
    {
        self.table.kept(port).len() >= KEPT_MESSAGES
    }

    /// Whether this opening joined a port, and hasn't left.
    pub fn has_joined(&self, opening: u32) -> bool
        ensures { result ≡ has_joined self.now.present opening }
    {
        self.openings.has(opening)
    }

    fn try_add(&mut self, name: &[u8]) -> Result<u32, NoMemory>
        requires room { IsTrue (is_there self.old.present.ports name.now)
            ⊎ (length self.old.present.ports < max_ports) }
        requires named_well { is_port_name name.now ≡ true }
        ensures number { IfOk result (λ number. number ≡ added_number self.old.present name.now) }
        ensures ok { OnOk result (self.new ≡ record self.old { present = after_add self.old.present name.now }) }
        ensures err { OnErr result (self.new.kept ≡ self.old.kept) }
    {
        if let Some(number) = self.table.number(name) {
            return Ok(number);
        }
        let number = self.table.len() as u32;
        self.changed = true;
        self.table.add(name)?;
        Ok(number)
    }

    /// Adds a port of this name, the last one, and answers its number. A name that is there keeps its
    /// port, whose number is answered. There are at most 65,536 ports.
    pub fn add(&mut self, name: &[u8]) -> Result<u32, NoMemory>
        requires room { IsTrue (is_there self.old.present.ports name.now)
            ⊎ (length self.old.present.ports < max_ports) }
        requires named_well { is_port_name name.now ≡ true }
        ensures number { IfOk result (λ number. number ≡ added_number self.old.present name.now) }
        ensures ok { OnOk result (self.new ≡ record self.old { present = after_add self.old.present name.now }) }
        ensures err { OnErr result (self.new ≡ both self.old.kept) }
    {
        match self.try_add(name) {
            Ok(number) => Ok(number),
            Err(error) => {
                self.back();
                Err(error)
            }
        }
    }

    fn try_join(&mut self, port: u32, opening: u32) -> Result<(), NoMemory>
        requires { self.old.present.joined < max_openings }
        ensures ok { OnOk result (self.new ≡ record self.old { present = after_join self.old.present port opening }) }
        ensures err { OnErr result (self.new.kept ≡ self.old.kept) }
    {
        self.changed = true;
        self.idle = false;
        self.openings.join(port, opening, self.table.kept(port))?;
        self.table.empty(port)?;
        self.joined += 1;
        Ok(())
    }

    /// An opening joins a port. It takes all that the port keeps, in order, and from then on a copy of
    /// each message that is delivered to the port. At most 4,294,967,295 ever join.
    pub fn join(&mut self, port: u32, opening: u32) -> Result<(), NoMemory>
        requires port { port < length self.old.present.ports }
        requires once { has_joined self.old.present opening ≡ false }
        requires few { self.old.present.joined < max_openings }
        ensures ok { OnOk result (self.new ≡ record self.old { present = after_join self.old.present port opening }) }
        ensures err { OnErr result (self.new ≡ both self.old.kept) }
    {
        match self.try_join(port, opening) {
            Ok(()) => Ok(()),
            Err(error) => {
                self.back();
                Err(error)
            }
        }
    }

    // Why a message for the name isn't delivered, else the number of its port.
    fn admit(&self, name: &[u8], keep: bool) -> Result<u32, PortFault>
        ensures admitted { OnOk result (refusal self.now.present name.now keep ≡ None) }
        ensures number { IfOk result (λ number. number_of self.now.present.ports name.now ≡ Some number) }
        ensures refused { IfErr result (λ fault. refusal self.now.present name.now keep ≡ Some fault) }
    {
        let Some(port) = self.table.number(name) else {
            return Err(PortFault::NoPort);
        };
        if self.openings.has_port(port) {
            return Ok(port);
        }
        if !keep {
            return Err(PortFault::Closed);
        }
        if self.is_full(port) {
            return Err(PortFault::Full);
        }
        Ok(port)
    }

    // Gives each opening of the port a copy, or has the port keep the message.
    fn try_deliver(&mut self, port: u32, message: &[u8]) -> Result<(), NoMemory>
        ensures ok { OnOk result (self.new ≡ record self.old {
          present = delivered_at self.old.present port message.now;
        }) }
        ensures err { OnErr result (self.new.kept ≡ self.old.kept) }
    {
        self.changed = true;
        self.idle = false;
        if self.openings.has_port(port) {
            return self.openings.deliver(port, message);
        }
        let copy = Bytes::copied(self.alloc, message)?;
        self.table.keep_message(port, copy)
    }

    /// Delivers a message to the port of this name: a copy to each opening. A port without openings
    /// keeps it for the next one where `keep` is true and fewer than 64 are kept. `NoPort`, `Closed`
    /// and `Full` are decided before memory is asked for, and change nothing.
    pub fn deliver(&mut self, name: &[u8], item: &[u8], keep: bool) -> Result<(), PortFault>
        ensures admitted { OnOk result (refusal self.old.present name.now keep ≡ None) }
        ensures refused { IfErr result (λ fault. Refuses fault (refusal self.old.present name.now keep)) }
        ensures ok { OnOk result (self.new ≡ record self.old {
          present = after_deliver self.old.present name.now
              item.now;
        }) }
        ensures err { IfErr result (λ fault. self.new ≡ after_fault fault self.old) }
    {
        let port = self.admit(name, keep)?;
        match self.try_deliver(port, item) {
            Ok(()) => Ok(()),
            Err(NoMemory) => {
                self.back();
                Err(PortFault::NoMemory)
            }
        }
    }

    /// Whether this read would wait: it asks for some bytes, and its opening has nothing for it.
    pub fn must_wait(&self, asker: Asker) -> bool
        ensures { result ≡ read_waits self.now.present asker }
    {
        self.openings.must_wait(asker.opening, asker.count)
    }

    // Answers a read that doesn't have to wait.
    fn answer(&mut self, asker: Asker) -> Result<Piece, NoMemory>
        requires { read_waits self.old.present asker ≡ false }
        ensures piece { IfOk result (λ piece. piece ≡ piece_for self.old.present asker) }
        ensures ok { OnOk result (self.new ≡ record self.old { present = after_answer self.old.present asker }) }
        ensures err { OnErr result (self.new.kept ≡ self.old.kept) }
    {
        self.changed = true;
        self.idle = false;
        self.openings.give(asker.opening, asker.count)
    }

    /// Answers a read on an opening, or makes it wait.
    ///
    /// A count of 0 gets no bytes at once. Else it gets the first bytes of what its opening has left
    /// of its last message, and where nothing is left, of the opening's next message, which it takes.
    /// What the count cuts off is left to the opening. A read waits where neither is there.
    pub fn ask(&mut self, asker: Asker) -> Result<Asked, NoMemory>
        requires { HasJoined self.old.present asker.opening }
        ensures answer { IfOk result (λ asked. asked ≡ asked_of self.old.present asker) }
        ensures ok { OnOk result (self.new ≡ record self.old { present = after_ask self.old.present asker }) }
        ensures err { OnErr result (self.new ≡ both self.old.kept) }
    {
        if self.must_wait(asker) {
            self.changed = true;
            self.idle = false;
            return match self.reads.push(asker) {
                Ok(()) => Ok(Asked::Waits),
                Err(error) => {
                    self.back();
                    Err(error)
                }
            };
        }
        match self.answer(asker) {
            Ok(piece) => Ok(Asked::Now(piece)),
            Err(error) => {
                self.back();
                Err(error)
            }
        }
    }

    /// The read that `serve` would answer. None exactly where there is none. It takes no memory.
    pub fn next(&self) -> Option<Asker>
        ensures { result ≡ next_of self.now.present }
    {
        if self.idle {
            return None;
        }
        self.reads.ready(&Offer {
            openings: &self.openings,
        })
    }

    // The oldest waiting read that can be answered waits no more.
    fn take_next(&mut self)
        ensures { self.new ≡ record self.old { present = without_next self.old.present } }
    {
        self.changed = true;
        self.idle = false;
        let offer = Offer {
            openings: &self.openings,
        };
        self.reads.take_ready(&offer);
    }

    /// Answers the oldest waiting read over all ports that can be answered. None exactly where there
    /// is none. It looks at no read where it is known that none can be answered.
    pub fn serve(&mut self) -> Result<Option<(Asker, Piece)>, NoMemory>
        ensures answer { IfOk result (λ served. served ≡ served_of self.old.present) }
        ensures ok { OnOk result (self.new ≡ record self.old { present = after_serve self.old.present }) }
        ensures err { OnErr result (self.new ≡ both self.old.kept) }
    {
        let Some(asker) = self.next() else {
            self.idle = true;
            return Ok(None);
        };
        self.take_next();
        match self.answer(asker) {
            Ok(piece) => Ok(Some((asker, piece))),
            Err(error) => {
                self.back();
                Err(error)
            }
        }
    }

    /// Whether the read with this tag on this connection waited. It waits no more, and takes
    /// nothing. It takes no memory.
    pub fn cancel(&mut self, conn: u32, tag: u16) -> bool
        requires { IsSteady self.old }
        ensures waited { result ≡ list_any (is_read conn tag) self.old.present.reads }
        ensures new { self.new ≡ both (after_cancel self.old.present conn tag) }
    {
        self.idle = false;
        self.reads.cancel(conn, tag)
    }

    /// The opening goes, with its messages, what it has left and its waiting reads. It takes no
    /// memory.
    pub fn leave(&mut self, opening: u32)
        requires { IsSteady self.old }
        ensures { self.new ≡ both (after_leave self.old.present opening) }
    {
        self.idle = false;
        self.openings.leave(opening);
        self.reads.remove_on(opening);
    }
}
