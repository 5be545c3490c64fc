//! What became of each slot.

ghost use Rattle.std.specs.Prelude.{◌≡◌, ◌+◌, ◌≤◌, ◌<◌, ◌^◌, Some, None, [], length, vec_len, vec_capacity};
ghost use Rattle.am_server.specs.Served.{ending_of, ended_with, served_of, served_from};

use crate::ending::ending_in;
use am_base::{Gate, Host, Link};
use am_journal::{Ending, Event};
use am_slots::{Objects, Slot, Slots};
use am_text::Items;
use ninep_client::CallFault;

/// How a connection ended.
#[derive(Drop)]
pub enum ServedEnd {
    /// Its gate could not be bound.
    Bind,
    /// Its gate gave no link.
    Accept,
    /// Its link gave no halves.
    Halve,
    /// Memory ran out before it was dialled.
    NoMemory,
    /// It was dialled, and ended so.
    Ended(Ending),
    /// It is a client's, and this fault has closed the client, if one did.
    Did(Option<CallFault>),
}

/// A connection: its slot, the objects that it was served by, and how it ended. A client's has the slot 0 and no gate.
#[derive(Drop)]
pub struct Served<G, L, S, K> {
    pub slot: u32,
    pub gate: Option<G>,
    pub link: Option<L>,
    pub reader: Option<S>,
    pub writer: Option<K>,
    pub end: ServedEnd,
}

/// Served connections of a host, by slot.
pub type ServedList<H> = Items<
    Served<
        <H as Host>::G,
        <<H as Host>::G as Gate>::L,
        <<<H as Host>::G as Gate>::L as Link>::R,
        <<<H as Host>::G as Gate>::L as Link>::W,
    >,
>;

fn with_gate<G, L, S, K>(slot: u32, gate: G, end: ServedEnd) -> Served<G, L, S, K>
    ensures { result ≡ record { slot = slot; gate = Some gate; link = None; reader = None; writer = None; end = end } }
{
    Served {
        slot,
        gate: Some(gate),
        link: None,
        reader: None,
        writer: None,
        end,
    }
}

fn with_objects<G, L, S, K>(
    slot: u32,
    objects: Objects<G, L, S, K>,
    end: ServedEnd,
) -> Served<G, L, S, K>
    ensures { result ≡ record {
      slot = slot;
      gate = Some objects.gate;
      link = Some objects.link;
      reader = Some objects.reader;
      writer = Some objects.writer;
      end = end;
    } }
{
    let Objects {
        gate,
        link,
        reader,
        writer,
    } = objects;
    Served {
        slot,
        gate: Some(gate),
        link: Some(link),
        reader: Some(reader),
        writer: Some(writer),
        end,
    }
}

fn end_in(journal: &[Event], conn: u32) -> ServedEnd
    ensures { result ≡ ended_with (ending_of journal.now conn) }
{
    match ending_in(journal, conn) {
        Some(why) => ServedEnd::Ended(why),
        None => ServedEnd::NoMemory,
    }
}

fn served_by<G, L, S, K>(
    journal: &[Event],
    slot: u32,
    state: Slot<G, L, S, K>,
) -> Served<G, L, S, K>
    ensures { result ≡ served_of journal.now slot state }
{
    match state {
        Slot::Unbound => Served {
            slot,
            gate: None,
            link: None,
            reader: None,
            writer: None,
            end: ServedEnd::Bind,
        },
        Slot::Bound(gate) => with_gate(slot, gate, ServedEnd::NoMemory),
        Slot::Unlinked(gate) => with_gate(slot, gate, ServedEnd::Accept),
        Slot::Unhalved(gate, link) => Served {
            slot,
            gate: Some(gate),
            link: Some(link),
            reader: None,
            writer: None,
            end: ServedEnd::Halve,
        },
        Slot::Undialled(objects, _) => with_objects(slot, objects, ServedEnd::NoMemory),
        Slot::Served(objects, _, _) => with_objects(slot, objects, end_in(journal, slot)),
    }
}

/// What became of slots, the first being slot 0. The list has room.
pub(crate) fn served_all<G: Drop, L: Drop, S: Drop, K: Drop>(
    journal: &[Event],
    slots: Slots<G, L, S, K>,
    served: Vec<Served<G, L, S, K>>,
) -> Items<Served<G, L, S, K>>
    requires few { length slots < 2 ^ 32 }
    requires room { vec_len served + length slots ≤ vec_capacity served }
    requires empty { served.items ≡ [] }
    ensures { result ≡ served_from journal.now 0 slots }
{
    let mut served = served;
    let mut slot = 0;
    for state in slots.into_vec() {
        served.push_reserved(served_by(journal, slot, state));
        slot += 1;
    }
    Items::from_vec(served)
}
