//! What becomes of a slot.

use am_base::{Gate, Host, Link};
use am_journal::{Ending, Refused};
use am_serve::WriteEnd;
use am_text::Items;

/// The objects that a connection is served by.
#[derive(Drop)]
pub struct Objects<G, L, S, K> {
    pub gate: G,
    pub link: L,
    pub reader: S,
    pub writer: K,
}

/// What became of a slot, with the objects that it was served by.
#[derive(Drop)]
pub enum Slot<G, L, S, K> {
    /// Its gate could not be bound.
    Unbound,
    /// Its gate is bound, and no connection was taken.
    Bound(G),
    /// Its gate gave no link.
    Unlinked(G),
    /// Its link gave no halves.
    Unhalved(G, L),
    /// Its connection was not dialled, for this reason.
    Undialled(Objects<G, L, S, K>, Refused),
    /// Its connection was dialled, and has ended: what its sides answered.
    Served(Objects<G, L, S, K>, Option<Ending>, WriteEnd),
}

/// Slots, the first being slot 0.
pub type Slots<G, L, S, K> = Items<Slot<G, L, S, K>>;

/// A slot of a host.
pub type HostSlot<H> = Slot<
    <H as Host>::G,
    <<H as Host>::G as Gate>::L,
    <<<H as Host>::G as Gate>::L as Link>::R,
    <<<H as Host>::G as Gate>::L as Link>::W,
>;

/// Slots of a host, the first being slot 0.
pub type HostSlots<H> = Items<HostSlot<H>>;
