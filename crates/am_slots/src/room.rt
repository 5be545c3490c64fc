//! The memory that serving slots takes itself.

ghost use Rattle.std.specs.Prelude.{IfOk};
ghost use Rattle.am_slots.specs.Working.{HasRoom};

use crate::slot::Slot;
use crate::working::Worker;
use am_serve::Bells;
use am_text::NoMemory;
use std::alloc::Global;

/// Room for workers and for what becomes of their slots, and the bells of all sides. It is taken before any gate is
/// bound.
#[derive(Drop)]
pub(crate) struct Room<T, G, L, S, K> {
    pub workers: Vec<Worker<T, G, L, S, K>>,
    pub slots: Vec<Slot<G, L, S, K>>,
    pub bells: Bells,
}

impl<T: Drop, G: Drop, L: Drop, S: Drop, K: Drop> Room<T, G, L, S, K> {
    /// Room for so many slots.
    pub(crate) fn new(alloc: Global, clients: usize) -> Result<Room<T, G, L, S, K>, NoMemory>
        ensures { IfOk result (λ room. HasRoom clients room) }
    {
        Ok(Room {
            workers: Vec::with_capacity(alloc, clients)?,
            slots: Vec::with_capacity(alloc, clients)?,
            bells: Bells::new(alloc)?,
        })
    }
}
