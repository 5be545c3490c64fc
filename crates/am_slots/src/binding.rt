//! Binding the gates of all slots.

ghost use Rattle.std.specs.Prelude.{◌≡◌, ◌≤◌, ◌∷◌, [], length, vec_capacity};
ghost use Rattle.am_slots.specs.Binding.{AreWaiting, HaveNames, IsGiven};
ghost use Rattle.am_slots.specs.Slots.{IsWaiting, HasName, unbound, HasGiven, HasRisenBy};

use crate::slot::{HostSlot, HostSlots, Slot};
use am_base::{Gate, Host, Link};
use am_text::Items;

fn bind_slot<H: Host>(host: &mut H, path: &str, slot: u32) -> HostSlot<H>
    ensures waits { IsWaiting H.G.told result }
    ensures named { HasName H.G.told path.now slot result }
    ensures risen { HasRisenBy (unbound (result ∷ [])) (H.told host.old).faults (H.told host.new).faults }
    ensures later { (H.told host.old).faults ≤ (H.told host.new).faults }
    ensures given { IsGiven result (H.told host.old).given (H.told host.new).given }
{
    match host.bind(path, slot) {
        Ok(gate) => Slot::Bound(gate),
        Err(_) => Slot::Unbound,
    }
}

/// Binds the gates of so many slots, in their order. The slots have room, so it takes no memory.
pub(crate) fn bind_all<H: Host>(
    host: &mut H,
    path: &str,
    clients: u32,
    slots: Vec<HostSlot<H>>,
) -> HostSlots<H>
    requires room { (slots.items ≡ []) × (clients ≤ vec_capacity slots) }
    ensures count { length result ≡ clients }
    ensures waiting { AreWaiting H.G.told result }
    ensures named { HaveNames H.G.told path.now 0 result }
    ensures risen { HasRisenBy (unbound result) (H.told host.old).faults (H.told host.new).faults }
    ensures later { (H.told host.old).faults ≤ (H.told host.new).faults }
    ensures given { HasGiven clients (unbound result) (H.told host.old).given (H.told host.new).given }
{
    let mut slots = slots;
    for slot in 0..clients {
        slots.push_reserved(bind_slot(host, path, slot));
    }
    Items::from_vec(slots)
}
