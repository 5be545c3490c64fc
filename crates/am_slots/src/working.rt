//! Slots, each with a seat of its own.

ghost use Rattle.std.specs.Prelude.{◌≡◌, ℕ, ◌*◌, ◌+◌, ◌≤◌, [], length, vec_len, vec_capacity, All};
ghost use Rattle.am_base.specs.Outside.{GateTold};
ghost use Rattle.am_slots.specs.Binding.{AreWaiting};
ghost use Rattle.am_slots.specs.Working.{IsFresh, IsReady, TakesInEach, slots_of};

use crate::slot::{Slot, Slots};
use am_counter::Seats;
use am_text::{Items, NoMemory};
use std::alloc::Global;
use std::sync::Wait;

/// A slot, and the seat that it is served with.
#[derive(Drop)]
pub(crate) struct Worker<T, G, L, S, K> {
    pub seat: T,
    pub slot: Slot<G, L, S, K>,
}

/// A worker for each slot, with two parts of the seat's. The workers have room.
pub(crate) fn hire<C: Seats<Seat = T>, T: Drop, G: Drop, L: Drop, S: Drop, K: Drop>(
    desk: &C,
    seat: &mut T,
    slots: Slots<G, L, S, K>,
    workers: Vec<Worker<T, G, L, S, K>>,
) -> Vec<Worker<T, G, L, S, K>>
    requires fits { C.fits desk.now seat.old }
    requires fresh { IsFresh (2 * length slots + 1) (C.known seat.old) }
    requires room { (workers.items ≡ []) × (length slots ≤ vec_capacity workers) }
    ensures fits { C.fits desk.now seat.new }
    ensures fresh { IsFresh 1 (C.known seat.new) }
    ensures seen { (C.known seat.new).seen ≡ (C.known seat.old).seen }
    ensures slots { slots_of result.items ≡ slots }
    ensures ready { (told : G → GateTold) → AreWaiting told slots → All (IsReady (C.fits desk.now) C.known told)
        result.items }
{
    let mut workers = workers;
    for slot in slots.into_vec() {
        let seat = desk.split(seat, 2);
        workers.push_reserved(Worker { seat, slot });
    }
    workers
}

/// Takes the workers' seats in, and gives their slots. The slots have room.
pub(crate) fn gather<C: Seats<Seat = T>, T: Drop, G: Drop, L: Drop, S: Drop, K: Drop, R: Wait>(
    rt: &R,
    desk: &C,
    seat: &mut T,
    workers: Vec<Worker<T, G, L, S, K>>,
    slots: Vec<Slot<G, L, S, K>>,
) -> Slots<G, L, S, K>
    requires fits { C.fits desk.now seat.old }
    requires seats { All (λ w. C.fits desk.now w.seat) workers.items }
    requires room { (slots.items ≡ []) × (vec_len workers ≤ vec_capacity slots) }
    ensures fits { C.fits desk.now seat.new }
    ensures known { TakesInEach C.known (C.known seat.old) workers.items (C.known seat.new) }
    ensures slots { result ≡ slots_of workers.items }
{
    let mut slots = slots;
    for worker in workers {
        let Worker { seat: other, slot } = worker;
        desk.take_in(rt, seat, other);
        slots.push_reserved(slot);
    }
    Items::from_vec(slots)
}
