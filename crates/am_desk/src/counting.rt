//! The desk of format 2 as a journal that seats add to.

use crate::serving::{ServingDesk, ServingSeat};
use acme_core::{Ask, Bytes, Event, NoMemory, Refused};
use am_counter::{Counter, Seats, Taken, Told};
use std::sync::Wait;

impl Counter for ServingDesk {
    ghost use Rattle.std.specs.Prelude.{◌≡◌};
    ghost use Rattle.am_journal.specs.declared.event.Format.TheVariants.{Two};
    ghost use Rattle.acme_core.specs.Asks.{answers_in};
    ghost use Rattle.acme_core.specs.Run.{enabled_in, output_in};
    ghost use Rattle.am_desk.specs.Serving.{serving_id, serving_lock, serving_known};
    ghost use Rattle.am_desk.specs.Replies.{told_in};
    ghost use Rattle.acme_core.proofs.Connected.{tells_connections};

    type Seat = ServingSeat;

    ghost fits = { λ desk seat. serving_lock seat ≡ serving_id desk };

    ghost known = { serving_known };

    ghost enabled = { enabled_in Two };

    ghost unsent = { output_in Two };

    ghost answer = { answers_in Two };

    ghost told_by = { told_in Two };

    fn submit<R: Wait>(
        &self,
        rt: &R,
        seat: &mut ServingSeat,
        event: Event,
        told: &mut Told,
    ) -> Result<u64, Refused> {
        self.desk.submit(rt, &mut seat.seat, event, told)
    }

    fn take<R: Wait>(
        &self,
        rt: &R,
        seat: &mut ServingSeat,
        conn: u32,
        into: &mut Bytes,
    ) -> Result<Taken, NoMemory> {
        self.desk.take(rt, &mut seat.seat, conn, into)
    }

    fn look<R: Wait>(&self, rt: &R, seat: &mut ServingSeat, ask: Ask) -> bool {
        self.desk.look(rt, &mut seat.seat, ask)
    }

    ghost connections = { tells_connections Two };
}

impl Seats for ServingDesk {
    fn split(&self, seat: &mut ServingSeat, parts: u64) -> ServingSeat {
        ServingSeat {
            seat: self.desk.split(&mut seat.seat, parts),
        }
    }

    fn take_in<R: Wait>(&self, rt: &R, seat: &mut ServingSeat, other: ServingSeat) {
        let ServingSeat { seat: other } = other;
        self.desk.take_in(rt, &mut seat.seat, other);
    }
}
