//! A queue with waiting reads, and items for them.
use am_text::{Bytes, NoMemory};
use std::alloc::Global;
use wait_queue::{Asker, WaitQueue};

// How many reads wait.
const READS: u32 = 64;

// The bytes of each item.
const ITEM: &[u8] = b"KI0 1 0 1 a\n";

/// How many reads were answered, and with how many bytes.
#[derive(Clone, Copy)]
pub struct Given {
    pub reads: u64,
    pub bytes: u64,
}

// A read on this opening. It waits where no item is there.
fn ask(queue: &mut WaitQueue, opening: u32) -> Result<(), NoMemory> {
    if queue.is_enlisted(opening) {
        queue.ask(Asker {
            conn: opening,
            tag: 1,
            opening,
            count: 512,
        })?;
    }
    Ok(())
}

// A queue of so many openings with a waiting read each.
fn queue_of_reads(alloc: Global) -> Result<WaitQueue, NoMemory> {
    let mut queue = WaitQueue::new(alloc);
    for opening in 0..READS {
        queue.enlist(opening)?;
        ask(&mut queue, opening)?;
    }
    queue.keep();
    Ok(queue)
}

// Puts an item, which the oldest read gets. Its opening asks again.
fn give_one(
    alloc: Global,
    queue: &mut WaitQueue,
    number: u64,
    given: &mut Given,
) -> Result<(), NoMemory> {
    queue.put(number, Bytes::copied(alloc, ITEM)?)?;
    if let Some((asker, piece)) = queue.serve()? {
        given.reads = given.reads.saturating_add(1);
        given.bytes = given.bytes.saturating_add(piece.bytes.len() as u64);
        ask(queue, asker.opening)?;
    }
    queue.keep();
    Ok(())
}

/// So many items, each given to the read that waits longest, whose opening then asks again.
pub fn give_pairs(alloc: Global, pairs: u64) -> Result<Given, NoMemory> {
    let mut queue = queue_of_reads(alloc)?;
    let mut given = Given { reads: 0, bytes: 0 };
    for number in 0..pairs {
        give_one(alloc, &mut queue, number, &mut given)?;
    }
    Ok(given)
}
