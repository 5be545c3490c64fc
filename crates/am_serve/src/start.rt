//! Whether a side begins beside the other.

use std::sync::atomic::{AtomicU64, Ordering};
use std::thread::yield_now;

// The states of a side: the other waits for it, it has begun, or the other has given it up.
const AWAITED: u64 = 0;

const BEGUN: u64 = 1;

const GIVEN_UP: u64 = 2;

// How often the other lets threads run before it gives a side up: for some tens of milliseconds at least, and for
// longer where many run.
const PATIENCE: u32 = 200000;

/// The start of a side that runs beside another. Where no thread can be made for it, it comes only once the other has
/// ended; so the other doesn't wait for it for good, but gives it up.
#[derive(Drop)]
pub(crate) struct Start {
    state: AtomicU64,
}

impl Start {
    /// A side that is awaited.
    pub(crate) fn new() -> Start {
        Start {
            state: AtomicU64::new(AWAITED),
        }
    }

    /// Begins, and answers whether it wasn't given up.
    pub(crate) fn begin(&self) -> bool {
        self.move_on(BEGUN)
    }

    /// Waits for the side for a while, and answers whether it has begun. If not, it is given up.
    pub(crate) fn has_begun(&self) -> bool {
        for _ in 0..PATIENCE {
            if self.state.load(Ordering::SeqCst) != AWAITED {
                return true;
            }
            yield_now();
        }
        !self.move_on(GIVEN_UP)
    }

    // One of the two sides moves it on.
    fn move_on(&self, state: u64) -> bool {
        self.state
            .compare_exchange(AWAITED, state, Ordering::SeqCst, Ordering::SeqCst)
            .is_ok()
    }
}
