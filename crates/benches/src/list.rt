//! A list of numbers under std's `Mutex`, and threads that append to it.
use std::alloc::Global;
use std::sync::{Mutex, Wait};
use std::thread::{Threads, join};

// The numbers below `turns`, each under the lock by itself, until one is refused.
fn push_all<R: Wait>(rt: &R, list: &Mutex<Vec<u64>>, turns: u64) {
    for number in 0..turns {
        if list.lock(rt).push(number).is_err() {
            break;
        }
    }
}

// The same by two threads.
fn push_by_two<R: Threads + Wait + Sync>(rt: &R, list: &Mutex<Vec<u64>>, turns: u64) {
    join(
        rt,
        || push_all(rt, list, turns),
        || push_all(rt, list, turns),
    );
}

// The same by four threads.
fn push_by_four<R: Threads + Wait + Sync>(rt: &R, list: &Mutex<Vec<u64>>, turns: u64) {
    join(
        rt,
        || push_by_two(rt, list, turns),
        || push_by_two(rt, list, turns),
    );
}

/// What one, two or four threads appended under a `Mutex`, each in so many turns.
pub fn list_of<R: Threads + Wait + Sync>(
    rt: &R,
    alloc: Global,
    threads: u64,
    turns: u64,
) -> Vec<u64> {
    let list = Mutex::new(Vec::new(alloc));
    match threads {
        4 => push_by_four(rt, &list, turns),
        2 => push_by_two(rt, &list, turns),
        _ => push_all(rt, &list, turns),
    }
    list.into_inner()
}
