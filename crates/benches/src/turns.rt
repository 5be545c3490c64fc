//! Turns per second at a turn lock and at std's `Mutex`, by one, two and four threads.
use crate::list::list_of;
use crate::tape::tape_of;
use std::alloc::Global;
use std::io;
use std::rt::Clock;
use std::sync::Wait;
use std::thread::Threads;
use std::time::Instant;

// How many turns each thread takes where no number is asked for. No time is printed then.
const FEW_TURNS: u64 = 1_000;

const MOST_TURNS: u64 = 10_000_000;

// How often each number of threads is tried. The fastest counts.
const ROUNDS: u32 = 20;

// How many numbers were appended, and how many a second.
#[derive(Clone, Copy)]
struct Rate {
    count: usize,
    per_second: u128,
}

impl Rate {
    fn new(count: usize, nanos: u128) -> Rate {
        Rate {
            count,
            per_second: count as u128 * 1_000_000_000 / nanos.max(1),
        }
    }

    fn faster(self, other: Rate) -> Rate {
        if self.per_second < other.per_second {
            other
        } else {
            self
        }
    }
}

fn by_turn_lock<R: Threads + Wait + Sync + Clock>(
    rt: &R,
    alloc: Global,
    threads: u64,
    turns: u64,
) -> io::Result<Rate> {
    let start = Instant::now(rt)?;
    let tape = tape_of(rt, alloc, threads, turns)?;
    Ok(Rate::new(tape.len(), start.elapsed(rt)?.as_nanos()))
}

fn by_mutex<R: Threads + Wait + Sync + Clock>(
    rt: &R,
    alloc: Global,
    threads: u64,
    turns: u64,
) -> io::Result<Rate> {
    let start = Instant::now(rt)?;
    let list = list_of(rt, alloc, threads, turns);
    Ok(Rate::new(list.len(), start.elapsed(rt)?.as_nanos()))
}

// A line for so many threads.
fn compare<R: Threads + Wait + Sync + Clock + Print>(
    rt: &R,
    alloc: Global,
    threads: u64,
    turns: u64,
    is_timed: bool,
) -> io::Result<()> {
    let mut lock = by_turn_lock(rt, alloc, threads, turns)?;
    let mut mutex = by_mutex(rt, alloc, threads, turns)?;
    if !is_timed {
        return println!(rt;
            "threads {threads}: turn lock {} turns, Mutex {}",
            lock.count, mutex.count
        );
    }
    for _ in 1..ROUNDS {
        lock = lock.faster(by_turn_lock(rt, alloc, threads, turns)?);
        mutex = mutex.faster(by_mutex(rt, alloc, threads, turns)?);
    }
    let percent = lock.per_second.saturating_mul(100) / mutex.per_second.max(1);
    println!(rt;
        "threads {threads}: turn lock {} turns/s, Mutex {} turns/s, {percent} %",
        lock.per_second, mutex.per_second
    )
}

/// A line for each number of threads, each thread with so many turns.
pub fn run<R: Threads + Wait + Sync + Clock + Print>(
    rt: &R,
    alloc: Global,
    asked: Option<usize>,
) -> io::Result<()> {
    let turns = asked
        .map_or(FEW_TURNS, |turns| turns as u64)
        .min(MOST_TURNS);
    for threads in [1, 2, 4] {
        compare(rt, alloc, threads, turns, asked.is_some())?;
    }
    Ok(())
}
