//! Time of items that are put and reads that are asked at one queue.
use crate::pairs::{Given, give_pairs};
use std::alloc::{AllocError, Global};
use std::io;
use std::rt::Clock;
use std::time::Instant;

// How many pairs where no number is asked for. No time is printed then.
const FEW_PAIRS: u64 = 1_000;

const MOST_PAIRS: u64 = 10_000_000;

// How often each number of pairs is tried. The fastest counts.
const ROUNDS: u32 = 5;

fn give(alloc: Global, pairs: u64) -> io::Result<Given> {
    Ok(give_pairs(alloc, pairs).map_err(|_| AllocError)?)
}

// The nanoseconds of one run.
fn time<R: Clock>(rt: &R, alloc: Global, pairs: u64) -> io::Result<u128> {
    let start = Instant::now(rt)?;
    let _ = give(alloc, pairs)?;
    Ok(start.elapsed(rt)?.as_nanos())
}

// A line for so many pairs.
fn tell<R: Print>(rt: &R, alloc: Global, pairs: u64) -> io::Result<()> {
    let given = give(alloc, pairs)?;
    println!(rt;
        "pairs {pairs}: {} reads answered, {} bytes",
        given.reads, given.bytes
    )
}

// The time of so many pairs and of twice as many, and their ratio.
fn compare<R: Clock + Print>(rt: &R, alloc: Global, pairs: u64, twice: u64) -> io::Result<()> {
    let mut once_time = time(rt, alloc, pairs)?;
    let mut twice_time = time(rt, alloc, twice)?;
    for _ in 1..ROUNDS {
        once_time = once_time.min(time(rt, alloc, pairs)?);
        twice_time = twice_time.min(time(rt, alloc, twice)?);
    }
    let percent = twice_time.saturating_mul(100) / once_time.max(1);
    println!(rt; "pairs {pairs}: {once_time} ns, {twice}: {twice_time} ns, {percent} %")
}

/// Lines for so many pairs and for twice as many, and with a number for their times.
pub fn run<R: Clock + Print>(rt: &R, alloc: Global, asked: Option<usize>) -> io::Result<()> {
    let pairs = asked
        .map_or(FEW_PAIRS, |pairs| pairs as u64)
        .min(MOST_PAIRS);
    let twice = pairs.saturating_mul(2);
    tell(rt, alloc, pairs)?;
    tell(rt, alloc, twice)?;
    if asked.is_some() {
        compare(rt, alloc, pairs, twice)?;
    }
    Ok(())
}
