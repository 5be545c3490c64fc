// What calls of the libraries cost: the first word says which bench is run, and the second how much of it. With no
// word each bench runs over a part of its texts and prints no time, so that all runs print the same.
#![tactic(auto)]

mod list;
mod pairs;
mod queue;
mod re;
mod size;
mod tape;
mod texts;
mod turns;

use std::alloc::Global;
use std::rt::{Clock, Env};
use std::sync::Wait;
use std::thread::Threads;
use std::{env, io};

const BENCHES: [&str; 3] = ["re", "turn_lock", "wait_queue"];

fn run<R: Threads + Wait + Sync + Clock + Print>(
    rt: &R,
    alloc: Global,
    bench: &str,
    number: Option<usize>,
) -> io::Result<()> {
    match bench {
        "re" => re::run(rt, alloc, number),
        "turn_lock" => turns::run(rt, alloc, number),
        "wait_queue" => queue::run(rt, alloc, number),
        _ => println!(rt; "usage: benches [re|turn_lock|wait_queue [NUMBER]]"),
    }
}

// The bench that the first argument names, and the number that the second is.
fn asked<R: Env + Alloc>(rt: &R) -> io::Result<Option<(String<R::A>, Option<usize>)>> {
    let mut words = env::args(rt)?;
    let Some(bench) = words.nth(1) else {
        return Ok(None);
    };
    match words.next() {
        Some(number) => Ok(Some((bench, number.as_str().parse().ok()))),
        None => Ok(Some((bench, None))),
    }
}

fn main(rt: HostRuntime) -> io::Result<()> {
    if let Some((bench, number)) = asked(&rt)? {
        return run(&rt, rt.alloc(), bench.as_str(), number);
    }
    for bench in BENCHES {
        run(&rt, rt.alloc(), bench, None)?;
    }
    Ok(())
}
