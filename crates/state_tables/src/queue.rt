//! A queue of items, and the reads that wait for them.
//!
//! | call | numbers | texts | answer |
//! |---|---|---|---|
//! | `enlist` | the opening | | `ok` |
//! | `put` | the number of the item | the item | `ok` |
//! | `ask` | ASKER | | `gets "`PIECE`"` or `waits` |
//! | `serve` | | | ASKER `gets "`PIECE`"`, or `none` |
//! | `next` | | | ASKER or `none` |
//! | `must wait` | ASKER | | `yes` or `no` |
//! | `enlisted` | the opening | | `yes` or `no` |
//! | `open` | | | whether any opening is enlisted |
//! | `keep`, `back` | | | `ok` |
//! | `cancel` | a connection and a tag | | whether the read waited |
//! | `leave` | the opening | | `ok` |
//! | `close` | | | `ok` |
//!
//! The last three keep the state before.

ghost use Rattle.am_text.specs.Twice.{IsSteady};

use crate::answers::{asked_line, next_line, says, says_whether, served_line};
use crate::call::{Call, asker_of, bytes_of, one_of, tag_of, two_of};
use crate::fault::Fault;
use am_text::Bytes;
use std::alloc::Global;
use wait_queue::WaitQueue;

fn enlist(alloc: Global, queue: &mut WaitQueue, numbers: &[u32]) -> Result<Bytes, Fault> {
    queue.enlist(one_of(numbers)?)?;
    says(alloc, "ok")
}

fn put(alloc: Global, queue: &mut WaitQueue, call: &Call<'_>) -> Result<Bytes, Fault> {
    let number = one_of(call.numbers.as_slice())?;
    queue.put(number.into(), bytes_of(alloc, call.texts)?)?;
    says(alloc, "ok")
}

fn ask(alloc: Global, queue: &mut WaitQueue, numbers: &[u32]) -> Result<Bytes, Fault> {
    let asker = asker_of(numbers)?;
    if !queue.is_enlisted(asker.opening) {
        return Err(Fault::NoCase);
    }
    asked_line(alloc, &queue.ask(asker)?)
}

fn cancel(alloc: Global, queue: &mut WaitQueue, numbers: &[u32]) -> Result<Bytes, Fault>
    requires { IsSteady queue.old }
{
    let (conn, tag) = two_of(numbers)?;
    let tag = tag_of(tag)?;
    says_whether(alloc, queue.cancel(conn, tag))
}

fn leave(alloc: Global, queue: &mut WaitQueue, numbers: &[u32]) -> Result<Bytes, Fault>
    requires { IsSteady queue.old }
{
    queue.leave(one_of(numbers)?);
    says(alloc, "ok")
}

fn close(alloc: Global, queue: &mut WaitQueue) -> Result<Bytes, Fault>
    requires { IsSteady queue.old }
{
    queue.close();
    says(alloc, "ok")
}

// The calls that keep the state.
fn keep(alloc: Global, queue: &mut WaitQueue, call: &Call<'_>) -> Result<Bytes, Fault> {
    queue.keep();
    match call.name {
        "keep" => says(alloc, "ok"),
        "cancel" => cancel(alloc, queue, call.numbers.as_slice()),
        "leave" => leave(alloc, queue, call.numbers.as_slice()),
        "close" => close(alloc, queue),
        _ => Err(Fault::NoCase),
    }
}

fn back(alloc: Global, queue: &mut WaitQueue) -> Result<Bytes, Fault> {
    queue.back();
    says(alloc, "ok")
}

// The calls that change nothing.
fn look(alloc: Global, queue: &WaitQueue, call: &Call<'_>) -> Result<Bytes, Fault> {
    let numbers = call.numbers.as_slice();
    match call.name {
        "next" => next_line(alloc, queue.next()),
        "must wait" => says_whether(alloc, queue.must_wait(asker_of(numbers)?)),
        "enlisted" => says_whether(alloc, queue.is_enlisted(one_of(numbers)?)),
        "open" => says_whether(alloc, queue.is_open()),
        _ => Err(Fault::NoCase),
    }
}

/// The answer to a call.
pub fn answer(alloc: Global, queue: &mut WaitQueue, call: &Call<'_>) -> Result<Bytes, Fault> {
    match call.name {
        "enlist" => enlist(alloc, queue, call.numbers.as_slice()),
        "put" => put(alloc, queue, call),
        "ask" => ask(alloc, queue, call.numbers.as_slice()),
        "serve" => served_line(alloc, queue.serve()?),
        "back" => back(alloc, queue),
        "keep" | "cancel" | "leave" | "close" => keep(alloc, queue, call),
        _ => look(alloc, queue, call),
    }
}
