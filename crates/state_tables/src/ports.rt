//! The ports of the plumber: the messages that they keep, their openings, and the reads that wait.
//!
//! | call | numbers | texts | answer |
//! |---|---|---|---|
//! | `add` | | a name | the number of its port |
//! | `number` | | a name | the number of its port, or `none` |
//! | `join` | a port and the opening | | `ok` |
//! | `deliver`, `deliver or keep` | | a name and the message | `ok`, `no port`, `closed` or `full` |
//! | `ask` | ASKER | | `gets "`PIECE`"` or `waits` |
//! | `serve` | | | ASKER `gets "`PIECE`"`, or `none` |
//! | `next` | | | ASKER or `none` |
//! | `ports` | | | how many there are |
//! | `open` | a port | | whether it has an opening |
//! | `joined` | the opening | | `yes` or `no` |
//! | `keep`, `back` | | | `ok` |
//! | `cancel` | a connection and a tag | | whether the read waited |
//! | `leave` | the opening | | `ok` |
//!
//! The last two keep the state before.

ghost use Rattle.am_text.specs.Twice.{IsSteady};

use crate::answers::{asked_line, next_line, says, says_whether, served_line};
use crate::call::{Call, asker_of, bytes_of, cut, one_of, tag_of, two_of};
use crate::fault::Fault;
use am_text::{Bytes, decimal};
use plumb_ports::{MAX_PORTS, PortFault, Ports, is_port_name};
use std::alloc::Global;

fn add(alloc: Global, ports: &mut Ports, name: &[u8]) -> Result<Bytes, Fault> {
    if ports.len() >= MAX_PORTS || !is_port_name(name) {
        return Err(Fault::NoCase);
    }
    let number = ports.add(name)?;
    Ok(decimal(alloc, number.into())?)
}

fn number(alloc: Global, ports: &Ports, name: &[u8]) -> Result<Bytes, Fault> {
    match ports.number(name) {
        Some(number) => Ok(decimal(alloc, number.into())?),
        None => says(alloc, "none"),
    }
}

fn join(alloc: Global, ports: &mut Ports, numbers: &[u32]) -> Result<Bytes, Fault> {
    let (port, opening) = two_of(numbers)?;
    if port as usize >= ports.len() || ports.has_joined(opening) || ports.joined() == u32::MAX {
        return Err(Fault::NoCase);
    }
    ports.join(port, opening)?;
    says(alloc, "ok")
}

fn delivered(alloc: Global, answer: Result<(), PortFault>) -> Result<Bytes, Fault> {
    match answer {
        Ok(()) => says(alloc, "ok"),
        Err(PortFault::NoPort) => says(alloc, "no port"),
        Err(PortFault::Closed) => says(alloc, "closed"),
        Err(PortFault::Full) => says(alloc, "full"),
        Err(PortFault::NoMemory) => Err(Fault::NoMemory),
    }
}

fn deliver(alloc: Global, ports: &mut Ports, texts: &str, keep: bool) -> Result<Bytes, Fault> {
    let (name, message) = cut(texts);
    let message = bytes_of(alloc, message)?;
    delivered(
        alloc,
        ports.deliver(name.as_bytes(), message.as_slice(), keep),
    )
}

fn ask(alloc: Global, ports: &mut Ports, numbers: &[u32]) -> Result<Bytes, Fault> {
    let asker = asker_of(numbers)?;
    if !ports.has_joined(asker.opening) {
        return Err(Fault::NoCase);
    }
    asked_line(alloc, &ports.ask(asker)?)
}

fn cancel(alloc: Global, ports: &mut Ports, numbers: &[u32]) -> Result<Bytes, Fault>
    requires { IsSteady ports.old }
{
    let (conn, tag) = two_of(numbers)?;
    let tag = tag_of(tag)?;
    says_whether(alloc, ports.cancel(conn, tag))
}

fn leave(alloc: Global, ports: &mut Ports, numbers: &[u32]) -> Result<Bytes, Fault>
    requires { IsSteady ports.old }
{
    ports.leave(one_of(numbers)?);
    says(alloc, "ok")
}

// The calls that keep the state.
fn keep(alloc: Global, ports: &mut Ports, call: &Call<'_>) -> Result<Bytes, Fault> {
    ports.keep();
    match call.name {
        "keep" => says(alloc, "ok"),
        "cancel" => cancel(alloc, ports, call.numbers.as_slice()),
        "leave" => leave(alloc, ports, call.numbers.as_slice()),
        _ => Err(Fault::NoCase),
    }
}

fn back(alloc: Global, ports: &mut Ports) -> Result<Bytes, Fault> {
    ports.back();
    says(alloc, "ok")
}

// The calls that change nothing.
fn look(alloc: Global, ports: &Ports, call: &Call<'_>) -> Result<Bytes, Fault> {
    let numbers = call.numbers.as_slice();
    match call.name {
        "number" => number(alloc, ports, call.texts.as_bytes()),
        "next" => next_line(alloc, ports.next()),
        "ports" => Ok(decimal(alloc, ports.len() as u64)?),
        "open" => says_whether(alloc, ports.is_open(one_of(numbers)?)),
        "joined" => says_whether(alloc, ports.has_joined(one_of(numbers)?)),
        _ => Err(Fault::NoCase),
    }
}

/// The answer to a call.
pub fn answer(alloc: Global, ports: &mut Ports, call: &Call<'_>) -> Result<Bytes, Fault> {
    match call.name {
        "add" => add(alloc, ports, call.texts.as_bytes()),
        "join" => join(alloc, ports, call.numbers.as_slice()),
        "deliver" => deliver(alloc, ports, call.texts, false),
        "deliver or keep" => deliver(alloc, ports, call.texts, true),
        "ask" => ask(alloc, ports, call.numbers.as_slice()),
        "serve" => served_line(alloc, ports.serve()?),
        "back" => back(alloc, ports),
        "keep" | "cancel" | "leave" => keep(alloc, ports, call),
        _ => look(alloc, ports, call),
    }
}
