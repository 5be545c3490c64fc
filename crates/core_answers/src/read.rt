//! Reading, after read(5).

ghost use Rattle.std.specs.Prelude.{◌≡◌, ◌+◌, ◌<◌, ◌^◌, IfOk, IfErr, Ok, length};
ghost use Rattle.core_fids.specs.Contents.{content_of};
ghost use Rattle.core_fids.specs.Directories.{asked_in};
ghost use Rattle.core_fids.specs.Done.{HasSpelling, IsDone, IsStill};
ghost use Rattle.core_fids.specs.Fids.{event_opening, is_for_reading, is_for_writing, port_opening, watch_opening};
ghost use Rattle.core_fids.specs.Refusals.{Gives};
ghost use Rattle.core_fids.specs.Servers.{server_in, windows_in};
ghost use Rattle.ninep_types.specs.Limits.{rread_head};
ghost use Rattle.core_answers.specs.Reading.{bytes_reaction, read_content, read_opening, read_port, use_refusal, most};
ghost use Rattle.core_answers.specs.Reading.{read_reaction, read_watch, waiting_reaction};
ghost use Rattle.core_answers.specs.Texts.{part_at};

use crate::addressing::{addr_text, read_data, read_xdata};
use crate::texts::{body_part, ctl_if_live, index_text, part_at, tag_if_live};
use acme_tree::{World, is_live};
use am_text::{Bytes, Items, NoMemory, utf8_slice};
use core_fids::{
    Answer, Content, Demand, Effect, EventChange, Fault, Reaction, Reading, Refusal, Server,
    content_of, event_opening, is_for_reading, is_for_writing, port_names, port_opening, read_dir,
    watch_opening,
};
use fid_table::Fid;
use ninep_types::{RBody, RREAD_HEAD};
use std::alloc::Global;

/// What answers bytes, and changes nothing.
pub(crate) fn show(alloc: Global, bytes: Bytes) -> Reaction
    requires { length bytes + rread_head < 2 ^ 32 }
    ensures exact { result ≡ bytes_reaction bytes }
    ensures still { IsStill result }
{
    Reaction::plain(Effect::Nothing, Items::new(alloc), RBody::Read { bytes })
}

// What answers the bytes of these that a read gets.
fn show_part(alloc: Global, bytes: &[u8], reading: &Reading) -> Result<Reaction, NoMemory>
    requires { reading.now.count + rread_head < 2 ^ 32 }
    ensures exact { IfOk result (λ r. r ≡ bytes_reaction (part_at bytes.now reading.now.offset reading.now.count)) }
    ensures still { IfOk result IsStill }
{
    let part = part_at(alloc, bytes, reading.offset, reading.count as usize)?;
    Ok(show(alloc, part))
}

// What is answered so, once something is there, and changes nothing.
fn wait(alloc: Global, answer: Answer) -> Reaction
    requires { HasSpelling answer }
    ensures exact { result ≡ waiting_reaction answer }
    ensures still { IsStill result }
{
    Reaction {
        effect: Effect::Nothing,
        events: EventChange::Nothing,
        changes: Items::new(alloc),
        demand: Demand::Nothing,
        answer,
    }
}

// A read of an event file, which gets what is there for its opening, or waits.
fn read_opening(alloc: Global, reading: &Reading) -> Result<Reaction, Fault>
    requires { reading.now.count + rread_head < 2 ^ 32 }
    ensures exact { IfOk result (λ r. read_opening (asked_in reading.now) (event_opening reading.now.fid.now) ≡ Ok r) }
    ensures refused { IfErr result (λ e. Gives e (read_opening (asked_in reading.now)
        (event_opening reading.now.fid.now))) }
    ensures still { IfOk result IsStill }
{
    let Some(opening) = event_opening(reading.fid) else {
        return Err(Fault::Refused(Refusal::FidIsNotOpen));
    };
    let answer = Answer::Reads {
        fid: reading.number,
        opening,
        count: reading.count,
    };
    Ok(wait(alloc, answer))
}

// A read of a port, which gets what is there for its opening, or waits.
fn read_port(alloc: Global, reading: &Reading) -> Result<Reaction, Fault>
    requires { reading.now.count + rread_head < 2 ^ 32 }
    ensures exact { IfOk result (λ r. read_port (asked_in reading.now) (port_opening reading.now.fid.now) ≡ Ok r) }
    ensures refused { IfErr result (λ e. Gives e (read_port (asked_in reading.now)
        (port_opening reading.now.fid.now))) }
    ensures still { IfOk result IsStill }
{
    let Some(opening) = port_opening(reading.fid) else {
        return Err(Fault::Refused(Refusal::FidIsNotOpen));
    };
    let answer = Answer::ReadsPort {
        fid: reading.number,
        opening,
        count: reading.count,
    };
    Ok(wait(alloc, answer))
}

// A read of `log` or of `jobs`, which gets what is there for its opening, or waits.
fn read_watch(alloc: Global, reading: &Reading) -> Result<Reaction, Fault>
    requires { reading.now.count + rread_head < 2 ^ 32 }
    ensures exact { IfOk result (λ r. read_watch (asked_in reading.now) (watch_opening reading.now.fid.now) ≡ Ok r) }
    ensures refused { IfErr result (λ e. Gives e (read_watch (asked_in reading.now)
        (watch_opening reading.now.fid.now))) }
    ensures still { IfOk result IsStill }
{
    let Some(opening) = watch_opening(reading.fid) else {
        return Err(Fault::Refused(Refusal::FidIsNotOpen));
    };
    let answer = Answer::ReadsWatch {
        fid: reading.number,
        opening,
        count: reading.count,
    };
    Ok(wait(alloc, answer))
}

#[tactic(auto, using(crate::proofs::Possibly::still))]
fn read_content(alloc: Global, server: &Server, reading: &Reading) -> Result<Reaction, Fault>
    requires { reading.now.count + rread_head < 2 ^ 32 }
    ensures exact { IfOk result (λ r. read_content (server_in server.now) (asked_in reading.now) reading.now.fid.now
        (content_of reading.now.fid.now.node) ≡ Ok r) }
    ensures refused { IfErr result (λ e. Gives e (read_content (server_in server.now) (asked_in reading.now)
        reading.now.fid.now (content_of reading.now.fid.now.node))) }
    ensures done { IfOk result (IsDone (windows_in server.now)) }
{
    let windows = server.windows;
    let count = reading.count as usize;
    match content_of(reading.fid.node) {
        Content::Directory => read_dir(alloc, server, reading),
        Content::BodyText(window) => {
            let bytes = body_part(alloc, windows, window, reading.offset, count)?;
            Ok(show(alloc, bytes))
        }
        Content::TagText(window) => {
            let text = tag_if_live(alloc, windows, window)?;
            let bytes = utf8_slice(alloc, text.as_slice(), reading.offset, count)?;
            Ok(show(alloc, bytes))
        }
        Content::CtlText(window) => {
            let text = ctl_if_live(alloc, windows, window)?;
            Ok(show_part(alloc, text.as_slice(), reading)?)
        }
        Content::AddrText(window) => {
            let text = addr_text(alloc, windows, window)?;
            Ok(show_part(alloc, text.as_slice(), reading)?)
        }
        Content::IndexText => {
            let text = index_text(alloc, windows)?;
            Ok(show_part(alloc, text.as_slice(), reading)?)
        }
        Content::DataOf(window) => Ok(read_data(alloc, windows, window, reading.count)?),
        Content::XdataOf(window) => Ok(read_xdata(alloc, windows, window, reading.count)?),
        Content::EventsOf(_) => read_opening(alloc, reading),
        Content::ErrorsOf(_) => Err(Fault::Refused(Refusal::PermissionDenied)),
        Content::ConsErrors => Ok(show(alloc, Items::new(alloc))),
        Content::Empty => Ok(show(alloc, Items::new(alloc))),
        Content::SendText => Err(Fault::Refused(Refusal::PermissionDenied)),
        Content::RulesText => Ok(show_part(alloc, server.rules.text(), reading)?),
        Content::PortOf(_) => read_port(alloc, reading),
        Content::WatchOf(_) => read_watch(alloc, reading),
    }
}

/// Why a fid isn't read. The ports are their names.
pub(crate) fn why_not_read(world: &World, ports: &[Bytes], fid: &Fid) -> Option<Refusal>
    ensures { result ≡ use_refusal world.now ports.now fid.now is_for_reading }
{
    if !is_live(world, ports, fid.node) {
        return Some(Refusal::WindowDeleted);
    }
    match fid.mode {
        Some(mode) if is_for_reading(mode) => None,
        Some(_) => Some(Refusal::PermissionDenied),
        None => Some(Refusal::FidIsNotOpen),
    }
}

/// Why a fid isn't written. The ports are their names.
pub(crate) fn why_not_written(world: &World, ports: &[Bytes], fid: &Fid) -> Option<Refusal>
    ensures { result ≡ use_refusal world.now ports.now fid.now is_for_writing }
{
    if !is_live(world, ports, fid.node) {
        return Some(Refusal::WindowDeleted);
    }
    match fid.mode {
        Some(mode) if is_for_writing(mode) => None,
        Some(_) => Some(Refusal::PermissionDenied),
        None => Some(Refusal::FidIsNotOpen),
    }
}

fn most(count: u32, msize: Option<u32>) -> u32
    ensures exact { result ≡ most count msize }
    ensures small { result + rread_head < 2 ^ 32 }
{
    match msize {
        Some(msize) => count.min(msize.saturating_sub(RREAD_HEAD)),
        None => 0,
    }
}

/// What a Tread does.
pub(crate) fn read(
    alloc: Global,
    server: &Server,
    number: u32,
    offset: u64,
    count: u32,
) -> Result<Reaction, Fault>
    ensures exact { IfOk result (λ r. read_reaction (server_in server.now)
        (record { number = number; offset = offset; count = count }) ≡ Ok r) }
    ensures refused { IfErr result (λ e. Gives e (read_reaction (server_in server.now)
        (record { number = number; offset = offset; count = count }))) }
    ensures done { IfOk result (IsDone (windows_in server.now)) }
{
    let Some(fid) = server.sessions.fid(server.conn, number) else {
        return Err(Fault::Refused(Refusal::UnknownFid));
    };
    if let Some(refusal) = why_not_read(server.windows.world(), port_names(server), fid) {
        return Err(Fault::Refused(refusal));
    }
    let reading = Reading {
        number,
        fid,
        offset,
        count: most(count, server.sessions.msize(server.conn)),
    };
    read_content(alloc, server, &reading)
}
