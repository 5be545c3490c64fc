//! Doing lines over a connection, by its exit status.

ghost use Rattle.std.specs.Prelude.{◌≡◌, ◌≤◌, [], vec_capacity};
ghost use Rattle.am_base.specs.Seen.{given, seen};
ghost use Rattle.ninep_types.specs.Spelling.{IsString};
ghost use Rattle.am_slots.specs.Slots.{outside};
ghost use Rattle.am_words.specs.Words.{tree_name};
ghost use Rattle.acmefs.specs.Does.{closed_by, do_status, ended_by, entry_of, how_ended, listed, undialled};
ghost use Rattle.acmefs.specs.Top.{OfDo, run};

use crate::outcome::{Outcome, idle};
use crate::status::Status;
use am_base::{Host, Sink, Source};
use am_do::{DoEnd, Doing, Stop, do_path};
use am_journal::Format;
use am_replay::{End, empty_journal};
use am_server::{Served, ServedEnd};
use am_text::Items;
use am_words::Tree;
use core_laws::journals_are_lawful;
use ninep_client::CallFault;
use std::alloc::Global;

// The status of an end.
fn do_status(end: DoEnd) -> Status
    ensures { result ≡ do_status end }
{
    match end {
        DoEnd::Done => Status::Done,
        DoEnd::Script => Status::Refused,
        DoEnd::ReadFault => Status::ReadFault,
        DoEnd::WriteFault => Status::WriteFault,
        DoEnd::HostFault => Status::HostFault,
        DoEnd::NoMemory => Status::NoMemory,
        DoEnd::Talk => Status::Talk,
    }
}

// How a call's fault ends a client.
fn closed_by(fault: CallFault) -> ServedEnd
    ensures { result ≡ closed_by fault }
{
    match fault {
        CallFault::NoMemory => ServedEnd::NoMemory,
        other => ServedEnd::Did(Some(other)),
    }
}

// How a talk ends a client.
fn ended_by(stop: Option<Stop>) -> ServedEnd
    ensures { result ≡ ended_by stop }
{
    match stop {
        None => ServedEnd::Did(None),
        Some(Stop::Refused) => ServedEnd::Did(None),
        Some(Stop::Fault(fault)) => closed_by(fault),
    }
}

// How a client ended that was not dialled, where the host was asked.
fn undialled(end: DoEnd) -> Option<ServedEnd>
    ensures { result ≡ undialled end }
{
    match end {
        DoEnd::HostFault => Some(ServedEnd::Bind),
        DoEnd::Done
        | DoEnd::Script
        | DoEnd::ReadFault
        | DoEnd::WriteFault
        | DoEnd::NoMemory
        | DoEnd::Talk => None,
    }
}

// How a client ended, where the host was asked.
fn how_ended(end: DoEnd, is_linked: bool, is_halved: bool, stop: Option<Stop>) -> Option<ServedEnd>
    ensures { result ≡ how_ended end is_linked is_halved stop }
{
    if is_halved {
        Some(ended_by(stop))
    } else if is_linked {
        Some(ServedEnd::Halve)
    } else {
        undialled(end)
    }
}

// What is told of a client, where the host was asked.
fn entry_of<G, L: Drop, S: Drop, K: Drop>(doing: Doing<L, S, K>) -> Option<Served<G, L, S, K>>
    ensures { result ≡ entry_of doing }
{
    let Doing {
        end,
        link,
        reader,
        writer,
        stop,
    } = doing;
    match how_ended(end, link.is_some(), reader.is_some(), stop) {
        Some(end) => Some(Served {
            slot: 0,
            gate: None,
            link,
            reader,
            writer,
            end,
        }),
        None => None,
    }
}

// A list of what is told, in a vector with room.
fn listed<G: Drop, L: Drop, S: Drop, K: Drop>(
    entry: Option<Served<G, L, S, K>>,
    room: Vec<Served<G, L, S, K>>,
) -> Items<Served<G, L, S, K>>
    requires room { 1 ≤ vec_capacity room }
    requires empty { room.items ≡ [] }
    ensures { result ≡ listed entry }
{
    let mut served = room;
    match entry {
        Some(entry) => served.push_reserved(entry),
        None => (),
    }
    Items::from_vec(served)
}

// The name that a tree is attached by.
fn name_of(tree: Tree) -> &'static [u8]
    ensures name { result.now ≡ tree_name tree }
    ensures fits { IsString result.now }
{
    tree.name()
}

/// Does the lines that the input gives, in order, over a connection to a path, at whose root a tree is attached, and
/// writes the answer to each. All lines are checked before anything is dialled.
///
/// The status is 0 where all was done and written, 2 where a line or the whole input is refused, 3 where the input
/// failed, 4 where the output failed, 5 where nothing could be dialled, 6 where memory ran out, 7 where the talk has
/// stopped before its end.
pub fn do_main<I: Source, O: Sink, H: Host>(
    alloc: Global,
    path: &str,
    tree: Tree,
    input: &mut I,
    output: &mut O,
    host: &mut H,
) -> Outcome<H>
    // What doing lines promises.
    ensures does { OfDo path.now tree (run result.status
        (outside H.G.told H.G.L.told H.G.L.R.told H.G.L.W.told)
        (given (I.told input.old) (I.told input.new) (H.told host.old) (H.told host.new))
        (seen (O.told output.old) (O.told output.new)) result.journal result.served) }
    // Where no client is told of, the host was asked for nothing.
    ensures unasked { result.served ≡ [] → host.new ≡ host.old }
{
    journals_are_lawful();
    let Ok(room) = Vec::with_capacity(alloc, 1) else {
        return idle(alloc, End::NoMemory);
    };
    let doing = do_path(alloc, path, name_of(tree), input, output, host);
    Outcome {
        status: do_status(doing.end),
        journal: empty_journal(alloc, Format::One),
        served: listed(entry_of(doing), room),
    }
}
