//! How serving ends, and what it writes.

ghost use Rattle.std.specs.Prelude.{◌≡◌, ◌<◌, ◌≤◌, ◌^◌, [], length, vec_capacity};
ghost use Rattle.std.specs.List.{AllByRecursion, list_any};
ghost use Rattle.am_base.specs.Seen.{seen};
ghost use Rattle.am_journal.specs.declared.event.Format.TheVariants.{Two};
ghost use Rattle.am_journal.specs.Journal.{journal_in};
ghost use Rattle.am_journal.specs.Lawful.{IsLawful};
ghost use Rattle.acme_core.specs.Run.{settled, IsPossible};
ghost use Rattle.am_server.specs.Ends.{ended_otherwise, wants_untold, end_done, end_at, Writes};
ghost use Rattle.am_server.specs.Served.{served_from};
ghost use Rattle.am_server.specs.Texts.{has_failed};

use crate::served::{Served, served_all};
use crate::texts::{Stop, has_failed, put_text};
use acme_core::{Core, Format, Journal};
use am_base::Sink;
use am_journal::Ending;
use am_serve::{ScriptEnd, WriteEnd};
use am_slots::{Slot, Slots};
use am_text::Items;
use std::alloc::Global;

/// How serving ended. Each has an exit status.
#[derive(Clone, Copy, Debug, PartialEq, Eq)]
pub enum ServeEnd {
    /// All was done and written.
    Done,
    /// A line of the script, or the whole input, is refused.
    Script,
    /// The input could not be read.
    ReadFault,
    /// A slot could not be bound, or gave no connection.
    HostFault,
    /// Memory ran out, and no hang-up tells it.
    NoMemory,
    /// The output could not be written.
    WriteFault,
}

/// How serving ended, the journal of the events that were done, and the connections that were served.
#[derive(Drop)]
pub struct Serving<G, L, S, K> {
    pub end: ServeEnd,
    pub journal: Journal,
    pub served: Items<Served<G, L, S, K>>,
}

// Whether the side that reads ended the connection, with another cause than want of memory.
fn ended_otherwise(read: Option<Ending>) -> bool
    ensures { result ≡ ended_otherwise read }
{
    match read {
        None | Some(Ending::NoMemory) => false,
        Some(_) => true,
    }
}

// Whether memory ran out for a slot, and no hang-up tells it.
fn wants_untold<G, L, S, K>(slot: &Slot<G, L, S, K>) -> bool
    ensures { result ≡ wants_untold slot.now }
{
    match slot {
        Slot::Bound(_) | Slot::Undialled(_, _) => true,
        Slot::Served(_, read, WriteEnd::NoMemory) => ended_otherwise(*read),
        Slot::Unbound | Slot::Unlinked(_) | Slot::Unhalved(_, _) | Slot::Served(_, _, _) => false,
    }
}

fn any_failed<G, L, S, K>(slots: &[Slot<G, L, S, K>]) -> bool
    ensures { result ≡ list_any has_failed slots.now }
{
    for slot in slots {
        if has_failed(slot) {
            return true;
        }
    }
    false
}

fn any_wants_untold<G, L, S, K>(slots: &[Slot<G, L, S, K>]) -> bool
    ensures { result ≡ list_any wants_untold slots.now }
{
    for slot in slots {
        if wants_untold(slot) {
            return true;
        }
    }
    false
}

fn end_done(untold: bool, failed: bool) -> ServeEnd
    ensures { result ≡ end_done untold failed }
{
    if untold {
        ServeEnd::NoMemory
    } else if failed {
        ServeEnd::WriteFault
    } else {
        ServeEnd::Done
    }
}

fn end_at<G, L, S, K>(slots: &[Slot<G, L, S, K>], end: ScriptEnd, failed: bool) -> ServeEnd
    ensures { result ≡ end_at slots.now end failed }
{
    let host = any_failed(slots);
    match end {
        ScriptEnd::Refused { .. } => ServeEnd::Script,
        ScriptEnd::NoMemory => if host {
            ServeEnd::HostFault
        } else {
            ServeEnd::NoMemory
        },
        ScriptEnd::Done => {
            if host {
                ServeEnd::HostFault
            } else {
                end_done(any_wants_untold(slots), failed)
            }
        }
    }
}

// Writes the text, and answers how serving ended.
fn write_served<G, L, S, K, O: Sink>(
    alloc: Global,
    core: &Core,
    slots: &[Slot<G, L, S, K>],
    script: ScriptEnd,
    output: &mut O,
) -> ServeEnd
    requires settled { core.now ≡ settled core.now.journal }
    requires lawful { AllByRecursion IsLawful core.now.journal.events }
    requires few { length slots.now < 2 ^ 32 }
    ensures { Writes core.now.journal slots.now script
        (seen (O.told output.old) (O.told output.new)) result }
{
    match put_text(alloc, core, slots, script, output) {
        Ok(()) => end_at(slots, script, false),
        Err(Stop::Failed) => end_at(slots, script, true),
        Err(Stop::NoMemory) => ServeEnd::NoMemory,
    }
}

// Nothing was done, or nothing can be told of it.
pub(crate) fn idle<G, L, S, K>(alloc: Global, end: ServeEnd) -> Serving<G, L, S, K>
    ensures end { result.end ≡ end }
    ensures journal { result.journal ≡ journal_in Two [] }
    ensures empty { result.journal.events ≡ [] }
    ensures format { result.journal.format ≡ Two }
    ensures possible { IsPossible result.journal }
    ensures served { result.served ≡ [] }
{
    Serving {
        end,
        journal: Journal {
            format: Format::Two,
            events: Items::new(alloc),
        },
        served: Items::new(alloc),
    }
}

/// Writes what came of serving. The list of those served has room.
pub(crate) fn finish<G: Drop, L: Drop, S: Drop, K: Drop, O: Sink>(
    alloc: Global,
    core: Core,
    slots: Slots<G, L, S, K>,
    script: ScriptEnd,
    served: Vec<Served<G, L, S, K>>,
    output: &mut O,
) -> Serving<G, L, S, K>
    requires settled { core ≡ settled core.journal }
    requires lawful { AllByRecursion IsLawful core.journal.events }
    requires few { length slots < 2 ^ 32 }
    requires room { length slots ≤ vec_capacity served }
    requires empty { served.items ≡ [] }
    ensures journal { result.journal ≡ core.journal }
    ensures possible { IsPossible result.journal }
    ensures served { result.served ≡ served_from core.journal.events 0 slots }
    ensures writes { Writes core.journal slots script
        (seen (O.told output.old) (O.told output.new)) result.end }
{
    let end = write_served(alloc, &core, slots.as_slice(), script, output);
    core.events_were_possible();
    Serving {
        end,
        served: served_all(core.events(), slots, served),
        journal: core.into_journal(),
    }
}
