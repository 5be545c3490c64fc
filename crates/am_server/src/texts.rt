//! The text that is written at the end, a part at a time: a line, or the two lines of a window or a request.

ghost use Rattle.std.specs.Prelude.{◌≡◌, ◌≤◌, ◌<◌, ◌^◌, [], length, take, get_or, IfOk, OnOk, IfErr, if◌then◌else◌};
ghost use Rattle.std.specs.List.{AllByRecursion, concat};
ghost use Rattle.am_base.specs.Seen.{seen};
ghost use Rattle.am_base.specs.Written.{IsWhole};
ghost use Rattle.am_journal.specs.Journal.{ended_line, events_text, journal_in, journal_text};
ghost use Rattle.am_journal.specs.Lawful.{IsLawful};
ghost use Rattle.am_journal.specs.Report.{report_text};
ghost use Rattle.am_journal.specs.Sections.{report_parts, section_parts};
ghost use Rattle.acme_core.specs.Run.{settled};
ghost use Rattle.acme_core.specs.Views.{view_of};
ghost use Rattle.am_server.specs.Putting.{StopsAt, StopsIn};
ghost use Rattle.am_server.specs.Texts.{has_failed, host_line, host_text, refusal_text, served_text};

use acme_core::{Core, Event};
use am_base::{Failed, Sink, write_all};
use am_journal::{
    Section, View, heading, part_count, refused_line, report_part, reports_are_their_parts,
    sections, write_line,
};
use am_serve::{ScriptEnd, fault_word};
use am_slots::Slot;
use am_text::{Bytes, Items, NoMemory, decimal};
use std::alloc::Global;

/// Why writing stops before the end of the text.
#[derive(Clone, Copy, Debug, PartialEq, Eq)]
pub(crate) enum Stop {
    /// The output has failed.
    Failed,
    /// There was no memory for the next line.
    NoMemory,
}

// Writes a text.
fn put<O: Sink>(output: &mut O, text: &[u8]) -> Result<(), Stop>
    ensures ok { OnOk result (IsWhole (seen (O.told output.old) (O.told output.new)) text.now) }
    ensures later { (O.told output.old).faults ≤ (O.told output.new).faults }
    ensures err { IfErr result (λ e. StopsIn e (seen (O.told output.old) (O.told output.new)) text.now (λ _. [])) }
{
    match write_all(output, text) {
        Ok(()) => Ok(()),
        Err(Failed) => Err(Stop::Failed),
    }
}

fn event_line(alloc: Global, event: &Event) -> Result<Bytes, NoMemory>
    requires { IsLawful event.now }
    ensures { IfOk result (λ line. line ≡ ended_line event.now) }
{
    let mut line = write_line(alloc, event)?;
    line.append(b"\n")?;
    Ok(line)
}

fn put_event<O: Sink>(alloc: Global, output: &mut O, event: &Event) -> Result<(), Stop>
    requires { IsLawful event.now }
    ensures ok { OnOk result (IsWhole (seen (O.told output.old) (O.told output.new)) (ended_line event.now)) }
    ensures later { (O.told output.old).faults ≤ (O.told output.new).faults }
    ensures err { IfErr result (λ e. StopsIn e (seen (O.told output.old) (O.told output.new)) (ended_line event.now)
        (λ _. [])) }
{
    match event_line(alloc, event) {
        Ok(line) => put(output, line.as_slice()),
        Err(NoMemory) => Err(Stop::NoMemory),
    }
}

fn put_events<O: Sink>(alloc: Global, output: &mut O, events: &[Event]) -> Result<(), Stop>
    requires { AllByRecursion IsLawful events.now }
    ensures ok { OnOk result (IsWhole (seen (O.told output.old) (O.told output.new)) (events_text events.now)) }
    ensures later { (O.told output.old).faults ≤ (O.told output.new).faults }
    ensures err { IfErr result (λ e. StopsIn e (seen (O.told output.old) (O.told output.new))
        (events_text events.now) (λ n. events_text (take n events.now))) }
{
    for event in events {
        put_event(alloc, output, event)?;
    }
    Ok(())
}

// The heading, and then a line for each event.
fn put_journal<O: Sink>(alloc: Global, output: &mut O, core: &Core) -> Result<(), Stop>
    requires { AllByRecursion IsLawful core.now.journal.events }
    ensures ok { OnOk result (IsWhole (seen (O.told output.old) (O.told output.new)) (journal_text core.now.journal)) }
    ensures later { (O.told output.old).faults ≤ (O.told output.new).faults }
    ensures err { IfErr result (λ e. StopsIn e (seen (O.told output.old) (O.told output.new))
        (journal_text core.now.journal)
        (λ n. journal_text (journal_in core.now.journal.format (take n core.now.journal.events)))) }
{
    match write_all(output, heading(core.format())) {
        Ok(()) => put_events(alloc, output, core.events()),
        Err(Failed) => Err(Stop::Failed),
    }
}

fn put_part<O: Sink>(
    alloc: Global,
    output: &mut O,
    view: &View,
    section: Section,
    at: usize,
) -> Result<(), Stop>
    requires { at < length (section_parts view.now section) }
    ensures ok { OnOk result (IsWhole (seen (O.told output.old) (O.told output.new))
        (get_or (section_parts view.now section) at [])) }
    ensures later { (O.told output.old).faults ≤ (O.told output.new).faults }
    ensures err { IfErr result (λ e. StopsIn e (seen (O.told output.old) (O.told output.new))
        (get_or (section_parts view.now section) at []) (λ _. [])) }
{
    match report_part(alloc, view, section, at) {
        Ok(part) => put(output, part.as_slice()),
        Err(NoMemory) => Err(Stop::NoMemory),
    }
}

fn put_section<O: Sink>(
    alloc: Global,
    output: &mut O,
    view: &View,
    section: Section,
) -> Result<(), Stop>
    ensures ok { OnOk result (IsWhole (seen (O.told output.old) (O.told output.new))
        (concat (section_parts view.now section))) }
    ensures later { (O.told output.old).faults ≤ (O.told output.new).faults }
    ensures err { IfErr result (λ e. StopsIn e (seen (O.told output.old) (O.told output.new))
        (concat (section_parts view.now section)) (λ n. concat (take n (section_parts view.now section)))) }
{
    for at in 0..part_count(view, section) {
        put_part(alloc, output, view, section, at)?;
    }
    Ok(())
}

// Writes the report of a view, part by part.
fn put_view<O: Sink>(alloc: Global, output: &mut O, view: &View) -> Result<(), Stop>
    ensures ok { OnOk result (IsWhole (seen (O.told output.old) (O.told output.new)) (report_text view.now)) }
    ensures later { (O.told output.old).faults ≤ (O.told output.new).faults }
    ensures err { IfErr result (λ e. StopsIn e (seen (O.told output.old) (O.told output.new))
        (report_text view.now) (λ n. concat (take n (report_parts view.now)))) }
{
    // law: the parts of a report, joined, are the report
    reports_are_their_parts();
    for section in &sections() {
        put_section(alloc, output, view, *section)?;
    }
    Ok(())
}

fn put_report<O: Sink>(alloc: Global, output: &mut O, core: &Core) -> Result<(), Stop>
    requires { core.now ≡ settled core.now.journal }
    ensures ok { OnOk result (IsWhole (seen (O.told output.old) (O.told output.new))
        (report_text (view_of core.now.journal))) }
    ensures later { (O.told output.old).faults ≤ (O.told output.new).faults }
    ensures err { IfErr result (λ e. StopsIn e (seen (O.told output.old) (O.told output.new))
        (report_text (view_of core.now.journal)) (λ n. concat (take n (report_parts (view_of core.now.journal))))) }
{
    match core.view() {
        Ok(view) => put_view(alloc, output, &view),
        Err(NoMemory) => Err(Stop::NoMemory),
    }
}

/// Whether a slot's gate could not be bound, its gate gave no link, or its link gave no halves.
pub(crate) fn has_failed<G, L, S, K>(slot: &Slot<G, L, S, K>) -> bool
    ensures { result ≡ has_failed slot.now }
{
    match slot {
        Slot::Unbound | Slot::Unlinked(_) | Slot::Unhalved(_, _) => true,
        Slot::Bound(_) | Slot::Undialled(_, _) | Slot::Served(_, _, _) => false,
    }
}

fn host_line(alloc: Global, number: u64) -> Result<Bytes, NoMemory>
    ensures { IfOk result (λ line. line ≡ host_line number) }
{
    let mut line = Items::new(alloc);
    line.append(b"host ")?;
    line.append(decimal(alloc, number)?.as_slice())?;
    line.append(b"\n")?;
    Ok(line)
}

fn put_host<O: Sink>(alloc: Global, output: &mut O, number: u64) -> Result<(), Stop>
    ensures ok { OnOk result (IsWhole (seen (O.told output.old) (O.told output.new)) (host_line number)) }
    ensures later { (O.told output.old).faults ≤ (O.told output.new).faults }
    ensures err { IfErr result (λ e. StopsIn e (seen (O.told output.old) (O.told output.new)) (host_line number)
        (λ _. [])) }
{
    match host_line(alloc, number) {
        Ok(line) => put(output, line.as_slice()),
        Err(NoMemory) => Err(Stop::NoMemory),
    }
}

fn put_slot<G, L, S, K, O: Sink>(
    alloc: Global,
    output: &mut O,
    number: u64,
    slot: &Slot<G, L, S, K>,
) -> Result<(), Stop>
    ensures ok { OnOk result (IsWhole (seen (O.told output.old) (O.told output.new))
        (if has_failed slot.now then host_line number else [])) }
    ensures later { (O.told output.old).faults ≤ (O.told output.new).faults }
    ensures err { IfErr result (λ e. StopsIn e (seen (O.told output.old) (O.told output.new))
        (if has_failed slot.now then host_line number else []) (λ _. [])) }
{
    if has_failed(slot) {
        put_host(alloc, output, number)
    } else {
        Ok(())
    }
}

fn put_hosts<G, L, S, K, O: Sink>(
    alloc: Global,
    output: &mut O,
    slots: &[Slot<G, L, S, K>],
) -> Result<(), Stop>
    requires { length slots.now < 2 ^ 64 }
    ensures ok { OnOk result (IsWhole (seen (O.told output.old) (O.told output.new)) (host_text 0 slots.now)) }
    ensures later { (O.told output.old).faults ≤ (O.told output.new).faults }
    ensures err { IfErr result (λ e. StopsIn e (seen (O.told output.old) (O.told output.new))
        (host_text 0 slots.now) (λ n. host_text 0 (take n slots.now))) }
{
    let mut number: u64 = 0;
    for slot in slots {
        put_slot(alloc, output, number, slot)?;
        number += 1;
    }
    Ok(())
}

fn put_refusal<O: Sink>(alloc: Global, output: &mut O, end: ScriptEnd) -> Result<(), Stop>
    ensures ok { OnOk result (IsWhole (seen (O.told output.old) (O.told output.new)) (refusal_text end)) }
    ensures later { (O.told output.old).faults ≤ (O.told output.new).faults }
    ensures err { IfErr result (λ e. StopsIn e (seen (O.told output.old) (O.told output.new)) (refusal_text end)
        (λ _. [])) }
{
    match end {
        ScriptEnd::Done | ScriptEnd::NoMemory => Ok(()),
        ScriptEnd::Refused { line, why } => match refused_line(alloc, line, fault_word(why)) {
            Ok(text) => put(output, text.as_slice()),
            Err(NoMemory) => Err(Stop::NoMemory),
        },
    }
}

/// Writes the heading and the journal's lines one by one, the report part by part, a line `host` for each slot that has
/// failed, and a line `refused` where a line of the script is. At want of memory what stands before stays written.
pub(crate) fn put_text<G, L, S, K, O: Sink>(
    alloc: Global,
    core: &Core,
    slots: &[Slot<G, L, S, K>],
    end: ScriptEnd,
    output: &mut O,
) -> Result<(), Stop>
    requires settled { core.now ≡ settled core.now.journal }
    requires lawful { AllByRecursion IsLawful core.now.journal.events }
    ensures ok { OnOk result (IsWhole (seen (O.told output.old) (O.told output.new))
        (served_text core.now.journal slots.now end)) }
    ensures err { IfErr result (λ e. StopsAt e (seen (O.told output.old) (O.told output.new)) core.now.journal slots.now
        end) }
{
    put_journal(alloc, output, core)?;
    put_report(alloc, output, core)?;
    put_hosts(alloc, output, slots)?;
    put_refusal(alloc, output, end)?;
    Ok(())
}
