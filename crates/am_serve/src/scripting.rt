//! The side that does the lines of a script.

ghost use Rattle.std.specs.Prelude.{◌≡◌, ◌<◌, ◌≤◌, Bool, true, false};
ghost use Rattle.am_journal.specs.Journal.{first_line};
ghost use Rattle.am_journal.specs.Lawful.{IsLawful, IsInRange};
ghost use Rattle.am_counter.specs.declared.ask.Ask.TheVariants.{EventOpen};
ghost use Rattle.am_counter.specs.Known.{Looks};
ghost use Rattle.am_journal.specs.Limits.{connection_count};
ghost use Rattle.am_serve.specs.Gained.{Gains, gained};
ghost use Rattle.am_serve.specs.Script.{HaveEnded, EndsScript, asked_by};
ghost use Rattle.am_serve.specs.Doing.{DoesLine, DoesEvent, GoesOn};

use crate::asked::{Asked, asked_by};
use crate::fault::LineFault;
use crate::station::Script;
use am_counter::{Ask, Counter, Told};
use am_journal::{Event, Format, Refused, split_heading};
use am_text::{NoMemory, split_line};
use std::alloc::Global;
use std::sync::Wait;

/// Where a script ended.
#[derive(Clone, Copy, Debug, PartialEq, Eq)]
pub enum ScriptEnd {
    /// At a line `report`, or behind the last line.
    Done,
    /// At this line, counted from 1.
    Refused { line: u64, why: LineFault },
    /// For want of memory.
    NoMemory,
}

/// What became of a line.
#[derive(Clone, Copy, Debug, PartialEq, Eq)]
pub(crate) enum LineEnd {
    Passed,
    Report,
    Refused(LineFault),
    NoMemory,
}

// Whether all of the first connections have ended.
fn have_ended<C: Counter, R: Wait>(rt: &R, desk: &C, seat: &mut C::Seat, clients: u32) -> bool
    requires fits { C.fits desk.now seat.old }
    requires clients { clients ≤ connection_count }
    ensures fits { C.fits desk.now seat.new }
    ensures looks { Looks (C.known seat.old) (C.known seat.new) }
    ensures ended { result ≡ true → HaveEnded clients (C.known seat.new).seen }
    ensures goes_on { result ≡ false → GoesOn clients (C.known seat.new).seen }
{
    for conn in 0..clients {
        if !desk.look(rt, seat, Ask::Ended(conn)) {
            return false;
        }
    }
    true
}

// Waits until a window's event file is open, or it can't be opened since all connections have ended.
fn await_window<C: Counter, R: Wait>(
    rt: &R,
    script: &Script<'_, C>,
    seat: &mut C::Seat,
    window: u32,
) -> bool
    requires fits { C.fits script.now.desk.now seat.old }
    requires clients { script.now.clients ≤ connection_count }
    ensures fits { C.fits script.now.desk.now seat.new }
    ensures looks { Looks (C.known seat.old) (C.known seat.new) }
    ensures open { result ≡ C.answer (C.known seat.new).seen (EventOpen window) }
    ensures ended { result ≡ false → HaveEnded script.now.clients (C.known seat.new).seen }
{
    let mut rung = 0;
    for _ in rt.forever() {
        // They are asked first: none can open the file later.
        let alone = have_ended(rt, script.desk, seat, script.clients);
        if script.desk.look(rt, seat, Ask::EventOpen(window)) {
            return true;
        }
        if alone {
            return false;
        }
        rung = script.bells.wait_for_script(rt, rung);
    }
    unreachable!()
}

fn submit<C: Counter, R: Wait>(
    rt: &R,
    script: &Script<'_, C>,
    seat: &mut C::Seat,
    event: Event,
) -> LineEnd
    requires fits { C.fits script.now.desk.now seat.old }
    requires lawful { IsLawful event }
    requires in_range { IsInRange event }
    ensures fits { C.fits script.now.desk.now seat.new }
    ensures does { DoesEvent C.enabled (C.known seat.old) event result (C.known seat.new) }
{
    let mut told = Told::none();
    match script.desk.submit(rt, seat, event, &mut told) {
        Ok(_) => {
            script.bells.replied(&told);
            LineEnd::Passed
        }
        Err(Refused::NotEnabled(why)) => LineEnd::Refused(LineFault::NotEnabled(why)),
        Err(Refused::NoMemory) => LineEnd::NoMemory,
    }
}

fn do_line<C: Counter, R: Wait>(
    rt: &R,
    alloc: Global,
    script: &Script<'_, C>,
    seat: &mut C::Seat,
    line: &[u8],
) -> LineEnd
    requires fits { C.fits script.now.desk.now seat.old }
    requires clients { script.now.clients ≤ connection_count }
    ensures fits { C.fits script.now.desk.now seat.new }
    ensures does { DoesLine C.enabled C.answer script.now.clients (C.known seat.old) (asked_by line.now) result
        (C.known seat.new) }
{
    match asked_by(alloc, line) {
        Ok(Asked::Does(event)) => submit(rt, script, seat, event),
        Ok(Asked::Awaits(window)) => {
            if await_window(rt, script, seat, window) {
                LineEnd::Passed
            } else {
                LineEnd::Refused(LineFault::Alone)
            }
        }
        Ok(Asked::Ends) => LineEnd::Report,
        Ok(Asked::Faulty) => LineEnd::Refused(LineFault::Line),
        Err(NoMemory) => LineEnd::NoMemory,
    }
}

/// The number of the first line behind the heading of a transcript of this format.
pub fn first_line(format: Format) -> u64
    ensures number { result ≡ first_line format }
{
    match format {
        Format::One => 1,
        Format::Two => 2,
    }
}

/// Does the lines of a script, one after another, up to a line `report` or the end. These are the lines of a transcript
/// but `dial`, `msg`, `hang` and `took`, and `await W` beside them, which waits until window W's event file is open. It
/// is alone where that isn't open and all of the first `clients` connections have ended. A heading does nothing, and
/// counts as a line. It rings for the connections that its entries replied to. None is done where the connections have
/// begun without it, for want of a thread.
pub fn script_side<C: Counter, R: Wait>(
    rt: &R,
    alloc: Global,
    script: &Script<'_, C>,
    seat: &mut C::Seat,
) -> ScriptEnd
    requires fits { C.fits script.now.desk.now seat.old }
    requires clients { script.now.clients ≤ connection_count }
    ensures fits { C.fits script.now.desk.now seat.new }
    ensures gains { Gains (C.known seat.old) (gained (C.known seat.old) (C.known seat.new)) (C.known seat.new) }
    ensures ends { EndsScript C.enabled C.answer script.now.clients (C.known seat.old)
        script.now.lines.now result (C.known seat.new) }
{
    if !script.bells.begin_script() {
        return ScriptEnd::NoMemory;
    }
    let (format, mut rest) = split_heading(script.lines);
    let mut line = first_line(format);
    while !rest.is_empty() {
        let (first, after) = split_line(rest);
        match do_line(rt, alloc, script, seat, first) {
            LineEnd::Passed => {
                rest = after;
                line += 1;
            }
            LineEnd::Report => return ScriptEnd::Done,
            LineEnd::Refused(why) => return ScriptEnd::Refused { line, why },
            LineEnd::NoMemory => return ScriptEnd::NoMemory,
        }
    }
    ScriptEnd::Done
}
