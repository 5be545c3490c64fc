//! What a line of a script asks.

ghost use Rattle.std.specs.Prelude.{◌≡◌, IfOk, option_copied};
ghost use Rattle.am_text.specs.Front.{after_front};
ghost use Rattle.am_journal.specs.Line.{window_at};
ghost use Rattle.am_serve.specs.Script.{is_scripted, asks_window, asks_event, asked_by, DoesLawful, DoesInRange};

use am_journal::{Event, read_line};
use am_text::{NoMemory, read_decimal};
use std::alloc::Global;

/// What a line of a script asks.
#[derive(Drop)]
pub enum Asked {
    /// An event that is to be done.
    Does(Event),
    /// That this window's event file is open.
    Awaits(u32),
    /// The end of the script.
    Ends,
    /// Nothing: it isn't in the grammar.
    Faulty,
}

fn is_scripted(event: &Event) -> bool
    ensures { result ≡ is_scripted event.now }
{
    match event {
        Event::Dial { conn: _ } => false,
        Event::Msg { conn: _, msg: _ } => false,
        Event::Hang { conn: _, why: _ } => false,
        Event::Took { conn: _ } => false,
        Event::New => true,
        Event::Key {
            window: _,
            side: _,
            text: _,
        } => true,
        Event::Sel {
            window: _,
            range: _,
        } => true,
        Event::Exec { at: _ } => true,
        Event::Arg { at: _, chord: _ } => true,
        Event::Look { at: _ } => true,
        Event::File { path: _, text: _ } => true,
        Event::Dir { path: _ } => true,
    }
}

fn asks_event(event: Option<Event>) -> Asked
    ensures { result ≡ asks_event event }
{
    match event {
        Some(event) => {
            if is_scripted(&event) {
                Asked::Does(event)
            } else {
                Asked::Faulty
            }
        }
        None => Asked::Faulty,
    }
}

fn asks_window(number: &[u8]) -> Asked
    ensures { result ≡ asks_window (window_at number.now) }
{
    match read_decimal(number) {
        Some(n) if n < 4294967296 => Asked::Awaits(n as u32),
        _ => Asked::Faulty,
    }
}

#[tactic(auto, using(crate::proofs::Fronts::front_stripped))]
fn after_front<'a>(front: &[u8], line: &'a [u8]) -> Option<&'a [u8]>
    ensures { option_copied result ≡ after_front front.now line.now }
{
    line.strip_prefix(front)
}

/// What a line without its newline asks.
pub(crate) fn asked_by(alloc: Global, line: &[u8]) -> Result<Asked, NoMemory>
    ensures exact { IfOk result (λ a. a ≡ asked_by line.now) }
    ensures lawful { IfOk result DoesLawful }
    ensures in_range { IfOk result DoesInRange }
{
    if line == b"report".as_slice() {
        return Ok(Asked::Ends);
    }
    if let Some(number) = after_front(b"await ", line) {
        return Ok(asks_window(number));
    }
    Ok(asks_event(read_line(alloc, line)?))
}
