//! Lines in words.

ghost use Rattle.std.specs.Prelude.{◌≡◌, None, Some, IfNone, IfOk, IfSome};
ghost use Rattle.ninep_trace.specs.declared.line.Line.{Line};
ghost use Rattle.ninep_trace.specs.Fields.{Gives};
ghost use Rattle.ninep_trace.specs.Words.{line_words, IsWorded};
ghost use Rattle.ninep_trace.specs.Reading.{t_line_at, r_line_at, line_of};

use crate::fields::{take_front, take_small};
use crate::line::Line;
use crate::r_reading::take_r_message;
use crate::t_reading::take_t_message;
use crate::unread::Unread;
use am_journal::{CONNECTIONS, Event, read_line};
use am_text::{NoMemory, after_front};
use std::alloc::Global;

#[tactic(auto, unfolding(crate::specs::Reading::t_line_at))]
fn take_t_line(alloc: Global, rest: &[u8]) -> Result<Line, Unread>
    ensures { Gives (λ l. l) result (t_line_at rest.now) }
{
    let (conn, rest) = take_small(CONNECTIONS as u64 - 1, rest)?;
    let msg = take_t_message(alloc, take_front(b" ", rest)?)?;
    let conn = conn as u32;
    Ok(Line::Event(Event::Msg { conn, msg }))
}

#[tactic(auto, unfolding(crate::specs::Reading::r_line_at))]
fn take_r_line(alloc: Global, rest: &[u8]) -> Result<Line, Unread>
    ensures { Gives (λ l. l) result (r_line_at rest.now) }
{
    let (conn, rest) = take_small(CONNECTIONS as u64 - 1, rest)?;
    let msg = take_r_message(alloc, take_front(b" ", rest)?)?;
    Ok(Line::Reply(conn as u32, msg))
}

#[tactic(auto, unfolding(crate::specs::Reading::line_of))]
fn take_line(alloc: Global, line: &[u8]) -> Result<Line, Unread>
    ensures { Gives (λ l. l) result (line_of line.now) }
{
    if let Some(rest) = after_front(b"msg ", line) {
        return take_t_line(alloc, rest);
    }
    if let Some(rest) = after_front(b"reply ", line) {
        return take_r_line(alloc, rest);
    }
    match read_line(alloc, line)? {
        Some(event) => Ok(Line::Event(event)),
        None => Err(Unread::NotWords),
    }
}

/// What a line in words says, without its newline: an event, or a message to a connection. None exactly where the line
/// is no spelling of either: `docs/formats/words.md` has them.
pub fn read_words(alloc: Global, line: &[u8]) -> Result<Option<Line>, NoMemory>
    ensures exact { IfOk result (λ read. read ≡ line_of line.now) }
    // What is read is spelled so, and has words.
    ensures found { IfOk result (λ read. IfSome read (λ l. IsWorded l × (line.now ≡ line_words l))) }
    // What is spelled so is read.
    ensures only { (l : Line) → IsWorded l → line.now ≡ line_words l → IfOk result (λ read. read ≡ Some l) }
{
    match take_line(alloc, line) {
        Ok(read) => Ok(Some(read)),
        Err(Unread::NotWords) => Ok(None),
        Err(Unread::NoMemory) => Err(NoMemory),
    }
}
