//! Lines of a transcript.

ghost use Rattle.std.specs.Prelude.{◌≡◌, ◌<◌, ◌≤◌, ◌++◌, length, IfOk, IfSome, Some};
ghost use Rattle.ninep_types.specs.Spelling.{spelling_t, Fits_t};
ghost use Rattle.am_journal.specs.declared.event.Event.{Event};
ghost use Rattle.am_journal.specs.Lawful.{IsLawful, IsInRange};
ghost use Rattle.am_journal.specs.Line.{dial_at, dial_line, msg_at, msg_line, hang_at, hang_line, took_at, took_line};
ghost use Rattle.am_journal.specs.Line.{new_at, new_line, key_at, key_line, sel_at, sel_line, line_text, event_of};

use crate::actions::{action_in, arg_text, dir_text, exec_text, file_text, look_text};
use crate::causes::{ending_of, put_cause};
use crate::ending::Ending;
use crate::event::{Event, Side};
use crate::fields::{conn_of, range_of, side_of, side_word, text_of, window_of};
use crate::hexadecimal::{bytes_of_hex, hex_text};
use am_text::{Bytes, Items, NoMemory, Range, after_front, cut_field, decimal, escape, put_around};
use ninep_types::{MAX_MSIZE, TMsg, WireError};
use ninep_wire::{read_t, write_t};
use std::alloc::Global;

fn dial_of(rest: &[u8]) -> Option<Event>
    ensures { result ≡ dial_at rest.now }
{
    match conn_of(rest) {
        Some(conn) => Some(Event::Dial { conn }),
        None => None,
    }
}

fn msg_of(alloc: Global, rest: &[u8]) -> Result<Option<Event>, NoMemory>
    ensures { IfOk result (λ e. e ≡ msg_at rest.now) }
{
    let (field, hex) = cut_field(rest);
    let Some(conn) = conn_of(field) else {
        return Ok(None);
    };
    let Some(bytes) = bytes_of_hex(alloc, hex)? else {
        return Ok(None);
    };
    if bytes.len() > MAX_MSIZE as usize {
        return Ok(None);
    }
    match read_t(alloc, bytes.as_slice()) {
        Ok(msg) => Ok(Some(Event::Msg { conn, msg })),
        Err(WireError::NoMemory) => Err(NoMemory),
        Err(WireError::Fault(_)) => Ok(None),
    }
}

fn hang_of(rest: &[u8]) -> Option<Event>
    ensures { result ≡ hang_at rest.now }
{
    let (field, words) = cut_field(rest);
    let conn = conn_of(field)?;
    let why = ending_of(words)?;
    Some(Event::Hang { conn, why })
}

fn took_of(rest: &[u8]) -> Option<Event>
    ensures { result ≡ took_at rest.now }
{
    match conn_of(rest) {
        Some(conn) => Some(Event::Took { conn }),
        None => None,
    }
}

fn new_of(rest: &[u8]) -> Option<Event>
    ensures { result ≡ new_at rest.now }
{
    match rest {
        [] => Some(Event::New),
        [_, ..] => None,
    }
}

fn key_of(alloc: Global, rest: &[u8]) -> Result<Option<Event>, NoMemory>
    ensures { IfOk result (λ e. e ≡ key_at rest.now) }
{
    let (field, words) = cut_field(rest);
    let (word, text) = cut_field(words);
    let Some(window) = window_of(field) else {
        return Ok(None);
    };
    let Some(side) = side_of(word) else {
        return Ok(None);
    };
    match text_of(alloc, text)? {
        Some(text) => Ok(Some(Event::Key { window, side, text })),
        None => Ok(None),
    }
}

fn sel_of(rest: &[u8]) -> Option<Event>
    ensures { result ≡ sel_at rest.now }
{
    let (field, words) = cut_field(rest);
    let window = window_of(field)?;
    let range = range_of(words)?;
    Some(Event::Sel { window, range })
}

#[tactic(auto, unfolding(crate::specs::Line::event_of))]
fn event_in(alloc: Global, line: &[u8]) -> Result<Option<Event>, NoMemory>
    ensures { IfOk result (λ e. e ≡ event_of line.now) }
{
    if let Some(rest) = after_front(b"dial ", line) {
        return Ok(dial_of(rest));
    }
    if let Some(rest) = after_front(b"msg ", line) {
        return msg_of(alloc, rest);
    }
    if let Some(rest) = after_front(b"hang ", line) {
        return Ok(hang_of(rest));
    }
    if let Some(rest) = after_front(b"took ", line) {
        return Ok(took_of(rest));
    }
    if let Some(rest) = after_front(b"new", line) {
        return Ok(new_of(rest));
    }
    if let Some(rest) = after_front(b"key ", line) {
        return key_of(alloc, rest);
    }
    if let Some(rest) = after_front(b"sel ", line) {
        return Ok(sel_of(rest));
    }
    action_in(alloc, line)
}

/// The event that a line without its newline spells. There is none where no lawful event is spelled so.
pub fn read_line(alloc: Global, line: &[u8]) -> Result<Option<Event>, NoMemory>
    ensures exact { IfOk result (λ found. found ≡ event_of line.now) }
    ensures lawful { IfOk result (λ found. IfSome found IsLawful) }
    ensures in_range { IfOk result (λ found. IfSome found IsInRange) }
    // What is read is spelled so.
    ensures found { IfOk result (λ found. IfSome found (λ e. line.now ≡ line_text e)) }
    // What is spelled so is read.
    ensures only { (e : Event) → IsLawful e → IsInRange e → line.now ≡ line_text e
        → IfOk result (λ found. found ≡ Some e) }
{
    event_in(alloc, line)
}

#[tactic(auto, unfolding(crate::specs::Line::dial_line))]
fn dial_text(alloc: Global, conn: u32) -> Result<Bytes, NoMemory>
    ensures { IfOk result (λ line. line ≡ dial_line conn) }
{
    let mut line = Items::new(alloc);
    line.append(b"dial ")?;
    line.append(decimal(alloc, u64::from(conn))?.as_slice())?;
    Ok(line)
}

#[tactic(auto, unfolding(crate::specs::Line::msg_line))]
fn msg_text(alloc: Global, conn: u32, message: &[u8]) -> Result<Bytes, NoMemory>
    ensures { IfOk result (λ line. line ≡ msg_line conn message.now) }
{
    let mut line = Items::new(alloc);
    put_around(alloc, &mut line, b"msg ", u64::from(conn), b" ")?;
    line.append(hex_text(alloc, message)?.as_slice())?;
    Ok(line)
}

#[tactic(auto, unfolding(crate::specs::Line::hang_line))]
fn hang_text(alloc: Global, conn: u32, why: Ending) -> Result<Bytes, NoMemory>
    ensures { IfOk result (λ line. line ≡ hang_line conn why) }
{
    let mut line = Items::new(alloc);
    put_around(alloc, &mut line, b"hang ", u64::from(conn), b" ")?;
    put_cause(&mut line, why)?;
    Ok(line)
}

#[tactic(auto, unfolding(crate::specs::Line::took_line))]
fn took_text(alloc: Global, conn: u32) -> Result<Bytes, NoMemory>
    ensures { IfOk result (λ line. line ≡ took_line conn) }
{
    let mut line = Items::new(alloc);
    line.append(b"took ")?;
    line.append(decimal(alloc, u64::from(conn))?.as_slice())?;
    Ok(line)
}

#[tactic(auto, unfolding(crate::specs::Line::new_line))]
fn new_text(alloc: Global) -> Result<Bytes, NoMemory>
    ensures { IfOk result (λ line. line ≡ new_line) }
{
    Ok(Items::copied(alloc, b"new")?)
}

#[tactic(auto, using(crate::proofs::Joined::joined), unfolding(crate::specs::Line::key_line))]
fn key_text(alloc: Global, window: u32, side: Side, text: &[u32]) -> Result<Bytes, NoMemory>
    ensures { IfOk result (λ line. line ≡ key_line window side text.now) }
{
    let mut line = Items::new(alloc);
    put_around(alloc, &mut line, b"key ", u64::from(window), b" ")?;
    line.append(side_word(side))?;
    line.append(b" :")?;
    line.append(escape(alloc, text)?.as_slice())?;
    Ok(line)
}

#[tactic(auto, using(crate::proofs::Joined::joined), unfolding(crate::specs::Line::sel_line))]
fn sel_text(alloc: Global, window: u32, range: Range) -> Result<Bytes, NoMemory>
    ensures { IfOk result (λ line. line ≡ sel_line window range) }
{
    let mut line = Items::new(alloc);
    put_around(alloc, &mut line, b"sel ", u64::from(window), b" ")?;
    put_around(alloc, &mut line, b"", range.q0 as u64, b" ")?;
    line.append(decimal(alloc, range.q1 as u64)?.as_slice())?;
    Ok(line)
}

fn line_of(alloc: Global, event: &Event) -> Result<Bytes, NoMemory>
    requires { IsLawful event.now }
    ensures { IfOk result (λ line. line ≡ line_text event.now) }
{
    match event {
        Event::Dial { conn } => dial_text(alloc, *conn),
        Event::Msg { conn, msg } => msg_text(alloc, *conn, write_t(alloc, msg)?.as_slice()),
        Event::Hang { conn, why } => hang_text(alloc, *conn, *why),
        Event::Took { conn } => took_text(alloc, *conn),
        Event::New => new_text(alloc),
        Event::Key { window, side, text } => key_text(alloc, *window, *side, text.as_slice()),
        Event::Sel { window, range } => sel_text(alloc, *window, *range),
        Event::Exec { at } => exec_text(alloc, *at),
        Event::Arg { at, chord } => arg_text(alloc, *at, *chord),
        Event::Look { at } => look_text(alloc, *at),
        Event::File { path, text } => file_text(alloc, path.as_slice(), text.as_slice()),
        Event::Dir { path } => dir_text(alloc, path.as_slice()),
    }
}

/// The one line of an event, without its newline.
pub fn write_line(alloc: Global, event: &Event) -> Result<Bytes, NoMemory>
    requires { IsLawful event.now }
    ensures exact { IfOk result (λ line. line ≡ line_text event.now) }
    // Reading gives the event again.
    ensures again { IsInRange event.now → IfOk result (λ line. event_of line ≡ Some event.now) }
{
    line_of(alloc, event)
}
