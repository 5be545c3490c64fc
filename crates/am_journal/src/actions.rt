//! Lines that act on a text of a window, and lines of files.

ghost use Rattle.std.specs.Prelude.{◌≡◌, IfOk};
ghost use Rattle.am_journal.specs.Line.{exec_at, exec_line, arg_at, arg_line, look_at, look_line, file_at, file_line};
ghost use Rattle.am_journal.specs.Line.{dir_at, dir_line, action_of};

use crate::event::{Event, Spot};
use crate::fields::text_of;
use crate::paths::path_of;
use crate::spots::{cut_spot, put_spot, spot_of};
use am_text::{Bytes, Items, NoMemory, after_front, cut_field, escape};
use std::alloc::Global;

fn exec_of(rest: &[u8]) -> Option<Event>
    ensures { result ≡ exec_at rest.now }
{
    match spot_of(rest) {
        Some(at) => Some(Event::Exec { at }),
        None => None,
    }
}

fn arg_of(rest: &[u8]) -> Option<Event>
    ensures { result ≡ arg_at rest.now }
{
    let (at, words) = cut_spot(rest);
    let at = at?;
    let chord = spot_of(words)?;
    Some(Event::Arg { at, chord })
}

fn look_of(rest: &[u8]) -> Option<Event>
    ensures { result ≡ look_at rest.now }
{
    match spot_of(rest) {
        Some(at) => Some(Event::Look { at }),
        None => None,
    }
}

fn file_of(alloc: Global, rest: &[u8]) -> Result<Option<Event>, NoMemory>
    ensures { IfOk result (λ e. e ≡ file_at rest.now) }
{
    let (field, words) = cut_field(rest);
    let Some(path) = path_of(alloc, field)? else {
        return Ok(None);
    };
    match text_of(alloc, words)? {
        Some(text) => Ok(Some(Event::File { path, text })),
        None => Ok(None),
    }
}

fn dir_of(alloc: Global, rest: &[u8]) -> Result<Option<Event>, NoMemory>
    ensures { IfOk result (λ e. e ≡ dir_at rest.now) }
{
    match path_of(alloc, rest)? {
        Some(path) => Ok(Some(Event::Dir { path })),
        None => Ok(None),
    }
}

/// The event of a line that acts on a text of a window, or that stores a file or makes a directory.
#[tactic(auto, unfolding(crate::specs::Line::action_of))]
pub(crate) fn action_in(alloc: Global, line: &[u8]) -> Result<Option<Event>, NoMemory>
    ensures { IfOk result (λ e. e ≡ action_of line.now) }
{
    if let Some(rest) = after_front(b"exec ", line) {
        return Ok(exec_of(rest));
    }
    if let Some(rest) = after_front(b"arg ", line) {
        return Ok(arg_of(rest));
    }
    if let Some(rest) = after_front(b"look ", line) {
        return Ok(look_of(rest));
    }
    if let Some(rest) = after_front(b"file ", line) {
        return file_of(alloc, rest);
    }
    if let Some(rest) = after_front(b"dir ", line) {
        return dir_of(alloc, rest);
    }
    Ok(None)
}

/// The line `exec W SIDE Q0 Q1`.
#[tactic(auto, unfolding(crate::specs::Line::exec_line))]
pub(crate) fn exec_text(alloc: Global, at: Spot) -> Result<Bytes, NoMemory>
    ensures { IfOk result (λ line. line ≡ exec_line at) }
{
    let mut line = Items::copied(alloc, b"exec ")?;
    put_spot(alloc, &mut line, at)?;
    Ok(line)
}

/// The line `arg W SIDE Q0 Q1 V SIDE A0 A1`.
#[tactic(auto, using(crate::proofs::Joined::joined), unfolding(crate::specs::Line::arg_line))]
pub(crate) fn arg_text(alloc: Global, at: Spot, chord: Spot) -> Result<Bytes, NoMemory>
    ensures { IfOk result (λ line. line ≡ arg_line at chord) }
{
    let mut line = Items::copied(alloc, b"arg ")?;
    put_spot(alloc, &mut line, at)?;
    line.append(b" ")?;
    put_spot(alloc, &mut line, chord)?;
    Ok(line)
}

/// The line `look W SIDE Q0 Q1`.
#[tactic(auto, unfolding(crate::specs::Line::look_line))]
pub(crate) fn look_text(alloc: Global, at: Spot) -> Result<Bytes, NoMemory>
    ensures { IfOk result (λ line. line ≡ look_line at) }
{
    let mut line = Items::copied(alloc, b"look ")?;
    put_spot(alloc, &mut line, at)?;
    Ok(line)
}

/// The line `file PATH :TEXT`.
#[tactic(auto, using(crate::proofs::Joined::joined), unfolding(crate::specs::Line::file_line))]
pub(crate) fn file_text(alloc: Global, path: &[u8], text: &[u32]) -> Result<Bytes, NoMemory>
    ensures { IfOk result (λ line. line ≡ file_line path.now text.now) }
{
    let mut line = Items::copied(alloc, b"file ")?;
    line.append(path)?;
    line.append(b" :")?;
    line.append(escape(alloc, text)?.as_slice())?;
    Ok(line)
}

/// The line `dir PATH`.
#[tactic(auto, unfolding(crate::specs::Line::dir_line))]
pub(crate) fn dir_text(alloc: Global, path: &[u8]) -> Result<Bytes, NoMemory>
    ensures { IfOk result (λ line. line ≡ dir_line path.now) }
{
    let mut line = Items::copied(alloc, b"dir ")?;
    line.append(path)?;
    Ok(line)
}
