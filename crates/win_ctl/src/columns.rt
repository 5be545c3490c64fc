//! The texts of `ctl` and `index`.

ghost use Rattle.std.specs.Prelude.{◌≡◌, ◌++◌, length, IfOk, OnOk};
ghost use Rattle.am_text.specs.Column.{column11};
ghost use Rattle.am_text.specs.Lines.{first_line};
ghost use Rattle.win_ctl.specs.Columns.{flag, columns, ctl_text, index_line};

use am_text::{Bytes, NEWLINE, NoMemory, Rune, Runes, column11, encode};
use std::alloc::Global;

/// The width of the window in `ctl`, in pixels.
const DISPLAY_WIDTH: u64 = 800;

/// The width of a tab in `ctl`, in pixels.
const TAB_WIDTH: u64 = 32;

fn flag(holds: bool) -> u64
    ensures { result ≡ flag holds }
{
    if holds { 1 } else { 0 }
}

fn put_column(alloc: Global, bytes: &mut Bytes, n: u64) -> Result<(), NoMemory>
    ensures { OnOk result (bytes.new ≡ bytes.old ++ column11 n) }
{
    bytes.append(column11(alloc, n)?.as_slice())
}

// The five numbers that `ctl` and `index` show.
#[tactic(auto, unfolding(crate::specs::Columns::columns))]
fn columns(
    alloc: Global,
    id: u32,
    tag: usize,
    body: usize,
    dir: bool,
    modified: bool,
) -> Result<Bytes, NoMemory>
    ensures { IfOk result (λ bytes. bytes ≡ columns id tag body dir modified) }
{
    let mut bytes = column11(alloc, u64::from(id))?;
    put_column(alloc, &mut bytes, tag as u64)?;
    put_column(alloc, &mut bytes, body as u64)?;
    put_column(alloc, &mut bytes, flag(dir))?;
    put_column(alloc, &mut bytes, flag(modified))?;
    Ok(bytes)
}

/// What a read of a window's `ctl` gives: the number of the window, the runes in its tag and in its body, whether
/// it is a directory and whether it is modified (1 or 0), then 800, `fixed` and 32 in place of the width, the font
/// and the tab of a display.
#[tactic(auto, unfolding(crate::specs::Columns::ctl_text))]
pub fn ctl_text(
    alloc: Global,
    id: u32,
    tag: usize,
    body: usize,
    dir: bool,
    modified: bool,
) -> Result<Bytes, NoMemory>
    ensures { IfOk result (λ bytes. bytes ≡ ctl_text id tag body dir modified) }
{
    let mut bytes = columns(alloc, id, tag, body, dir, modified)?;
    put_column(alloc, &mut bytes, DISPLAY_WIDTH)?;
    bytes.append(b"fixed ")?;
    put_column(alloc, &mut bytes, TAB_WIDTH)?;
    Ok(bytes)
}

// The text before its first newline.
fn first_line(text: &[Rune]) -> &[Rune]
    ensures { result.now ≡ first_line text.now }
{
    let mut at = 0;
    for rune in text {
        if *rune == NEWLINE {
            let (line, _) = text.split_at(at);
            return line;
        }
        at += 1;
    }
    let (line, _) = text.split_at(at);
    line
}

/// A window's line in `index`: the five numbers of its `ctl`, the tag up to its first newline in UTF-8, and a newline.
#[tactic(auto, unfolding(crate::specs::Columns::index_line))]
pub fn index_line(
    alloc: Global,
    id: u32,
    tag: &Runes,
    body: usize,
    dir: bool,
    modified: bool,
) -> Result<Bytes, NoMemory>
    ensures { IfOk result (λ bytes. bytes ≡ index_line id tag.now body dir modified) }
{
    let mut bytes = columns(alloc, id, tag.len(), body, dir, modified)?;
    let line = Runes::copied(alloc, first_line(tag.as_slice()))?;
    bytes.append(encode(alloc, &line)?.as_slice())?;
    bytes.push(b'\n')?;
    Ok(bytes)
}
