//! The texts that the files of windows show.

ghost use Rattle.std.specs.Prelude.{◌≡◌, ◌+◌, ◌++◌, ◌<◌, ◌≤◌, ◌^◌, ◌==◌, not, IfOk, length, take, drop};
ghost use Rattle.core_windows.specs.Panes.{window_of, windows_of};
ghost use Rattle.core_windows.specs.Windows.{window_at};
ghost use Rattle.core_answers.specs.Texts.{part_at, read_of, tag_of, shown_of, whole_tag, ctl_of, line_of, index_from};
ghost use Rattle.core_answers.specs.Texts.{text_at, tag_if_live, ctl_if_live, is_dir_name};

use am_text::{Bytes, Items, Letters, NoMemory, Rune, Runes, SLASH, utf8_slice};
use core_windows::{Pane, Windows};
use std::alloc::Global;
use win_ctl::{Shown, Tag, ctl_text, index_line, tag_text};

/// The bytes from an offset on, at most `count` of them.
pub(crate) fn part_at(
    alloc: Global,
    bytes: &[u8],
    offset: u64,
    count: usize,
) -> Result<Bytes, NoMemory>
    ensures { IfOk result (λ part. part ≡ part_at bytes.now offset count) }
{
    let start = bytes.len().min(offset as usize);
    let (_, rest) = bytes.split_at(start);
    let (part, _) = rest.split_at(rest.len().min(count));
    Items::copied(alloc, part)
}

// Whether this is the name of a directory.
fn is_dir_name(name: &[Rune]) -> bool
    ensures { result ≡ is_dir_name name.now }
{
    name.ends_with(&[SLASH])
}

fn tag_of(alloc: Global, pane: &Pane) -> Result<Tag, NoMemory>
    ensures { IfOk result (λ tag. tag ≡ tag_of (window_of pane.now)) }
{
    Ok(Tag {
        name: Items::copied(alloc, pane.name.as_slice())?,
        right: Items::copied(alloc, pane.right.as_slice())?,
    })
}

fn shown_of(pane: &Pane) -> Shown
    ensures { result ≡ shown_of (window_of pane.now) }
{
    Shown {
        undo: pane.body.can_undo(),
        redo: pane.body.can_redo(),
        modified: pane.modified,
        dir: is_dir_name(pane.name.as_slice()),
    }
}

/// The whole text of a window's tag.
pub(crate) fn whole_tag(alloc: Global, pane: &Pane) -> Result<Runes, NoMemory>
    ensures { IfOk result (λ text. text ≡ whole_tag (window_of pane.now)) }
{
    let tag = tag_of(alloc, pane)?;
    tag_text(alloc, &tag, shown_of(pane))
}

/// What the `ctl` of a window shows.
pub(crate) fn ctl_of(alloc: Global, window: u32, pane: &Pane) -> Result<Bytes, NoMemory>
    ensures { IfOk result (λ bytes. bytes ≡ ctl_of window (window_of pane.now)) }
{
    let tag = whole_tag(alloc, pane)?;
    ctl_text(
        alloc,
        window,
        tag.len(),
        pane.body.len(),
        is_dir_name(pane.name.as_slice()),
        pane.modified,
    )
}

fn line_of(alloc: Global, window: u32, pane: &Pane) -> Result<Bytes, NoMemory>
    ensures { IfOk result (λ bytes. bytes ≡ line_of window (window_of pane.now)) }
{
    let tag = whole_tag(alloc, pane)?;
    index_line(
        alloc,
        window,
        &tag,
        pane.body.len(),
        is_dir_name(pane.name.as_slice()),
        pane.modified,
    )
}

#[tactic(auto, unfolding(crate::specs::Texts::index_from), using(crate::proofs::Indexed::indexing))]
fn index_of(alloc: Global, panes: &[Option<Pane>], next: u32) -> Result<Bytes, NoMemory>
    requires { next ≡ length (windows_of panes.now) + 1 }
    ensures { IfOk result (λ bytes. bytes ≡ index_from 1 (windows_of panes.now)) }
{
    let mut bytes = Items::new(alloc);
    let mut rest = panes;
    let mut window: u32 = 1;
    while let [pane, after @ ..] = rest {
        if let Some(pane) = pane {
            bytes.append(line_of(alloc, window, pane)?.as_slice())?;
        }
        rest = after;
        window += 1;
    }
    Ok(bytes)
}

/// What `index` shows: a line for each live window.
pub(crate) fn index_text(alloc: Global, windows: &Windows) -> Result<Bytes, NoMemory>
    ensures { IfOk result (λ bytes. bytes ≡ index_from 1 windows.now.present) }
{
    index_of(alloc, windows.panes(), windows.world().next)
}

/// The bytes of the text of a window's body from an offset on, at most `count` of them; none where it doesn't live.
pub(crate) fn body_part(
    alloc: Global,
    windows: &Windows,
    window: u32,
    offset: u64,
    count: usize,
) -> Result<Bytes, NoMemory>
    ensures { IfOk result (λ part. part ≡ read_of (text_at windows.now.present window) offset count) }
{
    match windows.get(window) {
        Some(pane) => pane.body.part(offset, count),
        None => utf8_slice(alloc, &[], offset, count),
    }
}

/// The text of a window's tag, empty where it doesn't live.
pub(crate) fn tag_if_live(alloc: Global, windows: &Windows, window: u32) -> Result<Runes, NoMemory>
    ensures { IfOk result (λ text. text ≡ tag_if_live (window_at windows.now.present window)) }
{
    match windows.get(window) {
        Some(pane) => whole_tag(alloc, pane),
        None => Ok(Items::new(alloc)),
    }
}

/// What the `ctl` of a window shows, nothing where it doesn't live.
pub(crate) fn ctl_if_live(alloc: Global, windows: &Windows, window: u32) -> Result<Bytes, NoMemory>
    ensures { IfOk result (λ bytes. bytes ≡ ctl_if_live window (window_at windows.now.present window)) }
{
    match windows.get(window) {
        Some(pane) => ctl_of(alloc, window, pane),
        None => Ok(Items::new(alloc)),
    }
}
