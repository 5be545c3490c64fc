//! What clicks on texts of windows stand for.

ghost use Rattle.std.specs.Prelude.{◌≡◌, [], Some, None, IfSome, IfOk};
ghost use Rattle.core_scene.specs.NewItems.{tag_with};
ghost use Rattle.win_text.specs.Bodies.{IsInside};
ghost use Rattle.core_windows.specs.Panes.{window_of};
ghost use Rattle.core_windows.specs.Windows.{window_at};
ghost use Rattle.core_exec.specs.Clicks.{side_text, part_of, IsSpot, clicked, clicked_at, own_text, place_text};
ghost use Rattle.core_exec.specs.Clicks.{argument_at, argument_if_any};

use acme_cmd::{Click, expand};
use am_journal::{Side, Spot};
use am_text::{NoMemory, Range, Rune, Runes, SLASH, decimal, put_words};
use core_actions::name_at;
use core_scene::Windows;
use core_windows::Pane;
use std::alloc::Global;
use win_ctl::{Shown, Tag, tag_text};
use win_text::Body;

/// What a click stands for: the text of its range, and where that is null, the range and the
/// text that it is expanded to.
#[derive(Drop)]
pub struct Clicked {
    pub text: Runes,
    pub expanded: Option<(Range, Runes)>,
}

// The whole text of a window's tag.
fn tag_of(alloc: Global, pane: &Pane) -> Result<Runes, NoMemory>
    ensures { IfOk result (λ text. text ≡ tag_with (window_of pane.now) (window_of pane.now).right) }
{
    let tag = Tag {
        name: Runes::copied(alloc, pane.name.as_slice())?,
        right: Runes::copied(alloc, pane.right.as_slice())?,
    };
    let shown = Shown {
        undo: pane.body.can_undo(),
        redo: pane.body.can_redo(),
        modified: pane.modified,
        dir: pane.name.as_slice().ends_with(&[SLASH]),
    };
    tag_text(alloc, &tag, shown)
}

fn part_of(alloc: Global, text: &[Rune], range: Range) -> Result<Runes, NoMemory>
    requires { IsInside text.now range }
    ensures { IfOk result (λ part. part ≡ part_of text.now range) }
{
    Runes::copied(alloc, &text[range.q0..range.q1])
}

// A text that isn't null.
fn plain(text: Runes) -> Clicked
    ensures { result ≡ record { text = text; expanded = None } }
{
    Clicked {
        text,
        expanded: None,
    }
}

// A null range, and what it is expanded to.
fn expanded(alloc: Global, range: Range, text: Runes) -> Clicked
    ensures { result ≡ record { text = []; expanded = Some (range, text) } }
{
    Clicked {
        text: Runes::new(alloc),
        expanded: Some((range, text)),
    }
}

// What a click on a range of a body stands for, if it stands for anything.
fn clicked_in_body(
    alloc: Global,
    body: &Body,
    range: Range,
    how: Click,
) -> Result<Option<Clicked>, NoMemory>
    requires { IsInside body.now.state.text range }
    ensures { IfOk result (λ c. c ≡ clicked body.now.state.text (Some body.now.state.dot) range how) }
{
    // law: the ranges of a body are inside its text
    body.is_sound();
    if range.q0 < range.q1 {
        return Ok(Some(plain(body.slice(range.q0, range.q1)?)));
    }
    match expand(body, Some(body.dot()), range.q0, how) {
        Some(run) => Ok(Some(expanded(alloc, run, body.slice(run.q0, run.q1)?))),
        None => Ok(None),
    }
}

// What a click on a range of a tag stands for, if it stands for anything.
fn clicked_in_tag(
    alloc: Global,
    tag: &Runes,
    range: Range,
    how: Click,
) -> Result<Option<Clicked>, NoMemory>
    requires { IsInside tag.now range }
    ensures { IfOk result (λ c. c ≡ clicked tag.now None range how) }
{
    if range.q0 < range.q1 {
        return Ok(Some(plain(part_of(alloc, tag.as_slice(), range)?)));
    }
    match expand(tag, None, range.q0, how) {
        Some(run) => Ok(Some(expanded(alloc, run, part_of(alloc, tag.as_slice(), run)?))),
        None => Ok(None),
    }
}

/// What a click stands for, if it stands for anything.
pub(crate) fn clicked_at(
    alloc: Global,
    windows: &Windows,
    at: Spot,
    how: Click,
) -> Result<Option<Clicked>, NoMemory>
    requires { IsSpot windows.now.present at }
    ensures { IfOk result (λ c. c ≡ clicked_at windows.now.present at how) }
{
    let Some(pane) = windows.get(at.window) else {
        unreachable!();
    };
    match at.side {
        Side::Body => clicked_in_body(alloc, &pane.body, at.range, how),
        Side::Tag => {
            let tag = tag_of(alloc, pane)?;
            clicked_in_tag(alloc, &tag, at.range, how)
        }
    }
}

/// The text of an item: where its range was null, that of the expansion.
pub(crate) fn own_text<'a>(text: &'a Runes, expanded: &'a Option<(Range, Runes)>) -> &'a [Rune]
    ensures { result.now ≡ own_text text.now expanded.now }
{
    match expanded {
        Some((_, own)) => own.as_slice(),
        None => text.as_slice(),
    }
}

// The place of a range, as a name and an address.
#[tactic(auto, unfolding(crate::specs::Clicks::place_text))]
fn place_text(alloc: Global, name: &[Rune], range: Range) -> Result<Runes, NoMemory>
    ensures { IfOk result (λ text. text ≡ place_text name.now range) }
{
    let mut text = Runes::copied(alloc, name)?;
    put_words(&mut text, b":#")?;
    put_words(&mut text, decimal(alloc, range.q0 as u64)?.as_slice())?;
    put_words(&mut text, b",#")?;
    put_words(&mut text, decimal(alloc, range.q1 as u64)?.as_slice())?;
    Ok(text)
}

// The text of a range.
fn spot_text(alloc: Global, windows: &Windows, at: Spot) -> Result<Runes, NoMemory>
    requires { IsSpot windows.now.present at }
    ensures { IfOk result (λ text. text ≡ part_of (side_text (window_at windows.now.present at.window) at.side)
        at.range) }
{
    let Some(pane) = windows.get(at.window) else {
        unreachable!();
    };
    match at.side {
        Side::Body => pane.body.slice(at.range.q0, at.range.q1),
        Side::Tag => {
            let tag = tag_of(alloc, pane)?;
            part_of(alloc, tag.as_slice(), at.range)
        }
    }
}

// The text and the place of a chord's argument.
fn argument_at(alloc: Global, windows: &Windows, at: Spot) -> Result<(Runes, Runes), NoMemory>
    requires { IsSpot windows.now.present at }
    ensures { IfOk result (λ argument. argument ≡ argument_at windows.now.present at) }
{
    let text = spot_text(alloc, windows, at)?;
    let name = name_at(alloc, windows, at.window)?;
    let place = place_text(alloc, name.as_slice(), at.range)?;
    Ok((text, place))
}

/// The text and the place of a chord's argument, if there is one.
pub(crate) fn argument_if_any(
    alloc: Global,
    windows: &Windows,
    at: Option<Spot>,
) -> Result<Option<(Runes, Runes)>, NoMemory>
    requires { IfSome at (IsSpot windows.now.present) }
    ensures { IfOk result (λ argument. argument ≡ argument_if_any windows.now.present at) }
{
    match at {
        Some(at) => Ok(Some(argument_at(alloc, windows, at)?)),
        None => Ok(None),
    }
}
