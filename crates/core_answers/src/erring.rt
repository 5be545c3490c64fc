//! Texts for windows: what is put at the end of a body, and what is written to `errors` and `cons`, after acme(4).

ghost use Rattle.std.specs.Prelude.{◌≡◌, ◌+◌, ◌++◌, ◌<◌, ◌≤◌, ◌^◌, ◌==◌, nat_le, [], ◌∷◌, if◌then◌else◌, false};
ghost use Rattle.std.specs.Prelude.{is_some, IsSome, IfSome, IfOk, length, None};
ghost use Rattle.acme_tree.specs.Trees.{world_is_full};
ghost use Rattle.core_fids.specs.Done.{CanBeMade};
ghost use Rattle.core_windows.specs.Windows.{window_at, world_of};
ghost use Rattle.core_answers.specs.Erring.{fits_in, fits_tag, edits_at_end, appends, errors_of, root_errors};
ghost use Rattle.core_answers.specs.Erring.{errors_changes, long_refusal, errors_refusal};
ghost use Rattle.core_answers.specs.Texts.{text_at, right_of, name_of, text_of};

use acme_tree::world_is_full;
use am_text::{Items, Letters, NoMemory, Rune, Runes, SLASH};
use core_fids::Refusal;
use core_windows::{Change, Changes, Edit, Edits, Windows};
use std::alloc::Global;
use win_ctl::{TAG_RUNES, directory, errors_name};
use win_text::BODY_RUNES;

/// Whether the window of that number lives.
pub(crate) fn lives(windows: &Windows, window: u32) -> bool
    ensures { result ≡ is_some (window_at windows.now.present window) }
{
    windows.get(window).is_some()
}

/// How many runes the body of a window has; none where it doesn't live.
pub(crate) fn body_len(windows: &Windows, window: u32) -> usize
    ensures { result ≡ length (text_at windows.now.present window) }
{
    match windows.get(window) {
        Some(pane) => pane.body.len(),
        None => 0,
    }
}

fn right_len(windows: &Windows, window: u32) -> usize
    ensures { result ≡ length (right_of (window_at windows.now.present window)) }
{
    match windows.get(window) {
        Some(pane) => pane.right.len(),
        None => 0,
    }
}

/// Whether a text of so many runes has room for so many more.
fn fits(len: usize, more: usize, most: usize) -> bool
    ensures { result ≡ nat_le (len + more) most }
{
    more <= most && len <= most - more
}

/// Whether the body of a window has room for a text.
pub(crate) fn fits_body(windows: &Windows, window: u32, text: &[Rune]) -> bool
    ensures { result ≡ fits_in (text_at windows.now.present window) text.now }
{
    fits(body_len(windows, window), text.len(), BODY_RUNES)
}

/// Whether the right part of a window's tag has room for a text.
pub(crate) fn fits_tag(windows: &Windows, window: u32, text: &[Rune]) -> bool
    ensures { result ≡ fits_tag (right_of (window_at windows.now.present window)) text.now }
{
    fits(right_len(windows, window), text.len(), TAG_RUNES)
}

fn edits_at(alloc: Global, place: usize, text: Runes) -> Result<Edits, NoMemory>
    ensures { IfOk result (λ edits. edits ≡ if length text == 0 then []
        else record { q0 = place; q1 = place; text = text } ∷ []) }
{
    let mut edits = Items::new(alloc);
    if !text.is_empty() {
        edits.push(Edit {
            q0: place,
            q1: place,
            text,
        })?;
    }
    Ok(edits)
}

/// The change that puts a text at the end of the body of a window that lives.
#[tactic(auto, using(crate::proofs::Possibly::possibly))]
pub(crate) fn append_changes(
    alloc: Global,
    windows: &Windows,
    window: u32,
    text: Runes,
) -> Result<Changes, NoMemory>
    requires { IsSome (window_at windows.now.present window) }
    ensures exact { IfOk result (λ changes. changes ≡ appends windows.now.present window text) }
    ensures possible { IfOk result (CanBeMade windows.now.present) }
{
    let mut changes = Items::new(alloc);
    changes.push(Change::Edits {
        window,
        edits: edits_at(alloc, body_len(windows, window), text)?,
    })?;
    Ok(changes)
}

/// The name of the errors window of a window's directory.
pub(crate) fn errors_of(alloc: Global, windows: &Windows, window: u32) -> Result<Runes, NoMemory>
    ensures { IfOk result (λ name. name ≡ errors_of (window_at windows.now.present window)) }
{
    let dir = match windows.get(window) {
        Some(pane) => directory(alloc, pane.name.as_slice())?,
        None => directory(alloc, &[])?,
    };
    errors_name(alloc, dir.as_slice())
}

/// The name of the errors window of the directory `/`.
pub(crate) fn root_errors(alloc: Global) -> Result<Runes, NoMemory>
    ensures { IfOk result (λ name. name ≡ root_errors) }
{
    errors_name(alloc, &[SLASH])
}

/// Why a text can't be put into the errors window, or into a new one where there is none.
pub(crate) fn errors_refusal(
    windows: &Windows,
    window: Option<u32>,
    text: &[Rune],
) -> Option<Refusal>
    ensures { result ≡ errors_refusal windows.now.present window text.now }
{
    match window {
        None if world_is_full(windows.world()) => Some(Refusal::TooManyWindows),
        None if fits(0, text.len(), BODY_RUNES) => None,
        None => Some(Refusal::TextTooLong),
        Some(window) if fits_body(windows, window, text) => None,
        Some(_) => Some(Refusal::TextTooLong),
    }
}

fn new_changes(
    alloc: Global,
    windows: &Windows,
    name: Runes,
    text: Runes,
) -> Result<Changes, NoMemory>
    ensures { IfOk result (λ changes. changes ≡ errors_changes windows.now.present name None text) }
{
    let mut changes = Items::new(alloc);
    changes.push(Change::Makes { name })?;
    changes.push(Change::Edits {
        window: windows.world().next,
        edits: edits_at(alloc, 0, text)?,
    })?;
    Ok(changes)
}

// The changes that make a window of this name, and put a text into it.
#[tactic(auto, using(crate::proofs::Possibly::possibly))]
fn make_changes(
    alloc: Global,
    windows: &Windows,
    name: Runes,
    text: Runes,
) -> Result<Changes, NoMemory>
    requires { world_is_full (world_of windows.now.present) ≡ false }
    ensures exact { IfOk result (λ changes. changes ≡ errors_changes windows.now.present name None text) }
    ensures possible { IfOk result (CanBeMade windows.now.present) }
{
    let changes = new_changes(alloc, windows, name, text)?;
    Ok(changes)
}

/// The changes that put a text into the errors window of that name, which is made where there is none.
#[tactic(auto, using(crate::proofs::Possibly::possibly))]
pub(crate) fn errors_changes(
    alloc: Global,
    windows: &Windows,
    name: Runes,
    window: Option<u32>,
    text: Runes,
) -> Result<Changes, NoMemory>
    requires allowed { errors_refusal windows.now.present window text ≡ None }
    requires lives { IfSome window (λ w. IsSome (window_at windows.now.present w)) }
    ensures exact { IfOk result (λ changes. changes ≡ errors_changes windows.now.present name window text) }
    ensures possible { IfOk result (CanBeMade windows.now.present) }
{
    match window {
        Some(window) => append_changes(alloc, windows, window, text),
        None => make_changes(alloc, windows, name, text),
    }
}
