//! Keys and selections.

ghost use Rattle.std.specs.Prelude.{◌≡◌, ◌+◌, ◌-◌, ◌≤◌, ◌<◌, ◌&&◌, ◌∷◌, [], nat_le, if◌then◌else◌, IfOk, None};
ghost use Rattle.core_windows.specs.Panes.{window_of};
ghost use Rattle.core_fids.specs.Done.{CanBeMade};
ghost use Rattle.core_windows.specs.declared.change.Change.TheVariants as change;
ghost use Rattle.core_windows.specs.Windows.{window_at};
ghost use Rattle.core_intents.specs.Typing.{fits_side, key_refusal, edits_with_dot, typed, key_changes, sel_refusal};
ghost use Rattle.core_intents.specs.Typing.{sel_changes};

use am_journal::{Side, Why};
use am_text::{Items, Letters, NoMemory, Range, Rune, Runes};
use core_addresses::replacement;
use core_windows::{Change, Changes, Edits, Pane, Setting, Windows};
use std::alloc::Global;
use win_ctl::TAG_RUNES;
use win_text::BODY_RUNES;

fn long(len: usize, more: usize, most: usize) -> Option<Why>
    ensures { result ≡ if nat_le (len + more) most then None else Some Why.Length }
{
    if more <= most && len <= most - more {
        None
    } else {
        Some(Why::Length)
    }
}

fn fits_side(pane: &Pane, side: Side, text: &[Rune]) -> Option<Why>
    ensures { result ≡ fits_side (window_of pane.now) side text.now }
{
    match side {
        Side::Body => {
            // law: the ranges of a body are inside its text
            pane.body.is_sound();
            let dot = pane.body.dot();
            long(pane.body.len() - (dot.q1 - dot.q0), text.len(), BODY_RUNES)
        }
        Side::Tag => long(pane.right.len(), text.len(), TAG_RUNES),
    }
}

/// Why a text can't be typed into a window.
pub(crate) fn key_refusal(windows: &Windows, window: u32, side: Side, text: &[Rune]) -> Option<Why>
    ensures { result ≡ key_refusal (window_at windows.now.present window) side text.now }
{
    match windows.get(window) {
        Some(pane) => fits_side(pane, side, text),
        None => Some(Why::Window),
    }
}

fn added(alloc: Global, window: u32, text: Runes) -> Result<Changes, NoMemory>
    ensures { IfOk result (λ changes. changes ≡ change.Adds window text ∷ []) }
{
    let mut changes = Items::new(alloc);
    changes.push(Change::Adds { window, text })?;
    Ok(changes)
}

fn edits_with_dot(
    alloc: Global,
    window: u32,
    edits: Edits,
    range: Range,
) -> Result<Changes, NoMemory>
    ensures { IfOk result (λ changes. changes ≡ edits_with_dot window edits range) }
{
    let mut changes = Items::new(alloc);
    changes.push(Change::Edits { window, edits })?;
    changes.push(Change::Sets {
        window,
        setting: Setting::Dot(range),
    })?;
    Ok(changes)
}

#[tactic(auto, using(crate::proofs::Typed::typing))]
fn typed(
    alloc: Global,
    windows: &Windows,
    window: u32,
    pane: &Pane,
    side: Side,
    text: &[Rune],
) -> Result<Changes, NoMemory>
    requires there { window_at windows.now.present window ≡ Some (window_of pane.now) }
    requires fits { fits_side (window_of pane.now) side text.now ≡ None }
    ensures exact { IfOk result (λ changes. changes ≡ typed window (window_of pane.now) side text.now) }
    ensures possible { IfOk result (CanBeMade windows.now.present) }
{
    let text = Runes::copied(alloc, text)?;
    match side {
        Side::Tag => added(alloc, window, text),
        Side::Body => {
            // law: the ranges of a body are inside its text
            pane.body.is_sound();
            let dot = pane.body.dot();
            let end = dot.q0 + text.len();
            let edits = replacement(alloc, dot, text)?;
            let changes = edits_with_dot(alloc, window, edits, Range { q0: end, q1: end })?;
            Ok(changes)
        }
    }
}

/// What typing a text does to the windows.
pub(crate) fn key_changes(
    alloc: Global,
    windows: &Windows,
    window: u32,
    side: Side,
    text: &[Rune],
) -> Result<Changes, NoMemory>
    requires { key_refusal (window_at windows.now.present window) side text.now ≡ None }
    ensures exact { IfOk result (λ changes. changes
        ≡ key_changes window (window_at windows.now.present window) side text.now) }
    ensures possible { IfOk result (CanBeMade windows.now.present) }
{
    match windows.get(window) {
        Some(pane) => typed(alloc, windows, window, pane, side, text),
        None => Ok(Items::new(alloc)),
    }
}

/// Why a range can't be selected in the body of a window.
pub(crate) fn sel_refusal(windows: &Windows, window: u32, range: Range) -> Option<Why>
    ensures { result ≡ sel_refusal (window_at windows.now.present window) range }
{
    match windows.get(window) {
        Some(pane) if range.q1 <= pane.body.len() => None,
        Some(_) => Some(Why::Range),
        None => Some(Why::Window),
    }
}

fn dot_set(alloc: Global, window: u32, range: Range) -> Result<Changes, NoMemory>
    ensures { IfOk result (λ changes. changes ≡ sel_changes window range) }
{
    let mut changes = Items::new(alloc);
    changes.push(Change::Sets {
        window,
        setting: Setting::Dot(range),
    })?;
    Ok(changes)
}

/// What selecting a range does to the windows.
#[tactic(auto, using(crate::proofs::Typed::typing))]
pub(crate) fn sel_changes(
    alloc: Global,
    windows: &Windows,
    window: u32,
    range: Range,
) -> Result<Changes, NoMemory>
    requires order { range.q0 ≤ range.q1 }
    requires inside { sel_refusal (window_at windows.now.present window) range ≡ None }
    ensures exact { IfOk result (λ changes. changes ≡ sel_changes window range) }
    ensures possible { IfOk result (CanBeMade windows.now.present) }
{
    let changes = dot_set(alloc, window, range)?;
    Ok(changes)
}
