//! Ranges of the texts of windows, which are executed and looked at.

ghost use Rattle.std.specs.Prelude.{◌≡◌, ◌+◌, ◌≤◌, nat_le, length, Some};
ghost use Rattle.core_windows.specs.Panes.{window_of};
ghost use Rattle.core_tasks.specs.Tasks.{acted_text};
ghost use Rattle.core_intents.specs.Spots.{text_refusal, spot_refusal, arg_refusal, len_if, words_len};

use crate::enabled::first_why;
use am_journal::{Side, Spot, Why};
use am_text::{Letters, Rune, SLASH};
use core_windows::{Pane, Windows};
use win_ctl::Shown;

fn len_if(shown: bool, len: usize) -> usize
    ensures exact { result ≡ len_if shown len }
    ensures small { result ≤ len }
{
    if shown { len } else { 0 }
}

// How many runes of a tag stand between the name and the right part: those of ` Del Snarf`, ` Undo`, ` Redo`,
// ` Put`, ` Get` and ` |`.
fn words_len(name: &[Rune], shown: Shown) -> usize
    ensures { result ≡ words_len name.now shown }
{
    let put = !name.is_empty() && shown.modified && !shown.dir;
    12 + len_if(shown.undo, 5) + len_if(shown.redo, 5) + len_if(put, 4) + len_if(shown.dir, 4)
}

// Whether a place lies in a text of three parts, or at its end.
fn is_in(place: usize, first: usize, words: usize, last: usize) -> bool
    ensures { result ≡ nat_le place (first + words + last) }
{
    place <= first || place - first <= words || place - first - words <= last
}

// Whether a place lies in the whole text of the tag, or at its end.
#[tactic(auto, using(crate::proofs::Tagged::tag_place))]
fn is_in_tag(pane: &Pane, place: usize) -> bool
    ensures { result ≡ nat_le place (length (acted_text (Some (window_of pane.now)) Side.Tag)) }
{
    let name = pane.name.as_slice();
    let shown = Shown {
        undo: pane.body.can_undo(),
        redo: pane.body.can_redo(),
        modified: pane.modified,
        dir: name.ends_with(&[SLASH]),
    };
    is_in(place, name.len(), words_len(name, shown), pane.right.len())
}

fn is_in_text(pane: &Pane, side: Side, place: usize) -> bool
    ensures { result ≡ nat_le place (length (acted_text (Some (window_of pane.now)) side)) }
{
    match side {
        Side::Body => place <= pane.body.len(),
        Side::Tag => is_in_tag(pane, place),
    }
}

fn text_refusal(pane: &Pane, at: Spot) -> Option<Why>
    ensures { result ≡ text_refusal (Some (window_of pane.now)) at }
{
    if is_in_text(pane, at.side, at.range.q1) {
        None
    } else {
        Some(Why::Range)
    }
}

/// Why a range can't be executed or looked at.
pub(crate) fn spot_refusal(windows: &Windows, at: Spot) -> Option<Why>
    ensures { result ≡ spot_refusal windows.now.present at }
{
    match windows.get(at.window) {
        Some(pane) => text_refusal(pane, at),
        None => Some(Why::Window),
    }
}

/// Why a range can't be executed with another one as the argument.
pub(crate) fn arg_refusal(windows: &Windows, at: Spot, chord: Spot) -> Option<Why>
    ensures { result ≡ arg_refusal windows.now.present at chord }
{
    let Some(pane) = windows.get(at.window) else {
        return Some(Why::Window);
    };
    let Some(other) = windows.get(chord.window) else {
        return Some(Why::Window);
    };
    first_why(text_refusal(pane, at), text_refusal(other, chord))
}
