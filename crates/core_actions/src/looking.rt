//! Look: at a name, or else at the next place of a text (acme(1)).

ghost use Rattle.std.specs.Prelude.{◌≡◌, ◌+◌, ◌≤◌, ◌<◌, ◌^◌, length, IsSome, IfSome, IfOk, OnOk, if◌then◌else◌, ◌==◌};
ghost use Rattle.win_text.specs.Bodies.{IsInside};
ghost use Rattle.core_windows.specs.Possible.{text_in};
ghost use Rattle.core_windows.specs.Windows.{window_at};
ghost use Rattle.core_scene.specs.Scenes.{scene_of, kept_of, Did};
ghost use Rattle.core_actions.specs.Seen.{dot_text};
ghost use Rattle.core_actions.specs.Opening.{IsThere};
ghost use Rattle.core_actions.specs.Looking.{place_from, place_of, range_at, range_found, search_deeds, find_deeds};
ghost use Rattle.core_actions.specs.Looking.{look_target, look_deeds};

use crate::addressed::{address_part, dot_to};
use crate::opening::{Target, name_in, open, target_of};
use crate::seen::dot_text_at;
use am_text::{NoMemory, Range, Rune};
use core_scene::{Entry, Scene, Windows};
use std::alloc::Global;
use win_text::Body;

// The first place in a text at which the other one stands, where the text begins at this place.
fn place_from(start: usize, wanted: &[Rune], text: &[Rune]) -> Option<usize>
    requires { start + length text.now < 2 ^ 64 }
    ensures exact { result ≡ place_from start wanted.now text.now }
    ensures inside { IfSome result (λ at. at + length wanted.now ≤ start + length text.now) }
{
    let mut at = start;
    let mut rest = text;
    while let [_, after @ ..] = rest {
        if rest.starts_with(wanted) {
            return Some(at);
        }
        at += 1;
        rest = after;
    }
    if wanted.is_empty() { Some(at) } else { None }
}

// The first place from there on, or else the first of all.
fn place_of(wanted: &[Rune], text: &[Rune], from: usize) -> Option<usize>
    requires { from ≤ length text.now }
    ensures exact { result ≡ place_of wanted.now text.now from }
    ensures inside { IfSome result (λ at. at + length wanted.now ≤ length text.now) }
{
    match place_from(from, wanted, &text[from..]) {
        Some(at) => Some(at),
        None => place_from(0, wanted, text),
    }
}

fn range_at(len: usize, place: Option<usize>) -> Option<Range>
    requires { IfSome place (λ at. at + len < 2 ^ 64) }
    ensures { result ≡ range_at len place }
{
    match place {
        Some(at) => Some(Range {
            q0: at,
            q1: at + len,
        }),
        None => None,
    }
}

// The next place of a text in a body, from the end of dot on, and around.
fn found_in(alloc: Global, body: &Body, wanted: &[Rune]) -> Result<Option<Range>, NoMemory>
    ensures exact { IfOk result (λ range. range ≡ range_at (length wanted.now)
        (place_of wanted.now body.now.state.text body.now.state.dot.q1)) }
    ensures inside { IfOk result (λ range. IfSome range (IsInside body.now.state.text)) }
{
    // law: the ranges of a body are inside its text
    body.is_sound();
    let text = body.text()?;
    let place = place_of(wanted, text.as_slice(), body.dot().q1);
    Ok(range_at(wanted.len(), place))
}

fn range_found(
    alloc: Global,
    windows: &Windows,
    window: u32,
    wanted: &[Rune],
) -> Result<Option<Range>, NoMemory>
    ensures exact { IfOk result (λ range. range ≡ range_found (window_at windows.now.present window) wanted.now) }
    ensures inside { IfOk result (λ range. IfSome range (IsInside (text_in (window_at windows.now.present window)))) }
{
    match windows.get(window) {
        Some(pane) => found_in(alloc, &pane.body, wanted),
        None => Ok(None),
    }
}

/// The next place of a text in a window becomes dot: the first from the end of dot on, or else the first of all. Where
/// the text stands nowhere, nothing is done.
#[tactic(auto, using(crate::proofs::Windows::joins))]
pub fn search(
    alloc: Global,
    scene: &mut Scene,
    entry: Entry,
    window: u32,
    wanted: &[Rune],
) -> Result<(), NoMemory>
    requires { IsSome (window_at scene.old.windows.present window) }
    ensures ok { OnOk result (Did entry (scene_of scene.old) (scene_of scene.new)
        (search_deeds window wanted.now (scene_of scene.old))) }
    ensures kept { kept_of scene.new ≡ kept_of scene.old }
{
    let range = range_found(alloc, &scene.windows, window, wanted)?;
    dot_to(alloc, scene, entry, window, range)
}

/// The built-in Look: a search for the argument, or for the text that is selected where the argument is empty.
#[tactic(auto, using(crate::proofs::Windows::joins))]
pub fn find(
    alloc: Global,
    scene: &mut Scene,
    entry: Entry,
    window: u32,
    argument: &[Rune],
) -> Result<(), NoMemory>
    requires { IsSome (window_at scene.old.windows.present window) }
    ensures ok { OnOk result (Did entry (scene_of scene.old) (scene_of scene.new)
        (find_deeds window argument.now (scene_of scene.old))) }
    ensures kept { kept_of scene.new ≡ kept_of scene.old }
{
    if argument.is_empty() {
        let selected = dot_text_at(alloc, &scene.windows, window)?;
        search(alloc, scene, entry, window, selected.as_slice())
    } else {
        search(alloc, scene, entry, window, argument)
    }
}

/// What a text opens as a name, up to a colon, in a window's directory.
pub fn look_target(
    alloc: Global,
    scene: &Scene,
    window: u32,
    text: &[Rune],
) -> Result<Option<Target>, NoMemory>
    ensures exact { IfOk result (λ target. target ≡ look_target window text.now (scene_of scene.now)) }
    ensures there { IfOk result (λ target. IfSome target (IsThere scene.now.windows.present)) }
{
    let name = name_in(alloc, &scene.windows, window, text)?;
    target_of(alloc, scene, name.as_slice())
}

/// Look at a text of a window: it is opened as a name in the window's directory, with the address behind its colon, or
/// else searched for in the window's body.
#[tactic(auto, using(crate::proofs::Windows::joins))]
pub fn look(
    alloc: Global,
    scene: &mut Scene,
    entry: Entry,
    window: u32,
    text: &[Rune],
) -> Result<(), NoMemory>
    requires { IsSome (window_at scene.old.windows.present window) }
    ensures ok { OnOk result (Did entry (scene_of scene.old) (scene_of scene.new)
        (look_deeds entry window text.now (scene_of scene.old))) }
    ensures kept { kept_of scene.new ≡ kept_of scene.old }
{
    match look_target(alloc, scene, window, text)? {
        Some(target) => open(alloc, scene, entry, target, address_part(text)),
        None => search(alloc, scene, entry, window, text),
    }
}
