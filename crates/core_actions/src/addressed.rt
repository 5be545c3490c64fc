//! Addresses of windows' texts behind names, and the dot that they give.

ghost use Rattle.std.specs.Prelude.{◌≡◌, ◌<◌, IsSome, IfSome, IfOk, OnOk, option_copied, length, position};
ghost use Rattle.addr_syntax.specs.Addresses.{small_address};
ghost use Rattle.win_text.specs.Bodies.{IsInside};
ghost use Rattle.core_windows.specs.Possible.{text_in};
ghost use Rattle.core_windows.specs.Windows.{window_at};
ghost use Rattle.core_scene.specs.Scenes.{scene_of, kept_of, Did};
ghost use Rattle.core_actions.specs.Addressed.{is_colon, name_part, address_part, range_of, range_in, dot_to};
ghost use Rattle.core_actions.specs.Addressed.{address_deeds};

use crate::deeds::set_in_window;
use addr_syntax::read_address;
use am_text::{COLON, Letters, NoMemory, Range, Rune};
use core_scene::{Entry, Scene, Setting, Windows};
use sam_address::{AddrFault, value};
use std::alloc::Global;
use win_text::Body;

// The place of the first colon.
fn colon_in(text: &[Rune]) -> Option<usize>
    ensures place { result ≡ position is_colon text.now }
    ensures inside { IfSome result (λ at. at < length text.now) }
{
    text.iter().position(|rune| *rune == COLON)
}

/// The text up to its first colon.
pub(crate) fn name_part(text: &[Rune]) -> &[Rune]
    ensures { result.now ≡ name_part text.now }
{
    match colon_in(text) {
        Some(at) => &text[..at],
        None => text,
    }
}

/// The text behind its first colon, if it has one.
pub(crate) fn address_part(text: &[Rune]) -> Option<&[Rune]>
    ensures { option_copied result ≡ address_part text.now }
{
    match colon_in(text) {
        Some(at) => Some(&text[at + 1..]),
        None => None,
    }
}

// The range that an address names in a body, in which `.` is dot.
fn range_of(alloc: Global, body: &Body, address: &[Rune]) -> Result<Option<Range>, NoMemory>
    ensures exact { IfOk result (λ range. range ≡ range_of body.now.state (small_address address.now)) }
    ensures inside { IfOk result (λ range. IfSome range (IsInside body.now.state.text)) }
{
    // law: the ranges of a body are inside its text
    body.is_sound();
    let whole = Range {
        q0: 0,
        q1: body.len(),
    };
    let found = match read_address(alloc, address)? {
        Some(address) => value(alloc, &address, body, body.dot(), whole),
        None => return Ok(None),
    };
    match found {
        Ok(range) => Ok(Some(range)),
        Err(AddrFault::Range) => Ok(None),
        Err(AddrFault::NoMatch) => Ok(None),
        Err(AddrFault::Order) => Ok(None),
        Err(AddrFault::NoMemory) => Err(NoMemory),
    }
}

// The range that an address names in a window.
fn range_in(
    alloc: Global,
    windows: &Windows,
    window: u32,
    address: &[Rune],
) -> Result<Option<Range>, NoMemory>
    ensures exact { IfOk result (λ range. range ≡ range_in (window_at windows.now.present window) address.now) }
    ensures inside { IfOk result (λ range. IfSome range (IsInside (text_in (window_at windows.now.present window)))) }
{
    match windows.get(window) {
        Some(pane) => range_of(alloc, &pane.body, address),
        None => Ok(None),
    }
}

/// A range becomes dot, if there is one.
#[tactic(auto, using(crate::proofs::Windows::joins))]
pub(crate) fn dot_to(
    alloc: Global,
    scene: &mut Scene,
    entry: Entry,
    window: u32,
    range: Option<Range>,
) -> Result<(), NoMemory>
    requires lives { IsSome (window_at scene.old.windows.present window) }
    requires inside { IfSome range (IsInside (text_in (window_at scene.old.windows.present window))) }
    ensures ok { OnOk result (Did entry (scene_of scene.old) (scene_of scene.new) (dot_to window range)) }
    ensures kept { kept_of scene.new ≡ kept_of scene.old }
{
    match range {
        Some(range) => set_in_window(alloc, scene, entry, window, Setting::Dot(range)),
        None => Ok(()),
    }
}

/// The range of an address becomes dot, if there is one and it has a value.
#[tactic(auto, using(crate::proofs::Windows::joins))]
pub(crate) fn set_dot(
    alloc: Global,
    scene: &mut Scene,
    entry: Entry,
    window: u32,
    address: Option<&[Rune]>,
) -> Result<(), NoMemory>
    requires { IsSome (window_at scene.old.windows.present window) }
    ensures ok { OnOk result (Did entry (scene_of scene.old) (scene_of scene.new)
        (address_deeds window (option_copied address.entry) (scene_of scene.old))) }
    ensures kept { kept_of scene.new ≡ kept_of scene.old }
{
    let Some(address) = address else {
        return Ok(());
    };
    let range = range_in(alloc, &scene.windows, window, address)?;
    dot_to(alloc, scene, entry, window, range)
}
