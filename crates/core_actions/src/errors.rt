//! Texts for the window that takes what is said about a directory's windows, `+Errors` (acme(1)).

ghost use Rattle.std.specs.Prelude.{◌≡◌, ◌∷◌, [], false, IsSome, IfSome, IfOk, OnOk};
ghost use Rattle.core_windows.specs.Windows.{window_at};
ghost use Rattle.core_scene.specs.Scenes.{scene_of, kept_of, Did};
ghost use Rattle.core_actions.specs.Errors.{append_deeds, put_in, size_of, is_missing, is_dropped, errors_in};
ghost use Rattle.core_actions.specs.Errors.{errors_deeds};

use crate::deeds::{edit_window, make_with};
use crate::seen::{fits, size_at};
use acme_tree::world_is_full;
use am_text::{NoMemory, Range, Rune, Runes};
use core_addresses::replacement;
use core_scene::{Entry, Scene};
use std::alloc::Global;
use win_ctl::errors_name;

// Puts a text at the end of a window's body.
#[tactic(auto, using(crate::proofs::Windows::editing))]
fn append(
    alloc: Global,
    scene: &mut Scene,
    entry: Entry,
    window: u32,
    text: Runes,
) -> Result<(), NoMemory>
    requires { IsSome (window_at scene.old.windows.present window) }
    ensures ok { OnOk result (Did entry (scene_of scene.old) (scene_of scene.new)
        (append_deeds window text (scene_of scene.old))) }
    ensures kept { kept_of scene.new ≡ kept_of scene.old }
{
    let end = size_at(&scene.windows, window);
    let edits = replacement(alloc, Range { q0: end, q1: end }, text)?;
    edit_window(alloc, scene, entry, window, edits)
}

// How many runes the window has; a new one has none.
fn size_of(scene: &Scene, window: Option<u32>) -> usize
    ensures { result ≡ size_of window (scene_of scene.now) }
{
    match window {
        Some(window) => size_at(&scene.windows, window),
        None => 0,
    }
}

// Whether the window isn't there, and no more can be made.
fn is_missing(scene: &Scene, window: Option<u32>) -> bool
    ensures { result ≡ is_missing window (scene_of scene.now) }
{
    window.is_none() && world_is_full(scene.windows.world())
}

// Whether there is no text, or no place for it.
fn is_dropped(scene: &Scene, window: Option<u32>, text: &[Rune]) -> bool
    ensures exact { result ≡ is_dropped text.now window (scene_of scene.now) }
    ensures room { result ≡ false → is_missing window (scene_of scene.now) ≡ false }
{
    text.is_empty() || is_missing(scene, window) || !fits(size_of(scene, window), text.len())
}

// Puts a text at the end of that window, or of one that is made.
fn put_in(
    alloc: Global,
    scene: &mut Scene,
    entry: Entry,
    place: (Runes, Option<u32>),
    text: Runes,
) -> Result<(), NoMemory>
    requires lives { IfSome place.1 (λ w. IsSome (window_at scene.old.windows.present w)) }
    requires room { is_missing place.1 (scene_of scene.old) ≡ false }
    ensures ok { OnOk result (Did entry (scene_of scene.old) (scene_of scene.new)
        (put_in place.0 text place.1 (scene_of scene.old))) }
    ensures kept { kept_of scene.new ≡ kept_of scene.old }
{
    let (name, window) = place;
    match window {
        Some(window) => append(alloc, scene, entry, window, text),
        None => {
            make_with(alloc, scene, entry, name, text)?;
            Ok(())
        }
    }
}

/// Puts a text at the end of the errors window of a directory, which is made where there is none.
///
/// The text is dropped where it is empty, where the window would have more than 16,777,216 runes, and where the window
/// can't be made.
pub fn append_errors(
    alloc: Global,
    scene: &mut Scene,
    entry: Entry,
    directory: &[Rune],
    text: Runes,
) -> Result<(), NoMemory>
    ensures ok { OnOk result (Did entry (scene_of scene.old) (scene_of scene.new)
        (errors_deeds entry directory.now text (scene_of scene.old))) }
    ensures kept { kept_of scene.new ≡ kept_of scene.old }
{
    let name = errors_name(alloc, directory)?;
    let window = scene.windows.named(name.as_slice());
    if is_dropped(scene, window, text.as_slice()) {
        return Ok(());
    }
    put_in(alloc, scene, entry, (name, window), text)
}
