//! What actions see of a window; of one that doesn't live, nothing.

ghost use Rattle.std.specs.Prelude.{◌≡◌, length, IfOk};
ghost use Rattle.win_text.specs.Bodies.{IsInside};
ghost use Rattle.core_windows.specs.Possible.{text_in};
ghost use Rattle.core_windows.specs.Windows.{window_at};
ghost use Rattle.core_actions.specs.Seen.{name_of, dir_of, dot_of, dot_text, fits, is_dir_name, is_guarded, asks};

use am_text::{Letters, NoMemory, Range, Rune, Runes, SLASH};
use core_scene::Windows;
use std::alloc::Global;
use win_ctl::{ERRORS, directory};
use win_text::BODY_RUNES;

/// The null range at the front.
pub(crate) const FRONT: Range = Range { q0: 0, q1: 0 };

/// Whether a body of so many runes has room for so many more.
pub fn fits(len: usize, more: usize) -> bool
    ensures { result ≡ fits len more }
{
    more <= BODY_RUNES && len <= BODY_RUNES - more
}

// Whether this is the name of a directory.
fn is_dir_name(name: &[Rune]) -> bool
    ensures { result ≡ is_dir_name name.now }
{
    name.ends_with(&[SLASH])
}

fn is_guarded(name: &[Rune]) -> bool
    ensures { result ≡ is_guarded name.now }
{
    !name.is_empty() && !is_dir_name(name) && !name.ends_with(&ERRORS)
}

/// Whether a window is modified, and its name is one that `del` and Del ask of: not an empty one, a directory's, or
/// one of an errors window.
pub fn asks(windows: &Windows, window: u32) -> bool
    ensures { result ≡ asks (window_at windows.now.present window) }
{
    match windows.get(window) {
        Some(pane) => pane.modified && is_guarded(pane.name.as_slice()),
        None => false,
    }
}

/// The name of a window.
pub fn name_at(alloc: Global, windows: &Windows, window: u32) -> Result<Runes, NoMemory>
    ensures { IfOk result (λ name. name ≡ name_of (window_at windows.now.present window)) }
{
    match windows.get(window) {
        Some(pane) => Runes::copied(alloc, pane.name.as_slice()),
        None => Ok(Runes::new(alloc)),
    }
}

/// The directory of a window's name.
pub fn dir_at(alloc: Global, windows: &Windows, window: u32) -> Result<Runes, NoMemory>
    ensures { IfOk result (λ dir. dir ≡ dir_of (window_at windows.now.present window)) }
{
    let name = name_at(alloc, windows, window)?;
    directory(alloc, name.as_slice())
}

/// How many runes the body of a window has.
pub fn size_at(windows: &Windows, window: u32) -> usize
    ensures { result ≡ length (text_in (window_at windows.now.present window)) }
{
    match windows.get(window) {
        Some(pane) => pane.body.len(),
        None => 0,
    }
}

/// The text of a window's body.
pub(crate) fn text_at(alloc: Global, windows: &Windows, window: u32) -> Result<Runes, NoMemory>
    ensures { IfOk result (λ text. text ≡ text_in (window_at windows.now.present window)) }
{
    match windows.get(window) {
        Some(pane) => pane.body.text(),
        None => Ok(Runes::new(alloc)),
    }
}

/// What is selected in a window.
pub fn dot_at(windows: &Windows, window: u32) -> Range
    ensures exact { result ≡ dot_of (window_at windows.now.present window) }
    ensures inside { IsInside (text_in (window_at windows.now.present window)) result }
{
    match windows.get(window) {
        Some(pane) => {
            // law: the ranges of a body are inside its text
            pane.body.is_sound();
            pane.body.dot()
        }
        None => FRONT,
    }
}

/// The text that is selected in a window.
pub fn dot_text_at(alloc: Global, windows: &Windows, window: u32) -> Result<Runes, NoMemory>
    ensures { IfOk result (λ text. text ≡ dot_text (window_at windows.now.present window)) }
{
    match windows.get(window) {
        Some(pane) => {
            // law: the ranges of a body are inside its text
            pane.body.is_sound();
            let dot = pane.body.dot();
            pane.body.slice(dot.q0, dot.q1)
        }
        None => Ok(Runes::new(alloc)),
    }
}
