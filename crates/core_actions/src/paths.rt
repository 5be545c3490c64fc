//! The paths that names of files stand for.

ghost use Rattle.std.specs.Prelude.{◌≡◌, IfOk};
ghost use Rattle.name_tree.specs.Paths.{is_root};
ghost use Rattle.core_windows.specs.Windows.{window_at};
ghost use Rattle.core_actions.specs.Paths.{without_last_slash, without_slash, path_named, is_place, place_or_fault};
ghost use Rattle.core_actions.specs.Paths.{named_or_fault, name_or_own, path_of};

use crate::fault::ActionFault;
use crate::seen::{dir_at, name_at};
use acme_cmd::{is_path, whole};
use am_text::{NoMemory, Rune, Runes, SLASH};
use core_scene::Windows;
use std::alloc::Global;

/// Whether the path is `/`.
pub(crate) fn is_root(path: &[Rune]) -> bool
    ensures { result ≡ is_root path.now }
{
    match path {
        [rune] => *rune == SLASH,
        _ => false,
    }
}

// A name without a last `/`.
fn without_last_slash(name: &[Rune]) -> &[Rune]
    ensures { result.now ≡ without_last_slash name.now }
{
    match name.strip_suffix(&[SLASH]) {
        Some(front) => front,
        None => name,
    }
}

/// A name without a last `/`, which `/` itself keeps.
pub(crate) fn without_slash(name: &[Rune]) -> &[Rune]
    ensures { result.now ≡ without_slash name.now }
{
    if is_root(name) {
        name
    } else {
        without_last_slash(name)
    }
}

/// The path of a name that is made whole with a directory.
pub(crate) fn path_named(alloc: Global, dir: &[Rune], name: &[Rune]) -> Result<Runes, NoMemory>
    ensures { IfOk result (λ path. path ≡ path_named dir.now name.now) }
{
    let name = whole(alloc, dir, name)?;
    Runes::copied(alloc, without_slash(name.as_slice()))
}

/// Whether a file or a directory may be there.
pub(crate) fn is_place(path: &[Rune]) -> bool
    ensures { result ≡ is_place path.now }
{
    is_root(path) || is_path(path)
}

fn place_or_fault(path: Runes) -> Result<Runes, ActionFault>
    ensures { result ≡ place_or_fault path }
{
    if is_place(path.as_slice()) {
        Ok(path)
    } else {
        Err(ActionFault::FileNotFound)
    }
}

fn named_or_fault(
    alloc: Global,
    dir: &[Rune],
    name: &[Rune],
) -> Result<Result<Runes, ActionFault>, NoMemory>
    ensures { IfOk result (λ path. path ≡ named_or_fault dir.now name.now) }
{
    if name.is_empty() {
        return Ok(Err(ActionFault::NoFileName));
    }
    Ok(place_or_fault(path_named(alloc, dir, name)?))
}

// The name, or the other one where it is empty.
fn name_or_own<'a>(own: &'a [Rune], name: &'a [Rune]) -> &'a [Rune]
    ensures { result.now ≡ name_or_own own.now name.now }
{
    if name.is_empty() { own } else { name }
}

/// The path of the argument of Get or Put, or else of the window's name, made whole with the window's
/// directory; or why there is none.
pub fn path_of(
    alloc: Global,
    windows: &Windows,
    window: u32,
    name: &[Rune],
) -> Result<Result<Runes, ActionFault>, NoMemory>
    ensures { IfOk result (λ path. path ≡ path_of (window_at windows.now.present window) name.now) }
{
    let own = name_at(alloc, windows, window)?;
    let dir = dir_at(alloc, windows, window)?;
    named_or_fault(alloc, dir.as_slice(), name_or_own(own.as_slice(), name))
}
