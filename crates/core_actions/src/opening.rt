//! Names that are opened: New, and Look at a name (acme(1)).

ghost use Rattle.std.specs.Prelude.{◌≡◌, ◌∷◌, [], List, Option, false, IsSome, IfSome, IfOk, OnOk, option_copied};
ghost use Rattle.acme_cmd.specs.Names.{whole_name};
ghost use Rattle.acme_tree.specs.Trees.{world_is_full};
ghost use Rattle.am_text.specs.Utf8.{utf8};
ghost use Rattle.name_tree.specs.Listing.{found_at};
ghost use Rattle.core_windows.specs.Windows.{Window, window_at, world_of};
ghost use Rattle.core_scene.specs.Scenes.{scene_of, kept_of, Did};
ghost use Rattle.core_actions.specs.Addressed.{name_part, address_part};
ghost use Rattle.core_actions.specs.Made.{next_window};
ghost use Rattle.core_actions.specs.Seen.{dir_of};
ghost use Rattle.core_actions.specs.Opening.{dir_name, shown_if_fits, shown_as, file_target, target_of, IsThere};
ghost use Rattle.core_actions.specs.Opening.{show_deeds, show_at, open_deeds, empty_deeds, open_or_make, named_deeds};
ghost use Rattle.core_actions.specs.Opening.{new_deeds};

use crate::addressed::{address_part, name_part, set_dot};
use crate::deeds::{make_with, set_in_window};
use crate::paths::{is_place, is_root, without_slash};
use crate::seen::{dir_at, fits};
use acme_cmd::whole;
use acme_tree::world_is_full;
use am_text::{NoMemory, Rune, Runes, SLASH, decode_whole, encode};
use core_scene::{Change, Deed, Entry, Found, Scene, Setting, Tree, Windows};
use std::alloc::Global;

/// What a name opens.
#[derive(Drop)]
pub enum Target {
    /// The live window of this number.
    Live(u32),
    /// A new window of this name that shows the text of a file or a directory.
    New { name: Runes, text: Runes },
}

// The name of the window of a directory's path.
fn dir_name(alloc: Global, path: &[Rune]) -> Result<Runes, NoMemory>
    ensures { IfOk result (λ name. name ≡ dir_name path.now) }
{
    let mut name = Runes::copied(alloc, path)?;
    if !is_root(path) {
        name.push(SLASH)?;
    }
    Ok(name)
}

fn shown_if_fits(name: Runes, text: Runes) -> Option<Target>
    ensures exact { result ≡ shown_if_fits name text }
    ensures there { (windows : List (Option Window)) → IfSome result (IsThere windows) }
{
    if fits(0, text.len()) {
        Some(Target::New { name, text })
    } else {
        None
    }
}

// What is found at a path, where a body has room for its text.
fn shown_as(alloc: Global, path: &[Rune], found: Found) -> Result<Option<Target>, NoMemory>
    ensures exact { IfOk result (λ target. target ≡ shown_as path.now found) }
    ensures there { IfOk result (λ target. (windows : List (Option Window)) → IfSome target (IsThere windows)) }
{
    match found {
        Found::None => Ok(None),
        Found::File(bytes) => {
            let text = decode_whole(alloc, bytes.as_slice())?;
            Ok(shown_if_fits(Runes::copied(alloc, path)?, text))
        }
        Found::Dir(bytes) => {
            let text = decode_whole(alloc, bytes.as_slice())?;
            Ok(shown_if_fits(dir_name(alloc, path)?, text))
        }
    }
}

// The file or directory of a path.
fn file_target(alloc: Global, files: &Tree, path: &[Rune]) -> Result<Option<Target>, NoMemory>
    ensures exact { IfOk result (λ target. target ≡ file_target path.now files.now.present) }
    ensures there { IfOk result (λ target. (windows : List (Option Window)) → IfSome target (IsThere windows)) }
{
    if !is_place(path) {
        return Ok(None);
    }
    let bytes = encode(alloc, &Runes::copied(alloc, path)?)?;
    let found = files.get(bytes.as_slice())?;
    shown_as(alloc, path, found)
}

/// What a whole name opens: the live window of least number that has it, or else a new window of the file
/// or directory of that name without a last `/`, where a body has room for its text. A directory's window
/// has a name that ends in `/`.
pub fn target_of(alloc: Global, scene: &Scene, name: &[Rune]) -> Result<Option<Target>, NoMemory>
    ensures exact { IfOk result (λ target. target ≡ target_of name.now (scene_of scene.now)) }
    ensures there { IfOk result (λ target. IfSome target (IsThere scene.now.windows.present)) }
{
    match scene.windows.named(name) {
        Some(window) => Ok(Some(Target::Live(window))),
        None => file_target(alloc, &scene.files, without_slash(name)),
    }
}

// Makes a window that has this text and counts as unmodified. It lives.
#[tactic(auto, using(crate::proofs::Windows::made))]
fn show(
    alloc: Global,
    scene: &mut Scene,
    entry: Entry,
    name: Runes,
    text: Runes,
) -> Result<u32, NoMemory>
    requires { world_is_full (world_of scene.old.windows.present) ≡ false }
    ensures ok { OnOk result (Did entry (scene_of scene.old) (scene_of scene.new)
        (show_deeds name text (scene_of scene.old))) }
    ensures number { IfOk result (λ w. w ≡ next_window (scene_of scene.old)) }
    ensures lives { IfOk result (λ w. IsSome (window_at scene.new.windows.present w)) }
    ensures kept { kept_of scene.new ≡ kept_of scene.old }
{
    let window = make_with(alloc, scene, entry, name, text)?;
    set_in_window(alloc, scene, entry, window, Setting::Clean)?;
    Ok(window)
}

/// Opens what a name opens, and an address sets its dot, if there is one and it has a value there. Where the window is
/// to be made and no more can be, nothing is done.
#[tactic(auto, using(crate::proofs::Windows::joins))]
pub fn open(
    alloc: Global,
    scene: &mut Scene,
    entry: Entry,
    target: Target,
    address: Option<&[Rune]>,
) -> Result<(), NoMemory>
    requires { IsThere scene.old.windows.present target }
    ensures ok { OnOk result (Did entry (scene_of scene.old) (scene_of scene.new)
        (open_deeds entry target (option_copied address.entry) (scene_of scene.old))) }
    ensures kept { kept_of scene.new ≡ kept_of scene.old }
{
    match target {
        Target::Live(window) => set_dot(alloc, scene, entry, window, address),
        Target::New { name, text } => {
            if world_is_full(scene.windows.world()) {
                return Ok(());
            }
            let window = show(alloc, scene, entry, name, text)?;
            set_dot(alloc, scene, entry, window, address)
        }
    }
}

// Makes a window of this name, without a text, where one more can be made.
#[tactic(auto, using(crate::proofs::Windows::joins))]
fn make_empty(alloc: Global, scene: &mut Scene, entry: Entry, name: Runes) -> Result<(), NoMemory>
    ensures ok { OnOk result (Did entry (scene_of scene.old) (scene_of scene.new)
        (empty_deeds name (scene_of scene.old))) }
    ensures kept { kept_of scene.new ≡ kept_of scene.old }
{
    if world_is_full(scene.windows.world()) {
        return Ok(());
    }
    scene.act(alloc, entry, Deed::Windows(Change::Makes { name }))
}

// What a whole name opens.
fn opened_by(alloc: Global, scene: &Scene, name: &Runes) -> Result<Option<Target>, NoMemory>
    ensures exact { IfOk result (λ target. target ≡ target_of name.now (scene_of scene.now)) }
    ensures there { IfOk result (λ target. IfSome target (IsThere scene.now.windows.present)) }
{
    target_of(alloc, scene, name.as_slice())
}

/// Opens what a whole name opens, or else makes an empty window of that name.
#[tactic(auto, using(crate::proofs::Windows::joins))]
pub fn open_or_make(
    alloc: Global,
    scene: &mut Scene,
    entry: Entry,
    name: Runes,
    address: Option<&[Rune]>,
) -> Result<(), NoMemory>
    ensures ok { OnOk result (Did entry (scene_of scene.old) (scene_of scene.new)
        (named_deeds entry name (option_copied address.entry) (scene_of scene.old))) }
    ensures kept { kept_of scene.new ≡ kept_of scene.old }
{
    match opened_by(alloc, scene, &name)? {
        Some(target) => open(alloc, scene, entry, target, address),
        None => make_empty(alloc, scene, entry, name),
    }
}

/// The name in a text, up to a colon, made whole with a window's directory.
pub(crate) fn name_in(
    alloc: Global,
    windows: &Windows,
    window: u32,
    text: &[Rune],
) -> Result<Runes, NoMemory>
    ensures { IfOk result (λ name. name ≡ whole_name (dir_of (window_at windows.now.present window))
        (name_part text.now)) }
{
    let dir = dir_at(alloc, windows, window)?;
    whole(alloc, dir.as_slice(), name_part(text))
}

// What an argument opens in a window's directory, or an empty window of its name.
fn new_named(
    alloc: Global,
    scene: &mut Scene,
    entry: Entry,
    window: u32,
    argument: &[Rune],
) -> Result<(), NoMemory>
    ensures ok { OnOk result (Did entry (scene_of scene.old) (scene_of scene.new)
        (named_deeds entry (whole_name (dir_of (window_at scene.old.windows.present window)) (name_part argument.now))
        (address_part argument.now) (scene_of scene.old))) }
    ensures kept { kept_of scene.new ≡ kept_of scene.old }
{
    let name = name_in(alloc, &scene.windows, window, argument)?;
    open_or_make(alloc, scene, entry, name, address_part(argument))
}

/// New: an empty window; with an argument what its name opens in the window's directory, with the address behind its
/// colon, or else an empty window of that name.
#[tactic(auto, using(crate::proofs::Windows::joins))]
pub fn new_window(
    alloc: Global,
    scene: &mut Scene,
    entry: Entry,
    window: u32,
    argument: &[Rune],
) -> Result<(), NoMemory>
    ensures ok { OnOk result (Did entry (scene_of scene.old) (scene_of scene.new)
        (new_deeds entry window argument.now (scene_of scene.old))) }
    ensures kept { kept_of scene.new ≡ kept_of scene.old }
{
    if argument.is_empty() {
        return make_empty(alloc, scene, entry, Runes::new(alloc));
    }
    new_named(alloc, scene, entry, window, argument)
}
