//! Get and Put.

ghost use Rattle.std.specs.Prelude.{◌≡◌, ◌∷◌, [], false, IsSome, IfOk, OnOk, Ok};
ghost use Rattle.am_text.specs.Utf8.{utf8};
ghost use Rattle.name_tree.specs.Kinds.{file_clashes};
ghost use Rattle.name_tree.specs.Listing.{found_at};
ghost use Rattle.core_windows.specs.Windows.{window_at};
ghost use Rattle.core_scene.specs.Scenes.{scene_of, kept_of, Did};
ghost use Rattle.core_scene.specs.declared.deed.Deed.TheVariants as deed;
ghost use Rattle.core_actions.specs.Seen.{dir_of};
ghost use Rattle.core_actions.specs.Files.{text_found, file_text, fill_deeds, fill_outcome, get_outcome, save_job};
ghost use Rattle.core_actions.specs.Files.{store_deeds, is_own, clean_if, put_deeds, put_at, put_outcome};

use crate::deeds::{edit_and_set, set_in_window};
use crate::fault::ActionFault;
use crate::paths::{path_named, path_of};
use crate::seen::{dir_at, fits, name_at, size_at, text_at};
use am_text::{NoMemory, Range, Rune, Runes, decode_whole, encode};
use core_addresses::replacement;
use core_scene::{Deed, Entry, Found, Job, JobKind, Op, Scene, Setting, Tree, Windows};
use std::alloc::Global;

/// A text, and the path under which it is stored.
#[derive(Drop)]
pub struct Saved {
    pub path: Runes,
    pub text: Runes,
}

// The text of the file or directory of a path.
fn text_found(
    alloc: Global,
    files: &Tree,
    path: &Runes,
) -> Result<Result<Runes, ActionFault>, NoMemory>
    ensures { IfOk result (λ text. text ≡ text_found (found_at files.now.present (utf8 path.now))) }
{
    let path = encode(alloc, path)?;
    match files.get(path.as_slice())? {
        Found::None => Ok(Err(ActionFault::FileNotFound)),
        Found::File(bytes) => Ok(Ok(decode_whole(alloc, bytes.as_slice())?)),
        Found::Dir(bytes) => Ok(Ok(decode_whole(alloc, bytes.as_slice())?)),
    }
}

/// The text of the file or directory of a name, or else of the window's name, made whole with the window's directory: a
/// directory's is a line for each of its names. Or why there is none: `NoFileName` where both names are empty, else
/// `FileNotFound`.
pub fn file_text(
    alloc: Global,
    scene: &Scene,
    window: u32,
    name: &[Rune],
) -> Result<Result<Runes, ActionFault>, NoMemory>
    ensures { IfOk result (λ text. text ≡ file_text window name.now (scene_of scene.now)) }
{
    match path_of(alloc, &scene.windows, window, name)? {
        Ok(path) => text_found(alloc, &scene.files, &path),
        Err(fault) => Ok(Err(fault)),
    }
}

// The text takes the place of the body, which counts as unmodified.
#[tactic(auto, using(crate::proofs::Windows::editing))]
fn fill(
    alloc: Global,
    scene: &mut Scene,
    entry: Entry,
    window: u32,
    text: Runes,
) -> Result<(), NoMemory>
    requires { IsSome (window_at scene.old.windows.present window) }
    ensures ok { OnOk result (Did entry (scene_of scene.old) (scene_of scene.new)
        (fill_deeds window text (scene_of scene.old))) }
    ensures kept { kept_of scene.new ≡ kept_of scene.old }
{
    let whole = Range {
        q0: 0,
        q1: size_at(&scene.windows, window),
    };
    let edits = replacement(alloc, whole, text)?;
    edit_and_set(alloc, scene, entry, window, (edits, Setting::Clean))
}

// What was done to a window is noted for the file `log`.
fn note(alloc: Global, scene: &mut Scene, entry: Entry, window: u32, op: Op) -> Result<(), NoMemory>
    ensures ok { OnOk result (Did entry (scene_of scene.old) (scene_of scene.new) (deed.Notes window op ∷ [])) }
    ensures kept { kept_of scene.new ≡ kept_of scene.old }
{
    scene.act(alloc, entry, Deed::Notes { window, op })
}

/// Get: the text of the file or directory of a name, or else of the window's name, takes the place of the body, which
/// then counts as unmodified. It is noted for the file `log`, with the window's name.
///
/// It isn't done where there is no such text, or where it has more than 16,777,216 runes.
#[tactic(auto, using(crate::proofs::Windows::joins))]
pub fn get(
    alloc: Global,
    scene: &mut Scene,
    entry: Entry,
    window: u32,
    name: &[Rune],
) -> Result<Option<ActionFault>, NoMemory>
    requires { IsSome (window_at scene.old.windows.present window) }
    ensures fault { IfOk result (λ fault. fault ≡ (get_outcome window name.now (scene_of scene.old)).fault) }
    ensures ok { OnOk result (Did entry (scene_of scene.old) (scene_of scene.new)
        (get_outcome window name.now (scene_of scene.old)).deeds) }
    ensures kept { kept_of scene.new ≡ kept_of scene.old }
{
    match file_text(alloc, scene, window, name)? {
        Ok(text) => fill_if_fits(alloc, scene, entry, window, text),
        Err(fault) => Ok(Some(fault)),
    }
}

#[tactic(auto, using(crate::proofs::Windows::joins))]
fn fill_if_fits(
    alloc: Global,
    scene: &mut Scene,
    entry: Entry,
    window: u32,
    text: Runes,
) -> Result<Option<ActionFault>, NoMemory>
    requires { IsSome (window_at scene.old.windows.present window) }
    ensures fault { IfOk result (λ fault. fault ≡ (fill_outcome window (Ok text) (scene_of scene.old)).fault) }
    ensures ok { OnOk result (Did entry (scene_of scene.old) (scene_of scene.new)
        (fill_outcome window (Ok text) (scene_of scene.old)).deeds) }
    ensures kept { kept_of scene.new ≡ kept_of scene.old }
{
    if !fits(0, text.len()) {
        return Ok(Some(ActionFault::TextTooLong));
    }
    fill(alloc, scene, entry, window, text)?;
    note(alloc, scene, entry, window, Op::Get)?;
    Ok(None)
}

// The request to save a text.
fn save_job(alloc: Global, windows: &Windows, window: u32, saved: Saved) -> Result<Job, NoMemory>
    ensures { IfOk result (λ job. job ≡ save_job window (dir_of (window_at windows.now.present window)) saved) }
{
    let Saved { path, text } = saved;
    Ok(Job {
        kind: JobKind::Save,
        window,
        dir: dir_at(alloc, windows, window)?,
        command: path,
        input: text,
    })
}

/// Stores a text, and requests a program to save it. The windows stay as they are.
#[tactic(auto, using(crate::proofs::Windows::joins))]
pub fn store(
    alloc: Global,
    scene: &mut Scene,
    entry: Entry,
    window: u32,
    saved: Saved,
) -> Result<(), NoMemory>
    requires { file_clashes scene.old.files.present (utf8 saved.path) ≡ false }
    ensures ok { OnOk result (Did entry (scene_of scene.old) (scene_of scene.new)
        (store_deeds window saved (scene_of scene.old))) }
    ensures windows { OnOk result (scene.new.windows.present ≡ scene.old.windows.present) }
    ensures kept { kept_of scene.new ≡ kept_of scene.old }
{
    let path = encode(alloc, &saved.path)?;
    let bytes = encode(alloc, &saved.text)?;
    let job = save_job(alloc, &scene.windows, window, saved)?;
    scene.act(alloc, entry, Deed::Stores { path, bytes })?;
    scene.act(alloc, entry, Deed::Requests(job))
}

// Whether the path is that of the window's name.
fn is_own(alloc: Global, windows: &Windows, window: u32, path: &[Rune]) -> Result<bool, NoMemory>
    ensures { IfOk result (λ own. own ≡ is_own (window_at windows.now.present window) path.now) }
{
    let name = name_at(alloc, windows, window)?;
    let dir = dir_at(alloc, windows, window)?;
    let own = path_named(alloc, dir.as_slice(), name.as_slice())?;
    Ok(!name.is_empty() && path == own.as_slice())
}

#[tactic(auto, using(crate::proofs::Windows::joins))]
fn clean_if(
    alloc: Global,
    scene: &mut Scene,
    entry: Entry,
    window: u32,
    own: bool,
) -> Result<(), NoMemory>
    requires { IsSome (window_at scene.old.windows.present window) }
    ensures ok { OnOk result (Did entry (scene_of scene.old) (scene_of scene.new) (clean_if own window)) }
    ensures kept { kept_of scene.new ≡ kept_of scene.old }
{
    if own {
        set_in_window(alloc, scene, entry, window, Setting::Clean)
    } else {
        Ok(())
    }
}

// Stores a text, which the window counts as unmodified for where the path is its own.
#[tactic(auto, using(crate::proofs::Windows::joins))]
fn save(
    alloc: Global,
    scene: &mut Scene,
    entry: Entry,
    window: u32,
    saved: Saved,
) -> Result<(), NoMemory>
    requires lives { IsSome (window_at scene.old.windows.present window) }
    requires free { file_clashes scene.old.files.present (utf8 saved.path) ≡ false }
    ensures ok { OnOk result (Did entry (scene_of scene.old) (scene_of scene.new)
        (put_deeds window saved (scene_of scene.old))) }
    ensures kept { kept_of scene.new ≡ kept_of scene.old }
{
    let own = is_own(alloc, &scene.windows, window, saved.path.as_slice())?;
    store(alloc, scene, entry, window, saved)?;
    clean_if(alloc, scene, entry, window, own)
}

#[tactic(auto, using(crate::proofs::Windows::joins))]
fn put_at(
    alloc: Global,
    scene: &mut Scene,
    entry: Entry,
    window: u32,
    path: Runes,
) -> Result<Option<ActionFault>, NoMemory>
    requires { IsSome (window_at scene.old.windows.present window) }
    ensures fault { IfOk result (λ fault. fault ≡ (put_at window (Ok path) (scene_of scene.old)).fault) }
    ensures ok { OnOk result (Did entry (scene_of scene.old) (scene_of scene.new)
        (put_at window (Ok path) (scene_of scene.old)).deeds) }
    ensures kept { kept_of scene.new ≡ kept_of scene.old }
{
    let bytes = encode(alloc, &path)?;
    if scene.files.clashes_file(bytes.as_slice()) {
        return Ok(Some(ActionFault::FileNotFound));
    }
    let text = text_at(alloc, &scene.windows, window)?;
    save(alloc, scene, entry, window, Saved { path, text })?;
    note(alloc, scene, entry, window, Op::Put)?;
    Ok(None)
}

/// Put: the body is stored under a name, or else under the window's name, made whole with the window's directory, and a
/// program is requested to save it. The window then counts as unmodified where the path is that of its own name. It is
/// noted for the file `log`, with the window's name.
///
/// It isn't done where both names are empty, or where no file can be stored there.
#[tactic(auto, using(crate::proofs::Windows::joins))]
pub fn put(
    alloc: Global,
    scene: &mut Scene,
    entry: Entry,
    window: u32,
    name: &[Rune],
) -> Result<Option<ActionFault>, NoMemory>
    requires { IsSome (window_at scene.old.windows.present window) }
    ensures fault { IfOk result (λ fault. fault ≡ (put_outcome window name.now (scene_of scene.old)).fault) }
    ensures ok { OnOk result (Did entry (scene_of scene.old) (scene_of scene.new)
        (put_outcome window name.now (scene_of scene.old)).deeds) }
    ensures kept { kept_of scene.new ≡ kept_of scene.old }
{
    match path_of(alloc, &scene.windows, window, name)? {
        Ok(path) => put_at(alloc, scene, entry, window, path),
        Err(fault) => Ok(Some(fault)),
    }
}
