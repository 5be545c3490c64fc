//! Requests to run programs.

ghost use Rattle.std.specs.Prelude.{◌≡◌, IfOk, OnOk};
ghost use Rattle.core_windows.specs.Windows.{window_at};
ghost use Rattle.core_scene.specs.Scenes.{scene_of, kept_of, Did};
ghost use Rattle.core_actions.specs.Seen.{dot_text};
ghost use Rattle.core_exec.specs.Executing.{input_of, job_of, request};

use am_text::{Job, JobKind, NoMemory, Runes};
use core_actions::{dir_at, dot_text_at};
use core_scene::{Deed, Entry, Scene, Windows};
use std::alloc::Global;

/// A command, and the text that it is given.
#[derive(Drop)]
pub(crate) struct Wanted {
    pub kind: JobKind,
    pub command: Runes,
    pub input: Runes,
}

/// What a request of a kind is given: `<` nothing, any other the text that is selected.
pub(crate) fn input_of(
    alloc: Global,
    windows: &Windows,
    window: u32,
    kind: JobKind,
) -> Result<Runes, NoMemory>
    ensures { IfOk result (λ input. input ≡ input_of kind (dot_text (window_at windows.now.present window))) }
{
    match kind {
        JobKind::From => Ok(Runes::new(alloc)),
        JobKind::Run => dot_text_at(alloc, windows, window),
        JobKind::Pipe => dot_text_at(alloc, windows, window),
        JobKind::To => dot_text_at(alloc, windows, window),
        JobKind::Save => dot_text_at(alloc, windows, window),
        JobKind::Start => dot_text_at(alloc, windows, window),
    }
}

// The request of a program, to be run in the directory of a window.
fn job_of(alloc: Global, windows: &Windows, window: u32, wanted: Wanted) -> Result<Job, NoMemory>
    ensures { IfOk result (λ job. job ≡ job_of wanted.kind window (window_at windows.now.present window) wanted.command
        wanted.input) }
{
    let Wanted {
        kind,
        command,
        input,
    } = wanted;
    Ok(Job {
        kind,
        window,
        dir: dir_at(alloc, windows, window)?,
        command,
        input,
    })
}

/// Requests a program, to be run in the directory of a window.
pub(crate) fn request(
    alloc: Global,
    scene: &mut Scene,
    entry: Entry,
    window: u32,
    wanted: Wanted,
) -> Result<(), NoMemory>
    ensures ok { OnOk result (Did entry (scene_of scene.old) (scene_of scene.new)
        (request wanted.kind window (window_at scene.old.windows.present window) wanted.command wanted.input)) }
    ensures kept { kept_of scene.new ≡ kept_of scene.old }
{
    let job = job_of(alloc, &scene.windows, window, wanted)?;
    scene.act(alloc, entry, Deed::Requests(job))
}
