//! Look at a text: the first of its steps that can be done is done (acme(1)).

ghost use Rattle.std.specs.Prelude.{◌≡◌, IsSome, IfOk, OnOk};
ghost use Rattle.core_windows.specs.Windows.{window_at};
ghost use Rattle.core_scene.specs.Scenes.{scene_of, kept_of, Did};
ghost use Rattle.core_exec.specs.Looking.{target_step, look_step, look_at_text_deeds};

use am_text::{NoMemory, Runes};
use core_actions::{Target, look, look_target};
use core_plumb::{is_plumbed, plumb_look};
use core_scene::{Entry, Scene};
use std::alloc::Global;

/// A step of Look. The first that can be done is done.
#[derive(Clone, Copy, Debug, PartialEq, Eq)]
pub enum LookStep {
    /// The plumber takes the text.
    Plumbs,
    /// A window that lives has the name.
    Takes,
    /// A file or a directory has the name, and is opened in a new window.
    Opens,
    /// The text is searched for.
    Searches,
}

fn target_step(target: &Option<Target>) -> LookStep
    ensures { result ≡ target_step target.now }
{
    match target {
        None => LookStep::Searches,
        Some(Target::Live(_)) => LookStep::Takes,
        Some(Target::New { .. }) => LookStep::Opens,
    }
}

/// The first step that can be done of a look at a text of a window. Nothing is done.
pub(crate) fn look_step(
    alloc: Global,
    scene: &Scene,
    window: u32,
    text: &Runes,
) -> Result<LookStep, NoMemory>
    ensures { IfOk result (λ step. step ≡ look_step window text.now (scene_of scene.now)) }
{
    if is_plumbed(alloc, scene, window, text)? {
        return Ok(LookStep::Plumbs);
    }
    let target = look_target(alloc, scene, window, text.as_slice())?;
    Ok(target_step(&target))
}

/// Looks at a text of a window: the plumber takes it, or else it is opened as a name or searched for.
#[tactic(auto, unfolding(crate::specs::Looking::look_at_text_deeds))]
pub(crate) fn look_at_text(
    alloc: Global,
    scene: &mut Scene,
    entry: Entry,
    window: u32,
    text: &Runes,
) -> Result<(), NoMemory>
    requires { IsSome (window_at scene.old.windows.present window) }
    ensures ok { OnOk result (Did entry (scene_of scene.old) (scene_of scene.new)
        (look_at_text_deeds entry window text.now (scene_of scene.old))) }
    ensures kept { kept_of scene.new ≡ kept_of scene.old }
{
    if plumb_look(alloc, scene, entry, window, text)? {
        return Ok(());
    }
    look(alloc, scene, entry, window, text.as_slice())
}
