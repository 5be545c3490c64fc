//! What a step does to the scene.

ghost use Rattle.std.specs.Prelude.{◌≡◌, IfOk, OnOk};
ghost use Rattle.core_windows.specs.Possible.{CanChangeAll};
ghost use Rattle.core_scene.specs.Changing.{deeds_of};
ghost use Rattle.core_scene.specs.Scenes.{scene_of, kept_of, Did};
ghost use Rattle.core_tasks.specs.Tasks.{task_deeds, task_refusal, task_held, CanDoTask};

use crate::control::control;
use crate::ended::Ended;
use crate::plumbing::{add_rest, add_rules, plumb_all};
use am_text::{Bytes, NoMemory};
use core_exec::{Spot, act_on, exec_at, look_at};
use core_rules::clear_rules;
use core_scene::{Changes, Deed, Entry, Scene, deeds_of};
use fid_table::Held;
use std::alloc::Global;

/// What a step does to the scene.
#[derive(Drop)]
pub enum Task {
    /// Changes of windows are made.
    Changes(Changes),
    /// A range of a window's text is executed, with the argument of a chord, if there is one.
    Exec { at: Spot, chord: Option<Spot> },
    /// A range of a window's text is looked at.
    Look { at: Spot },
    /// Control messages of a window are done, a line each.
    Controls { window: u32, text: Bytes },
    /// The action of a window's item is done, which is written back.
    Back { window: u32, number: u64 },
    /// A file is stored.
    Stores { path: Bytes, bytes: Bytes },
    /// A directory is made.
    MakesDir { path: Bytes },
    /// All rules of the plumber are forgotten.
    ClearsRules,
    /// The whole sets of rules of a text are added: what a fid of `rules` held, with what is written to it.
    AddsRules { text: Held },
    /// A text of rules is added whole: what a fid of `rules` still holds when it is freed.
    AddsRest { text: Bytes },
    /// The whole plumb messages of a text are plumbed: what a fid of `send` held, with what is written to it.
    Sends { text: Held },
}

// Makes changes of windows.
#[tactic(auto, using(core_scene::proofs::Possible::can_deeds))]
fn change(alloc: Global, scene: &mut Scene, entry: Entry, changes: Changes) -> Result<(), NoMemory>
    requires { CanChangeAll entry.at scene.old.windows.present changes }
    ensures ok { OnOk result (Did entry (scene_of scene.old) (scene_of scene.new) (deeds_of changes)) }
    ensures kept { kept_of scene.new ≡ kept_of scene.old }
{
    let deeds = deeds_of(alloc, changes)?;
    scene.act_all(alloc, entry, deeds)
}

// Does a task.
#[tactic(auto, unfolding(crate::specs::Tasks::task_deeds, crate::specs::Tasks::task_refusal, crate::specs::Tasks::task_held))]
fn run(alloc: Global, scene: &mut Scene, entry: Entry, task: Task) -> Result<Ended, NoMemory>
    requires { CanDoTask entry (scene_of scene.old) task }
    ensures ok { OnOk result (Did entry (scene_of scene.old) (scene_of scene.new)
        (task_deeds entry task (scene_of scene.old))) }
    ensures refusal { IfOk result (λ ended. ended.refusal ≡ task_refusal entry task (scene_of scene.old)) }
    ensures held { IfOk result (λ ended. ended.held ≡ task_held entry task (scene_of scene.old)) }
    ensures kept { kept_of scene.new ≡ kept_of scene.old }
{
    match task {
        Task::Changes(changes) => change(alloc, scene, entry, changes)?,
        Task::Exec { at, chord } => exec_at(alloc, scene, entry, at, chord)?,
        Task::Look { at } => look_at(alloc, scene, entry, at)?,
        Task::Controls { window, text } => {
            let refusal = control(alloc, scene, entry, window, text.as_slice())?;
            return Ok(Ended::by(refusal));
        }
        Task::Back { window, number } => act_on(alloc, scene, entry, window, number)?,
        Task::Stores { path, bytes } => scene.act(alloc, entry, Deed::Stores { path, bytes })?,
        Task::MakesDir { path } => scene.act(alloc, entry, Deed::MakesDir { path })?,
        Task::ClearsRules => clear_rules(alloc, scene, entry)?,
        Task::AddsRules { text } => return add_rules(alloc, scene, entry, text),
        Task::AddsRest { text } => return add_rest(alloc, scene, entry, text.as_slice()),
        Task::Sends { text } => return plumb_all(alloc, scene, entry, text),
    }
    Ok(Ended::done())
}

/// Does a task, in the present state of the scene alone. The answer is why it is refused, if it is, and what is held
/// then, where the task says it.
///
/// Control messages are refused, and what is written to the plumber's files. Of control messages and of plumb messages
/// those before the one that is refused stay done, and those behind it aren't looked at; of rules none is added.
pub fn do_task(
    alloc: Global,
    scene: &mut Scene,
    entry: Entry,
    task: Task,
) -> Result<Ended, NoMemory>
    requires { CanDoTask entry (scene_of scene.old) task }
    ensures ok { OnOk result (Did entry (scene_of scene.old) (scene_of scene.new)
        (task_deeds entry task (scene_of scene.old))) }
    ensures refusal { IfOk result (λ ended. ended.refusal ≡ task_refusal entry task (scene_of scene.old)) }
    ensures held { IfOk result (λ ended. ended.held ≡ task_held entry task (scene_of scene.old)) }
    ensures kept { kept_of scene.new ≡ kept_of scene.old }
    ensures book { OnOk result (scene.new.book ≡ scene.old.book) }
{
    run(alloc, scene, entry, task)
}
