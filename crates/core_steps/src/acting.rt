//! What an event's task does to the scene.

ghost use Rattle.std.specs.Prelude.{◌≡◌, [], IfOk, OnOk};
ghost use Rattle.core_tasks.specs.Tasks.{task_deeds, task_refusal, task_held, CanDoTask};
ghost use Rattle.core_scene.specs.Scenes.{scene_of, kept_of, done_all, deleted_by, CanDoAll, IsSettled};
ghost use Rattle.core_events.specs.PortSound.{ArePortsSound};
ghost use Rattle.core_watch.specs.Sound.{IsWatchSound};
ghost use Rattle.core_intents.specs.Doings.{IsAnswerable};
ghost use Rattle.core_intents.specs.Intents.{answer_or};

use am_text::{Ids, NoMemory};
use core_fids::Answer;
use core_intents::answer_or;
use core_scene::{Entry, Scene, WindowItems};
use core_tasks::{Ended, Task, do_task};
use fid_table::Held;
use std::alloc::Global;

/// What a task makes: items, and windows that are deleted; what is held then; and the answer to the message.
#[derive(Drop)]
pub(crate) struct Acted {
    pub items: WindowItems,
    pub deleted: Ids,
    pub held: Option<Held>,
    pub answer: Option<Answer>,
}

/// The scene with what the task does to it, and without the items that it makes and the windows that it deletes.
#[tactic(auto, using(crate::proofs::Moved::tasking))]
pub(crate) fn act(
    alloc: Global,
    scene: &mut Scene,
    entry: Entry,
    task: Task,
    answer: Option<Answer>,
) -> Result<Acted, NoMemory>
    requires settled { IsSettled scene.old }
    requires can { CanDoTask entry (kept_of scene.old) task }
    requires answerable { IsAnswerable answer }
    requires ports { ArePortsSound scene.old.ports.kept }
    requires watch { IsWatchSound scene.old.watch.kept }
    ensures scene { OnOk result (scene_of scene.new
        ≡ record (done_all entry (kept_of scene.old) (task_deeds entry task (kept_of scene.old)))
        { items = []; deleted = [] }) }
    ensures items { IfOk result (λ a. a.items ≡ (done_all entry (kept_of scene.old)
        (task_deeds entry task (kept_of scene.old))).items) }
    ensures deleted { IfOk result (λ a. a.deleted ≡ deleted_by (task_deeds entry task (kept_of scene.old))) }
    ensures held { IfOk result (λ a. a.held ≡ task_held entry task (kept_of scene.old)) }
    ensures answer { IfOk result (λ a. a.answer ≡ answer_or (task_refusal entry task (kept_of scene.old)) answer) }
    ensures answerable { IfOk result (λ a. IsAnswerable a.answer) }
    ensures possible { OnOk result (CanDoAll entry (kept_of scene.old) (task_deeds entry task (kept_of scene.old))) }
    ensures kept { kept_of scene.new ≡ kept_of scene.old }
    ensures book { OnOk result (scene.new.book ≡ scene.old.book) }
    ensures ports { OnOk result (ArePortsSound scene.new.ports.present) }
    ensures watch { OnOk result (IsWatchSound scene.new.watch.present) }
{
    let Ended { refusal, held } = do_task(alloc, scene, entry, task)?;
    let items = scene.take_items(alloc);
    let deleted = scene.take_deleted(alloc);
    Ok(Acted {
        items,
        deleted,
        held,
        answer: answer_or(alloc, refusal, answer)?,
    })
}
