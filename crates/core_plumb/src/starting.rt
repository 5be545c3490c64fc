//! Commands that the rules of a message start.

ghost use Rattle.std.specs.Prelude.{◌≡◌, ◌∷◌, [], IfOk, OnOk};
ghost use Rattle.core_scene.specs.Scenes.{scene_of, kept_of, Did};
ghost use Rattle.core_scene.specs.declared.deed.Deed.TheVariants as deed;
ghost use Rattle.core_plumb.specs.Delivering.{start_job, start_deeds};

use am_text::{Job, JobKind, NoMemory, Rune, Runes, decode_whole};
use core_scene::{Deed, Entry, Scene};
use plumb_msg::PlumbMsg;
use plumb_rules::Way;
use std::alloc::Global;

// The window of a request that comes from none.
const NO_WINDOW: u32 = 0;

// The request to start a command in a message's directory.
fn start_job(alloc: Global, msg: &PlumbMsg, command: &Runes) -> Result<Job, NoMemory>
    ensures { IfOk result (λ job. job ≡ start_job msg.now command.now) }
{
    Ok(Job {
        kind: JobKind::Start,
        window: NO_WINDOW,
        dir: decode_whole(alloc, msg.wdir.as_slice())?,
        command: Runes::copied(alloc, command.as_slice())?,
        input: Runes::new(alloc),
    })
}

// Requests a command.
fn request(
    alloc: Global,
    scene: &mut Scene,
    entry: Entry,
    msg: &PlumbMsg,
    command: &Runes,
) -> Result<(), NoMemory>
    ensures ok { OnOk result (Did entry (scene_of scene.old) (scene_of scene.new)
        (deed.Requests (start_job msg.now command.now) ∷ [])) }
    ensures ports { OnOk result (scene.new.ports.present ≡ scene.old.ports.present) }
    ensures kept { kept_of scene.new ≡ kept_of scene.old }
{
    let job = start_job(alloc, msg, command)?;
    scene.act(alloc, entry, Deed::Requests(job))
}

/// Requests the command of the rules, if they have one, to be started in the message's directory.
/// The ports stay as they are.
pub(crate) fn start(
    alloc: Global,
    scene: &mut Scene,
    entry: Entry,
    msg: &PlumbMsg,
    way: &Way,
) -> Result<(), NoMemory>
    ensures ok { OnOk result (Did entry (scene_of scene.old) (scene_of scene.new) (start_deeds msg.now way.now)) }
    ensures ports { OnOk result (scene.new.ports.present ≡ scene.old.ports.present) }
    ensures kept { kept_of scene.new ≡ kept_of scene.old }
{
    match way {
        Way::Port => Ok(()),
        Way::Start(command) => request(alloc, scene, entry, msg, command),
        Way::Client(command) => request(alloc, scene, entry, msg, command),
    }
}
