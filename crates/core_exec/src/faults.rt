//! Faults of actions, said in the errors window.

ghost use Rattle.std.specs.Prelude.{◌≡◌, IfOk, OnOk};
ghost use Rattle.core_scene.specs.Scenes.{scene_of, kept_of, Did};
ghost use Rattle.core_exec.specs.Executing.{fault_text, fault_line, said_if_any};

use am_text::{NoMemory, Runes, put_words};
use core_actions::{ActionFault, append_errors};
use core_scene::{Entry, Scene};
use std::alloc::Global;

/// The word of a command that has a fault, and the directory of its window.
#[derive(Drop)]
pub(crate) struct Speaker {
    pub dir: Runes,
    pub word: &'static [u8],
}

fn fault_text(fault: ActionFault) -> &'static [u8]
    ensures { result.now ≡ fault_text fault }
{
    match fault {
        ActionFault::NoFileName => b"no file name",
        ActionFault::FileNotFound => b"file not found",
        ActionFault::TextTooLong => b"text too long",
    }
}

// The line that says a fault of a command.
#[tactic(auto, unfolding(crate::specs::Executing::fault_line))]
fn fault_line(alloc: Global, word: &[u8], fault: ActionFault) -> Result<Runes, NoMemory>
    ensures { IfOk result (λ line. line ≡ fault_line word.now fault) }
{
    let mut line = Runes::new(alloc);
    put_words(&mut line, word)?;
    put_words(&mut line, b": ")?;
    put_words(&mut line, fault_text(fault))?;
    put_words(&mut line, b"\n")?;
    Ok(line)
}

/// Says a fault of a command, if there is one, in the errors window of a directory.
#[tactic(auto, using(crate::proofs::Joined::joins))]
pub(crate) fn say(
    alloc: Global,
    scene: &mut Scene,
    entry: Entry,
    speaker: Speaker,
    fault: Option<ActionFault>,
) -> Result<(), NoMemory>
    ensures ok { OnOk result (Did entry (scene_of scene.old) (scene_of scene.new)
        (said_if_any entry speaker.dir speaker.word.now fault (scene_of scene.old))) }
    ensures kept { kept_of scene.new ≡ kept_of scene.old }
{
    match fault {
        Some(fault) => {
            let line = fault_line(alloc, speaker.word, fault)?;
            append_errors(alloc, scene, entry, speaker.dir.as_slice(), line)
        }
        None => Ok(()),
    }
}
