//! Texts that are executed.

ghost use Rattle.std.specs.Prelude.{◌≡◌, [], length, slice_range, IsSome, IfOk, OnOk};
ghost use Rattle.acme_cmd.specs.Commands.{HasItsArgumentIn, classified};
ghost use Rattle.am_text.specs.declared.job.JobKind.TheVariants as kind;
ghost use Rattle.core_actions.specs.Seen.{dot_text};
ghost use Rattle.acme_cmd.specs.Blanks.{IsIn};
ghost use Rattle.core_windows.specs.Windows.{window_at};
ghost use Rattle.core_scene.specs.Scenes.{scene_of, kept_of, Did};
ghost use Rattle.core_exec.specs.Executing.{argument_or, input_of, command_deeds, exec_deeds};

use crate::builtins::{Call, do_builtin};
use crate::requests::{Wanted, input_of, request};
use acme_cmd::{Builtin, Command, classify};
use am_text::{JobKind, NoMemory, Range, Rune, Runes};
use core_scene::{Entry, Scene, Windows};
use std::alloc::Global;

/// A text that is executed, and the text of its chord, if there is one.
#[derive(Drop)]
pub(crate) struct Executed {
    pub text: Runes,
    pub chord: Option<Runes>,
}

// A text without what stands around a range.
fn slice(alloc: Global, text: &[Rune], range: Range) -> Result<Runes, NoMemory>
    requires { IsIn (length text.now) range }
    ensures { IfOk result (λ part. part ≡ slice_range text.now range.q0 range.q1) }
{
    Runes::copied(alloc, &text[range.q0..range.q1])
}

fn argument_or(chord: Option<Runes>, text: Runes) -> Runes
    ensures { result ≡ argument_or chord text }
{
    match chord {
        Some(chord) => chord,
        None => text,
    }
}

// A built-in command with its argument: the chord's text, or else what stands in the range.
fn call_of(
    alloc: Global,
    executed: Executed,
    builtin: Builtin,
    range: Range,
) -> Result<Call, NoMemory>
    requires { IsIn (length executed.text) range }
    ensures { IfOk result (λ call. call ≡ record {
      builtin = builtin;
      argument = argument_or executed.chord (slice_range executed.text range.q0 range.q1);
    }) }
{
    let Executed { text, chord } = executed;
    let own = slice(alloc, text.as_slice(), range)?;
    Ok(Call {
        builtin,
        argument: argument_or(chord, own),
    })
}

// What a text with a sign requests: what stands in the range, over what is selected.
fn piped(
    alloc: Global,
    windows: &Windows,
    window: u32,
    text: &Runes,
    pipe: (JobKind, Range),
) -> Result<Wanted, NoMemory>
    requires { IsIn (length text.now) pipe.1 }
    ensures { IfOk result (λ wanted. wanted ≡ record {
      kind = pipe.0;
      command = slice_range text.now pipe.1.q0 pipe.1.q1;
      input = input_of pipe.0
          (dot_text (window_at windows.now.present window));
    }) }
{
    let (kind, range) = pipe;
    Ok(Wanted {
        kind,
        command: slice(alloc, text.as_slice(), range)?,
        input: input_of(alloc, windows, window, kind)?,
    })
}

// What any other text requests: itself, over the chord's text.
fn external(alloc: Global, executed: Executed) -> Wanted
    ensures { result ≡ record { kind = kind.Run; command = executed.text; input = argument_or executed.chord [] } }
{
    let Executed { text, chord } = executed;
    Wanted {
        kind: JobKind::Run,
        command: text,
        input: argument_or(chord, Runes::new(alloc)),
    }
}

// Does what a text asks for.
#[tactic(auto, unfolding(crate::specs::Executing::command_deeds))]
fn run(
    alloc: Global,
    scene: &mut Scene,
    entry: Entry,
    window: u32,
    work: (Executed, Command),
) -> Result<(), NoMemory>
    requires lives { IsSome (window_at scene.old.windows.present window) }
    requires inside { HasItsArgumentIn (length work.0.text) work.1 }
    ensures ok { OnOk result (Did entry (scene_of scene.old) (scene_of scene.new)
        (command_deeds entry window (record { text = work.0.text; chord = work.0.chord }) work.1
        (scene_of scene.old))) }
    ensures kept { kept_of scene.new ≡ kept_of scene.old }
{
    let (executed, command) = work;
    match command {
        Command::Builtin(builtin, range) => {
            let call = call_of(alloc, executed, builtin, range)?;
            do_builtin(alloc, scene, entry, window, call)
        }
        Command::Pipe(kind, range) => {
            let wanted = piped(alloc, &scene.windows, window, &executed.text, (kind, range))?;
            request(alloc, scene, entry, window, wanted)
        }
        Command::External => { request(alloc, scene, entry, window, external(alloc, executed)) }
    }
}

// What a text asks for.
fn command_in(executed: &Executed) -> Command
    ensures exact { result ≡ classified executed.now.text }
    ensures inside { HasItsArgumentIn (length executed.now.text) result }
{
    classify(executed.text.as_slice())
}

/// Executes a text in a window.
#[tactic(auto, unfolding(crate::specs::Executing::exec_deeds))]
pub(crate) fn exec(
    alloc: Global,
    scene: &mut Scene,
    entry: Entry,
    window: u32,
    executed: Executed,
) -> Result<(), NoMemory>
    requires { IsSome (window_at scene.old.windows.present window) }
    ensures ok { OnOk result (Did entry (scene_of scene.old) (scene_of scene.new)
        (exec_deeds entry window (record { text = executed.text; chord = executed.chord }) (scene_of scene.old))) }
    ensures kept { kept_of scene.new ≡ kept_of scene.old }
{
    let command = command_in(&executed);
    run(alloc, scene, entry, window, (executed, command))
}
