//! Control messages, after acme(4).

ghost use Rattle.std.specs.Prelude.{◌≡◌, [], IsSome, IfOk, OnOk};
ghost use Rattle.am_text.specs.Lines.{lines_of};
ghost use Rattle.win_ctl.specs.Messages.{ctl_of};
ghost use Rattle.core_actions.specs.Deleting.{delete_deeds};
ghost use Rattle.core_actions.specs.Files.{get_outcome, put_outcome};
ghost use Rattle.core_windows.specs.Possible.{CanSetIn};
ghost use Rattle.core_windows.specs.Windows.{window_at};
ghost use Rattle.core_scene.specs.Scenes.{scene_of, kept_of, Did};
ghost use Rattle.core_tasks.specs.Controls.{sets, deletes, refusal_of, next_of, acts, msg_told, line_told, controls};
ghost use Rattle.win_ctl.specs.declared.message.CtlMsg.TheVariants as msg;

use am_text::{Bytes, NoMemory, split_line};
use core_actions::{ActionFault, asks, delete, get, put, set_in_window};
use core_fids::Refusal;
use core_scene::{Entry, Scene, Setting};
use std::alloc::Global;
use win_ctl::{CtlFault, CtlMsg, parse_ctl};

/// How a write goes on behind a control message.
#[derive(Clone, Copy, Debug, PartialEq, Eq)]
pub enum Next {
    /// The next message is looked at.
    GoesOn,
    /// The window is deleted, and the rest isn't looked at.
    Deleted,
    /// The message is refused, and the rest isn't looked at.
    Refused(Refusal),
}

fn refusal_of(fault: ActionFault) -> Refusal
    ensures { result ≡ refusal_of fault }
{
    match fault {
        ActionFault::NoFileName => Refusal::NoFileName,
        ActionFault::FileNotFound => Refusal::FileNotFound,
        ActionFault::TextTooLong => Refusal::TextTooLong,
    }
}

fn next_of(fault: Option<ActionFault>) -> Next
    ensures { result ≡ next_of fault }
{
    match fault {
        None => Next::GoesOn,
        Some(fault) => Next::Refused(refusal_of(fault)),
    }
}

// Sets a part of a window.
fn set(
    alloc: Global,
    scene: &mut Scene,
    entry: Entry,
    window: u32,
    setting: Setting,
) -> Result<Next, NoMemory>
    requires { CanSetIn (window_at scene.old.windows.present window) setting }
    ensures next { IfOk result (λ next. next ≡ (sets window setting).next) }
    ensures ok { OnOk result (Did entry (scene_of scene.old) (scene_of scene.new) (sets window setting).deeds) }
    ensures kept { kept_of scene.new ≡ kept_of scene.old }
{
    set_in_window(alloc, scene, entry, window, setting)?;
    Ok(Next::GoesOn)
}

// Deletes a window, modified or not.
fn delete_now(alloc: Global, scene: &mut Scene, entry: Entry, window: u32) -> Result<Next, NoMemory>
    requires { IsSome (window_at scene.old.windows.present window) }
    ensures next { IfOk result (λ next. next ≡ (deletes window (scene_of scene.old)).next) }
    ensures ok { OnOk result (Did entry (scene_of scene.old) (scene_of scene.new)
        (deletes window (scene_of scene.old)).deeds) }
    ensures kept { kept_of scene.new ≡ kept_of scene.old }
{
    delete(alloc, scene, entry, window)?;
    Ok(Next::Deleted)
}

// Deletes a window that isn't modified.
fn del(alloc: Global, scene: &mut Scene, entry: Entry, window: u32) -> Result<Next, NoMemory>
    requires { IsSome (window_at scene.old.windows.present window) }
    ensures next { IfOk result (λ next. next ≡ (msg_told window msg.Del (scene_of scene.old)).next) }
    ensures ok { OnOk result (Did entry (scene_of scene.old) (scene_of scene.new)
        (msg_told window msg.Del (scene_of scene.old)).deeds) }
    ensures kept { kept_of scene.new ≡ kept_of scene.old }
{
    if asks(&scene.windows, window) {
        Ok(Next::Refused(Refusal::WindowModified))
    } else {
        delete_now(alloc, scene, entry, window)
    }
}

// Get without an argument.
fn get_own(alloc: Global, scene: &mut Scene, entry: Entry, window: u32) -> Result<Next, NoMemory>
    requires { IsSome (window_at scene.old.windows.present window) }
    ensures next { IfOk result (λ next. next ≡ (acts (get_outcome window [] (scene_of scene.old))).next) }
    ensures ok { OnOk result (Did entry (scene_of scene.old) (scene_of scene.new)
        (acts (get_outcome window [] (scene_of scene.old))).deeds) }
    ensures kept { kept_of scene.new ≡ kept_of scene.old }
{
    Ok(next_of(get(alloc, scene, entry, window, &[])?))
}

// Put without an argument.
fn put_own(alloc: Global, scene: &mut Scene, entry: Entry, window: u32) -> Result<Next, NoMemory>
    requires { IsSome (window_at scene.old.windows.present window) }
    ensures next { IfOk result (λ next. next ≡ (acts (put_outcome window [] (scene_of scene.old))).next) }
    ensures ok { OnOk result (Did entry (scene_of scene.old) (scene_of scene.new)
        (acts (put_outcome window [] (scene_of scene.old))).deeds) }
    ensures kept { kept_of scene.new ≡ kept_of scene.old }
{
    Ok(next_of(put(alloc, scene, entry, window, &[])?))
}

// Does a message.
fn do_message(
    alloc: Global,
    scene: &mut Scene,
    entry: Entry,
    window: u32,
    msg: CtlMsg,
) -> Result<Next, NoMemory>
    requires { IsSome (window_at scene.old.windows.present window) }
    ensures next { IfOk result (λ next. next ≡ (msg_told window msg (scene_of scene.old)).next) }
    ensures ok { OnOk result (Did entry (scene_of scene.old) (scene_of scene.new)
        (msg_told window msg (scene_of scene.old)).deeds) }
    ensures kept { kept_of scene.new ≡ kept_of scene.old }
{
    match msg {
        CtlMsg::AddrDot => set(alloc, scene, entry, window, Setting::AddrToDot),
        CtlMsg::DotAddr => set(alloc, scene, entry, window, Setting::DotToAddr),
        CtlMsg::Clean => set(alloc, scene, entry, window, Setting::Clean),
        CtlMsg::Dirty => set(alloc, scene, entry, window, Setting::Dirty),
        CtlMsg::ClearTag => set(alloc, scene, entry, window, Setting::ClearTag),
        CtlMsg::Del => del(alloc, scene, entry, window),
        CtlMsg::Delete => delete_now(alloc, scene, entry, window),
        CtlMsg::Get => get_own(alloc, scene, entry, window),
        CtlMsg::Put => put_own(alloc, scene, entry, window),
        CtlMsg::LimitAddr => set(alloc, scene, entry, window, Setting::LimitToAddr),
        CtlMsg::Mark => set(alloc, scene, entry, window, Setting::Mark(true)),
        CtlMsg::NoMark => set(alloc, scene, entry, window, Setting::Mark(false)),
        CtlMsg::Name(name) => set(alloc, scene, entry, window, Setting::Name(name)),
        CtlMsg::Idle => Ok(Next::GoesOn),
    }
}

// Does the message of a line.
fn do_line(
    alloc: Global,
    scene: &mut Scene,
    entry: Entry,
    window: u32,
    line: &[u8],
) -> Result<Next, NoMemory>
    requires { IsSome (window_at scene.old.windows.present window) }
    ensures next { IfOk result (λ next. next ≡ (line_told window (ctl_of line.now) (scene_of scene.old)).next) }
    ensures ok { OnOk result (Did entry (scene_of scene.old) (scene_of scene.new)
        (line_told window (ctl_of line.now) (scene_of scene.old)).deeds) }
    ensures kept { kept_of scene.new ≡ kept_of scene.old }
{
    match parse_ctl(alloc, line) {
        Ok(msg) => do_message(alloc, scene, entry, window, msg),
        Err(CtlFault::Unknown) => Ok(Next::Refused(Refusal::BadControlMessage)),
        Err(CtlFault::BadName) => Ok(Next::Refused(Refusal::BadFileName)),
        Err(CtlFault::NoMemory) => Err(NoMemory),
    }
}

/// Does the messages that are written to a window's `ctl`, a line each, up to the first that deletes the window or is
/// refused. The answer is why it is refused, if it is.
pub(crate) fn control(
    alloc: Global,
    scene: &mut Scene,
    entry: Entry,
    window: u32,
    text: &[u8],
) -> Result<Option<Refusal>, NoMemory>
    requires { IsSome (window_at scene.old.windows.present window) }
    ensures refusal { IfOk result (λ refusal. refusal
        ≡ (controls entry window (lines_of text.now) (scene_of scene.old)).refusal) }
    ensures ok { OnOk result (Did entry (scene_of scene.old) (scene_of scene.new)
        (controls entry window (lines_of text.now) (scene_of scene.old)).deeds) }
    ensures kept { kept_of scene.new ≡ kept_of scene.old }
{
    let mut rest = text;
    while !rest.is_empty() {
        let (line, after) = split_line(rest);
        match do_line(alloc, scene, entry, window, line)? {
            Next::GoesOn => rest = after,
            Next::Deleted => return Ok(None),
            Next::Refused(refusal) => return Ok(Some(refusal)),
        }
    }
    Ok(None)
}
