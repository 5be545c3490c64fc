//! Look, as it asks the plumber first.

ghost use Rattle.std.specs.Prelude.{◌≡◌, ◌==◌, false, not, is_none, length, IfOk, OnOk};
ghost use Rattle.am_text.specs.Utf8.{utf8};
ghost use Rattle.core_scene.specs.Scenes.{scene_of, kept_of, Did};
ghost use Rattle.core_plumb.specs.Routing.{plumb_refusal};
ghost use Rattle.core_plumb.specs.Looking.{look_msg, look_msg_at, asked_msg, is_taken, is_plumbed, plumbed_if_any};
ghost use Rattle.core_plumb.specs.Looking.{plumb_look_deeds};

use crate::plumbing::plumb;
use crate::routing::{route_in, route_refusal};
use am_text::{Bytes, NoMemory, Runes, encode};
use core_actions::dir_at;
use core_scene::{Entry, RuleStore, Scene};
use plumb_msg::{Attrs, MAX_DATA, PlumbMsg};
use std::alloc::Global;

// The message of a look at a text in a directory.
#[tactic(auto, unfolding(crate::specs::Looking::look_msg))]
fn look_msg(alloc: Global, dir: &Runes, text: &Runes) -> Result<PlumbMsg, NoMemory>
    ensures exact { IfOk result (λ msg. msg ≡ look_msg dir.now text.now) }
    ensures body { IfOk result (λ msg. msg.body ≡ utf8 text.now) }
{
    Ok(PlumbMsg {
        src: Bytes::copied(alloc, b"acme")?,
        dst: Bytes::new(alloc),
        wdir: encode(alloc, dir)?,
        sort: Bytes::copied(alloc, b"text")?,
        attrs: Attrs::new(alloc),
        body: encode(alloc, text)?,
    })
}

// The message of a look in a window.
fn look_msg_at(
    alloc: Global,
    scene: &Scene,
    window: u32,
    text: &Runes,
) -> Result<PlumbMsg, NoMemory>
    ensures exact { IfOk result (λ msg. msg ≡ look_msg_at window text.now (scene_of scene.now)) }
    ensures body { IfOk result (λ msg. msg.body ≡ utf8 text.now) }
{
    let dir = dir_at(alloc, &scene.windows, window)?;
    look_msg(alloc, &dir, text)
}

fn has_rules(rules: &RuleStore) -> bool
    ensures { result ≡ not (length rules.now.present.sets == 0) }
{
    !rules.sets().is_empty()
}

// The message of which the plumber is asked, if it is: it has rules, and the text isn't longer
// than the data of a message.
fn asked_msg(
    alloc: Global,
    scene: &Scene,
    window: u32,
    text: &Runes,
) -> Result<Option<PlumbMsg>, NoMemory>
    ensures { IfOk result (λ msg. msg ≡ asked_msg window text.now (scene_of scene.now)) }
{
    if !has_rules(&scene.rules) {
        return Ok(None);
    }
    let msg = look_msg_at(alloc, scene, window, text)?;
    if msg.body.len() <= MAX_DATA {
        Ok(Some(msg))
    } else {
        Ok(None)
    }
}

// Whether a message would be delivered.
fn is_delivered(alloc: Global, scene: &Scene, msg: &PlumbMsg) -> Result<bool, NoMemory>
    ensures { IfOk result (λ delivered. delivered ≡ is_none (plumb_refusal msg.now (scene_of scene.now))) }
{
    let route = route_in(alloc, scene, msg)?;
    Ok(route_refusal(&route, &scene.ports).is_none())
}

// Whether there is a message, and it would be delivered.
fn is_taken(alloc: Global, scene: &Scene, asked: &Option<PlumbMsg>) -> Result<bool, NoMemory>
    ensures { IfOk result (λ taken. taken ≡ is_taken asked.now (scene_of scene.now)) }
{
    match asked {
        Some(msg) => is_delivered(alloc, scene, msg),
        None => Ok(false),
    }
}

// Delivers a message, if there is one, and answers whether it is delivered.
fn plumb_if_any(
    alloc: Global,
    scene: &mut Scene,
    entry: Entry,
    asked: &Option<PlumbMsg>,
) -> Result<bool, NoMemory>
    ensures ok { OnOk result (Did entry (scene_of scene.old) (scene_of scene.new)
        (plumbed_if_any entry asked.now (scene_of scene.old))) }
    ensures taken { IfOk result (λ taken. taken ≡ is_taken asked.now (scene_of scene.old)) }
    ensures stays { IfOk result (λ taken. taken ≡ false → scene_of scene.new ≡ scene_of scene.old) }
    ensures kept { kept_of scene.new ≡ kept_of scene.old }
{
    match asked {
        Some(msg) => {
            let refusal = plumb(alloc, scene, entry, msg)?;
            Ok(refusal.is_none())
        }
        None => Ok(false),
    }
}

/// Whether the plumber takes a look at a text of a window: it has rules, the text has at most 1,048,576
/// bytes, and the message of the look would be delivered: from `acme`, in the window's directory, of type
/// `text`, to no port of its own.
pub fn is_plumbed(alloc: Global, scene: &Scene, window: u32, text: &Runes) -> Result<bool, NoMemory>
    ensures { IfOk result (λ plumbed. plumbed ≡ is_plumbed window text.now (scene_of scene.now)) }
{
    let asked = asked_msg(alloc, scene, window, text)?;
    is_taken(alloc, scene, &asked)
}

/// Plumbs a look at a text of a window, where the plumber takes it, and answers whether it does. Where it doesn't,
/// the scene stays as it was.
pub fn plumb_look(
    alloc: Global,
    scene: &mut Scene,
    entry: Entry,
    window: u32,
    text: &Runes,
) -> Result<bool, NoMemory>
    ensures ok { OnOk result (Did entry (scene_of scene.old) (scene_of scene.new)
        (plumb_look_deeds entry window text.now (scene_of scene.old))) }
    ensures plumbed { IfOk result (λ plumbed. plumbed ≡ is_plumbed window text.now (scene_of scene.old)) }
    ensures stays { IfOk result (λ plumbed. plumbed ≡ false → scene_of scene.new ≡ scene_of scene.old) }
    ensures kept { kept_of scene.new ≡ kept_of scene.old }
{
    let asked = asked_msg(alloc, scene, window, text)?;
    plumb_if_any(alloc, scene, entry, &asked)
}
