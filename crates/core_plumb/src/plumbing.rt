//! A plumb message is delivered, or refused.

ghost use Rattle.std.specs.Prelude.{◌≡◌, None, IsSome, IfSome, IfOk, OnOk};
ghost use Rattle.core_scene.specs.Scenes.{scene_of, kept_of, Did};
ghost use Rattle.core_plumb.specs.Routing.{IsSpelled, route_refusal, plumb_refusal};
ghost use Rattle.core_plumb.specs.Plumbing.{delivered_if_any, routed_deeds, plumb_deeds};

use crate::delivering::deliver;
use crate::refusal::PlumbRefusal;
use crate::routing::{route_in, route_refusal};
use am_text::NoMemory;
use core_scene::{Entry, Scene};
use plumb_msg::PlumbMsg;
use plumb_rules::Route;
use std::alloc::Global;

// Delivers a message by its route, which isn't refused.
fn deliver_if_any(
    alloc: Global,
    scene: &mut Scene,
    entry: Entry,
    route: &Option<Route>,
) -> Result<(), NoMemory>
    requires takes { route_refusal route.now scene.old.ports.present ≡ None }
    requires spelled { IfSome route.now IsSpelled }
    ensures ok { OnOk result (Did entry (scene_of scene.old) (scene_of scene.new)
        (delivered_if_any entry route.now (scene_of scene.old))) }
    ensures kept { kept_of scene.new ≡ kept_of scene.old }
{
    match route {
        Some(route) => deliver(alloc, scene, entry, route),
        None => Ok(()),
    }
}

// Delivers a message by its route, or says why it isn't delivered.
fn plumb_by(
    alloc: Global,
    scene: &mut Scene,
    entry: Entry,
    route: &Option<Route>,
) -> Result<Option<PlumbRefusal>, NoMemory>
    requires { IfSome route.now IsSpelled }
    ensures ok { OnOk result (Did entry (scene_of scene.old) (scene_of scene.new)
        (routed_deeds entry route.now (scene_of scene.old))) }
    ensures refusal { IfOk result (λ refusal. refusal ≡ route_refusal route.now scene.old.ports.present) }
    ensures stays { IfOk result (λ refusal. IsSome refusal → scene_of scene.new ≡ scene_of scene.old) }
    ensures kept { kept_of scene.new ≡ kept_of scene.old }
{
    match route_refusal(route, &scene.ports) {
        Some(refusal) => Ok(Some(refusal)),
        None => {
            deliver_if_any(alloc, scene, entry, route)?;
            Ok(None)
        }
    }
}

/// Delivers a plumb message, or says why it isn't delivered, and then the scene stays as it was.
///
/// The message goes by the accepted rules, or else to the port that it names, as the rules leave it. An open port gives
/// each of its openings a copy. Port `edit` counts as open: the editor opens what the data name, with the attribute
/// `addr` as its address. For a port that isn't open, and where there is none, the command of the rules is started, and
/// the message is kept for the port where the command is to take it.
pub fn plumb(
    alloc: Global,
    scene: &mut Scene,
    entry: Entry,
    msg: &PlumbMsg,
) -> Result<Option<PlumbRefusal>, NoMemory>
    ensures ok { OnOk result (Did entry (scene_of scene.old) (scene_of scene.new)
        (plumb_deeds entry msg.now (scene_of scene.old))) }
    ensures refusal { IfOk result (λ refusal. refusal ≡ plumb_refusal msg.now (scene_of scene.old)) }
    ensures stays { IfOk result (λ refusal. IsSome refusal → scene_of scene.new ≡ scene_of scene.old) }
    ensures kept { kept_of scene.new ≡ kept_of scene.old }
{
    let route = route_in(alloc, scene, msg)?;
    plumb_by(alloc, scene, entry, &route)
}
