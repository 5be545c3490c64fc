//! Where a plumb message goes, and why it isn't delivered there.

ghost use Rattle.std.specs.Prelude.{◌≡◌, true, IfSome, IfOk};
ghost use Rattle.std.specs.Str.{bytes_eq};
ghost use Rattle.plumb_msg.specs.Spelling as spelling;
ghost use Rattle.plumb_rules.specs.Routes.{route_of};
ghost use Rattle.plumb_ports.specs.PortList.{edit_name};
ghost use Rattle.core_scene.specs.Scenes.{scene_of};
ghost use Rattle.core_plumb.specs.Routing.{IsSpelled, route_in, closed_refusal, numbered_refusal, named_refusal};
ghost use Rattle.core_plumb.specs.Routing.{port_refusal, route_refusal};

use crate::refusal::PlumbRefusal;
use am_text::{Bytes, NoMemory};
use core_scene::{Ports, Scene};
use plumb_msg::{PlumbMsg, can_spell};
use plumb_rules::{Route, Way, messages_are_delivered_whole, route};
use std::alloc::Global;

// The route of a message that can be written, which is then that of one that can.
#[tactic(auto, using(crate::proofs::Spelled::spelled))]
fn route_spelled(alloc: Global, scene: &Scene, msg: &PlumbMsg) -> Result<Option<Route>, NoMemory>
    requires { spelling.can_spell msg.now ≡ true }
    ensures exact { IfOk result (λ route. route ≡ route_of scene.now.files.present
        scene.now.rules.present.sets msg.now) }
    ensures spelled { IfOk result (λ route. IfSome route IsSpelled) }
{
    // law: messages are delivered whole, so that a route has a spelling
    messages_are_delivered_whole();
    route(alloc, scene.rules.sets(), msg, &scene.files)
}

/// The route of a message by the accepted rules. One that can't be written has none.
pub(crate) fn route_in(
    alloc: Global,
    scene: &Scene,
    msg: &PlumbMsg,
) -> Result<Option<Route>, NoMemory>
    ensures exact { IfOk result (λ route. route ≡ route_in msg.now (scene_of scene.now)) }
    ensures spelled { IfOk result (λ route. IfSome route IsSpelled) }
{
    if can_spell(alloc, msg)? {
        route_spelled(alloc, scene, msg)
    } else {
        Ok(None)
    }
}

/// Whether this is the name of port `edit`.
#[tactic(auto, unfolding(plumb_ports::specs::PortList::edit_name))]
pub(crate) fn is_edit(name: &[u8]) -> bool
    ensures { result ≡ bytes_eq name.now edit_name }
{
    name == b"edit".as_slice()
}

// Why a message isn't delivered to a port without openings.
fn closed_refusal(way: &Way, port: u32, ports: &Ports) -> Option<PlumbRefusal>
    ensures { result ≡ closed_refusal way.now port ports.now.present }
{
    match way {
        Way::Port => Some(PlumbRefusal::PortNotOpen),
        Way::Start(_) => None,
        Way::Client(_) => {
            if ports.is_full(port) {
                Some(PlumbRefusal::PortQueueFull)
            } else {
                None
            }
        }
    }
}

fn numbered_refusal(way: &Way, port: Option<u32>, ports: &Ports) -> Option<PlumbRefusal>
    ensures { result ≡ numbered_refusal way.now port ports.now.present }
{
    let Some(port) = port else {
        return Some(PlumbRefusal::PortNotOpen);
    };
    if ports.is_open(port) {
        None
    } else {
        closed_refusal(way, port, ports)
    }
}

fn named_refusal(way: &Way, name: &[u8], ports: &Ports) -> Option<PlumbRefusal>
    ensures { result ≡ named_refusal way.now name.now ports.now.present }
{
    if is_edit(name) {
        None
    } else {
        numbered_refusal(way, ports.number(name), ports)
    }
}

fn port_refusal(way: &Way, name: &Option<Bytes>, ports: &Ports) -> Option<PlumbRefusal>
    ensures { result ≡ port_refusal way.now name.now ports.now.present }
{
    match name {
        Some(name) => named_refusal(way, name.as_slice(), ports),
        None => None,
    }
}

/// Why a message isn't delivered by a route, if it isn't. Without a route there is no rule for it.
pub(crate) fn route_refusal(route: &Option<Route>, ports: &Ports) -> Option<PlumbRefusal>
    ensures { result ≡ route_refusal route.now ports.now.present }
{
    match route {
        Some(route) => port_refusal(&route.way, &route.port, ports),
        None => Some(PlumbRefusal::NoMatchingRule),
    }
}
