//! What the delivery of a plumb message does.

ghost use Rattle.std.specs.Prelude.{◌≡◌, ◌∷◌, [], true, false, None, Some, OnOk};
ghost use Rattle.plumb_msg.specs.Spelling as spelling;
ghost use Rattle.plumb_ports.specs.PortList.{number_of};
ghost use Rattle.plumb_ports.specs.PortsState.{refusal};
ghost use Rattle.core_scene.specs.Scenes.{scene_of, kept_of, Did};
ghost use Rattle.core_scene.specs.declared.deed.Deed.TheVariants as deed;
ghost use Rattle.core_plumb.specs.Routing.{IsSpelled, numbered_refusal, named_refusal, port_refusal};
ghost use Rattle.core_plumb.specs.Delivering.{is_open_named, copy_deeds, copies_if_open, edit_deeds, is_client};
ghost use Rattle.core_plumb.specs.Delivering.{closed_deeds, port_deeds, named_deeds, deliver_deeds};

use crate::editing::show;
use crate::routing::is_edit;
use crate::starting::start;
use am_text::{Bytes, NoMemory};
use core_scene::{Deed, Entry, Ports, Scene};
use plumb_msg::{PlumbMsg, write_msg};
use plumb_rules::{Route, Way};
use std::alloc::Global;

// Whether the port of this name has an opening.
fn is_open_named(ports: &Ports, name: &Bytes) -> bool
    ensures { result ≡ is_open_named ports.now.present name.now }
{
    match ports.number(name.as_slice()) {
        Some(port) => ports.is_open(port),
        None => false,
    }
}

// Gives each opening of a port that is open a copy of a message.
fn copy(
    alloc: Global,
    scene: &mut Scene,
    entry: Entry,
    name: &Bytes,
    msg: &PlumbMsg,
) -> Result<(), NoMemory>
    requires opened { is_open_named scene.old.ports.present name.now ≡ true }
    requires spelled { spelling.can_spell msg.now ≡ true }
    ensures ok { OnOk result (Did entry (scene_of scene.old) (scene_of scene.new) (copy_deeds name.now msg.now)) }
    ensures kept { kept_of scene.new ≡ kept_of scene.old }
{
    let port = Bytes::copied(alloc, name.as_slice())?;
    let message = write_msg(alloc, msg)?;
    scene.act(
        alloc,
        entry,
        Deed::Delivers {
            port,
            message,
            keep: false,
        },
    )
}

// Has a port without openings keep a message, which it has room for.
fn keep(
    alloc: Global,
    scene: &mut Scene,
    entry: Entry,
    name: &Bytes,
    msg: &PlumbMsg,
) -> Result<(), NoMemory>
    requires takes { refusal scene.old.ports.present name.now true ≡ None }
    requires spelled { spelling.can_spell msg.now ≡ true }
    ensures ok { OnOk result (Did entry (scene_of scene.old) (scene_of scene.new)
        (deed.Delivers name.now (spelling.msg_text msg.now) true ∷ [])) }
    ensures kept { kept_of scene.new ≡ kept_of scene.old }
{
    let port = Bytes::copied(alloc, name.as_slice())?;
    let message = write_msg(alloc, msg)?;
    scene.act(
        alloc,
        entry,
        Deed::Delivers {
            port,
            message,
            keep: true,
        },
    )
}

// Gives each opening of a port a copy of a message, if it has any.
fn copy_if_open(
    alloc: Global,
    scene: &mut Scene,
    entry: Entry,
    name: &Bytes,
    msg: &PlumbMsg,
) -> Result<(), NoMemory>
    requires { spelling.can_spell msg.now ≡ true }
    ensures ok { OnOk result (Did entry (scene_of scene.old) (scene_of scene.new)
        (copies_if_open name.now msg.now (scene_of scene.old))) }
    ensures kept { kept_of scene.new ≡ kept_of scene.old }
{
    if is_open_named(&scene.ports, name) {
        copy(alloc, scene, entry, name, msg)
    } else {
        Ok(())
    }
}

// Delivers a message to port `edit`, which has this name: the editor opens what the data name, and then
// each opening gets a copy.
#[tactic(auto, using(crate::proofs::Joined::joins))]
fn deliver_to_edit(
    alloc: Global,
    scene: &mut Scene,
    entry: Entry,
    name: &Bytes,
    msg: &PlumbMsg,
) -> Result<(), NoMemory>
    requires { spelling.can_spell msg.now ≡ true }
    ensures ok { OnOk result (Did entry (scene_of scene.old) (scene_of scene.new)
        (edit_deeds entry name.now msg.now (scene_of scene.old))) }
    ensures kept { kept_of scene.new ≡ kept_of scene.old }
{
    show(alloc, scene, entry, msg)?;
    copy_if_open(alloc, scene, entry, name, msg)
}

// Whether a command is started that is to take the message.
fn is_client(way: &Way) -> bool
    ensures { result ≡ is_client way.now }
{
    match way {
        Way::Port => false,
        Way::Start(_) => false,
        Way::Client(_) => true,
    }
}

// Delivers a message to a port without openings, which doesn't refuse it.
#[tactic(auto, using(crate::proofs::Joined::joins))]
fn deliver_to_closed(
    alloc: Global,
    scene: &mut Scene,
    entry: Entry,
    name: &Bytes,
    route: &Route,
) -> Result<(), NoMemory>
    requires takes { numbered_refusal route.now.way (number_of scene.old.ports.present.ports name.now)
        scene.old.ports.present ≡ None }
    requires closed { is_open_named scene.old.ports.present name.now ≡ false }
    requires spelled { IsSpelled route.now }
    ensures ok { OnOk result (Did entry (scene_of scene.old) (scene_of scene.new)
        (closed_deeds name.now route.now.msg route.now.way)) }
    ensures kept { kept_of scene.new ≡ kept_of scene.old }
{
    start(alloc, scene, entry, &route.msg, &route.way)?;
    let client = is_client(&route.way);
    if client {
        keep(alloc, scene, entry, name, &route.msg)
    } else {
        Ok(())
    }
}

// Delivers a message to a port other than `edit`, which doesn't refuse it.
fn deliver_to_port(
    alloc: Global,
    scene: &mut Scene,
    entry: Entry,
    name: &Bytes,
    route: &Route,
) -> Result<(), NoMemory>
    requires takes { numbered_refusal route.now.way (number_of scene.old.ports.present.ports name.now)
        scene.old.ports.present ≡ None }
    requires spelled { IsSpelled route.now }
    ensures ok { OnOk result (Did entry (scene_of scene.old) (scene_of scene.new)
        (port_deeds name.now route.now.msg route.now.way (scene_of scene.old))) }
    ensures kept { kept_of scene.new ≡ kept_of scene.old }
{
    if is_open_named(&scene.ports, name) {
        copy(alloc, scene, entry, name, &route.msg)
    } else {
        deliver_to_closed(alloc, scene, entry, name, route)
    }
}

// Delivers a message to the port of this name, which doesn't refuse it.
fn deliver_to_named(
    alloc: Global,
    scene: &mut Scene,
    entry: Entry,
    name: &Bytes,
    route: &Route,
) -> Result<(), NoMemory>
    requires takes { named_refusal route.now.way name.now scene.old.ports.present ≡ None }
    requires spelled { IsSpelled route.now }
    ensures ok { OnOk result (Did entry (scene_of scene.old) (scene_of scene.new)
        (named_deeds entry name.now route.now.msg route.now.way (scene_of scene.old))) }
    ensures kept { kept_of scene.new ≡ kept_of scene.old }
{
    if is_edit(name.as_slice()) {
        deliver_to_edit(alloc, scene, entry, name, &route.msg)
    } else {
        deliver_to_port(alloc, scene, entry, name, route)
    }
}

/// Delivers a message by a route that isn't refused. Where the route has no port, its command is started.
pub(crate) fn deliver(
    alloc: Global,
    scene: &mut Scene,
    entry: Entry,
    route: &Route,
) -> Result<(), NoMemory>
    requires takes { port_refusal route.now.way route.now.port scene.old.ports.present ≡ None }
    requires spelled { IsSpelled route.now }
    ensures ok { OnOk result (Did entry (scene_of scene.old) (scene_of scene.new)
        (deliver_deeds entry route.now (scene_of scene.old))) }
    ensures kept { kept_of scene.new ≡ kept_of scene.old }
{
    match &route.port {
        Some(name) => deliver_to_named(alloc, scene, entry, name, route),
        None => start(alloc, scene, entry, &route.msg, &route.way),
    }
}
