//! Port `edit`: the editor itself opens what a message names.

ghost use Rattle.std.specs.Prelude.{◌≡◌, option_copied, IfSome, IfOk, OnOk};
ghost use Rattle.plumb_rules.specs.Texts.{data_name};
ghost use Rattle.core_scene.specs.Scenes.{scene_of, kept_of, Did};
ghost use Rattle.core_actions.specs.Opening.{target_of, IsThere};
ghost use Rattle.core_plumb.specs.Delivering.{address_in, open_if_any, shown_deeds};

use acme_cmd::whole;
use am_text::{NoMemory, Rune, Runes, decode_whole};
use core_actions::{Target, open, target_of};
use core_scene::{Entry, Scene};
use plumb_msg::PlumbMsg;
use plumb_rules::attr_value;
use std::alloc::Global;

// The address that the attribute `addr` gives, if there is one.
#[tactic(auto, unfolding(crate::specs::Delivering::address_in))]
fn address_in(alloc: Global, msg: &PlumbMsg) -> Result<Option<Runes>, NoMemory>
    ensures { IfOk result (λ address. address ≡ address_in msg.now) }
{
    match attr_value(msg.attrs.as_slice(), b"addr") {
        Some(value) => Ok(Some(decode_whole(alloc, value)?)),
        None => Ok(None),
    }
}

// The data as a name, made whole with the message's directory.
fn data_name(alloc: Global, msg: &PlumbMsg) -> Result<Runes, NoMemory>
    ensures { IfOk result (λ name. name ≡ data_name msg.now) }
{
    let dir = decode_whole(alloc, msg.wdir.as_slice())?;
    let name = decode_whole(alloc, msg.body.as_slice())?;
    whole(alloc, dir.as_slice(), name.as_slice())
}

// What the data of a message name.
fn named_by(alloc: Global, scene: &Scene, msg: &PlumbMsg) -> Result<Option<Target>, NoMemory>
    ensures exact { IfOk result (λ target. target ≡ target_of (data_name msg.now) (scene_of scene.now)) }
    ensures there { IfOk result (λ target. IfSome target (IsThere scene.now.windows.present)) }
{
    let name = data_name(alloc, msg)?;
    target_of(alloc, scene, name.as_slice())
}

// A text, if there is one.
fn slice_if_any(text: &Option<Runes>) -> Option<&[Rune]>
    ensures { option_copied result ≡ text.now }
{
    match text {
        Some(text) => Some(text.as_slice()),
        None => None,
    }
}

// Opens what is named, if anything is.
fn open_if_any(
    alloc: Global,
    scene: &mut Scene,
    entry: Entry,
    target: Option<Target>,
    address: &Option<Runes>,
) -> Result<(), NoMemory>
    requires { IfSome target (IsThere scene.old.windows.present) }
    ensures ok { OnOk result (Did entry (scene_of scene.old) (scene_of scene.new)
        (open_if_any entry target address.now (scene_of scene.old))) }
    ensures kept { kept_of scene.new ≡ kept_of scene.old }
{
    match target {
        Some(target) => open(alloc, scene, entry, target, slice_if_any(address)),
        None => Ok(()),
    }
}

/// Opens what the data of a message name, made whole with its directory, if that is a window, a file or a directory;
/// the attribute `addr` is its address.
pub(crate) fn show(
    alloc: Global,
    scene: &mut Scene,
    entry: Entry,
    msg: &PlumbMsg,
) -> Result<(), NoMemory>
    ensures ok { OnOk result (Did entry (scene_of scene.old) (scene_of scene.new)
        (shown_deeds entry msg.now (scene_of scene.old))) }
    ensures kept { kept_of scene.new ≡ kept_of scene.old }
{
    let target = named_by(alloc, scene, msg)?;
    let address = address_in(alloc, msg)?;
    open_if_any(alloc, scene, entry, target, &address)
}
