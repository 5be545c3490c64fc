//! Sets of rules that are added.

ghost use Rattle.std.specs.Prelude.{◌≡◌, ◌≤◌, true, length, IfOk, OnOk};
ghost use Rattle.std.specs.List.{list_all};
ghost use Rattle.rule_syntax.specs.Verbs.{is_port_name};
ghost use Rattle.rule_syntax.specs.Naming as naming;
ghost use Rattle.core_scene.specs.Scenes.{scene_of, kept_of, Did};
ghost use Rattle.core_rules.specs.NewNames.{new_names};
ghost use Rattle.core_rules.specs.Adding.{set_deeds, fits, names_added, sets_added, adds};

use crate::new_names::{NewNames, new_names};
use crate::refusal::RulesRefusal;
use am_text::{Bytes, NoMemory};
use core_scene::{Deed, Deeds, Entry, RuleSets, Scene, Vars};
use plumb_ports::MAX_PORTS;
use rule_syntax::{RuleFault, names_are_ports, ports_of};
use std::alloc::Global;

/// Text that is to be added, and how many bytes count as held with it.
#[derive(Clone, Copy)]
pub(crate) struct Written<'a> {
    pub(crate) text: &'a [u8],
    pub(crate) bytes: usize,
}

// Whether there is room for ports of these names, and for so many bytes.
fn fits(scene: &Scene, names: &NewNames, bytes: usize) -> bool
    ensures { result ≡ fits names.now bytes (scene_of scene.now) }
{
    let ports = scene.ports.len();
    ports <= MAX_PORTS && names.len() <= MAX_PORTS - ports && scene.rules.has_room(bytes)
}

// The deeds that add ports of these names, and then the sets that were read.
fn set_deeds(
    alloc: Global,
    names: &NewNames,
    text: &[u8],
    read: (RuleSets, Vars),
) -> Result<Deeds, NoMemory>
    ensures { IfOk result (λ deeds. deeds ≡ set_deeds names.now text.now read) }
{
    let (sets, vars) = read;
    let mut deeds = names.deeds(alloc)?;
    let text = Bytes::copied(alloc, text)?;
    deeds.push(Deed::AddsRules { sets, vars, text })?;
    Ok(deeds)
}

// Adds ports of these names, and then the sets that were read, where there is room for them.
fn add_names(
    alloc: Global,
    scene: &mut Scene,
    entry: Entry,
    written: Written<'_>,
    found: (NewNames, (RuleSets, Vars)),
) -> Result<Option<RulesRefusal>, NoMemory>
    requires counted { length written.text.now ≤ written.bytes }
    requires named { list_all is_port_name found.0 ≡ true }
    ensures refusal { IfOk result (λ refusal. refusal ≡ (names_added found.0 written.entry.text.now written.entry.bytes
        found.1 (scene_of scene.old)).refusal) }
    ensures ok { OnOk result (Did entry (scene_of scene.old) (scene_of scene.new)
        (names_added found.0 written.entry.text.now written.entry.bytes found.1 (scene_of scene.old)).deeds) }
    ensures kept { kept_of scene.new ≡ kept_of scene.old }
{
    let (names, read) = found;
    if !fits(scene, &names, written.bytes) {
        return Ok(Some(RulesRefusal::TooManyRules));
    }
    let deeds = set_deeds(alloc, &names, written.text, read)?;
    scene.act_all(alloc, entry, deeds)?;
    Ok(None)
}

// Adds the sets that were read, where there is room for them and for the ports that they name.
fn add_sets(
    alloc: Global,
    scene: &mut Scene,
    entry: Entry,
    written: Written<'_>,
    read: (RuleSets, Vars),
) -> Result<Option<RulesRefusal>, NoMemory>
    requires counted { length written.text.now ≤ written.bytes }
    requires named { list_all is_port_name (naming.ports_of read.0) ≡ true }
    ensures refusal { IfOk result (λ refusal. refusal ≡ (sets_added written.entry.text.now written.entry.bytes read
        (scene_of scene.old)).refusal) }
    ensures ok { OnOk result (Did entry (scene_of scene.old) (scene_of scene.new)
        (sets_added written.entry.text.now written.entry.bytes read (scene_of scene.old)).deeds) }
    ensures kept { kept_of scene.new ≡ kept_of scene.old }
{
    let named = ports_of(alloc, read.0.as_slice())?;
    let names = new_names(alloc, &scene.ports, named.as_slice())?;
    add_names(alloc, scene, entry, written, (names, read))
}

/// Adds the sets of a text, or answers why they aren't added.
pub(crate) fn add(
    alloc: Global,
    scene: &mut Scene,
    entry: Entry,
    written: Written<'_>,
) -> Result<Option<RulesRefusal>, NoMemory>
    requires { length written.text.now ≤ written.bytes }
    ensures refusal { IfOk result (λ refusal. refusal ≡ (adds written.entry.text.now written.entry.bytes
        (scene_of scene.old)).refusal) }
    ensures ok { OnOk result (Did entry (scene_of scene.old) (scene_of scene.new)
        (adds written.entry.text.now written.entry.bytes (scene_of scene.old)).deeds) }
    ensures kept { kept_of scene.new ≡ kept_of scene.old }
{
    names_are_ports();
    match scene.rules.read(alloc, written.text) {
        Ok(read) => add_sets(alloc, scene, entry, written, read),
        Err(RuleFault::Bad(_)) => Ok(Some(RulesRefusal::BadRule)),
        Err(RuleFault::Nodes) => Ok(Some(RulesRefusal::BadExpressionSize)),
        Err(RuleFault::NoMemory) => Err(NoMemory),
    }
}
