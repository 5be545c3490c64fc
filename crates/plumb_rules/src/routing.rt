//! The route of a message.

ghost use Rattle.std.specs.Prelude.{◌≡◌, true, IfOk};
ghost use Rattle.plumb_msg.specs.Spelling as spelling;
ghost use Rattle.plumb_rules.specs.Fields.{texts_of};
ghost use Rattle.plumb_rules.specs.Routes.{sets_route, own_route, rules_route, route_of};

use crate::answer::{Route, Way};
use crate::fields::{FieldTexts, texts_of};
use crate::message::copied_msg;
use crate::sets::set_route;
use am_text::{Bytes, NoMemory};
use name_tree::Tree;
use plumb_msg::{PlumbMsg, can_spell};
use rule_syntax::{RuleSets, Rules};
use std::alloc::Global;

// The route by the first set that holds.
#[tactic(auto, using(crate::proofs::Further::sets))]
fn sets_route(
    alloc: Global,
    tree: &Tree,
    msg: &PlumbMsg,
    texts: &FieldTexts,
    sets: &[Rules],
) -> Result<Option<Route>, NoMemory>
    requires spelled { spelling.can_spell msg.now ≡ true }
    requires texts { texts.now ≡ texts_of msg.now }
    ensures { IfOk result (λ r. r ≡ sets_route tree.now.present msg.now sets.now) }
{
    for rules in sets {
        if let Some(route) = set_route(alloc, tree, msg, texts, rules.as_slice())? {
            return Ok(Some(route));
        }
    }
    Ok(None)
}

// The route to the port that a message names itself.
fn own_route(alloc: Global, msg: &PlumbMsg) -> Result<Option<Route>, NoMemory>
    ensures { IfOk result (λ r. r ≡ own_route msg.now) }
{
    if msg.dst.is_empty() {
        return Ok(None);
    }
    Ok(Some(Route {
        port: Some(Bytes::copied(alloc, msg.dst.as_slice())?),
        way: Way::Port,
        msg: copied_msg(alloc, msg)?,
    }))
}

// No set holds for a message that can't be spelled.
fn rules_route(
    alloc: Global,
    tree: &Tree,
    msg: &PlumbMsg,
    sets: &[Rules],
) -> Result<Option<Route>, NoMemory>
    ensures { IfOk result (λ r. r ≡ rules_route tree.now.present msg.now sets.now) }
{
    if can_spell(alloc, msg)? {
        let texts = texts_of(alloc, msg)?;
        return sets_route(alloc, tree, msg, &texts, sets);
    }
    Ok(None)
}

/// Where a message goes: by the first set all of whose rules hold, with the message as its rules leave it and the port
/// as its dst; or else, unchanged, to the port that its dst names. It is `None` exactly where no set holds and the dst
/// is empty.
///
/// The rules are done in order on a copy of the message, and a rule that leaves a message which can't be spelled
/// doesn't hold. Names of files are looked up in the present state of the tree.
pub fn route(
    alloc: Global,
    rules: &RuleSets,
    msg: &PlumbMsg,
    tree: &Tree,
) -> Result<Option<Route>, NoMemory>
    ensures { IfOk result (λ found. found ≡ route_of tree.now.present rules.now msg.now) }
{
    match rules_route(alloc, tree, msg, rules.as_slice())? {
        Some(route) => Ok(Some(route)),
        None => own_route(alloc, msg),
    }
}
