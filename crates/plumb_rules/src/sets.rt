//! The rules of a set in order.

ghost use Rattle.std.specs.Prelude.{◌≡◌, true, IfOk, IsTrue};
ghost use Rattle.plumb_msg.specs.Spelling as spelling;
ghost use Rattle.plumb_rules.specs.Fields.{texts_of};
ghost use Rattle.plumb_rules.specs.Routes.{begun, rule_holds, rules_hold, with_dst, route_in, route_at, set_route};
ghost use Rattle.plumb_rules.specs.Verbs.{where_holds};

use crate::answer::{Route, Way};
use crate::draft::Draft;
use crate::fields::FieldTexts;
use crate::state::State;
use crate::verbs::{keeps_message, rule_done};
use am_text::{Bytes, NoMemory};
use name_tree::Tree;
use plumb_msg::{PlumbMsg, can_spell};
use rule_syntax::ReadRule;
use std::alloc::Global;

// Before the first rule of a set.
fn begun<'a>(msg: &'a PlumbMsg, texts: &'a FieldTexts) -> State<'a>
    requires { texts.now ≡ texts_of msg.now }
    ensures { result ≡ begun msg.now }
{
    State {
        msg: Draft::given(msg, texts),
        matched: None,
        file: None,
        dir: None,
        port: None,
        way: Way::Port,
    }
}

// A rule that leaves a message which can't be spelled doesn't hold. A message that stays as it is can still be spelled.
#[tactic(auto, using(crate::proofs::Same::same))]
fn rule_holds(
    alloc: Global,
    tree: &Tree,
    state: &mut State,
    rule: &ReadRule,
) -> Result<bool, NoMemory>
    requires { spelling.can_spell state.old.msg ≡ true }
    ensures value { IfOk result (λ holds. where_holds state.new holds ≡ rule_holds tree.now.present state.old
        rule.now) }
    ensures spelled { IfOk result (λ holds. IsTrue holds → spelling.can_spell state.new.msg ≡ true) }
{
    let is_same = keeps_message(state.msg.get(), rule.get().verb);
    if !rule_done(alloc, tree, state, rule)? {
        return Ok(false);
    }
    if is_same {
        return Ok(true);
    }
    can_spell(alloc, state.msg.get())
}

#[tactic(auto, using(crate::proofs::Further::rules))]
fn rules_hold(
    alloc: Global,
    tree: &Tree,
    state: &mut State,
    rules: &[ReadRule],
) -> Result<bool, NoMemory>
    requires { spelling.can_spell state.old.msg ≡ true }
    ensures { IfOk result (λ holds. where_holds state.new holds ≡ rules_hold tree.now.present state.old rules.now) }
{
    for rule in rules {
        if !rule_holds(alloc, tree, state, rule)? {
            return Ok(false);
        }
    }
    Ok(true)
}

// The message with the port as dst, if there is one.
fn with_dst(alloc: Global, msg: PlumbMsg, port: &Option<Bytes>) -> Result<PlumbMsg, NoMemory>
    ensures { IfOk result (λ new. new ≡ with_dst msg port.now) }
{
    match port {
        None => Ok(msg),
        Some(port) => {
            let dst = Bytes::copied(alloc, port.as_slice())?;
            Ok(PlumbMsg { dst, ..msg })
        }
    }
}

fn route_in(alloc: Global, state: State) -> Result<Route, NoMemory>
    ensures { IfOk result (λ r. r ≡ route_in state.entry) }
{
    let State { msg, port, way, .. } = state;
    let msg = with_dst(alloc, msg.into_msg(alloc)?, &port)?;
    Ok(Route { port, way, msg })
}

fn route_at(alloc: Global, state: State) -> Result<Option<Route>, NoMemory>
    ensures { IfOk result (λ r. r ≡ route_at state.entry) }
{
    let route = route_in(alloc, state)?;
    if can_spell(alloc, &route.msg)? {
        return Ok(Some(route));
    }
    Ok(None)
}

/// The route of a message that can be spelled by one set, where the set holds.
pub fn set_route(
    alloc: Global,
    tree: &Tree,
    msg: &PlumbMsg,
    texts: &FieldTexts,
    rules: &[ReadRule],
) -> Result<Option<Route>, NoMemory>
    requires spelled { spelling.can_spell msg.now ≡ true }
    requires texts { texts.now ≡ texts_of msg.now }
    ensures { IfOk result (λ r. r ≡ set_route tree.now.present msg.now rules.now) }
{
    let mut state = begun(msg, texts);
    if !rules_hold(alloc, tree, &mut state, rules)? {
        return Ok(None);
    }
    route_at(alloc, state)
}
