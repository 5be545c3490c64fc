//! The ports that rules name.

ghost use Rattle.std.specs.Prelude.{◌≡◌, ◌++◌, [], IfOk, OnOk};
ghost use Rattle.rule_syntax.specs.Verbs.{is_to};
ghost use Rattle.rule_syntax.specs.Naming.{port_of, set_ports, ports_of};

use crate::argument::runes_of;
use crate::{ReadRule, Rules, Verb};
use am_text::{Bytes, Names, NoMemory, encode};
use std::alloc::Global;

fn is_to(verb: Verb) -> bool
    ensures { result ≡ is_to verb }
{
    match verb {
        Verb::To => true,
        _ => false,
    }
}

// Puts the port that a rule names at the end.
#[tactic(auto, using(crate::proofs::Further::rules))]
fn put_port(alloc: Global, names: &mut Names, rule: &ReadRule) -> Result<(), NoMemory>
    ensures { OnOk result (names.new ≡ names.old ++ port_of rule.now) }
{
    let rule = rule.get();
    if is_to(rule.verb) {
        let name: Bytes = encode(alloc, &runes_of(alloc, rule.argument.as_slice())?)?;
        names.push(name)?;
    }
    Ok(())
}

// Puts the ports that a set names at the end.
#[tactic(auto, using(crate::proofs::Further::rules))]
fn put_ports(alloc: Global, names: &mut Names, rules: &[ReadRule]) -> Result<(), NoMemory>
    ensures { OnOk result (names.new ≡ names.old ++ set_ports rules.now) }
{
    for rule in rules {
        put_port(alloc, names, rule)?;
    }
    Ok(())
}

/// The ports that sets name, in the order of their rules. One that is named twice stands there twice.
#[tactic(auto, using(crate::proofs::Further::sets))]
pub fn ports_of(alloc: Global, sets: &[Rules]) -> Result<Names, NoMemory>
    ensures { IfOk result (λ names. names ≡ ports_of sets.now) }
{
    let mut names = Names::new(alloc);
    for rules in sets {
        put_ports(alloc, &mut names, rules.as_slice())?;
    }
    Ok(names)
}
