//! Accepted rules, which are added to.

ghost use Rattle.std.specs.Prelude.{◌≡◌, ◌≤◌, ◌+◌, length, OnOk, OnErr};
ghost use Rattle.am_text.specs.Twice.{both};
ghost use Rattle.core_stores.specs.Stores.{no_rules, added};

use crate::growing::Growing;
use crate::swapped::Swapped;
use am_text::{Bytes, NoMemory};
use rule_syntax::{RuleSets, Rules, Vars};
use std::alloc::Global;
use std::marker::Model;

/// The accepted sets, their variables and their text, which are added to, in two states.
#[derive(Drop)]
pub(crate) struct RuleLists {
    sets: Growing<Rules>,
    vars: Swapped<Vars>,
    text: Growing<u8>,
}

impl Model for RuleLists {
    ghost use Rattle.am_text.specs.Twice.{Twice};
    ghost use Rattle.core_stores.specs.Stores.{RuleState};

    ghost Value = { Twice RuleState };

    ghost view = { λ r. record {
      present = record { sets = r.sets.present; vars = r.vars.present; text = r.text.present };
      kept = record { sets = r.sets.kept; vars = r.vars.kept; text = r.text.kept };
    } };
}

impl RuleLists {
    /// No rules. It takes no memory.
    pub(crate) fn new(alloc: Global) -> RuleLists
        ensures { result ≡ both no_rules }
    {
        RuleLists {
            sets: Growing::new(alloc),
            vars: Swapped::new(Vars::new(alloc)),
            text: Growing::new(alloc),
        }
    }

    /// The present sets.
    pub(crate) fn sets(&self) -> &RuleSets
        ensures { result.now ≡ self.now.present.sets }
    {
        self.sets.items()
    }

    /// The present variables.
    pub(crate) fn vars(&self) -> &Vars
        ensures { result.now ≡ self.now.present.vars }
    {
        self.vars.get()
    }

    /// The present text.
    pub(crate) fn text(&self) -> &Bytes
        ensures { result.now ≡ self.now.present.text }
    {
        self.text.items()
    }

    /// Adds sets, with the variables after them, and their text.
    pub(crate) fn add(&mut self, sets: RuleSets, vars: Vars, text: &[u8]) -> Result<(), NoMemory>
        ensures ok { OnOk result (self.new.present ≡ added self.old.present sets vars text.now) }
        ensures text { OnErr result (self.new.present.text ≡ self.old.present.text) }
        ensures kept { self.new.kept ≡ self.old.kept }
    {
        self.sets.extend(sets)?;
        self.text.append(text)?;
        self.vars.set(vars);
        Ok(())
    }

    /// The present state becomes the kept one. It takes no memory.
    pub(crate) fn keep(&mut self)
        ensures { self.new ≡ both self.old.present }
    {
        self.sets.keep();
        self.vars.keep();
        self.text.keep();
    }

    /// The kept state becomes the present one again. It takes no memory.
    pub(crate) fn back(&mut self)
        ensures { self.new ≡ both self.old.kept }
    {
        self.sets.back();
        self.vars.back();
        self.text.back();
    }
}
