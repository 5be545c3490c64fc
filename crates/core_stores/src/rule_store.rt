//! The rules of the plumber.

ghost use Rattle.std.specs.Prelude.{◌≡◌, ◌≤◌, true, length, OnOk, IfOk, IfErr, Ok};
ghost use Rattle.am_text.specs.Twice.{both};
ghost use Rattle.am_text.specs.Utf8.{decode};
ghost use Rattle.rule_syntax.specs.Parsing.{rules_of, Refuses};
ghost use Rattle.core_stores.specs.Stores.{no_rules, added, has_room};

use crate::rule_lists::RuleLists;
use am_text::NoMemory;
use rule_syntax::{RuleFault, RuleSets, Vars, parse_rules};
use std::alloc::Global;
use std::marker::Model;
use std::mem;

// How many bytes of rules are accepted at most.
const MAX_RULE_BYTES: usize = 262_144;

/// The rules of the plumber, after plumb(6), in two states: the accepted sets, the variables that they define, and the
/// text in which they were written, which a read of the file `rules` gives back. They are added to, and all are
/// forgotten at once. There are 262,144 bytes of text at most.
pub struct RuleStore {
    alloc: Global,
    lists: RuleLists,
    // What was there at the last `keep`, where all was forgotten since.
    before: Option<RuleLists>,
}

// By hand, so that a crate that drops rules goes by this drop, and has not to prove those of all that is in them.
impl Drop for RuleStore {
    fn drop(self) {
        let RuleStore {
            alloc: _,
            lists: _,
            before: _,
        } = self;
    }
}

impl Model for RuleStore {
    ghost use Rattle.std.specs.Prelude.{◌≤◌, length};
    ghost use Rattle.am_text.specs.Twice.{Twice};
    ghost use Rattle.core_stores.specs.Limits.{max_rule_bytes};
    ghost use Rattle.core_stores.specs.Stores.{RuleState, first_of};

    ghost Value = { Twice RuleState };

    ghost view = { λ r. record { present = r.lists.present; kept = (first_of r.before r.lists).kept } };

    ghost invariant = { λ r. (length r.lists.present.text ≤ max_rule_bytes)
        × (length (first_of r.before r.lists).kept.text ≤ max_rule_bytes) };
}

impl RuleStore {
    /// No rules. It takes no memory.
    pub fn new(alloc: Global) -> RuleStore
        ensures { result ≡ both no_rules }
    {
        RuleStore {
            alloc,
            lists: RuleLists::new(alloc),
            before: None,
        }
    }

    /// The present sets, in their order.
    pub fn sets(&self) -> &RuleSets
        ensures { result.now ≡ self.now.present.sets }
    {
        self.lists.sets()
    }

    /// The variables that they define at present.
    pub fn vars(&self) -> &Vars
        ensures { result.now ≡ self.now.present.vars }
    {
        self.lists.vars()
    }

    /// The present text.
    pub fn text(&self) -> &[u8]
        ensures { result.now ≡ self.now.present.text }
    {
        self.lists.text().as_slice()
    }

    /// Whether so many bytes more may be accepted.
    pub fn has_room(&self, bytes: usize) -> bool
        ensures { result ≡ has_room self.now.present bytes }
    {
        bytes <= MAX_RULE_BYTES - self.lists.text().len()
    }

    /// The sets of a text, read with the present variables, and the variables after it; or what is wrong in it. Nothing
    /// is added.
    pub fn read(&self, alloc: Global, text: &[u8]) -> Result<(RuleSets, Vars), RuleFault>
        ensures ok { IfOk result (λ read. rules_of (decode text.now) self.now.present.vars ≡ Ok read) }
        ensures refused { IfErr result (λ e. Refuses e (rules_of (decode text.now) self.now.present.vars)) }
    {
        parse_rules(alloc, text, self.vars())
    }

    /// Adds sets that were read, with the variables after them, and their text, for which there is room. After a
    /// refusal the present state is to be given up, by `back`.
    pub fn add(&mut self, sets: RuleSets, vars: Vars, text: &[u8]) -> Result<(), NoMemory>
        requires { has_room self.old.present (length text.now) ≡ true }
        ensures ok { OnOk result (self.new ≡ record self.old { present = added self.old.present sets vars text.now }) }
        ensures kept { self.new.kept ≡ self.old.kept }
    {
        self.lists.add(sets, vars, text)
    }

    /// Forgets all rules, their variables and their text. It takes no memory.
    pub fn clear(&mut self)
        ensures { self.new ≡ record self.old { present = no_rules } }
    {
        let lists = mem::replace(&mut self.lists, RuleLists::new(self.alloc));
        if self.before.is_none() {
            self.before = Some(lists);
        }
    }

    /// The present state becomes the kept one. It takes no memory.
    pub fn keep(&mut self)
        ensures { self.new ≡ both self.old.present }
    {
        self.before = None;
        self.lists.keep();
    }

    /// The kept state becomes the present one again, for which the rules added since are let go. It takes no memory.
    pub fn back(&mut self)
        ensures { self.new ≡ both self.old.kept }
    {
        if let Some(before) = self.before.take() {
            self.lists = before;
        }
        self.lists.back();
    }
}
