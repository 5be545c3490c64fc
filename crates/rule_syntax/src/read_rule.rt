//! Rules as they are kept.

ghost use Rattle.std.specs.Prelude.{◌≡◌, IfSome, IsTrue};
ghost use Rattle.rule_syntax.specs.Edged.{AreEdgesOf, NeverMatches};

use crate::rule::Rule;
use am_text::{Items, Rune};
use re_edges::Edges;
use std::marker::Model;

/// A rule that was read, with the edges of the expression that its argument is, where that is known before a message
/// comes. Contracts see the rule.
pub struct ReadRule {
    rule: Rule,
    edges: Option<Edges>,
}

// By hand, so that a crate that drops a rule goes by this drop, and has not to prove those of all that is in it.
impl Drop for ReadRule {
    fn drop(self) {
        let ReadRule { rule: _, edges: _ } = self;
    }
}

impl Model for ReadRule {
    ghost use Rattle.std.specs.Prelude.{IfSome};
    ghost use Rattle.rule_syntax.specs.declared.rule.Rule.{Rule};
    ghost use Rattle.rule_syntax.specs.Edged.{AreEdgesOf};

    ghost Value = { Rule };

    ghost view = { λ r. r.rule };

    ghost invariant = { λ r. IfSome r.edges (AreEdgesOf r.rule.argument) };
}

/// The rules of one set, in order.
pub type Rules = Items<ReadRule>;

/// Sets of rules, in order.
pub type RuleSets = Items<Rules>;

impl ReadRule {
    /// A rule with these edges.
    pub(crate) fn new(rule: Rule, edges: Option<Edges>) -> ReadRule
        requires { IfSome edges (AreEdgesOf rule.argument) }
        ensures { result ≡ rule }
    {
        ReadRule { rule, edges }
    }

    /// The rule.
    pub fn get(&self) -> &Rule
        ensures { result.now ≡ self.now }
    {
        &self.rule
    }

    /// Whether the edges of a text tell that the argument is no expression that matches the whole text.
    pub fn never_matches(&self, text: &[Rune]) -> bool
        ensures { IsTrue result → NeverMatches self.now.argument text.now }
    {
        match &self.edges {
            None => false,
            Some(edges) => !edges.may_be_whole(text),
        }
    }
}
