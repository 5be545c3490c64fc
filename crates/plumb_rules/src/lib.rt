//! The plumber's rules, after plumb(6), and the route of a message by them.
#![tactic(auto)]

mod answer;
mod attributes;
mod draft;
mod fields;
mod laws;
mod matched;
mod matching;
mod message;
mod pattern;
mod placed;
mod routing;
mod sets;
mod state;
mod texts;
mod verbs;
mod whole;

pub use answer::{Route, Way};
pub use attributes::attr_value;
pub use laws::{expressions_have_trees, first_set_is_taken, messages_are_delivered_whole};
pub use routing::route;
pub use rule_syntax::{
    Argument, Field, Late, Piece, ReadRule, Rule, RuleFault, RuleSets, Rules, Var, Vars, Verb,
    parse_rules,
};
