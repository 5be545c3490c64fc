//! Rules of the plumber, after plumb(6): how they are written, where whole sets of them end, and which ports they name.
#![tactic(auto)]

mod argument;
mod cutting;
mod expression;
mod fault;
mod fit;
mod laws;
mod naming;
mod parsing;
mod read_rule;
mod rule;
mod text_laws;
mod text_words;
mod verbs;
mod words;

pub use cutting::{Scan, sets_end};
pub use fault::RuleFault;
pub use laws::{arguments_are_read_in_parts, expressions_have_sizes};
pub use naming::ports_of;
pub use parsing::parse_rules;
pub use read_rule::{ReadRule, RuleSets, Rules};
pub use rule::{Argument, Field, Late, Piece, Rule, Var, Vars, Verb};
pub use text_laws::names_are_ports;
