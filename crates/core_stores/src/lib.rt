//! What the editor keeps beside its windows and its files, in two states: the snarfed text, requests, and rules of the
//! plumber.
#![tactic(auto)]

mod growing;
mod requests;
mod rule_lists;
mod rule_store;
mod snarf;
mod swapped;

pub use requests::Requests;
pub use rule_store::RuleStore;
pub use snarf::Snarf;
