//! Searches for an expression by the positions of its letters.
#![tactic(auto)]

mod alone;
mod bounds;
mod contexts;
mod copy;
mod fill;
mod found;
mod leaves;
mod machine;
mod nodes;
mod rows;
mod search;
mod set;
mod successive;
mod tables;
mod way;
mod wide;

pub use machine::Machine;
