//! What holds of a book over the calls that one entry makes of it, and of ports over calls of them.
#![tactic(auto)]

pub mod laws;
mod port_laws;
