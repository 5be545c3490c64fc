//! What an address means in a text.
#![tactic(auto)]

mod fault;
pub mod laws;
mod lines;
mod search;
mod tree;

pub use addr_syntax::Addr;
pub use fault::AddrFault;
pub use re_spans::searches_choose_a_match;
pub use tree::value;
