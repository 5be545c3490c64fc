//! Regular expressions: their trees, how they are written, and what they match.
#![tactic(auto)]

mod builder;
mod laws;
mod nodes;
mod parser;
mod re;
mod scanner;
mod sign;

pub use laws::a_text_has_one_tree;
pub use nodes::nodes_of;
pub use parser::parse_re;
pub use re::{Groups, Re, ReFault, RuneSpans};
