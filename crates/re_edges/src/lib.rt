//! With which runes the matches of an expression may begin and end: a look at the edges of a text tells of most texts
//! that no match is the whole of them, without the expression.
#![tactic(auto)]

mod edges;
mod laws;
mod runes;
mod steps;

pub use edges::Edges;
pub use laws::matches_keep_to_edges;
pub use runes::RuneSet;
pub use steps::Side;
