//! Which spans of a text an expression matches, by sets of places.
#![tactic(auto)]

mod choice;
mod filling;
mod laws;
mod leaf;
mod marks;
mod over;
mod places;
mod reach;
mod shapes;
mod successive;
mod walk;
mod way;

pub use choice::{first_match, last_match, matches_span};
pub use filling::groups;
pub use laws::{searches_choose_a_match, successive_matches_follow};
pub use leaf::{Here, here_at, takes};
pub use over::match_over;
pub use re_syntax::{Groups, Re};
pub use successive::successive_matches;
