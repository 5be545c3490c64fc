//! A step: what it makes, which can be taken back, and then all of it done.
#![tactic(auto)]

mod acting;
mod applying;
mod files;
mod following;
mod growing;
mod laws;
mod ordering;
mod reading;
mod saying;
mod sessions;

pub use applying::apply;
pub use growing::grow;
pub use laws::answers_are_in_order;
pub use reading::PortRead;
