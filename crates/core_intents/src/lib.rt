//! Which events are enabled, and what an event is to do.
#![tactic(auto)]

mod enabled;
mod intent;
mod may_come;
mod origin;
mod spot;
mod typing;
mod users;

pub use intent::{Intent, answer_or, intent_of, with_held};
pub use may_come::why_not;
pub use users::user_of;
