//! Sessions: the connections that joined, their fids, and the reads that wait.
#![tactic(auto)]

mod fids;
mod held;
mod laws;
mod session;
mod sessions;
mod table;
mod types;
mod undo;

pub use held::Held;
pub use laws::{drops_all_fids, finds_what_was_put, forgets_what_was_taken, leaves_other_fids};
pub use sessions::Sessions;
pub use types::Fid;
