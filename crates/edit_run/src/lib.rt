//! What Edit's commands do to a text.
#![tactic(auto)]

mod acts;
mod doing;
mod effects;
mod fault;
mod kept;
pub mod laws;
mod line_cursor;
mod matching;
mod planning;
mod replacing;
mod running;
mod telling;
mod texts;
mod types;

pub use am_text::{Job, JobKind, Jobs};
pub use edit_log::{Edit, Edits};
pub use edit_parts::{Act, Addr, Cmd, Cmds};
pub use effects::Effects;
pub use fault::EditFault;
pub use planning::changes;
pub use types::{EditPlan, Site};
