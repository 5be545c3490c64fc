//! What a user does in the editor, as deeds over the scene, after acme(1).
#![tactic(auto)]

mod addressed;
mod deeds;
mod deleting;
mod editing;
mod errors;
mod fault;
mod files;
pub mod laws;
mod looking;
mod opening;
mod paths;
mod seen;
mod undoing;

pub use deeds::{edit_window, set_in_window};
pub use deleting::{del, delete};
pub use editing::{cut, paste, snarf};
pub use errors::append_errors;
pub use fault::ActionFault;
pub use files::{Saved, file_text, get, put, store};
pub use looking::{find, look, look_target, search};
pub use opening::{Target, new_window, open, target_of};
pub use paths::path_of;
pub use seen::{asks, dir_at, dot_at, dot_text_at, fits, name_at, size_at};
pub use undoing::{Move, move_groups};
