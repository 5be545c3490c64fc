//! The trees that the editor serves: their nodes, walks between them, and how each may be opened.
//!
//! `docs/formats/trees.md` has the table of nodes.
#![tactic(auto)]

mod access;
mod entries;
mod listing;
mod modes;
mod names;
mod node;
mod walk;

pub use access::{May, may_open, truncates};
pub use am_text::{Bytes, Ids, Items, NoMemory};
pub use listing::{children, qid_of, stat_of};
pub use ninep_frame::{Stat, Stats};
pub use ninep_types::Qid;
pub use node::{Node, WinFile, World, is_dir, is_live, world_is_full};
pub use walk::{Step, walk_one};
