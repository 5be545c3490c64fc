//! Stat records and directory reads of 9P2000, after stat(5) and read(5) of the Plan 9 manual.
//!
//! A stat record is size[2] type[2] dev[4] qid[13] mode[4] atime[4] mtime[4] length[8] name[s] uid[s]
//! gid[s] muid[s]. Here type, dev and the times are 0, and the owners are `acme`.
#![tactic(auto)]

mod directory;
pub mod laws;
mod layout;
mod places;
mod puts;
mod record;
mod stat;

pub use am_text::{Bytes, Items, NoMemory};
pub use directory::dir_read;
pub use ninep_types::Qid;
pub use stat::{Stat, Stats, stat_read, stat_write};
