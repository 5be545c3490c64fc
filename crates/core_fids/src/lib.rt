//! What messages do to sessions and fids: versions, attaches, walks, opens, clunks, directories and stat records.
#![tactic(auto)]

mod attaching;
mod content;
mod directory;
mod effect;
mod fids;
mod freeing;
mod listing;
mod opening;
mod refusal;
mod server;
mod walking;

pub use acme_watch::{OpeningCounts, WatchFile};
pub use am_text::{Bytes, Items, NoMemory};
pub use attaching::{attach, version};
pub use content::{Content, content_of};
pub use core_stores::RuleStore;
pub use core_windows::{Change, Changes, Windows};
pub use effect::{Answer, Demand, Effect, EventChange, Reaction, WatchOpening};
pub use fids::{
    at_most_three, copy, emptied_fid, event_opening, fid_with_part, held_with, is_for_reading,
    is_for_writing, port_opening, watch_opening,
};
pub use freeing::{clunk, deny, remove};
pub use listing::{Reading, read_dir, stat};
pub use ninep_types::RBody;
pub use opening::open;
pub use plumb_ports::Ports;
pub use refusal::{Fault, Refusal, error, refuse};
pub use server::{Opened, Server, port_names};
pub use walking::walk;
