//! What a step is made of: deeds, done one after another to one scene: the windows, the event files, the tree
//! of files, the snarfed text, the requests, the rules and ports of the plumber, and the files `log` and `jobs`;
//! and the items and lines that a change of the windows makes.
#![tactic(auto)]

mod changing;
mod deed;
mod edits;
pub mod laws;
mod making;
mod noted;
mod plain;
mod scene;
mod size;
mod tags;
mod told;

pub use acme_watch::{Op, Watch};
pub use am_text::{Bytes, Items, Job, JobKind, NoMemory, Runes};
pub use changing::deeds_of;
pub use core_stores::{Requests, RuleStore, Snarf};
pub use core_windows::{Change, Changes, Setting, Windows, World};
pub use deed::{Deed, Deeds, Entry, WindowItem, WindowItems};
pub use event_book::Book;
pub use making::items_of;
pub use name_tree::{Found, Tree};
pub use plain::NewItems;
pub use plumb_ports::Ports;
pub use rule_syntax::{RuleSets, Vars};
pub use scene::Scene;
pub use win_events::{Item, Origin};
