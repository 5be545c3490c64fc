//! Deeds, and the items that they make.

use acme_watch::Op;
use am_text::{Bytes, Items, Job, Runes};
use core_windows::Change;
use rule_syntax::{RuleSets, Vars};
use win_events::{Item, Origin};

/// The step that does deeds: the number of its entry in the journal, and what the items come from that it makes.
#[derive(Clone, Copy)]
pub struct Entry {
    pub at: u64,
    pub origin: Origin,
}

/// One small thing that a step does.
#[derive(Drop)]
pub enum Deed {
    /// A change of the windows, which also makes its items where the event file of its window is open. A window that is
    /// made, deleted or named by it is noted for the file `log`.
    Windows(Change),
    /// An item of a window comes, where its event file is open.
    Item {
        window: u32,
        item: Item,
    },
    /// The snarfed text becomes this one.
    Snarfs(Runes),
    /// A file of these bytes is stored, and the directories above it are made. An old file of the path is replaced.
    Stores {
        path: Bytes,
        bytes: Bytes,
    },
    /// A directory is made, and the directories above it. One that is there stays as it is.
    MakesDir {
        path: Bytes,
    },
    /// A program is requested, under the next number, and waits in the file `jobs`.
    Requests(Job),
    /// What was done to a window is noted for the file `log`, with the window's name.
    Notes {
        window: u32,
        op: Op,
    },
    /// Sets of rules are accepted, with the variables after them and the text in which they were written.
    AddsRules {
        sets: RuleSets,
        vars: Vars,
        text: Bytes,
    },
    /// All rules of the plumber are forgotten, with their variables and their text.
    ClearsRules,
    /// A port of this name is added, the last one. A name that is there keeps its port.
    AddsPort(Bytes),
    /// A message is delivered to the port of this name, a copy to each opening; one without openings keeps it.
    Delivers {
        port: Bytes,
        message: Bytes,
        keep: bool,
    },
}

/// Deeds, done from first to last.
pub type Deeds = Items<Deed>;

/// An item that was made for the event file of a window.
#[derive(Drop)]
pub struct WindowItem {
    pub window: u32,
    pub item: Item,
}

/// Such items, in the order in which they were made.
pub type WindowItems = Items<WindowItem>;
