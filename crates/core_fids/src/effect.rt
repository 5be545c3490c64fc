//! What a message does, and what it is answered.

ghost use Rattle.std.specs.Prelude.{◌≡◌};
ghost use Rattle.core_fids.specs.Plainly.{demands, does, frees};

use acme_watch::WatchFile;
use am_text::{Bytes, Items};
use core_windows::Changes;
use fid_table::{Fid, Held};
use ninep_types::RBody;
use std::alloc::Global;

/// What a message does to the fids and the session of its connection.
#[derive(Drop)]
pub enum Effect {
    /// Nothing.
    Nothing,
    /// All fids are freed, and a session with this msize is open, or none.
    Begins { msize: Option<u32> },
    /// The number names this fid.
    Puts { number: u32, fid: Fid },
    /// The number names no fid.
    Frees { number: u32 },
}

/// What a message does to the openings and the waiting reads of event files, ports, `log` and `jobs`.
#[derive(Clone, Copy, Debug, PartialEq, Eq)]
pub enum EventChange {
    /// Nothing.
    Nothing,
    /// The event file of this window gets an opening more.
    Opens { window: u32 },
    /// The port of this number gets an opening more.
    Joins { port: u32 },
    /// The file gets an opening more.
    Watches { file: WatchFile },
    /// The read of the connection that has this tag waits no more.
    Cancels { tag: u16 },
}

/// An opening of one of the files `log` and `jobs`; those of each file are numbered from 1.
#[derive(Clone, Copy, Debug, PartialEq, Eq)]
pub struct WatchOpening {
    pub file: WatchFile,
    pub opening: u32,
}

/// How a message is answered.
#[derive(Drop)]
pub enum Answer {
    /// By this, at once.
    Says(RBody),
    /// By what is there for this opening of an event file, at most `count` bytes of it: at once, or once something is
    /// there. The read is one of this fid.
    Reads {
        fid: u32,
        opening: u32,
        count: u32,
    },
    /// The same, for this opening of a port.
    ReadsPort {
        fid: u32,
        opening: u32,
        count: u32,
    },
    /// The same, for this opening of `log` or of `jobs`.
    ReadsWatch {
        fid: u32,
        opening: WatchOpening,
        count: u32,
    },
}

/// What a message asks of the scene beyond changes of the windows.
#[derive(Drop)]
pub enum Demand {
    /// Nothing.
    Nothing,
    /// The control messages of this text are done in this window.
    Controls { window: u32, text: Bytes },
    /// The item of this window that the text names is written back.
    WriteBack { window: u32, text: Bytes },
    /// The rules of the plumber are forgotten.
    ClearsRules,
    /// The sets of rules that are whole in this text are added; the fid that is put holds what is left of it.
    AddsRules { text: Held },
    /// This text is added as rules, all of it.
    AddsRest { text: Bytes },
    /// The plumb messages that are whole in this text are sent; the fid that is put holds what is left of it.
    Sends { text: Held },
    /// A request is answered by this text, by this opening of `jobs`.
    Answers { opening: u32, text: Bytes },
}

/// What a message does: to its connection, to the files whose reads wait, and to the windows; what it asks of the scene
/// besides; and its answer, which is given where what it asks isn't refused.
#[derive(Drop)]
pub struct Reaction {
    pub effect: Effect,
    pub events: EventChange,
    pub changes: Changes,
    pub demand: Demand,
    pub answer: Answer,
}

impl Reaction {
    /// What a message does that has nothing to do with files whose reads wait, and is answered at once.
    pub fn plain(effect: Effect, changes: Changes, body: RBody) -> Reaction
        ensures { result ≡ does effect changes body }
    {
        Reaction {
            effect,
            events: EventChange::Nothing,
            changes,
            demand: Demand::Nothing,
            answer: Answer::Says(body),
        }
    }

    /// What a message does that frees a fid, asks this of the scene, and is answered at once.
    pub fn freeing(alloc: Global, number: u32, demand: Demand, body: RBody) -> Reaction
        ensures { result ≡ frees number demand body }
    {
        Reaction {
            effect: Effect::Frees { number },
            events: EventChange::Nothing,
            changes: Items::new(alloc),
            demand,
            answer: Answer::Says(body),
        }
    }

    /// What a message does that asks this of the scene, and is answered by the number of its bytes.
    pub fn asking(alloc: Global, demand: Demand, count: u32) -> Reaction
        ensures { result ≡ demands demand count }
    {
        Reaction {
            effect: Effect::Nothing,
            events: EventChange::Nothing,
            changes: Items::new(alloc),
            demand,
            answer: Answer::Says(RBody::Write { count }),
        }
    }
}
