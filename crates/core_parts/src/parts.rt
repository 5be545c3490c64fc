//! The tables of the editor: what is kept of the state that its journal leads to.

ghost use Rattle.std.specs.Prelude.{◌≡◌, [], replicate, IfOk};
ghost use Rattle.am_text.specs.Twice.{both};
ghost use Rattle.am_journal.specs.Limits.{connection_count};
ghost use Rattle.core_scene.specs.Scenes.{kept_of, scene_in};
ghost use Rattle.core_parts.specs.Parts.{present_of, AreSteady};
ghost use Rattle.core_parts.specs.States.{is_watched, start_of, present};

use crate::connection::Connection;
use am_journal::{CONNECTIONS, Format};
use am_text::{Bytes, Items, NoMemory};
use core_outputs::{Outputs, Reply};
use core_scene::Scene;
use fid_table::Sessions;
use std::alloc::Global;

/// The tables of the editor: what is kept of the state that a journal leads to, and what is ready for one step more.
pub struct Parts {
    /// How many entries were done.
    pub entries: u64,
    /// The 64 connections.
    pub connections: Vec<Connection>,
    /// The user of each: the uname of its last Tattach that was answered by Rattach, empty where there is none.
    pub users: Vec<Bytes>,
    /// Their sessions, fids and waiting reads, and the format of the journal.
    pub sessions: Sessions,
    /// What steps play on: windows, event files, `log` and `jobs`, and the rest.
    pub scene: Scene,
    /// The unsent replies of each connection.
    pub outputs: Outputs,
    /// The replies that the last entry made.
    pub replies: Vec<Reply>,
}

// By hand, so that a crate that drops the tables goes by this drop, and has not to prove those of all that is in them.
impl Drop for Parts {
    fn drop(self) {
        let Parts {
            entries: _,
            connections: _,
            users: _,
            sessions: _,
            scene: _,
            outputs: _,
            replies: _,
        } = self;
    }
}

// Whether the editor has the files `log` and `jobs`.
fn is_watched(format: Format) -> bool
    ensures { result ≡ is_watched format }
{
    match format {
        Format::One => false,
        Format::Two => true,
    }
}

// No connection has a user.
#[tactic(auto, using(crate::proofs::Users::more_users))]
fn no_users(alloc: Global) -> Result<Vec<Bytes>, NoMemory>
    ensures { IfOk result (λ users. users.items ≡ replicate connection_count []) }
{
    let mut users = Vec::new(alloc);
    while users.len() < CONNECTIONS {
        users.push(Items::new(alloc))?;
    }
    Ok(users)
}

impl Parts {
    /// The tables of the empty editor of a format, with nothing ready in them.
    pub fn new(alloc: Global, format: Format) -> Result<Parts, NoMemory>
        ensures state { IfOk result (λ parts. present_of parts ≡ present (start_of format)) }
        ensures steady { IfOk result AreSteady }
    {
        Ok(Parts {
            entries: 0,
            connections: vec![in alloc; Connection::Undialed; CONNECTIONS]?,
            users: no_users(alloc)?,
            sessions: Sessions::new(alloc, format)?,
            scene: Scene::new(alloc, is_watched(format))?,
            outputs: Outputs::new(alloc)?,
            replies: Vec::new(alloc),
        })
    }

    /// Takes back what was made ready for an event that wasn't done. It takes no memory.
    pub fn back(&mut self, alloc: Global)
        ensures new { self.new ≡ record self.old {
          sessions = both self.old.sessions.kept;
          scene =
              scene_in (kept_of self.old.scene);
          outputs = both self.old.outputs.kept;
        } }
    {
        self.sessions.back();
        self.scene.back(alloc);
        self.outputs.back();
    }
}
