//! The tables of sessions and of waiting reads, in one state.

ghost use Rattle.std.specs.Prelude.{◌≡◌, not, filter, length, slice_get, option_copied, option_map, count_by, IfOk};
ghost use Rattle.std.specs.Prelude.{OnOk, OnErr};
ghost use Rattle.std.specs.List.{list_any};
ghost use Rattle.fid_table.specs.Fids.{AreDistinct, seen};
ghost use Rattle.fid_table.specs.Tables.{nothing, has_joined, msize_of, fids_of, fid_of, is_waiting, is_waiting_on};
ghost use Rattle.fid_table.specs.Tables.{as_triple, after_join, after_version, after_put, after_take, after_wait};
ghost use Rattle.fid_table.specs.Tables.{after_done};
ghost use Rattle.fid_table.specs.Undo.{after_leave, after_restore, after_unwait};

use crate::fids::Fids;
use crate::session::{Session, Waiting, place_of, session_of};
use crate::types::Fid;
use am_journal::Format;
use am_text::NoMemory;
use std::alloc::Global;
use std::marker::Model;

fn drop_reads_on(waiting: &mut Vec<Waiting>, conn: u32)
    ensures { waiting.new.items ≡ filter (λ w. not (is_waiting_on conn w)) waiting.old.items }
{
    waiting.retain(|w| w.conn != conn);
}

fn drop_read(waiting: &mut Vec<Waiting>, conn: u32, tag: u16)
    ensures { waiting.new.items ≡ filter (λ w. not (is_waiting conn tag w)) waiting.old.items }
{
    waiting.retain(|w| !(w.conn == conn && w.tag == tag));
}

/// The format of the journal, the connections that joined, and the reads that wait, in the order of asking.
#[derive(Drop)]
pub struct Table {
    format: Format,
    sessions: Vec<Session>,
    waiting: Vec<Waiting>,
}

impl Model for Table {
    ghost use Rattle.fid_table.specs.Tables.{Tables};

    ghost Value = { Tables };

    ghost view = { λ t. record { format = t.format; sessions = t.sessions.items; waiting = t.waiting.items } };
}

impl Table {
    /// No connections. It takes no memory.
    pub fn new(alloc: Global, format: Format) -> Self
        ensures { result ≡ nothing format }
    {
        Table {
            format,
            sessions: Vec::new(alloc),
            waiting: Vec::new(alloc),
        }
    }

    /// The format of the journal.
    pub fn format(&self) -> Format
        ensures { result ≡ self.now.format }
    {
        self.format
    }

    /// Whether the connection joined.
    pub fn has_joined(&self, conn: u32) -> bool
        ensures { result ≡ has_joined self.now conn }
    {
        self.sessions.iter().any(|s| s.conn == conn)
    }

    /// The msize of the connection's session.
    pub fn msize(&self, conn: u32) -> Option<u32>
        ensures { result ≡ msize_of self.now conn }
    {
        match session_of(self.sessions.as_slice(), conn) {
            Some(session) => session.msize,
            None => None,
        }
    }

    /// How many fids the connection has. Each number is in use once.
    pub fn count(&self, conn: u32) -> usize
        ensures count { result ≡ length (fids_of self.now conn) }
        ensures distinct { AreDistinct (fids_of self.now conn) }
    {
        match session_of(self.sessions.as_slice(), conn) {
            Some(session) => session.fids.len(),
            None => 0,
        }
    }

    /// A fid of the connection.
    pub fn fid(&self, conn: u32, fid: u32) -> Option<&Fid>
        ensures { option_copied result ≡ fid_of self.now conn fid }
    {
        match session_of(self.sessions.as_slice(), conn) {
            Some(session) => session.fids.get(fid),
            None => None,
        }
    }

    /// The connection's k-th fid, with its number.
    pub fn fid_at(&self, conn: u32, k: usize) -> Option<(u32, &Fid)>
        ensures { option_map seen result ≡ slice_get (fids_of self.now conn) k }
    {
        match session_of(self.sessions.as_slice(), conn) {
            Some(session) => session.fids.at(k),
            None => None,
        }
    }

    /// The k-th waiting read: connection, tag and fid.
    pub fn waiter(&self, k: usize) -> Option<(u32, u16, u32)>
        ensures { result ≡ option_map as_triple (slice_get self.now.waiting k) }
    {
        match self.waiting.get(k) {
            Some(read) => Some((read.conn, read.tag, read.fid)),
            None => None,
        }
    }

    /// How many reads wait.
    pub fn waiters(&self) -> usize
        ensures { result ≡ length self.now.waiting }
    {
        self.waiting.len()
    }

    /// Whether a read with this tag of this connection waits.
    pub fn waits(&self, conn: u32, tag: u16) -> bool
        ensures { result ≡ list_any (is_waiting conn tag) self.now.waiting }
    {
        self.waiting.iter().any(|w| w.conn == conn && w.tag == tag)
    }

    /// How many reads of the connection wait.
    pub fn waiting(&self, conn: u32) -> usize
        ensures { result ≡ count_by (is_waiting_on conn) self.now.waiting }
    {
        self.waiting.iter().filter(|w| w.conn == conn).count()
    }

    /// One more connection, with no session. A refusal changes nothing.
    pub fn join(&mut self, alloc: Global, conn: u32) -> Result<(), NoMemory>
        ensures ok { OnOk result (self.new ≡ after_join self.old conn) }
        ensures err { OnErr result (self.new ≡ self.old) }
    {
        self.sessions.push(Session {
            conn,
            msize: None,
            fids: Fids::new(alloc),
        })?;
        Ok(())
    }

    /// The newest connection leaves.
    pub fn leave(&mut self)
        ensures { self.new ≡ after_leave self.old }
    {
        self.sessions.pop();
    }

    /// The connection's session begins anew with this msize, or ends: its fids and waiting reads go.
    pub fn version(&mut self, conn: u32, msize: Option<u32>)
        ensures { self.new ≡ after_version self.old conn msize }
    {
        drop_reads_on(&mut self.waiting, conn);
        let Some(place) = place_of(self.sessions.as_slice(), conn) else {
            return;
        };
        let session = &mut self.sessions[place];
        session.msize = msize;
        session.fids.clear();
    }

    /// Sets a fid of the connection, and gives the one that it had. A refusal changes nothing.
    pub fn put(&mut self, conn: u32, fid: u32, value: Fid) -> Result<Option<Fid>, NoMemory>
        ensures before { IfOk result (λ before. before ≡ fid_of self.old conn fid) }
        ensures ok { OnOk result (self.new ≡ after_put self.old conn fid value) }
        ensures err { OnErr result (self.new ≡ self.old) }
    {
        let Some(place) = place_of(self.sessions.as_slice(), conn) else {
            return Ok(None);
        };
        let session = &mut self.sessions[place];
        session.fids.put(fid, value)
    }

    /// Takes a fid of the connection out.
    pub fn take(&mut self, conn: u32, fid: u32) -> Option<Fid>
        ensures value { result ≡ fid_of self.old conn fid }
        ensures new { self.new ≡ after_take self.old conn fid }
    {
        let Some(place) = place_of(self.sessions.as_slice(), conn) else {
            return None;
        };
        let session = &mut self.sessions[place];
        session.fids.take(fid)
    }

    /// Sets a fid that the connection has.
    pub fn restore(&mut self, conn: u32, fid: u32, value: Fid)
        ensures { self.new ≡ after_restore self.old conn fid value }
    {
        let Some(place) = place_of(self.sessions.as_slice(), conn) else {
            return;
        };
        let session = &mut self.sessions[place];
        session.fids.restore(fid, value);
    }

    /// One more read waits, the newest. A refusal changes nothing.
    pub fn wait(&mut self, conn: u32, tag: u16, fid: u32) -> Result<(), NoMemory>
        ensures ok { OnOk result (self.new ≡ after_wait self.old conn tag fid) }
        ensures err { OnErr result (self.new ≡ self.old) }
    {
        self.waiting.push(Waiting { conn, tag, fid })?;
        Ok(())
    }

    /// The newest waiting read waits no more.
    pub fn unwait(&mut self)
        ensures { self.new ≡ after_unwait self.old }
    {
        self.waiting.pop();
    }

    /// The read with this tag of this connection waits no more.
    pub fn done(&mut self, conn: u32, tag: u16)
        ensures { self.new ≡ after_done self.old conn tag }
    {
        drop_read(&mut self.waiting, conn, tag);
    }
}
