//! The sessions of all connections, in two states.

ghost use Rattle.std.specs.Prelude.{◌≡◌, false, length, slice_get, option_copied, option_map, count_by, IfOk, OnOk};
ghost use Rattle.std.specs.Prelude.{OnErr};
ghost use Rattle.std.specs.List.{list_any};
ghost use Rattle.am_text.specs.Twice.{both, IsSteady};
ghost use Rattle.fid_table.specs.Fids.{AreDistinct, seen};
ghost use Rattle.fid_table.specs.Tables.{nothing, has_joined, HasJoined, msize_of, fids_of, fid_of, is_waiting};
ghost use Rattle.fid_table.specs.Tables.{is_waiting_on, as_triple, after_join, after_version, after_hangup, after_put};
ghost use Rattle.fid_table.specs.Tables.{after_take, after_wait, after_done};

use crate::table::Table;
use crate::types::Fid;
use crate::undo::{Undo, take_all_back, unset};
use am_journal::Format;
use am_text::NoMemory;
use std::alloc::Global;
use std::marker::Model;

/// The sessions of all connections, their fids, and the reads that wait, in two states: a present
/// one, which every look answers from, and a kept one.
///
/// A call that may want memory changes the present state alone, and where it answers `NoMemory` the
/// present state is the kept one again. The other calls that change something want both states
/// equal, and change both.
pub struct Sessions {
    alloc: Global,
    table: Table,
    // What takes the growths since the last `keep` back, the oldest first.
    trail: Vec<Undo>,
}

// By hand, so that a crate that drops sessions goes by this drop, and has not to prove those of all that is in them.
impl Drop for Sessions {
    fn drop(self) {
        let Sessions {
            alloc: _,
            table: _,
            trail: _,
        } = self;
    }
}

impl Model for Sessions {
    ghost use Rattle.am_text.specs.Twice.{Twice};
    ghost use Rattle.fid_table.specs.Tables.{Tables};

    ghost Value = { Twice Tables };

    ghost use Rattle.fid_table.specs.Undo.{all_undone};

    ghost view = { λ s. record { present = s.table; kept = all_undone s.trail.items s.table } };
}

impl Sessions {
    /// No connection joined, and no read waits. The journal is of this format.
    pub fn new(alloc: Global, format: Format) -> Result<Sessions, NoMemory>
        ensures { IfOk result (λ sessions. sessions ≡ both (nothing format)) }
    {
        Ok(Sessions {
            alloc,
            table: Table::new(alloc, format),
            trail: Vec::with_capacity(alloc, 4)?,
        })
    }

    /// The present state becomes the kept one. It takes no memory.
    pub fn keep(&mut self)
        ensures { self.new ≡ both self.old.present }
    {
        self.trail.clear(); // nothing is left to take back
    }

    /// The kept state becomes the present one again. It takes no memory, and time for what was
    /// changed since the last `keep` alone.
    pub fn back(&mut self)
        ensures { self.new ≡ both self.old.kept }
    {
        take_all_back(&mut self.table, &mut self.trail);
    }

    /// The format of the journal. No call changes it.
    pub fn format(&self) -> Format
        ensures { result ≡ self.now.present.format }
    {
        self.table.format()
    }

    /// Whether the connection joined.
    pub fn has_joined(&self, conn: u32) -> bool
        ensures { result ≡ has_joined self.now.present conn }
    {
        self.table.has_joined(conn)
    }

    /// The msize of the connection's session, None exactly where no session is open.
    pub fn msize(&self, conn: u32) -> Option<u32>
        ensures { result ≡ msize_of self.now.present conn }
    {
        self.table.msize(conn)
    }

    /// How many fids the connection has. Each number is in use once.
    pub fn count(&self, conn: u32) -> usize
        ensures count { result ≡ length (fids_of self.now.present conn) }
        ensures distinct { AreDistinct (fids_of self.now.present conn) }
    {
        self.table.count(conn)
    }

    /// A fid of the connection, None exactly where the number isn't in use.
    pub fn fid(&self, conn: u32, fid: u32) -> Option<&Fid>
        ensures { option_copied result ≡ fid_of self.now.present conn fid }
    {
        self.table.fid(conn, fid)
    }

    /// The connection's k-th fid, from 0, with its number: None exactly where k isn't below `count`.
    pub fn fid_at(&self, conn: u32, k: usize) -> Option<(u32, &Fid)>
        ensures { option_map seen result ≡ slice_get (fids_of self.now.present conn) k }
    {
        self.table.fid_at(conn, k)
    }

    /// How many reads of all connections wait.
    pub fn waiters(&self) -> usize
        ensures { result ≡ length self.now.present.waiting }
    {
        self.table.waiters()
    }

    /// Connection, tag and fid of the k-th waiting read of all connections, from 0 in the order of
    /// asking: None exactly where k isn't below `waiters`.
    pub fn waiter(&self, k: usize) -> Option<(u32, u16, u32)>
        ensures { result ≡ option_map as_triple (slice_get self.now.present.waiting k) }
    {
        self.table.waiter(k)
    }

    /// Whether a read with this tag of this connection waits.
    pub fn waits(&self, conn: u32, tag: u16) -> bool
        ensures { result ≡ list_any (is_waiting conn tag) self.now.present.waiting }
    {
        self.table.waits(conn, tag)
    }

    /// How many reads of the connection wait.
    pub fn waiting(&self, conn: u32) -> usize
        ensures { result ≡ count_by (is_waiting_on conn) self.now.present.waiting }
    {
        self.table.waiting(conn)
    }

    fn try_join(&mut self, conn: u32) -> Result<(), NoMemory>
        ensures ok { OnOk result (self.new ≡ record self.old { present = after_join self.old.present conn }) }
        ensures err { OnErr result (self.new ≡ self.old) }
    {
        self.trail.reserve(1)?;
        self.table.join(self.alloc, conn)?;
        self.trail.push_reserved(Undo::Leave);
        Ok(())
    }

    /// A connection joins, with no session, no fids and no waiting reads.
    pub fn join(&mut self, conn: u32) -> Result<(), NoMemory>
        requires { has_joined self.old.present conn ≡ false }
        ensures ok { OnOk result (self.new ≡ record self.old { present = after_join self.old.present conn }) }
        ensures err { OnErr result (self.new ≡ both self.old.kept) }
    {
        match self.try_join(conn) {
            Ok(()) => Ok(()),
            Err(error) => {
                self.back();
                Err(error)
            }
        }
    }

    /// Drops all fids and waiting reads of the connection, and opens a session with this msize,
    /// or none (version(5)). It takes no memory.
    pub fn version(&mut self, conn: u32, msize: Option<u32>)
        requires joined { HasJoined self.old.present conn }
        requires steady { IsSteady self.old }
        ensures { self.new ≡ both (after_version self.old.present conn msize) }
    {
        self.trail.clear();
        self.table.version(conn, msize);
    }

    fn try_put(&mut self, conn: u32, fid: u32, value: Fid) -> Result<(), NoMemory>
        ensures ok { OnOk result (self.new ≡ record self.old { present = after_put self.old.present conn fid value }) }
        ensures err { OnErr result (self.new ≡ self.old) }
    {
        self.trail.reserve(1)?;
        let before = self.table.put(conn, fid, value)?;
        self.trail.push_reserved(unset(conn, fid, before));
        Ok(())
    }

    /// Sets a fid of the connection, whether its number is in use or not.
    pub fn put(&mut self, conn: u32, fid: u32, value: Fid) -> Result<(), NoMemory>
        requires { HasJoined self.old.present conn }
        ensures ok { OnOk result (self.new ≡ record self.old { present = after_put self.old.present conn fid value }) }
        ensures err { OnErr result (self.new ≡ both self.old.kept) }
    {
        match self.try_put(conn, fid, value) {
            Ok(()) => Ok(()),
            Err(error) => {
                self.back();
                Err(error)
            }
        }
    }

    /// Takes a fid of the connection out: None exactly where its number isn't in use. It takes no
    /// memory.
    pub fn take(&mut self, conn: u32, fid: u32) -> Option<Fid>
        requires { IsSteady self.old }
        ensures value { result ≡ fid_of self.old.present conn fid }
        ensures new { self.new ≡ both (after_take self.old.present conn fid) }
    {
        self.trail.clear();
        self.table.take(conn, fid)
    }

    fn try_wait(&mut self, conn: u32, tag: u16, fid: u32) -> Result<(), NoMemory>
        ensures ok { OnOk result (self.new ≡ record self.old { present = after_wait self.old.present conn tag fid }) }
        ensures err { OnErr result (self.new ≡ self.old) }
    {
        self.trail.reserve(1)?;
        self.table.wait(conn, tag, fid)?;
        self.trail.push_reserved(Undo::Unwait);
        Ok(())
    }

    /// A read of the connection waits, after all that wait already.
    pub fn wait(&mut self, conn: u32, tag: u16, fid: u32) -> Result<(), NoMemory>
        requires { HasJoined self.old.present conn }
        ensures ok { OnOk result (self.new ≡ record self.old { present = after_wait self.old.present conn tag fid }) }
        ensures err { OnErr result (self.new ≡ both self.old.kept) }
    {
        match self.try_wait(conn, tag, fid) {
            Ok(()) => Ok(()),
            Err(error) => {
                self.back();
                Err(error)
            }
        }
    }

    /// The read with this tag of the connection waits no more. It takes no memory.
    pub fn done(&mut self, conn: u32, tag: u16)
        requires { IsSteady self.old }
        ensures { self.new ≡ both (after_done self.old.present conn tag) }
    {
        self.trail.clear();
        self.table.done(conn, tag);
    }

    /// Drops the session, all fids and all waiting reads of the connection. It takes no memory.
    pub fn hangup(&mut self, conn: u32)
        requires joined { HasJoined self.old.present conn }
        requires steady { IsSteady self.old }
        ensures { self.new ≡ both (after_hangup self.old.present conn) }
    {
        self.trail.clear();
        self.table.version(conn, None);
    }
}
