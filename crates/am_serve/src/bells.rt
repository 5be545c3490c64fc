//! The bells that the sides of connections and of a script wait for.

ghost use Rattle.std.specs.Prelude.{◌≡◌, ◌≢◌, ◌<◌, IfOk, length};
ghost use Rattle.am_journal.specs.Limits.{connection_count};

use crate::start::Start;
use am_counter::Told;
use am_journal::CONNECTIONS;
use am_text::NoMemory;
use std::alloc::Global;
use std::sync::Wait;
use std::sync::atomic::{AtomicBool, Ordering};
use turn_lock::Bell;

/// The bells of one connection.
#[derive(Drop)]
struct Pair {
    // Rings where replies were made to the connection, for the side that writes.
    replies: Bell,
    // Rings where its replies were taken, for the side that reads and waits for room.
    room: Bell,
    // Whether a side has told that it has ended.
    over: AtomicBool,
    // Whether the side that writes has begun.
    writing: Start,
}

/// A bell for each side of each connection, and one for a script. A side waits for its own alone, so an entry wakes
/// those sides alone for which it did something. That a ring is heard is not claimed.
#[derive(Drop)]
pub struct Bells {
    connections: Vec<Pair>,
    // Rings where a file was opened, or a connection has ended.
    script: Bell,
    // Whether the script has begun.
    scripting: Start,
    ghost all: { length connections.items ≡ connection_count },
}

impl Bells {
    /// Bells that were not rung. Only want of memory refuses them.
    pub fn new(alloc: Global) -> Result<Bells, NoMemory> {
        let mut connections = Vec::with_capacity(alloc, CONNECTIONS)?;
        for _conn in 0..CONNECTIONS {
            connections.push_reserved(Pair {
                replies: Bell::new(),
                room: Bell::new(),
                over: AtomicBool::new(false),
                writing: Start::new(),
            });
        }
        Ok(Bells {
            connections,
            script: Bell::new(),
            scripting: Start::new(),
        })
    }

    /// The side of a connection that writes begins.
    pub fn begin_writing(&self, conn: u32)
        requires { conn < connection_count }
    {
        let _begun = self.connections[conn as usize].writing.begin();
    }

    /// Waits for that side for a while, and answers whether it has begun. If not, no thread could be made for it.
    pub fn has_writer(&self, conn: u32) -> bool
        requires { conn < connection_count }
    {
        self.connections[conn as usize].writing.has_begun()
    }

    /// The script begins, and whether it isn't too late for it.
    pub fn begin_script(&self) -> bool {
        self.scripting.begin()
    }

    /// Waits for the script for a while. If it hasn't begun then, no thread could be made for it, and it is too late
    /// for it.
    pub fn await_script(&self) {
        let _begun = self.scripting.has_begun();
    }

    /// Replies were made to these connections.
    pub fn replied(&self, told: &Told) {
        for (conn, pair) in self.connections.iter().enumerate() {
            if told.has(conn as u32) {
                pair.replies.ring();
            }
        }
    }

    /// The replies of a connection were taken.
    pub fn taken(&self, conn: u32)
        requires { conn < connection_count }
    {
        self.connections[conn as usize].room.ring();
    }

    /// A file was opened.
    pub fn opened(&self) {
        self.script.ring();
    }

    /// A connection has ended.
    pub fn ended(&self, conn: u32)
        requires { conn < connection_count }
    {
        let pair = &self.connections[conn as usize];
        pair.over.store(true, Ordering::SeqCst);
        pair.replies.ring();
        pair.room.ring();
        self.script.ring();
    }

    /// Whether a side has told that a connection has ended. It asks without a turn; only the journal says so for
    /// certain.
    pub fn is_over(&self, conn: u32) -> bool
        requires { conn < connection_count }
    {
        self.connections[conn as usize].over.load(Ordering::SeqCst)
    }

    /// Sleeps until replies were made to a connection, or it has ended, since the number `seen`, and answers the number
    /// that it found then. The first number is 0.
    pub fn wait_for_replies<R: Wait>(&self, rt: &R, conn: u32, seen: u64) -> u64
        requires { conn < connection_count }
        ensures { result ≢ seen }
    {
        self.connections[conn as usize].replies.wait(rt, seen)
    }

    /// Sleeps until the replies of a connection were taken, or it has ended, as `wait_for_replies` does.
    pub fn wait_for_room<R: Wait>(&self, rt: &R, conn: u32, seen: u64) -> u64
        requires { conn < connection_count }
        ensures { result ≢ seen }
    {
        self.connections[conn as usize].room.wait(rt, seen)
    }

    /// Sleeps until a file was opened, or a connection has ended, as `wait_for_replies` does.
    pub fn wait_for_script<R: Wait>(&self, rt: &R, seen: u64) -> u64
        ensures { result ≢ seen }
    {
        self.script.wait(rt, seen)
    }
}
