//! A sink in memory.

ghost use Rattle.std.specs.Prelude.{◌≡◌, ◌≤◌, ◌<◌, [], Some, None, take, length, IfOk, OnErr};
ghost use Rattle.am_base.specs.Outside.{WasEnded, bytes_told, told_then, HasCause};
ghost use Rattle.am_base.specs.Memory.{no_calls, write_count, after_write, begun_sink, ended_sink};

use crate::calls::Calls;
use crate::sink::Sink;
use crate::source::Failed;
use am_text::{NoMemory, Numbers};
use std::alloc::Global;
use std::marker::Model;

/// A place in memory for some bytes, taken in pieces, with some calls that fail. It tells its
/// bytes.
#[derive(Drop)]
pub struct MemSink {
    held: Vec<u8>,
    room: usize,
    piece: usize,
    calls: Calls,
}

impl Model for MemSink {
    ghost use Rattle.std.specs.Prelude.{length, ◌≤◌, ◌<◌, vec_capacity};
    ghost use Rattle.am_base.specs.Memory.{SinkState};

    ghost Value = { SinkState };

    ghost view = { λ s. record { held = s.held.items; room = s.room; piece = s.piece; calls = s.calls } };

    ghost invariant = { λ s. (s.room ≤ vec_capacity s.held) × (0 < s.piece) };
}

impl MemSink {
    /// Takes room for `room` bytes, of which one write fills at most `piece`. The writes fail
    /// whose numbers, from 1, stand in `fail_at`, those where the room is full, those once it was
    /// ended, and no others.
    pub fn new(
        alloc: Global,
        room: usize,
        piece: usize,
        fail_at: Numbers,
    ) -> Result<MemSink, NoMemory>
        requires { 0 < piece }
        ensures { IfOk result (λ s. s ≡ record { held = []; room = room; piece = piece; calls = no_calls fail_at }) }
    {
        Ok(MemSink {
            held: Vec::with_capacity(alloc, room)?,
            room,
            piece,
            calls: Calls::new(fail_at),
        })
    }

    /// The bytes got so far.
    pub fn held(&self) -> &[u8]
        ensures { result.now ≡ self.now.held }
    {
        self.held.as_slice()
    }

    /// The sink as it is handed out: empty, its count of faults begins, and it isn't ended.
    pub(crate) fn begun(self) -> MemSink
        ensures { result ≡ begun_sink self }
    {
        let mut sink = self;
        sink.held.clear();
        sink.calls.begin();
        sink
    }

    /// How many of so many bytes the next write takes, or `None` where it fails.
    fn write_count(&self, len: usize) -> Option<usize>
        ensures { result ≡ write_count self.now len }
    {
        if self.calls.fails_next() || self.room <= self.held.len() {
            return None;
        }
        Some(len.min(self.piece).min(self.room - self.held.len()))
    }
}

impl Sink for MemSink {
    ghost told = { λ s. record { bytes = Some s.held; faults = s.calls.faults; is_ended = s.calls.is_ended } };

    fn write(&mut self, buf: &[u8]) -> Result<usize, Failed>
        requires { 0 < length buf.now }
        ensures some { IfOk result (λ n. 0 < n) }
        ensures within { IfOk result (λ n. n ≤ length buf.now) }
        ensures put { IfOk result (λ n. Some self.new.held ≡ told_then (Some self.old.held) (take n buf.now)) }
        ensures err { OnErr result (Some self.new.held ≡ Some self.old.held) }
        ensures ended { self.new.calls.is_ended ≡ self.old.calls.is_ended }
        ensures cause { HasCause self.old.calls.faults self.new.calls.faults result }
        // How many bytes are taken, and which calls fail.
        ensures count { IfOk result (λ n. write_count self.old (length buf.now) ≡ Some n) }
        ensures fails { OnErr result (write_count self.old (length buf.now) ≡ None) }
        ensures state { self.new ≡ after_write self.old buf.now (write_count self.old (length buf.now)) }
    {
        let Some(n) = self.write_count(buf.len()) else {
            self.calls.count(true);
            return Err(Failed);
        };
        self.calls.count(false);
        let (front, _) = buf.split_at(n);
        match self.held.extend_from_slice(front) {
            Ok(()) => Ok(n),
            Err(_) => unreachable!(),
        }
    }

    fn end(&mut self)
        ensures ends { WasEnded
            (bytes_told (Some self.old.held) self.old.calls.faults self.old.calls.is_ended)
            (bytes_told (Some self.new.held) self.new.calls.faults self.new.calls.is_ended) }
        // It takes no more bytes.
        ensures state { self.new ≡ ended_sink self.old }
    {
        self.calls.end();
    }
}
