//! A source in memory.

ghost use Rattle.std.specs.Prelude.{◌≡◌, ◌≤◌, ◌<◌, ◌++◌, [], Some, None, drop, take, length, IfOk, OnErr};
ghost use Rattle.am_base.specs.Outside.{WasEnded, bytes_told, then_told, HasCause};
ghost use Rattle.am_base.specs.Memory.{no_calls, read_count, after_read, begun_source, ended_source};

use crate::calls::Calls;
use crate::source::{Failed, Source};
use am_text::{Bytes, Numbers};
use std::marker::Model;

/// Bytes in memory, given in pieces, with some calls that fail. It tells its bytes.
#[derive(Drop)]
pub struct MemSource {
    bytes: Bytes,
    at: usize,
    piece: usize,
    calls: Calls,
}

impl Model for MemSource {
    ghost use Rattle.std.specs.Prelude.{drop, length, ◌≤◌, ◌<◌};
    ghost use Rattle.am_base.specs.Memory.{SourceState};

    ghost Value = { SourceState };

    ghost view = { λ s. record { left = drop s.at s.bytes; piece = s.piece; calls = s.calls } };

    ghost invariant = { λ s. (s.at ≤ length s.bytes) × (0 < s.piece) };
}

impl MemSource {
    /// Gives these bytes, at most `piece` of them a read. The reads fail whose numbers, from 1,
    /// stand in `fail_at`, those once it was ended, and no others. It takes no memory.
    pub fn new(bytes: Bytes, piece: usize, fail_at: Numbers) -> MemSource
        requires { 0 < piece }
        ensures { result ≡ record { left = bytes; piece = piece; calls = no_calls fail_at } }
    {
        MemSource {
            bytes,
            at: 0,
            piece,
            calls: Calls::new(fail_at),
        }
    }

    /// How many bytes the next read gives into so much room, or `None` where it fails.
    fn read_count(&self, room: usize) -> Option<usize>
        ensures { result ≡ read_count self.now room }
    {
        if self.calls.fails_next() {
            return None;
        }
        let rest = self.bytes.len() - self.at;
        Some(rest.min(room).min(self.piece))
    }

    /// The source as it is handed out: its count of faults begins, and it isn't ended.
    pub(crate) fn begun(self) -> MemSource
        ensures { result ≡ begun_source self }
    {
        let mut source = self;
        source.calls.begin();
        source
    }
}

impl Source for MemSource {
    ghost told = { λ s. record { bytes = Some s.left; faults = s.calls.faults; is_ended = s.calls.is_ended } };

    #[tactic(auto, using(crate::proofs::Told::moves))]
    fn read(&mut self, buf: &mut [u8]) -> Result<usize, Failed>
        requires { 0 < length buf.old }
        ensures within { IfOk result (λ n. n ≤ length buf.old) }
        ensures moved { IfOk result (λ n. Some self.old.left ≡ then_told (take n buf.new) (Some self.new.left)) }
        ensures end { IfOk result (λ n. n ≡ 0 → self.new.left ≡ []) }
        ensures err { OnErr result (Some self.new.left ≡ Some self.old.left) }
        ensures ended { self.new.calls.is_ended ≡ self.old.calls.is_ended }
        ensures cause { HasCause self.old.calls.faults self.new.calls.faults result }
        // How many bytes are read, and which calls fail.
        ensures count { IfOk result (λ n. read_count self.old (length buf.old) ≡ Some n) }
        ensures fails { OnErr result (read_count self.old (length buf.old) ≡ None) }
        ensures state { self.new ≡ after_read self.old (read_count self.old (length buf.old)) }
        ensures rest { IfOk result (λ n. buf.new ≡ take n self.old.left ++ drop n buf.old) }
        ensures same { OnErr result (buf.new ≡ buf.old) }
    {
        let Some(n) = self.read_count(buf.len()) else {
            self.calls.count(true);
            return Err(Failed);
        };
        self.calls.count(false);
        let (_, rest) = self.bytes.as_slice().split_at(self.at);
        let (front, _) = rest.split_at(n);
        buf[..n].copy_from_slice(front);
        self.at += n;
        Ok(n)
    }

    fn end(&mut self)
        ensures ends { WasEnded
            (bytes_told (Some self.old.left) self.old.calls.faults self.old.calls.is_ended)
            (bytes_told (Some self.new.left) self.new.calls.faults self.new.calls.is_ended) }
        // It gives no more bytes.
        ensures state { self.new ≡ ended_source self.old }
    {
        self.calls.end();
    }
}
