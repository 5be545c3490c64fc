//! A source that never fails.

ghost use Rattle.std.specs.Prelude.{◌≡◌, ◌<◌, ◌≤◌, ◌++◌, [], Some, length, take, drop, IfOk, OnErr, IsOk};
ghost use Rattle.am_base.specs.Outside.{WasEnded, bytes_told, then_told, HasCause};
ghost use Rattle.am_base.specs.Memory.{read_count, after_read, begun_source, ended_source};

use crate::mem_source::MemSource;
use crate::source::{Failed, Source};
use std::marker::Model;

/// A source in memory of which no call fails, so it gives its bytes also once it was ended. Its count of faults is 0
/// for good.
#[derive(Drop)]
pub struct NeverFails {
    source: MemSource,
    is_ended: bool,
}

impl Model for NeverFails {
    ghost use Rattle.std.specs.Prelude.{◌≡◌, [], false};
    ghost use Rattle.am_base.specs.Memory.{SourceState};

    ghost Value = { SourceState };

    ghost view = { λ s. record s.source { calls = record s.source.calls { is_ended = s.is_ended } } };

    ghost invariant = { λ s. (s.source.calls.fail_at ≡ []) × (s.source.calls.is_ended ≡ false) };
}

impl NeverFails {
    /// Gives what a source gives none of whose calls is to fail.
    pub fn new(source: MemSource) -> NeverFails
        requires { source.calls.fail_at ≡ [] }
        ensures { result ≡ begun_source source }
    {
        NeverFails {
            source: source.begun(),
            is_ended: false,
        }
    }
}

impl Source for NeverFails {
    ghost told = { λ s. record { bytes = Some s.left; faults = 0; is_ended = s.calls.is_ended } };

    fn read(&mut self, buf: &mut [u8]) -> Result<usize, Failed>
        requires { 0 < length buf.old }
        ensures within { IfOk result (λ n. n ≤ length buf.old) }
        ensures moved { IfOk result (λ n. Some self.old.left ≡ then_told (take n buf.new) (Some self.new.left)) }
        ensures end { IfOk result (λ n. n ≡ 0 → self.new.left ≡ []) }
        ensures err { OnErr result (Some self.new.left ≡ Some self.old.left) }
        ensures ended { self.new.calls.is_ended ≡ self.old.calls.is_ended }
        ensures cause { HasCause 0 0 result }
        // How many bytes are read. It never fails.
        ensures ok { IsOk result }
        ensures count { IfOk result (λ n. read_count (begun_source self.old) (length buf.old) ≡ Some n) }
        ensures state { self.new ≡ after_read self.old (read_count (begun_source self.old) (length buf.old)) }
        ensures rest { IfOk result (λ n. buf.new ≡ take n self.old.left ++ drop n buf.old) }
    {
        self.source.read(buf)
    }

    fn end(&mut self)
        ensures ends { WasEnded
            (bytes_told (Some self.old.left) 0 self.old.calls.is_ended)
            (bytes_told (Some self.new.left) 0 self.new.calls.is_ended) }
        ensures state { self.new ≡ ended_source self.old }
    {
        self.is_ended = true;
    }
}
