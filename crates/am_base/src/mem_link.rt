//! A link in memory.

ghost use Rattle.std.specs.Prelude.{◌≡◌, [], true, false, Some, None, IfOk, OnOk, OnErr};
ghost use Rattle.am_base.specs.Outside.{HasCause};
ghost use Rattle.am_base.specs.Memory.{halves_of, after_halves, begun_link, dialled_at};

use crate::calls::raised;
use crate::link::Link;
use crate::mem_sink::MemSink;
use crate::mem_source::MemSource;
use crate::source::Failed;
use am_text::Bytes;
use std::marker::Model;
use std::snapshot::Snapshot;

/// A source and a sink in memory, handed out once, or never. It tells its bytes.
#[derive(Drop)]
pub struct MemLink {
    halves: Option<(MemSource, MemSink)>,
    source: Snapshot<MemSource>,
    fails: bool,
    is_halved: bool,
    dialled: Option<Bytes>,
    faults: u64,
}

impl Model for MemLink {
    ghost use Rattle.std.specs.Prelude.{◌≡◌, false};
    ghost use Rattle.std.specs.Option.{ForSome};
    ghost use Rattle.am_base.specs.Memory.{LinkState};

    ghost Value = { LinkState };

    ghost view = { λ l. record {
      halves = l.halves;
      begins = l.source.value.left;
      fails = l.fails;
      is_halved =
          l.is_halved;
      dialled = l.dialled;
      faults = l.faults;
    } };

    ghost invariant = { λ l. ForSome l.halves (λ h. (h.0.left ≡ l.source.value.left) × (l.is_halved ≡ false)) };
}

impl MemLink {
    /// Hands out this source and this sink once, and not where `fail` holds. The sink is emptied
    /// then, the counts of faults of both begin, and neither is ended. It takes no memory.
    pub fn new(source: MemSource, sink: MemSink, fail: bool) -> MemLink
        ensures { result ≡ record {
          halves = Some (source, sink);
          begins = source.left;
          fails = fail;
          is_halved = false;
          dialled = None;
          faults = 0;
        } }
    {
        MemLink {
            source: Snapshot::of(&source),
            halves: Some((source, sink)),
            fails: fail,
            is_halved: false,
            dialled: None,
            faults: 0,
        }
    }

    /// The link as it is handed out: its count of faults begins, and it has given no halves yet.
    pub(crate) fn begun(self) -> MemLink
        ensures { result ≡ begun_link self }
    {
        let mut link = self;
        link.is_halved = false;
        link.faults = 0;
        link
    }

    /// The link as it is handed out to one who dials this path.
    pub(crate) fn dialled_at(self, path: Bytes) -> MemLink
        ensures { result ≡ dialled_at path self }
    {
        let mut link = self;
        link.dialled = Some(path);
        link
    }
}

impl Link for MemLink {
    type R = MemSource;

    type W = MemSink;

    ghost told = { λ l. record {
      begins = Some l.begins;
      is_halved = l.is_halved;
      dialled = l.dialled;
      faults =
          l.faults;
    } };

    fn halves(&mut self) -> Result<(MemSource, MemSink), Failed>
        ensures source { IfOk result (λ h. Some h.0.left ≡ Some self.old.begins) }
        ensures sink { IfOk result (λ h. h.1.held ≡ []) }
        ensures fresh { IfOk result (λ h. (h.0.calls.faults ≡ 0) × (h.1.calls.faults ≡ 0)) }
        ensures open { IfOk result (λ h. (h.0.calls.is_ended ≡ false) × (h.1.calls.is_ended ≡ false)) }
        ensures begins { Some self.new.begins ≡ Some self.old.begins }
        ensures dialled { self.new.dialled ≡ self.old.dialled }
        ensures once { OnOk result ((self.old.is_halved ≡ false) × (self.new.is_halved ≡ true)) }
        ensures err { OnErr result (self.new.is_halved ≡ self.old.is_halved) }
        ensures cause { HasCause self.old.faults self.new.faults result }
        // What is handed out, and which calls fail.
        ensures gives { IfOk result (λ h. halves_of self.old ≡ Some h) }
        ensures fails { OnErr result (halves_of self.old ≡ None) }
        ensures state { self.new ≡ after_halves self.old (halves_of self.old) }
    {
        if self.fails {
            self.faults = raised(self.faults);
            return Err(Failed);
        }
        match self.halves.take() {
            Some((source, sink)) => {
                self.is_halved = true;
                Ok((source.begun(), sink.begun()))
            }
            None => {
                self.faults = raised(self.faults);
                Err(Failed)
            }
        }
    }
}
