//! Reads that wait on both files, in the order of asking.

ghost use Rattle.std.specs.Prelude.{◌≡◌, ◌<◌, ◌&&◌, ◌||◌, ◌==◌, [], ◌∷◌, ◌++◌, map, filter, not, IfSome, OnOk, OnErr};
ghost use Rattle.std.specs.Prelude.{find, position, length, Bool};
ghost use Rattle.std.specs.List.{list_any};
ghost use Rattle.am_text.specs.Twice.{Twice, both, IsSteady};
ghost use Rattle.acme_watch.specs.Reads.{same_file, is_asked, is_of_opening, without_first, without_all, is_here};
ghost use Rattle.acme_watch.specs.Reads.{is_ready, mark, here_again};

use crate::types::{WatchFile, WatchRead};
use am_text::NoMemory;
use std::alloc::Global;
use std::marker::Model;

/// Something that some of the reads pass.
pub(crate) trait Passes {
    ghost use Rattle.std.specs.Prelude.{Bool};
    ghost use Rattle.acme_watch.specs.declared.types.WatchRead.{WatchRead};

    ghost passes: { Self → WatchRead → Bool };

    /// Whether this read passes.
    fn passes(&self, read: WatchRead) -> bool
        ensures { result ≡ passes self.now read };
}

fn is_same(a: WatchFile, b: WatchFile) -> bool
    ensures { result ≡ same_file a b }
{
    match (a, b) {
        (WatchFile::Log, WatchFile::Log) => true,
        (WatchFile::Log, WatchFile::Jobs) => false,
        (WatchFile::Jobs, WatchFile::Log) => false,
        (WatchFile::Jobs, WatchFile::Jobs) => true,
    }
}

/// The read with this tag on this connection.
#[derive(Clone, Copy, Debug)]
pub(crate) struct Tagged {
    pub conn: u32,
    pub tag: u16,
}

impl Passes for Tagged {
    ghost use Rattle.acme_watch.specs.Reads.{is_asked};

    ghost passes = { λ t. is_asked t.conn t.tag };

    fn passes(&self, read: WatchRead) -> bool {
        read.asker.conn == self.conn && read.asker.tag == self.tag
    }
}

/// The reads on one opening.
#[derive(Clone, Copy, Debug)]
pub(crate) struct OnOpening {
    pub file: WatchFile,
    pub opening: u32,
}

impl Passes for OnOpening {
    ghost use Rattle.acme_watch.specs.Reads.{is_of_opening};

    ghost passes = { λ o. is_of_opening o.file o.opening };

    fn passes(&self, read: WatchRead) -> bool {
        is_same(self.file, read.file) && read.asker.opening == self.opening
    }
}

/// A read that waits, or waited at the last `keep` and was answered since.
#[derive(Clone, Copy, Debug)]
pub(crate) struct Held {
    pub read: WatchRead,
    pub gone: bool,
}

fn is_ready<P: Passes>(held: Held, by: &P) -> bool
    ensures { result ≡ is_ready (P.passes by.now) held }
{
    !held.gone && by.passes(held.read)
}

fn gone_or<P: Passes>(held: Held, by: &P) -> bool
    ensures { result ≡ (held.gone || P.passes by.now held.read) }
{
    held.gone || by.passes(held.read)
}

fn place_of_ready<P: Passes>(all: &[Held], by: &P) -> Option<usize>
    ensures place { result ≡ position (is_ready (P.passes by.now)) all.now }
    ensures within { IfSome result (λ place. place < length all.now) }
{
    all.iter().position(|held| is_ready(*held, by))
}

fn has_ready<P: Passes>(all: &[Held], by: &P) -> bool
    ensures { result ≡ list_any (is_ready (P.passes by.now)) all.now }
{
    all.iter().any(|held| is_ready(*held, by))
}

fn mark_one<P: Passes>(held: &mut Held, by: &P)
    ensures { held.new ≡ mark (P.passes by.now) held.old }
{
    held.gone = gone_or(*held, by);
}

fn set_here(held: &mut Held)
    ensures { held.new ≡ here_again held.old }
{
    held.gone = false;
}

fn mark_each<P: Passes>(all: &mut [Held], by: &P)
    ensures { all.new ≡ map (mark (P.passes by.now)) all.old }
{
    for held in all.iter_mut() {
        mark_one(held, by);
    }
}

fn set_all_here(all: &mut [Held])
    ensures { all.new ≡ map here_again all.old }
{
    for held in all.iter_mut() {
        set_here(held);
    }
}

fn retain_here(all: &mut Vec<Held>)
    ensures { all.new.items ≡ filter is_here all.old.items }
{
    all.retain(|held| !held.gone);
}

/// The waiting reads in the order of asking, in two states. The ones answered since the last `keep` are still here,
/// marked, and the ones that came since then stand after the kept ones.
#[derive(Drop)]
pub(crate) struct WatchReads {
    all: Vec<Held>,
    kept: usize,
}

impl Model for WatchReads {
    ghost use Rattle.std.specs.Prelude.{List, map, filter, take, length, ◌≤◌};
    ghost use Rattle.am_text.specs.Twice.{Twice};
    ghost use Rattle.acme_watch.specs.declared.types.WatchRead.{WatchRead};

    ghost Value = { Twice (List WatchRead) };

    ghost use Rattle.acme_watch.specs.Reads.{read_of, is_here};

    ghost view = { λ r. record
        { present = map read_of (filter is_here r.all.items); kept = map read_of (take r.kept r.all.items) } };

    ghost invariant = { λ r. r.kept ≤ length r.all.items };
}

impl WatchReads {
    /// No reads. It takes no memory.
    pub fn new(alloc: Global) -> Self
        ensures { result ≡ both [] }
    {
        WatchReads {
            all: Vec::new(alloc),
            kept: 0,
        }
    }

    /// A read waits, behind all others.
    pub fn push(&mut self, read: WatchRead) -> Result<(), NoMemory>
        ensures ok { OnOk result (self.new ≡ record self.old { present = self.old.present ++ read ∷ [] }) }
        ensures err { OnErr result (self.new ≡ self.old) }
    {
        self.all.push(Held { read, gone: false })?;
        Ok(())
    }

    /// The oldest read that passes.
    pub fn ready<P: Passes>(&self, by: &P) -> Option<WatchRead>
        ensures { result ≡ find (P.passes by.now) self.now.present }
    {
        let Some(place) = place_of_ready(self.all.as_slice(), by) else {
            return None;
        };
        Some(self.all[place].read)
    }

    /// The oldest read that passes doesn't wait any more.
    pub fn take_ready<P: Passes>(&mut self, by: &P)
        ensures { self.new ≡ record self.old { present = without_first (P.passes by.now) self.old.present } }
    {
        let Some(place) = place_of_ready(self.all.as_slice(), by) else {
            return;
        };
        let held = &mut self.all[place];
        held.gone = true;
    }

    /// Whether a read that passes waited. None of those waits any more. It takes no memory.
    pub fn remove<P: Passes>(&mut self, by: &P) -> bool
        requires { IsSteady self.old }
        ensures waited { result ≡ list_any (P.passes by.now) self.old.present }
        ensures new { self.new ≡ both (without_all (P.passes by.now) self.old.present) }
    {
        let waited = has_ready(self.all.as_slice(), by);
        mark_each(self.all.as_mut_slice(), by);
        retain_here(&mut self.all);
        self.kept = self.all.len();
        waited
    }

    /// The present state becomes the kept one. It takes no memory.
    pub fn keep(&mut self)
        ensures { self.new ≡ both self.old.present }
    {
        retain_here(&mut self.all);
        self.kept = self.all.len();
    }

    /// The kept state becomes the present one again. It takes no memory.
    pub fn back(&mut self)
        ensures { self.new ≡ both self.old.kept }
    {
        self.all.truncate(self.kept);
        set_all_here(self.all.as_mut_slice());
    }
}
