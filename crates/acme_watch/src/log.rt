//! The openings of `log`.

ghost use Rattle.std.specs.Prelude.{◌≡◌, ◌<◌, ◌≤◌, ◌==◌, false, not, [], ◌∷◌, ◌++◌, map, filter, length, position};
ghost use Rattle.std.specs.Prelude.{IfOk, IfSome, OnOk, OnErr};
ghost use Rattle.std.specs.List.{list_any};
ghost use Rattle.am_text.specs.Twice.{Twice, both, IsSteady};
ghost use Rattle.wait_queue.specs.WaitState.{must_wait, piece_of, after_piece, after_put, IsEnlisted};
ghost use Rattle.acme_watch.specs.Log.{is_reader, new_reader, reader_of, noted, after_log_read, without_reader};
ghost use Rattle.acme_watch.specs.Log.{present_of, kept_of, with_present, with_kept, with_noted};

use am_text::{Bytes, NoMemory};
use std::alloc::Global;
use std::marker::Model;
use wait_queue::{Asked, Asker, Piece, WaitQueue};

/// The openings in the order of opening, in two states, each with a queue of its own. The ones that were opened since
/// the last `keep` stand after the kept ones.
#[derive(Drop)]
pub(crate) struct LogReaders {
    alloc: Global,
    all: Vec<WaitQueue>,
    kept: usize,
}

impl Model for LogReaders {
    ghost use Rattle.std.specs.Prelude.{List, take, map, length, ◌≤◌};
    ghost use Rattle.am_text.specs.Twice.{Twice};
    ghost use Rattle.wait_queue.specs.WaitState.{WaitState};
    ghost use Rattle.acme_watch.specs.Log.{present_of, kept_of};

    ghost Value = { Twice (List WaitState) };

    ghost view = { λ t. record { present = map present_of t.all.items; kept = map kept_of (take t.kept t.all.items) } };

    ghost invariant = { λ t. t.kept ≤ length t.all.items };
}

fn place_of(all: &[WaitQueue], opening: u32) -> Option<usize>
    ensures place { result ≡ position (λ q. is_reader opening (present_of q)) all.now }
    ensures within { IfSome result (λ place. place < length all.now) }
{
    all.iter().position(|q| q.is_enlisted(opening))
}

fn has_reader(all: &[WaitQueue], opening: u32) -> bool
    ensures { result ≡ list_any (λ q. is_reader opening (present_of q)) all.now }
{
    all.iter().any(|q| q.is_enlisted(opening))
}

fn keep_each(all: &mut [WaitQueue])
    ensures { all.new ≡ map with_present all.old }
{
    for queue in all.iter_mut() {
        queue.keep();
    }
}

fn back_each(all: &mut [WaitQueue])
    ensures { all.new ≡ map with_kept all.old }
{
    for queue in all.iter_mut() {
        queue.back();
    }
}

// Puts a copy of the line at the end. On an error the kept state stays.
fn note_one(alloc: Global, queue: &mut WaitQueue, line: &[u8]) -> Result<(), NoMemory>
    ensures ok { OnOk result (queue.new ≡ with_noted line.now queue.old) }
    ensures kept { queue.new.kept ≡ queue.old.kept }
{
    let copy = Bytes::copied(alloc, line)?;
    queue.put(0, copy)
}

fn note_each(alloc: Global, all: &mut [WaitQueue], line: &[u8]) -> Result<(), NoMemory>
    ensures ok { OnOk result (all.new ≡ map (with_noted line.now) all.old) }
    ensures kept { map kept_of all.new ≡ map kept_of all.old }
{
    for queue in all.iter_mut() {
        note_one(alloc, queue, line)?;
    }
    Ok(())
}

fn remove_each(all: &mut Vec<WaitQueue>, opening: u32)
    ensures { all.new.items ≡ filter (λ q. not (is_reader opening (present_of q))) all.old.items }
{
    all.retain(|q| !q.is_enlisted(opening));
}

// A queue with this one opening.
fn queue_for(alloc: Global, opening: u32) -> Result<WaitQueue, NoMemory>
    ensures { IfOk result (λ queue. queue ≡ both (new_reader opening)) }
{
    let mut queue = WaitQueue::new(alloc);
    queue.enlist(opening)?;
    queue.keep();
    Ok(queue)
}

// Answers a read that doesn't have to wait.
pub(crate) fn ask(queue: &mut WaitQueue, asker: Asker) -> Result<Piece, NoMemory>
    requires enlisted { IsEnlisted queue.old.present asker.opening }
    requires ready { must_wait queue.old.present asker ≡ false }
    ensures piece { IfOk result (λ piece. piece ≡ piece_of queue.old.present asker) }
    ensures ok { OnOk result (queue.new ≡ record queue.old { present = after_piece queue.old.present asker }) }
    ensures kept { queue.new.kept ≡ queue.old.kept }
{
    match queue.ask(asker) {
        Ok(Asked::Now(piece)) => Ok(piece),
        Ok(Asked::Waits) => unreachable!(),
        Err(error) => Err(error),
    }
}

impl LogReaders {
    /// No openings. It takes no memory.
    pub fn new(alloc: Global) -> Self
        ensures { result ≡ both [] }
    {
        LogReaders {
            alloc,
            all: Vec::new(alloc),
            kept: 0,
        }
    }

    /// The present state becomes the kept one. It takes no memory.
    pub fn keep(&mut self)
        ensures { self.new ≡ both self.old.present }
    {
        keep_each(self.all.as_mut_slice());
        self.kept = self.all.len();
    }

    /// The kept state becomes the present one again. It takes no memory.
    pub fn back(&mut self)
        ensures { self.new ≡ both self.old.kept }
    {
        self.all.truncate(self.kept);
        back_each(self.all.as_mut_slice());
    }

    /// Whether there is no opening.
    pub fn is_empty(&self) -> bool
        ensures { result ≡ (length self.now.present == 0) }
    {
        self.all.is_empty()
    }

    /// Whether this opening is there.
    pub fn has(&self, opening: u32) -> bool
        ensures { result ≡ list_any (is_reader opening) self.now.present }
    {
        has_reader(self.all.as_slice(), opening)
    }

    /// Whether a read has to wait.
    pub fn must_wait(&self, asker: Asker) -> bool
        ensures { result ≡ must_wait (reader_of self.now.present asker.opening) asker }
    {
        let Some(place) = place_of(self.all.as_slice(), asker.opening) else {
            return asker.count != 0;
        };
        self.all[place].must_wait(asker)
    }

    /// Adds an opening, which has no line yet.
    pub fn open(&mut self, opening: u32) -> Result<(), NoMemory>
        ensures ok { OnOk result (self.new
            ≡ record self.old { present = self.old.present ++ new_reader opening ∷ [] }) }
        ensures err { OnErr result (self.new ≡ self.old) }
    {
        let queue = queue_for(self.alloc, opening)?;
        self.all.push(queue)?;
        Ok(())
    }

    /// Puts a copy of the line at the end for each opening.
    pub fn note(&mut self, line: &[u8]) -> Result<(), NoMemory>
        ensures ok { OnOk result (self.new ≡ record self.old { present = map (noted line.now) self.old.present }) }
        ensures kept { self.new.kept ≡ self.old.kept }
    {
        note_each(self.alloc, self.all.as_mut_slice(), line)
    }

    /// Answers a read that doesn't have to wait.
    pub fn give(&mut self, asker: Asker) -> Result<Piece, NoMemory>
        requires { must_wait (reader_of self.old.present asker.opening) asker ≡ false }
        ensures piece { IfOk result (λ piece. piece ≡ piece_of (reader_of self.old.present asker.opening) asker) }
        ensures ok { OnOk result (self.new ≡ record self.old { present = after_log_read self.old.present asker }) }
        ensures kept { self.new.kept ≡ self.old.kept }
    {
        let Some(place) = place_of(self.all.as_slice(), asker.opening) else {
            return Ok(Piece {
                bytes: Bytes::new(self.alloc),
                taken: None,
            });
        };
        let queue = &mut self.all[place];
        ask(queue, asker)
    }

    /// The opening goes, with its lines. It takes no memory.
    pub fn leave(&mut self, opening: u32)
        requires { IsSteady self.old }
        ensures { self.new ≡ both (without_reader self.old.present opening) }
    {
        remove_each(&mut self.all, opening);
        self.kept = self.all.len();
    }
}
