//! The openings of all ports.

ghost use Rattle.std.specs.Prelude.{◌≡◌, ◌<◌, ◌≤◌, false, not, [], ◌∷◌, ◌++◌, map, filter, length, position, IfOk};
ghost use Rattle.std.specs.Prelude.{IfSome, OnOk, OnErr};
ghost use Rattle.std.specs.List.{list_any};
ghost use Rattle.am_text.specs.Twice.{Twice, both, IsSteady};
ghost use Rattle.plumb_ports.specs.Inboxes.{is_of, is_on, inbox_with, inbox_of, delivered, must_wait, piece_of};
ghost use Rattle.plumb_ports.specs.Inboxes.{after_read};
ghost use Rattle.plumb_ports.specs.Shown.{present_of, kept_of, with_present, with_kept, with_delivered};

use crate::opening_queue::OpeningQueue;
use am_text::{Bytes, NoMemory};
use std::alloc::Global;
use std::marker::Model;
use wait_queue::Piece;

/// The openings in the order of joining, in two states. The ones that joined since the last `keep`
/// stand after the kept ones.
#[derive(Drop)]
pub struct OpeningTable {
    alloc: Global,
    all: Vec<OpeningQueue>,
    kept: usize,
}

impl Model for OpeningTable {
    ghost use Rattle.std.specs.Prelude.{List, take, map, length, ◌≤◌};
    ghost use Rattle.am_text.specs.Twice.{Twice};
    ghost use Rattle.plumb_ports.specs.Inboxes.{Inbox};
    ghost use Rattle.plumb_ports.specs.Shown.{present_of, kept_of};

    ghost Value = { Twice (List Inbox) };

    ghost view = { λ t. record { present = map present_of t.all.items; kept = map kept_of (take t.kept t.all.items) } };

    ghost invariant = { λ t. t.kept ≤ length t.all.items };
}

fn place_of(all: &[OpeningQueue], opening: u32) -> Option<usize>
    ensures place { result ≡ position (λ q. is_of opening (present_of q)) all.now }
    ensures within { IfSome result (λ place. place < length all.now) }
{
    all.iter().position(|q| q.is(opening))
}

fn has_opening(all: &[OpeningQueue], opening: u32) -> bool
    ensures { result ≡ list_any (λ q. is_of opening (present_of q)) all.now }
{
    all.iter().any(|q| q.is(opening))
}

fn has_port(all: &[OpeningQueue], port: u32) -> bool
    ensures { result ≡ list_any (λ q. is_on port (present_of q)) all.now }
{
    all.iter().any(|q| q.is_on(port))
}

fn keep_each(all: &mut [OpeningQueue])
    ensures { all.new ≡ map with_present all.old }
{
    for queue in all.iter_mut() {
        queue.keep();
    }
}

fn back_each(all: &mut [OpeningQueue])
    ensures { all.new ≡ map with_kept all.old }
{
    for queue in all.iter_mut() {
        queue.back();
    }
}

fn deliver_each(all: &mut [OpeningQueue], port: u32, message: &[u8]) -> Result<(), NoMemory>
    ensures ok { OnOk result (all.new ≡ map (with_delivered port message.now) all.old) }
    ensures kept { map kept_of all.new ≡ map kept_of all.old }
{
    for queue in all.iter_mut() {
        queue.deliver(port, message)?;
    }
    Ok(())
}

fn remove_each(all: &mut Vec<OpeningQueue>, opening: u32)
    ensures { all.new.items ≡ filter (λ q. not (is_of opening (present_of q))) all.old.items }
{
    all.retain(|q| !q.is(opening));
}

// Copies of these messages, in order.
fn receive_each(queue: &mut OpeningQueue, messages: &[Bytes]) -> Result<(), NoMemory>
    ensures { OnOk result (queue.new ≡ record queue.old {
      present = record queue.old.present
          { messages = queue.old.present.messages ++ messages.now };
    }) }
{
    for message in messages {
        queue.receive(message.as_slice())?;
    }
    Ok(())
}

impl OpeningTable {
    /// No openings. It takes no memory.
    pub fn new(alloc: Global) -> Self
        ensures { result ≡ both [] }
    {
        OpeningTable {
            alloc,
            all: Vec::new(alloc),
            kept: 0,
        }
    }

    /// The present state becomes the kept one. It takes no memory.
    pub fn keep(&mut self)
        ensures { self.new ≡ both self.old.present }
    {
        keep_each(self.all.as_mut_slice());
        self.kept = self.all.len();
    }

    /// The kept state becomes the present one again. It takes no memory.
    pub fn back(&mut self)
        ensures { self.new ≡ both self.old.kept }
    {
        self.all.truncate(self.kept);
        back_each(self.all.as_mut_slice());
    }

    /// Whether this opening is there.
    pub fn has(&self, opening: u32) -> bool
        ensures { result ≡ list_any (is_of opening) self.now.present }
    {
        has_opening(self.all.as_slice(), opening)
    }

    /// Whether the port has an opening.
    pub fn has_port(&self, port: u32) -> bool
        ensures { result ≡ list_any (is_on port) self.now.present }
    {
        has_port(self.all.as_slice(), port)
    }

    /// Whether a read of this many bytes on the opening has to wait.
    pub fn must_wait(&self, opening: u32, count: u32) -> bool
        ensures { result ≡ must_wait (inbox_of self.now.present opening) count }
    {
        let Some(place) = place_of(self.all.as_slice(), opening) else {
            return count != 0;
        };
        self.all[place].must_wait(count)
    }

    /// Adds an opening of this port, with copies of these messages.
    pub fn join(&mut self, port: u32, opening: u32, messages: &[Bytes]) -> Result<(), NoMemory>
        ensures ok { OnOk result (self.new ≡ record self.old {
          present = self.old.present ++ inbox_with opening port
              messages.now ∷ [];
        }) }
        ensures err { OnErr result (self.new ≡ self.old) }
    {
        let mut queue = OpeningQueue::new(self.alloc, opening, port)?;
        receive_each(&mut queue, messages)?;
        self.all.push(queue)?;
        Ok(())
    }

    /// Puts a copy of the message at the end for each opening of the port.
    pub fn deliver(&mut self, port: u32, message: &[u8]) -> Result<(), NoMemory>
        ensures ok { OnOk result (self.new ≡ record self.old {
          present = map (delivered port message.now)
              self.old.present;
        }) }
        ensures kept { self.new.kept ≡ self.old.kept }
    {
        deliver_each(self.all.as_mut_slice(), port, message)
    }

    /// Answers a read of this many bytes on the opening, which doesn't have to wait.
    pub fn give(&mut self, opening: u32, count: u32) -> Result<Piece, NoMemory>
        requires { must_wait (inbox_of self.old.present opening) count ≡ false }
        ensures piece { IfOk result (λ piece. piece ≡ piece_of (inbox_of self.old.present opening) count) }
        ensures ok { OnOk result (self.new ≡ record self.old { present = after_read self.old.present opening count }) }
        ensures kept { self.new.kept ≡ self.old.kept }
    {
        let Some(place) = place_of(self.all.as_slice(), opening) else {
            return Ok(Piece {
                bytes: Bytes::new(self.alloc),
                taken: None,
            });
        };
        let queue = &mut self.all[place];
        queue.give(count)
    }

    /// The opening goes. It takes no memory.
    pub fn leave(&mut self, opening: u32)
        requires { IsSteady self.old }
        ensures { self.new ≡ both (filter (λ o. not (is_of opening o)) self.old.present) }
    {
        remove_each(&mut self.all, opening);
        self.kept = self.all.len();
    }
}
