//! One opening of a port: the messages that wait for it, and what it has left.

ghost use Rattle.std.specs.Prelude.{◌≡◌, false, [], IfOk, OnOk, OnErr};
ghost use Rattle.am_text.specs.Twice.{Twice, both};
ghost use Rattle.wait_queue.specs.WaitState.{WaitState, must_wait as queue_waits, piece_of as queue_piece};
ghost use Rattle.wait_queue.specs.WaitState.{after_piece as after_queue_piece, IsEnlisted};
ghost use Rattle.plumb_ports.specs.Shown.{queue_of};
ghost use Rattle.plumb_ports.specs.Inboxes.{blank, is_of, is_on, delivered, received, must_wait, piece_of, after_piece};

use am_text::{Bytes, NoMemory};
use std::alloc::Global;
use std::marker::Model;
use wait_queue::{Asked, Asker, Piece, WaitQueue};

/// An opening of a port, in two states. No read waits in its queue: the waiting reads of all ports
/// are kept in one list.
#[derive(Drop)]
pub struct OpeningQueue {
    alloc: Global,
    opening: u32,
    port: u32,
    queue: WaitQueue,
}

impl Model for OpeningQueue {
    ghost use Rattle.am_text.specs.Twice.{Twice};
    ghost use Rattle.plumb_ports.specs.Inboxes.{Inbox};
    ghost use Rattle.plumb_ports.specs.Shown.{inbox_in, IsQueueOf};

    ghost Value = { Twice Inbox };

    ghost view = { λ q. record {
      present = inbox_in q.opening q.port q.queue.present;
      kept = inbox_in q.opening q.port q.queue.kept;
    } };

    ghost invariant = { λ q. IsQueueOf q.opening q.port q.queue };
}

// A queue with this one opening.
fn queue_for(alloc: Global, opening: u32) -> Result<WaitQueue, NoMemory>
    ensures { IfOk result (λ queue. queue ≡ both (queue_of (blank opening 0))) }
{
    let mut queue = WaitQueue::new(alloc);
    queue.enlist(opening)?;
    queue.keep();
    Ok(queue)
}

// Answers a read that doesn't have to wait.
fn ask(queue: &mut WaitQueue, asker: Asker) -> Result<Piece, NoMemory>
    requires enlisted { IsEnlisted queue.old.present asker.opening }
    requires ready { queue_waits queue.old.present asker ≡ false }
    ensures piece { IfOk result (λ piece. piece ≡ queue_piece queue.old.present asker) }
    ensures ok { OnOk result (queue.new ≡ record queue.old { present = after_queue_piece queue.old.present asker }) }
    ensures err { OnErr result (queue.new ≡ both queue.old.kept) }
{
    match queue.ask(asker) {
        Ok(Asked::Now(piece)) => Ok(piece),
        Ok(Asked::Waits) => unreachable!(),
        Err(error) => Err(error),
    }
}

impl OpeningQueue {
    /// An opening of this port with nothing in its queue.
    pub fn new(alloc: Global, opening: u32, port: u32) -> Result<Self, NoMemory>
        ensures { IfOk result (λ queue. queue ≡ both (blank opening port)) }
    {
        let queue = queue_for(alloc, opening)?;
        Ok(OpeningQueue {
            alloc,
            opening,
            port,
            queue,
        })
    }

    /// The present state becomes the kept one. It takes no memory.
    pub fn keep(&mut self)
        ensures { self.new ≡ both self.old.present }
    {
        self.queue.keep();
    }

    /// The kept state becomes the present one again. It takes no memory.
    pub fn back(&mut self)
        ensures { self.new ≡ both self.old.kept }
    {
        self.queue.back();
    }

    /// Whether it is this opening.
    pub fn is(&self, opening: u32) -> bool
        ensures { result ≡ is_of opening self.now.present }
    {
        self.opening == opening
    }

    /// Whether it is an opening of this port.
    pub fn is_on(&self, port: u32) -> bool
        ensures { result ≡ is_on port self.now.present }
    {
        self.port == port
    }

    /// Whether a read of this many bytes has to wait.
    pub fn must_wait(&self, count: u32) -> bool
        ensures { result ≡ must_wait self.now.present count }
    {
        self.queue.must_wait(Asker {
            conn: 0,
            tag: 0,
            opening: self.opening,
            count,
        })
    }

    /// Puts a copy of the message at the end.
    pub fn receive(&mut self, message: &[u8]) -> Result<(), NoMemory>
        ensures ok { OnOk result (self.new ≡ record self.old { present = received message.now self.old.present }) }
        ensures kept { self.new.kept ≡ self.old.kept }
    {
        let copy = Bytes::copied(self.alloc, message)?;
        self.queue.put(0, copy)
    }

    /// Puts a copy of the message at the end, if the port is the opening's.
    pub fn deliver(&mut self, port: u32, message: &[u8]) -> Result<(), NoMemory>
        ensures ok { OnOk result (self.new ≡ record self.old { present = delivered port message.now self.old.present }) }
        ensures kept { self.new.kept ≡ self.old.kept }
    {
        if self.port == port {
            return self.receive(message);
        }
        Ok(())
    }

    /// Answers a read of this many bytes that doesn't have to wait.
    pub fn give(&mut self, count: u32) -> Result<Piece, NoMemory>
        requires { must_wait self.old.present count ≡ false }
        ensures piece { IfOk result (λ piece. piece ≡ piece_of self.old.present count) }
        ensures ok { OnOk result (self.new ≡ record self.old { present = after_piece self.old.present count }) }
        ensures kept { self.new.kept ≡ self.old.kept }
    {
        let asker = Asker {
            conn: 0,
            tag: 0,
            opening: self.opening,
            count,
        };
        ask(&mut self.queue, asker)
    }
}
