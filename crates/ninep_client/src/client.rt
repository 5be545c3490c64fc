//! A client of 9P2000.

ghost use Rattle.std.specs.Prelude.{◌≡◌, ◌≢◌, ◌≤◌, ◌+◌, ◌==◌, [], length, Ok, true, is_some, nat_lt, IfOk, IfErr};
ghost use Rattle.am_base.specs.Seen.{seen};
ghost use Rattle.ninep_types.specs.Kinds.{rerror};
ghost use Rattle.ninep_types.specs.Spelling.{kind_r, kind_t, size_t, Fits_t};
ghost use Rattle.ninep_client.specs.Asking.{begun, MaySend, is_asked, reply_place};
ghost use Rattle.ninep_client.specs.Calls.{Sends, SendFails, Gives, WaitFails, Calls, CallFails, shut};
ghost use Rattle.ninep_client.specs.Alone.{Replies, AloneFails};

use crate::asked::{Asked, is_asked, reply_place, tag_for, take_reply};
use crate::fault::{CallFault, closes, is_memory};
use crate::hearing::bring;
use crate::kinds::{is_version, msize_after, outcome_of};
use crate::unread::Unread;
use am_base::{Failed, Sink, Source, write_all};
use am_text::Roomy;
use ninep_types::{MAX_MSIZE, RBody, TBody, TMsg};
use ninep_wire::laws::spellings_have_their_size;
use ninep_wire::{t_kind, t_size, write_t};
use std::alloc::Global;
use std::marker::Model;

// The most tags that are asked at a time.
const MOST_TAGS: usize = 1024;

// Whether a message has more bytes than these.
fn is_above(message: &TMsg, most: u32) -> bool
    requires { Fits_t message.now }
    ensures { result ≡ nat_lt most (size_t message.now.body) }
{
    spellings_have_their_size();
    (most as usize) < t_size(message)
}

/// A client over a source and a sink.
///
/// A tag is asked from the `send` of its message until `wait` gives its reply or answers `Remote` for it. Want of
/// memory loses no bytes, and each call may be made again after it, but for `call`.
#[derive(Drop)]
pub struct Client<R, W> {
    alloc: Global,
    source: R,
    sink: W,
    unread: Unread,
    asked: Roomy<Asked>,
    msize: u32,
    is_closed: bool,
}

impl<R, W> Model for Client<R, W> {
    ghost use Rattle.ninep_client.specs.Asking.{State};

    ghost Value = { State R W };

    ghost view = { λ c. record {
      source = c.source;
      sink = c.sink;
      talk = record { unread = c.unread; asked = c.asked.items; msize = c.msize; is_closed = c.is_closed };
    } };
}

impl<R: Source, W: Sink> Client<R, W> {
    /// A client that has asked nothing. It takes no memory.
    pub fn new(alloc: Global, source: R, sink: W) -> Client<R, W>
        ensures { result ≡ record { source = source; sink = sink; talk = begun } }
    {
        Client {
            alloc,
            source,
            sink,
            unread: Unread::new(alloc),
            asked: Roomy::new(alloc),
            msize: MAX_MSIZE,
            is_closed: false,
        }
    }

    /// The source and the sink.
    pub fn parts(self) -> (R, W)
        ensures { result ≡ (self.source, self.sink) }
    {
        let Client {
            alloc: _,
            source,
            sink,
            unread: _,
            asked: _,
            msize: _,
            is_closed: _,
        } = self;
        (source, sink)
    }

    /// Whether a tag is asked, so that its reply may be waited for.
    pub fn is_asked(&self, tag: u16) -> bool
        ensures { result ≡ is_asked tag self.now.talk.asked }
    {
        is_asked(self.asked.as_slice(), tag)
    }

    /// Whether no tag is asked.
    pub fn is_idle(&self) -> bool
        ensures exact { result ≡ (length self.now.talk.asked == 0) }
        ensures none { result ≡ true → self.now.talk.asked ≡ [] }
    {
        self.asked.is_empty()
    }

    /// Sends a message, and answers its tag: NOTAG for a version message, else the least from 1 on that isn't asked.
    ///
    /// Errors: `Closed` where the client is closed, then `Tags` where 1,024 tags are asked, then `Large` where the
    /// message is above the most bytes: 65,560 until an Rversion was given, then the lesser of its msize and that.
    /// `WriteFault` where the sink has failed; then the client is closed. After any other refusal nothing is sent, and
    /// the client is as before.
    pub fn send(&mut self, body: TBody) -> Result<u16, CallFault>
        requires { MaySend self.old.talk.asked body }
        ensures ok { IfOk result (λ tag. Sends self.old.talk body tag self.new.talk
            (seen (W.told self.old.sink) (W.told self.new.sink))) }
        ensures err { IfErr result (λ e. SendFails e self.old.talk body self.new.talk
            (seen (W.told self.old.sink) (W.told self.new.sink))) }
        ensures later { (W.told self.old.sink).faults ≤ (W.told self.new.sink).faults }
        ensures source { self.new.source ≡ self.old.source }
    {
        if self.is_closed {
            return Err(CallFault::Closed);
        }
        if MOST_TAGS <= self.asked.len() {
            return Err(CallFault::Tags);
        }
        let kind = t_kind(&body);
        let tag = tag_for(self.asked.as_slice(), is_version(&body));
        let message = TMsg { tag, body };
        if is_above(&message, self.msize) {
            return Err(CallFault::Large);
        }
        if self.asked.reserve(1).is_err() {
            return Err(CallFault::NoMemory);
        }
        let Ok(bytes) = write_t(self.alloc, &message) else {
            return Err(CallFault::NoMemory);
        };
        match write_all(&mut self.sink, bytes.as_slice()) {
            Ok(()) => {
                self.asked.put(Asked {
                    tag,
                    kind,
                    reply: None,
                });
                Ok(tag)
            }
            Err(Failed) => {
                self.is_closed = true;
                Err(CallFault::WriteFault)
            }
        }
    }

    /// Waits for the reply to a tag and gives it; then the tag is free again. Replies to other tags
    /// that are asked are kept.
    ///
    /// Errors: `Remote` with the text of an error that was answered, which frees the tag too. `Closed` where the reply
    /// isn't kept and the client is closed. `ReadFault` where the source has failed, `Ended` and `Torn` at its end,
    /// between two messages and inside one, `Wire` where the next four bytes are no lawful size or the next message is
    /// none from a server, `Unasked` where its tag isn't asked or has a reply, `Kind` where its type doesn't answer
    /// that of its tag: these close the client. `NoMemory` loses nothing, and the call may be made again.
    pub fn wait(&mut self, tag: u16) -> Result<RBody, CallFault>
        requires { is_asked tag self.old.talk.asked ≡ true }
        ensures ok { IfOk result (λ body. Gives tag self.old.talk
            (seen (R.told self.old.source) (R.told self.new.source)) body self.new.talk) }
        ensures no_error { IfOk result (λ body. kind_r body ≢ rerror) }
        ensures err { IfErr result (λ e. WaitFails e tag self.old.talk
            (seen (R.told self.old.source) (R.told self.new.source)) self.new.talk) }
        ensures kept { is_some (reply_place tag self.old.talk.asked) ≡ true → (R.told self.new.source).bytes
            ≡ (R.told self.old.source).bytes }
        ensures later { (R.told self.old.source).faults ≤ (R.told self.new.source).faults }
        ensures sink { self.new.sink ≡ self.old.sink }
    {
        if self.is_closed && reply_place(self.asked.as_slice(), tag).is_none() {
            return Err(CallFault::Closed);
        }
        match bring(
            self.alloc,
            &mut self.asked,
            &mut self.unread,
            &mut self.source,
            tag,
        ) {
            Ok(at) => {
                let body = take_reply(&mut self.asked, tag, at);
                self.msize = msize_after(&body, self.msize);
                outcome_of(body)
            }
            Err(fault) => {
                self.is_closed = closes(&fault);
                Err(fault)
            }
        }
    }

    // A call that found no memory closes the client.
    fn shut(&mut self, fault: CallFault) -> CallFault
        ensures same { result ≡ fault }
        ensures state { self.new ≡ record self.old { talk = shut fault self.old.talk } }
    {
        if is_memory(&fault) {
            self.is_closed = true;
        }
        fault
    }

    // Sends a message, and waits for the reply to it.
    fn send_and_wait(&mut self, body: TBody) -> Result<RBody, CallFault>
        requires { MaySend self.old.talk.asked body }
        ensures ok { IfOk result (λ reply. Calls self.old.talk body
            (seen (W.told self.old.sink) (W.told self.new.sink))
            (seen (R.told self.old.source) (R.told self.new.source)) reply self.new.talk) }
        ensures no_error { IfOk result (λ reply. kind_r reply ≢ rerror) }
        ensures err { IfErr result (λ e. CallFails e self.old.talk body
            (seen (W.told self.old.sink) (W.told self.new.sink))
            (seen (R.told self.old.source) (R.told self.new.source)) self.new.talk) }
        ensures later_sink { (W.told self.old.sink).faults ≤ (W.told self.new.sink).faults }
        ensures later_source { (R.told self.old.source).faults ≤ (R.told self.new.source).faults }
    {
        let tag = match self.send(body) {
            Ok(tag) => tag,
            Err(fault) => return Err(self.shut(fault)),
        };
        match self.wait(tag) {
            Ok(reply) => Ok(reply),
            Err(fault) => Err(self.shut(fault)),
        }
    }

    /// Sends a message, and waits for the reply to it and gives it.
    ///
    /// Errors: those of `send` and `wait`. Here `NoMemory` closes the client, too, since nobody knows the tag then.
    pub fn call(&mut self, body: TBody) -> Result<RBody, CallFault>
        requires { MaySend self.old.talk.asked body }
        ensures ok { IfOk result (λ reply. Calls self.old.talk body
            (seen (W.told self.old.sink) (W.told self.new.sink))
            (seen (R.told self.old.source) (R.told self.new.source)) reply self.new.talk) }
        ensures no_error { IfOk result (λ reply. kind_r reply ≢ rerror) }
        ensures err { IfErr result (λ e. CallFails e self.old.talk body
            (seen (W.told self.old.sink) (W.told self.new.sink))
            (seen (R.told self.old.source) (R.told self.new.source)) self.new.talk) }
        // While no tag is asked the next message is the reply, or there is a fault.
        ensures alone { self.old.talk.asked ≡ [] → IfOk result (λ reply. Replies self.old.talk body
            (seen (W.told self.old.sink) (W.told self.new.sink))
            (seen (R.told self.old.source) (R.told self.new.source)) (Ok reply) self.new.talk) }
        ensures alone_err { self.old.talk.asked ≡ [] → IfErr result (λ e. AloneFails e self.old.talk body
            (seen (W.told self.old.sink) (W.told self.new.sink))
            (seen (R.told self.old.source) (R.told self.new.source)) self.new.talk) }
        ensures kind { self.old.talk.asked ≡ [] → IfOk result (λ reply. kind_r reply ≡ kind_t body + 1) }
        ensures later_sink { (W.told self.old.sink).faults ≤ (W.told self.new.sink).faults }
        ensures later_source { (R.told self.old.source).faults ≤ (R.told self.new.source).faults }
    {
        self.send_and_wait(body)
    }
}
