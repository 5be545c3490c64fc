//! Sockets of the host. They tell nothing of their bytes.

ghost use Rattle.std.specs.Prelude.{◌≡◌, ◌<◌, ◌≤◌, [], None, false, true, length, IfSome, IfNone, IfOk, OnOk, OnErr};
ghost use Rattle.am_base.specs.Outside.{AreTold, Counts, HasCause, IsNamed, WasEnded, one_more};
ghost use Rattle.am_base.specs.Streams.{ended_stream, failed_stream, new_stream, told_by};

use crate::calls::raised;
use crate::link::{Gate, Host, Link};
use crate::reading::PIECE_LIMIT;
use crate::sink::Sink;
use crate::socket_name::SocketName;
use crate::source::{Failed, Source};
use crate::streams::{InputSource, OutputSink};
use std::io::Read;
use std::marker::Model;
use std::net::{Net, Shutdown};
use std::os::unix::net::{UnixListener, UnixStream};
use std::rt::Files;

// How many pieces are dropped of what a peer had sent before its connection was ended: more than a socket holds.
const DROPPED: u32 = 65536;

/// The bytes that a peer sends, until it hangs up.
#[derive(Drop)]
pub struct UnixSource {
    input: InputSource<UnixStream>,
}

impl Model for UnixSource {
    ghost use Rattle.am_base.specs.Streams.{StreamLog};

    ghost Value = { StreamLog };

    ghost view = { λ s. s.input };
}

impl Source for UnixSource {
    ghost told = { λ s. told_by s };

    fn read(&mut self, buf: &mut [u8]) -> Result<usize, Failed>
        requires { 0 < length buf.old }
        ensures within { IfOk result (λ n. n ≤ length buf.old) }
        ensures end { IfOk result (λ n. n ≡ 0 → AreTold None []) }
        ensures cause { HasCause self.old.faults self.new.faults result }
        // A call that fails is counted, and no other.
        ensures ok { OnOk result (self.new ≡ self.old) }
        ensures failed { OnErr result (self.new ≡ failed_stream self.old) }
    {
        self.input.read(buf)
    }

    /// Shuts the reading of the socket down: the peer can send nothing more. What it has sent is dropped, so that it
    /// finds the end of what it gets, and no fault, once the socket is closed.
    fn end(&mut self)
        ensures ends { WasEnded (told_by self.old) (told_by self.new) }
        ensures state { self.new ≡ ended_stream self.old }
    {
        // Where the peer has gone there is nothing to shut down.
        let _shut = self.input.reader.shutdown(Shutdown::Read);
        drop_rest(&self.input.reader);
        self.input.end();
    }
}

// Reads what is left, and drops it.
fn drop_rest(stream: &UnixStream) {
    let mut buf = [0; PIECE_LIMIT];
    let mut reader = stream;
    for _ in 0..DROPPED {
        match reader.read(&mut buf) {
            Ok(n) if 0 < n => {}
            _ => return,
        }
    }
}

/// The bytes that a peer gets.
#[derive(Drop)]
pub struct UnixSink {
    output: OutputSink<UnixStream>,
}

impl Model for UnixSink {
    ghost use Rattle.am_base.specs.Streams.{StreamLog};

    ghost Value = { StreamLog };

    ghost view = { λ s. s.output };
}

impl Sink for UnixSink {
    ghost told = { λ s. told_by s };

    fn write(&mut self, buf: &[u8]) -> Result<usize, Failed>
        requires { 0 < length buf.now }
        ensures some { IfOk result (λ n. 0 < n) }
        ensures within { IfOk result (λ n. n ≤ length buf.now) }
        ensures cause { HasCause self.old.faults self.new.faults result }
        // A call that fails is counted, and no other.
        ensures ok { OnOk result (self.new ≡ self.old) }
        ensures failed { OnErr result (self.new ≡ failed_stream self.old) }
    {
        self.output.write(buf)
    }

    /// Shuts the whole socket down, so that a thread that sleeps in a read of it wakes.
    fn end(&mut self)
        ensures ends { WasEnded (told_by self.old) (told_by self.new) }
        ensures state { self.new ≡ ended_stream self.old }
    {
        let _shut = self.output.writer.shutdown(Shutdown::Both);
        self.output.end();
    }
}

/// One connection over a socket. Its halves are handed out once, and it then holds no stream.
#[derive(Drop)]
pub struct UnixLink {
    stream: Option<UnixStream>,
    faults: u64,
}

impl Model for UnixLink {
    ghost use Rattle.std.specs.Prelude.{is_none};
    ghost use Rattle.am_base.specs.Sockets.{LinkLog};

    ghost Value = { LinkLog };

    ghost view = { λ l. record { is_halved = is_none l.stream; faults = l.faults } };
}

impl UnixLink {
    // The stream twice, once for each half. It stays where it can't be had twice.
    fn both(&mut self) -> Option<(UnixStream, UnixStream)>
        ensures once { IfSome result (λ _. self.old.is_halved ≡ false) }
        ensures some { IfSome result (λ _. self.new ≡ record self.old { is_halved = true }) }
        ensures none { IfNone result (self.new ≡ self.old) }
    {
        let other = self.stream.as_ref()?.try_clone().ok()?;
        Some((self.stream.take()?, other))
    }

    // The peer finds its connection ended where it can't be served.
    fn shut(&self) {
        if let Some(stream) = &self.stream {
            let _shut = stream.shutdown(Shutdown::Both);
        }
    }
}

impl Link for UnixLink {
    type R = UnixSource;

    type W = UnixSink;

    ghost told = { λ l. record { begins = None; is_halved = l.is_halved; dialled = None; faults = l.faults } };

    fn halves(&mut self) -> Result<(UnixSource, UnixSink), Failed>
        ensures fresh { IfOk result (λ h. (h.0 ≡ new_stream) × (h.1 ≡ new_stream)) }
        ensures once { OnOk result ((self.old.is_halved ≡ false) × (self.new.is_halved ≡ true)) }
        ensures cause { HasCause self.old.faults self.new.faults result }
        // A call that fails is counted, and no other.
        ensures ok { OnOk result (self.new ≡ record self.old { is_halved = true }) }
        ensures failed { OnErr result (self.new ≡ record self.old { faults = one_more self.old.faults }) }
    {
        match self.both() {
            Some((source, sink)) => Ok((
                UnixSource {
                    input: InputSource::new(source),
                },
                UnixSink {
                    output: OutputSink::new(sink),
                },
            )),
            None => {
                self.shut();
                self.faults = raised(self.faults);
                Err(Failed)
            }
        }
    }
}

/// A socket that listens, until it has failed. Its file stays where it is when the gate is dropped.
#[derive(Drop)]
pub struct UnixGate {
    listener: Option<UnixListener>,
    given: u64,
    faults: u64,
}

impl Model for UnixGate {
    ghost use Rattle.am_base.specs.Sockets.{Asked};

    ghost Value = { Asked };

    ghost view = { λ g. record { given = g.given; faults = g.faults } };
}

impl UnixGate {
    // The next connection, unless the gate fails or has failed.
    fn take(&self) -> Option<UnixStream> {
        let (stream, _) = self.listener.as_ref()?.accept().ok()?;
        Some(stream)
    }
}

impl Gate for UnixGate {
    type L = UnixLink;

    ghost told = { λ g. record { name = None; given = g.given; faults = g.faults } };

    fn accept(&mut self) -> Result<UnixLink, Failed>
        ensures fresh { IfOk result (λ link. link.faults ≡ 0) }
        ensures whole { IfOk result (λ link. link.is_halved ≡ false) }
        ensures given { Counts self.old.given self.new.given result }
        ensures cause { HasCause self.old.faults self.new.faults result }
        // A call that fails is counted, and no other.
        ensures ok { OnOk result (self.new ≡ record self.old { given = one_more self.old.given }) }
        ensures failed { OnErr result (self.new ≡ record self.old { faults = one_more self.old.faults }) }
    {
        match self.take() {
            Some(stream) => {
                self.given = raised(self.given);
                Ok(UnixLink {
                    stream: Some(stream),
                    faults: 0,
                })
            }
            None => {
                // Who waits for an answer is cut off, and nobody can come any more.
                self.listener = None;
                self.faults = raised(self.faults);
                Err(Failed)
            }
        }
    }
}

/// Makes sockets in the file system, and connects to those of others. Where a file of that name is there already, of a
/// server that has ended too, `bind` fails. `bind` and `dial` fail where the name is longer than the system takes.
#[derive(Drop)]
pub struct UnixHost<'a, R> {
    rt: &'a R,
    given: u64,
    faults: u64,
}

impl<'a, R> Model for UnixHost<'a, R> {
    ghost use Rattle.am_base.specs.Sockets.{Asked};

    ghost Value = { Asked };

    ghost view = { λ h. record { given = h.given; faults = h.faults } };
}

impl<'a, R> UnixHost<'a, R> {
    /// Makes sockets by this handle. Contracts see its counts, which begin at 0.
    pub fn new(rt: &'a R) -> UnixHost<'a, R>
        ensures { result ≡ record { given = 0; faults = 0 } }
    {
        UnixHost {
            rt,
            given: 0,
            faults: 0,
        }
    }
}

impl<'a, R: Files + Net> Host for UnixHost<'a, R> {
    type G = UnixGate;

    ghost told = { λ h. record { given = h.given; faults = h.faults } };

    fn bind(&mut self, path: &str, slot: u32) -> Result<UnixGate, Failed>
        ensures named { IfOk result (λ _. IsNamed None path.now slot) }
        ensures fresh { IfOk result (λ gate. gate.faults ≡ 0) }
        ensures unasked { IfOk result (λ gate. gate.given ≡ 0) }
        ensures given { Counts self.old.given self.new.given result }
        ensures cause { HasCause self.old.faults self.new.faults result }
        // A call that fails is counted, and no other.
        ensures ok { OnOk result (self.new ≡ record self.old { given = one_more self.old.given }) }
        ensures failed { OnErr result (self.new ≡ record self.old { faults = one_more self.old.faults }) }
    {
        match listen(self.rt, path, slot) {
            Some(listener) => {
                self.given = raised(self.given);
                Ok(UnixGate {
                    listener: Some(listener),
                    given: 0,
                    faults: 0,
                })
            }
            None => {
                self.faults = raised(self.faults);
                Err(Failed)
            }
        }
    }

    fn dial(&mut self, path: &str) -> Result<UnixLink, Failed>
        ensures fresh { IfOk result (λ link. link.faults ≡ 0) }
        ensures whole { IfOk result (λ link. link.is_halved ≡ false) }
        ensures dialled { IfOk result (λ _. AreTold None path.now) }
        ensures given { Counts self.old.given self.new.given result }
        ensures cause { HasCause self.old.faults self.new.faults result }
        // A call that fails is counted, and no other.
        ensures ok { OnOk result (self.new ≡ record self.old { given = one_more self.old.given }) }
        ensures failed { OnErr result (self.new ≡ record self.old { faults = one_more self.old.faults }) }
    {
        match UnixStream::connect(self.rt, path).ok() {
            Some(stream) => {
                self.given = raised(self.given);
                Ok(UnixLink {
                    stream: Some(stream),
                    faults: 0,
                })
            }
            None => {
                self.faults = raised(self.faults);
                Err(Failed)
            }
        }
    }
}

// Listens at the socket of a path and a slot. It takes no memory.
fn listen<R: Files + Net>(rt: &R, path: &str, slot: u32) -> Option<UnixListener> {
    let name = SocketName::new(path, slot)?;
    UnixListener::bind(rt, name.as_str()?).ok()
}
