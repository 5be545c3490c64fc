//! The standard streams. They tell nothing of their bytes.

ghost use Rattle.std.specs.Prelude.{◌≡◌, ◌<◌, ◌≤◌, [], None, length, IfOk, OnOk, OnErr};
ghost use Rattle.am_base.specs.Outside.{AreTold, HasCause, WasEnded};
ghost use Rattle.am_base.specs.Streams.{ended_stream, failed_stream, new_stream, told_by};

use crate::calls::raised;
use crate::sink::Sink;
use crate::source::{Failed, Source};
use std::io::{ErrorKind, Read, Write};
use std::marker::Model;

/// A stream that is read. It tells nothing of what is left.
#[derive(Drop)]
pub struct InputSource<R> {
    pub(crate) reader: R,
    faults: u64,
    is_ended: bool,
}

impl<R> Model for InputSource<R> {
    ghost use Rattle.am_base.specs.Streams.{StreamLog};

    ghost Value = { StreamLog };

    ghost view = { λ s. record { faults = s.faults; is_ended = s.is_ended } };
}

impl<R> InputSource<R> {
    /// Reads from this stream. Its count of faults begins at 0.
    pub fn new(reader: R) -> InputSource<R>
        ensures { result ≡ new_stream }
    {
        InputSource {
            reader,
            faults: 0,
            is_ended: false,
        }
    }
}

// One read. A signal is no fault: it is asked again then.
fn read_some<R: Read>(reader: &mut R, buf: &mut [u8]) -> Result<usize, Failed>
    ensures { IfOk result (λ n. n ≤ length buf.old) }
{
    for _ in 0..u64::MAX {
        match reader.read(buf) {
            Ok(n) => return Ok(n),
            Err(error) if error.kind() == ErrorKind::Interrupted => {}
            Err(_) => return Err(Failed),
        }
    }
    Err(Failed)
}

impl<R: Read> Source for InputSource<R> {
    ghost told = { λ s. told_by s };

    fn read(&mut self, buf: &mut [u8]) -> Result<usize, Failed>
        requires { 0 < length buf.old }
        ensures within { IfOk result (λ n. n ≤ length buf.old) }
        ensures end { IfOk result (λ n. n ≡ 0 → AreTold None []) }
        ensures cause { HasCause self.old.faults self.new.faults result }
        // A call that fails is counted, and no other.
        ensures ok { OnOk result (self.new ≡ self.old) }
        ensures failed { OnErr result (self.new ≡ failed_stream self.old) }
    {
        let read = read_some(&mut self.reader, buf);
        if read.is_err() {
            self.faults = raised(self.faults);
        }
        read
    }

    /// The stream itself stays open.
    fn end(&mut self)
        ensures ends { WasEnded (told_by self.old) (told_by self.new) }
        ensures state { self.new ≡ ended_stream self.old }
    {
        self.is_ended = true;
    }
}

/// A stream that is written. It tells nothing of what it got. A write that takes nothing is a
/// fault.
#[derive(Drop)]
pub struct OutputSink<W> {
    pub(crate) writer: W,
    faults: u64,
    is_ended: bool,
}

impl<W> Model for OutputSink<W> {
    ghost use Rattle.am_base.specs.Streams.{StreamLog};

    ghost Value = { StreamLog };

    ghost view = { λ s. record { faults = s.faults; is_ended = s.is_ended } };
}

impl<W> OutputSink<W> {
    /// Writes to this stream. Its count of faults begins at 0.
    pub fn new(writer: W) -> OutputSink<W>
        ensures { result ≡ new_stream }
    {
        OutputSink {
            writer,
            faults: 0,
            is_ended: false,
        }
    }
}

// One write. A signal is no fault: it is asked again then.
fn write_some<W: Write>(writer: &mut W, buf: &[u8]) -> Result<usize, Failed>
    ensures some { IfOk result (λ n. 0 < n) }
    ensures within { IfOk result (λ n. n ≤ length buf.now) }
{
    for _ in 0..u64::MAX {
        match writer.write(buf) {
            Ok(n) if 0 < n => return Ok(n),
            Err(error) if error.kind() == ErrorKind::Interrupted => {}
            _ => return Err(Failed),
        }
    }
    Err(Failed)
}

impl<W: Write> Sink for OutputSink<W> {
    ghost told = { λ s. told_by s };

    fn write(&mut self, buf: &[u8]) -> Result<usize, Failed>
        requires { 0 < length buf.now }
        ensures some { IfOk result (λ n. 0 < n) }
        ensures within { IfOk result (λ n. n ≤ length buf.now) }
        ensures cause { HasCause self.old.faults self.new.faults result }
        // A call that fails is counted, and no other.
        ensures ok { OnOk result (self.new ≡ self.old) }
        ensures failed { OnErr result (self.new ≡ failed_stream self.old) }
    {
        let wrote = write_some(&mut self.writer, buf);
        if wrote.is_err() {
            self.faults = raised(self.faults);
        }
        wrote
    }

    /// The stream itself stays open.
    fn end(&mut self)
        ensures ends { WasEnded (told_by self.old) (told_by self.new) }
        ensures state { self.new ≡ ended_stream self.old }
    {
        self.is_ended = true;
    }
}
