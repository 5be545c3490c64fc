//! Where bytes go.

ghost use Rattle.std.specs.Prelude.{◌≡◌, ◌<◌, ◌≤◌, length, take, IfOk, OnOk, OnErr};
ghost use Rattle.am_base.specs.Outside.{BytesTold, WasEnded, told_then, PutsFront, HasCause};

use crate::source::Failed;

/// What takes bytes.
pub trait Sink {
    /// The bytes got so far, where it tells them, how often it has failed, and whether it was ended.
    ghost told: { Self → BytesTold };

    /// Takes a front of the bytes, of one byte at least, and answers how many. A failure takes
    /// none, and comes only where the count of faults rises.
    fn write(&mut self, buf: &[u8]) -> Result<usize, Failed>
        requires { 0 < length buf.now }
        ensures some { IfOk result (λ n. 0 < n) }
        ensures within { IfOk result (λ n. n ≤ length buf.now) }
        ensures put { IfOk result (λ n. (told self.new).bytes ≡ told_then (told self.old).bytes (take n buf.now)) }
        ensures err { OnErr result ((told self.new).bytes ≡ (told self.old).bytes) }
        ensures ended { (told self.new).is_ended ≡ (told self.old).is_ended }
        ensures cause { HasCause (told self.old).faults (told self.new).faults result };

    /// Ends it: nothing more is to be written. What it tells of its bytes stays.
    fn end(&mut self)
        ensures ends { WasEnded (told self.old) (told self.new) };
}

/// Writes all the bytes. At a failure a front of them was written. It takes no memory.
#[tactic(auto, using(crate::proofs::Told::telling))]
pub fn write_all<K: Sink>(sink: &mut K, bytes: &[u8]) -> Result<(), Failed>
    ensures ok { OnOk result ((K.told sink.new).bytes ≡ told_then (K.told sink.old).bytes bytes.now) }
    ensures err { OnErr result (PutsFront (K.told sink.old).bytes bytes.now (K.told sink.new).bytes) }
    ensures cause { HasCause (K.told sink.old).faults (K.told sink.new).faults result }
{
    let mut at = 0;
    while at < bytes.len() {
        let (_, rest) = bytes.split_at(at);
        at += sink.write(rest)?;
    }
    Ok(())
}
