//! Where bytes come from.

ghost use Rattle.std.specs.Prelude.{◌≡◌, ◌<◌, ◌≤◌, [], length, take, IfOk, OnErr};
ghost use Rattle.am_base.specs.Outside.{BytesTold, WasEnded, then_told, AreTold, HasCause};

/// An object of the outside has failed.
#[derive(Clone, Copy, Debug, PartialEq, Eq)]
pub struct Failed;

/// Bytes that come to an end.
pub trait Source {
    /// The bytes not read yet, where it tells them, how often it has failed, and whether it was ended.
    ghost told: { Self → BytesTold };

    /// Reads some bytes into the front of `buf` and answers how many; none at the end alone. A
    /// failure reads none, and comes only where the count of faults rises.
    fn read(&mut self, buf: &mut [u8]) -> Result<usize, Failed>
        requires { 0 < length buf.old }
        ensures within { IfOk result (λ n. n ≤ length buf.old) }
        ensures moved { IfOk result (λ n. (told self.old).bytes ≡ then_told (take n buf.new) (told self.new).bytes) }
        ensures end { IfOk result (λ n. n ≡ 0 → AreTold (told self.new).bytes []) }
        ensures err { OnErr result ((told self.new).bytes ≡ (told self.old).bytes) }
        ensures ended { (told self.new).is_ended ≡ (told self.old).is_ended }
        ensures cause { HasCause (told self.old).faults (told self.new).faults result };

    /// Ends it: nothing more is to be read. What it tells of its bytes stays.
    fn end(&mut self)
        ensures ends { WasEnded (told self.old) (told self.new) };
}
