//! What connections come from.

ghost use Rattle.std.specs.Prelude.{◌≡◌, [], true, false, OnOk, OnErr, IfOk};
ghost use Rattle.am_base.specs.Outside.{GateTold, HostTold, LinkTold, AreTold, Counts, IsNamed, HasCause};

use crate::sink::Sink;
use crate::source::{Failed, Source};

/// One connection: a source and a sink, which are handed out once.
pub trait Link: Drop + Send {
    type R: Source + Drop + Send;

    type W: Sink + Drop + Send;

    /// The bytes that its source begins with, where it tells them, whether `halves` has succeeded, the path that it was
    /// dialled at, where it tells one, and how often it has failed.
    ghost told: { Self → LinkTold };

    /// Hands out the source and the sink, at most once. A sink that tells its bytes begins empty.
    fn halves(&mut self) -> Result<(Self::R, Self::W), Failed>
        ensures source { IfOk result (λ h. (Self.R.told h.0).bytes ≡ (told self.old).begins) }
        ensures sink { IfOk result (λ h. AreTold (Self.W.told h.1).bytes []) }
        ensures fresh { IfOk result (λ h. ((Self.R.told h.0).faults ≡ 0) × ((Self.W.told h.1).faults ≡ 0)) }
        ensures open { IfOk result (λ h. ((Self.R.told h.0).is_ended ≡ false) × ((Self.W.told h.1).is_ended ≡ false)) }
        ensures begins { (told self.new).begins ≡ (told self.old).begins }
        ensures dialled { (told self.new).dialled ≡ (told self.old).dialled }
        ensures once { OnOk result (((told self.old).is_halved ≡ false) × ((told self.new).is_halved ≡ true)) }
        ensures err { OnErr result ((told self.new).is_halved ≡ (told self.old).is_halved) }
        ensures cause { HasCause (told self.old).faults (told self.new).faults result };
}

/// Where connections are taken.
pub trait Gate: Drop + Send {
    type L: Link;

    /// Its path and slot, where it tells them, how many links it has given, and how often it has failed.
    ghost told: { Self → GateTold };

    /// Waits for a connection and hands it out.
    fn accept(&mut self) -> Result<Self::L, Failed>
        ensures fresh { IfOk result (λ link. (Self.L.told link).faults ≡ 0) }
        ensures whole { IfOk result (λ link. (Self.L.told link).is_halved ≡ false) }
        ensures name { (told self.new).name ≡ (told self.old).name }
        ensures given { Counts (told self.old).given (told self.new).given result }
        ensures cause { HasCause (told self.old).faults (told self.new).faults result };
}

/// What gates are made by, and what the gates of others are dialled by.
pub trait Host {
    type G: Gate;

    /// How many gates and links it has given, and how often it has failed.
    ghost told: { Self → HostTold };

    /// Makes the gate of a path and a slot.
    fn bind(&mut self, path: &str, slot: u32) -> Result<Self::G, Failed>
        ensures named { IfOk result (λ gate. IsNamed (Self.G.told gate).name path.now slot) }
        ensures fresh { IfOk result (λ gate. (Self.G.told gate).faults ≡ 0) }
        ensures unasked { IfOk result (λ gate. (Self.G.told gate).given ≡ 0) }
        ensures given { Counts (told self.old).given (told self.new).given result }
        ensures cause { HasCause (told self.old).faults (told self.new).faults result };

    /// Connects to the gate of a path, which is taken as it stands.
    fn dial(&mut self, path: &str) -> Result<<Self::G as Gate>::L, Failed>
        ensures fresh { IfOk result (λ link. (Self.G.L.told link).faults ≡ 0) }
        ensures whole { IfOk result (λ link. (Self.G.L.told link).is_halved ≡ false) }
        ensures dialled { IfOk result (λ link. AreTold (Self.G.L.told link).dialled path.now) }
        ensures given { Counts (told self.old).given (told self.new).given result }
        ensures cause { HasCause (told self.old).faults (told self.new).faults result };
}
