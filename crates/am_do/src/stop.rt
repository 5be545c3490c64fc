//! Why a talk stops.

ghost use Rattle.std.specs.Prelude.{◌≡◌};
ghost use Rattle.ninep_client.specs.declared.fault.CallFault.TheVariants as faults;
ghost use Rattle.am_do.specs.declared.stop.Stop.TheVariants.{Fault};

use ninep_client::CallFault;

/// Why a talk with a server stops before its end.
#[derive(Drop)]
pub enum Stop {
    /// The server doesn't speak the version, or refuses the tree.
    Refused,
    /// A call has failed.
    Fault(CallFault),
}

impl From<am_text::NoMemory> for Stop {
    ghost from_gives = { λ _ e. e ≡ Fault faults.NoMemory };

    fn from(_e: am_text::NoMemory) -> Stop {
        Stop::Fault(CallFault::NoMemory)
    }
}
