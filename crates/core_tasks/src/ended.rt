//! How a task ends.

ghost use Rattle.std.specs.Prelude.{◌≡◌, None, Some};

use core_fids::Refusal;
use fid_table::Held;

/// How a task ended.
#[derive(Drop)]
pub struct Ended {
    /// Why it is refused, if it is.
    pub refusal: Option<Refusal>,
    /// What the fid holds now that was written to, where the task says it.
    pub held: Option<Held>,
}

impl Ended {
    /// The task isn't refused, and holds nothing.
    pub(crate) fn done() -> Ended
        ensures { result ≡ record { refusal = None; held = None } }
    {
        Ended::by(None)
    }

    /// The task is refused, if it is, and holds nothing.
    pub(crate) fn by(refusal: Option<Refusal>) -> Ended
        ensures { result ≡ record { refusal = refusal; held = None } }
    {
        Ended {
            refusal,
            held: None,
        }
    }

    /// The task is refused, if it is, and this is held.
    pub(crate) fn holding(refusal: Option<Refusal>, held: Held) -> Ended
        ensures { result ≡ record { refusal = refusal; held = Some held } }
    {
        Ended {
            refusal,
            held: Some(held),
        }
    }
}
