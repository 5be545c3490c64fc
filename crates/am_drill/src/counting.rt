//! How many replies were made, and their bytes.

ghost use Rattle.std.specs.Prelude.{◌≡◌};
ghost use Rattle.acme_core.specs.Run.{run};
ghost use Rattle.am_drill.specs.Summary.{count_of};
ghost use Rattle.am_drill.specs.Brief.{IsBrief};

use acme_core::Core;

/// Replies, and their bytes in all.
#[derive(Clone, Copy, Debug, PartialEq, Eq)]
pub struct Count {
    pub replies: u64,
    pub bytes: u64,
}

/// The replies that the last entry made.
#[tactic(auto, using(crate::proofs::Replies::all_counted))]
pub(crate) fn last_count(core: &Core) -> Count
    requires { IsBrief (run core.now.journal).replies }
    ensures { result ≡ count_of (run core.now.journal).replies }
{
    let mut bytes: u64 = 0;
    let mut k: usize = 0;
    while let Some((_, reply)) = core.last_reply(k) {
        bytes += reply.len() as u64;
        k += 1;
    }
    Count {
        replies: k as u64,
        bytes,
    }
}
