//! Reading to the end.

ghost use Rattle.std.specs.Prelude.{◌≡◌, ◌+◌, ◌<◌, ◌≤◌, [], length, IfOk, IfErr, OnOk};
ghost use Rattle.am_base.specs.Outside.{AreTold, TakesAtMost};
ghost use Rattle.am_base.specs.Stops.{StopsFor};
ghost use Rattle.am_base.specs.declared.reading.ReadStop.TheVariants.{ReadFault, NoMemory};

use crate::source::{Failed, Source};
use am_text::{Bytes, Items};
use std::alloc::Global;
use thiserror::Error;

/// Why reading stopped before the end.
#[derive(Clone, Copy, Debug, PartialEq, Eq, Error)]
pub enum ReadStop {
    /// The source has failed.
    #[error("the input can't be read")]
    ReadFault,
    /// There are more bytes than the limit.
    #[error("the input is too long")]
    TooLong,
    /// There isn't memory enough.
    #[error("out of memory")]
    NoMemory,
}

impl From<Failed> for ReadStop {
    ghost from_gives = { λ _ e. e ≡ ReadFault };

    fn from(_e: Failed) -> ReadStop {
        ReadStop::ReadFault
    }
}

impl From<am_text::NoMemory> for ReadStop {
    ghost from_gives = { λ _ e. e ≡ NoMemory };

    fn from(_e: am_text::NoMemory) -> ReadStop {
        ReadStop::NoMemory
    }
}

/// The most bytes that a program's input has, a transcript or a script.
pub const INPUT_LIMIT: usize = 16777216;

/// The most bytes that one read of a source asks for.
pub const PIECE_LIMIT: usize = 8192;

/// All the bytes to the end, where they are at most `limit`. It never reads more than one byte
/// beyond the limit. What was read before a refusal is lost.
#[tactic(auto, using(crate::proofs::Told::telling))]
pub fn read_to_end<S: Source>(
    alloc: Global,
    source: &mut S,
    limit: usize,
) -> Result<Bytes, ReadStop>
    ensures told { IfOk result (AreTold (S.told source.old).bytes) }
    ensures end { OnOk result (AreTold (S.told source.new).bytes []) }
    ensures fits { IfOk result (λ bytes. length bytes ≤ limit) }
    ensures later { (S.told source.old).faults ≤ (S.told source.new).faults }
    ensures stops { TakesAtMost (limit + 1) (S.told source.old).bytes (S.told source.new).bytes }
    ensures err { IfErr result (λ e. StopsFor e (S.told source.old) (S.told source.new) limit) }
{
    let mut bytes = Items::new(alloc);
    let mut room = limit;
    let mut buf = [0; PIECE_LIMIT];
    'pieces: loop {
        let most = PIECE_LIMIT.min(room.saturating_add(1));
        let n = source.read(&mut buf[..most])?;
        if n == 0 {
            return Ok(bytes);
        }
        if room < n {
            return Err(ReadStop::TooLong);
        }
        bytes.append(&buf[..n])?;
        room -= n;
    }
}
