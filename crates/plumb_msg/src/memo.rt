//! What was scanned of a line of attributes that grows.

ghost use Rattle.std.specs.Prelude.{◌≡◌, ◌++◌, [], true, length, drop, is_some, Some, IfOk};
ghost use Rattle.plumb_msg.specs.Attributes.{scan, start};

use crate::scanning::{Scan, scanned, start};
use am_text::{Bytes, NoMemory};
use std::alloc::Global;
use std::cell::Cell;
use std::marker::Model;

// A front of a line, and its scan.
#[derive(Drop)]
struct Scanned {
    front: Bytes,
    state: Scan,
}

impl Model for Scanned {
    ghost use Rattle.std.specs.Prelude.{◌≡◌, List, ℕ, Some};
    ghost use Rattle.plumb_msg.specs.Attributes.{scan, start};
    ghost use Rattle.plumb_msg.specs.declared.scanning.Scan.{Scan};

    ghost Value = { List ℕ × Scan };

    ghost view = { λ s. (s.front, s.state) };

    ghost invariant = { λ s. scan start s.front ≡ Some s.state };
}

/// The scan of a line of attributes, so that what is added to the line is scanned alone. What it has is no part of what
/// it means: a line that goes on otherwise is scanned anew.
#[derive(Drop)]
pub struct Memo {
    // In a box of its own, so that one in which nothing was scanned is small.
    cell: Cell<Option<Box<Scanned>>>,
}

impl Model for Memo {
    ghost Value = { Unit {0} };

    ghost view = { λ m. tt };
}

// The two of them.
fn parts(scanned: Scanned) -> (Bytes, Scan)
    ensures { scan start result.0 ≡ Some result.1 }
{
    let Scanned { front, state } = scanned;
    (front, state)
}

// No front, and its scan.
#[tactic(auto, using(crate::proofs::MemoLemmas::memos))]
fn nothing(alloc: Global) -> (Bytes, Scan)
    ensures front { result.0 ≡ [] }
    ensures scan { scan start result.0 ≡ Some result.1 }
{
    (Bytes::new(alloc), start(alloc))
}

// Whether a line begins with this front.
#[tactic(auto, using(crate::proofs::MemoLemmas::fronts))]
fn begins_with(line: &[u8], front: &[u8]) -> bool
    ensures { result ≡ true → front.now ++ drop (length front.now) line.now ≡ line.now }
{
    line.starts_with(front)
}

impl Memo {
    /// Nothing was scanned.
    pub(crate) fn new() -> Memo {
        Memo {
            cell: Cell::new(None),
        }
    }

    /// What was scanned goes to another one.
    pub(crate) fn handed_on(&self) -> Memo {
        Memo {
            cell: Cell::new(self.cell.replace(None)),
        }
    }

    // A front of the line that was scanned, and its scan.
    #[tactic(auto, using(crate::proofs::MemoLemmas::fronts))]
    fn known(&self, alloc: Global, line: &[u8]) -> (Bytes, Scan)
        ensures front { result.0 ++ drop (length result.0) line.now ≡ line.now }
        ensures scan { scan start result.0 ≡ Some result.1 }
    {
        let Some(scanned) = self.cell.replace(None) else {
            return nothing(alloc);
        };
        let (front, state) = parts(Box::into_inner(scanned));
        if !begins_with(line, front.as_slice()) {
            return nothing(alloc);
        }
        (front, state)
    }

    /// Whether a line goes on from these bytes.
    #[tactic(auto, using(crate::proofs::MemoLemmas::memos))]
    pub(crate) fn is_scanned(&self, alloc: Global, line: &[u8]) -> Result<bool, NoMemory>
        ensures { IfOk result (λ is. is ≡ is_some (scan start line.now)) }
    {
        let (front, state) = self.known(alloc, line);
        let more = line.split_at(front.len()).1;
        let Some(state) = scanned(alloc, state, more)? else {
            return Ok(false);
        };
        let mut front = front;
        front.append(more)?;
        let scanned = Box::new(alloc, Scanned { front, state })?;
        self.cell.set(Some(scanned));
        Ok(true)
    }
}
