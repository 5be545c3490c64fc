//! What a command makes of a window's body.

ghost use Rattle.std.specs.Prelude.{◌≡◌, true, List, ℕ, length, Ok, IfOk, IfErr, OnOk};
ghost use Rattle.edit_parts.specs.Tree.{command};
ghost use Rattle.edit_log.specs.Edited.{text_after};
ghost use Rattle.edit_log.specs.Splices.{shifted, spliced, AreInRange};
ghost use Rattle.sam_address.specs.Value.{IsInside};
ghost use Rattle.edit_run.specs.Faults.{IsFault};
ghost use Rattle.edit_run.specs.Within.{AreChangesOf};
ghost use Rattle.edit_run.specs.Plan.{wanted, planned, dot_after, are_in_sequence, edits_of};

use crate::doing::{Doing, Over};
use crate::effects::Effects;
use crate::fault::EditFault;
use crate::kept::Kept;
use crate::line_cursor::LineCursor;
use crate::running::run;
use crate::types::{EditPlan, Site};
use am_text::{Letters, NoMemory, Range};
use edit_log::{Edit, Edits, SpliceFault, splice};
use edit_parts::Cmd;
use std::alloc::Global;

// The edits of changes over one text of `len` runes.
fn edits_for(alloc: Global, changes: &Edits, len: usize) -> Result<Edits, EditFault>
    requires { AreChangesOf len changes.now }
    ensures edits { IfOk result (λ edits. edits ≡ shifted changes.now) }
    ensures faultless { OnOk result (are_in_sequence 0 changes.now ≡ true) }
    ensures at_once { IfOk result (λ edits. (t : List ℕ) → length t ≡ len → text_after t edits
        ≡ spliced t changes.now) }
    ensures in_range { IfOk result (λ edits. (t : List ℕ) → length t ≡ len → AreInRange t edits) }
    ensures fault { IfErr result (λ e. IsFault e (edits_of changes.now)) }
{
    match splice(alloc, changes, len) {
        Ok(edits) => Ok(edits),
        Err(SpliceFault::Sequence(_)) => Err(EditFault::Sequence),
        Err(SpliceFault::Range(_)) => unreachable!(),
        Err(SpliceFault::NoMemory) => Err(EditFault::NoMemory),
    }
}

// The range of the text that the last edit puts, or this one where there is no edit.
#[tactic(auto, using(crate::proofs::Lasts::last_put))]
fn dot_after(dot: Range, edits: &[Edit]) -> Result<Range, NoMemory>
    ensures { IfOk result (λ range. range ≡ dot_after dot edits.now) }
{
    let [.., last] = edits else {
        return Ok(dot);
    };
    match last.q0.checked_add(last.text.len()) {
        Some(end) => Ok(Range {
            q0: last.q0,
            q1: end,
        }),
        None => Err(NoMemory),
    }
}

/// What a command makes of a text that stands in a window, as sam(1) has it; all its addresses and matches speak of the
/// text as it stands. It is a plan, or the first fault in the order in which the commands are done; `Sequence` comes
/// after all others.
pub fn changes<T: Letters>(
    alloc: Global,
    cmd: &Cmd,
    text: &T,
    site: &Site,
) -> Result<EditPlan, EditFault>
    requires { IsInside (T.letters text.now) site.now.dot }
    ensures plan { IfOk result (λ plan. planned (command cmd.now) (T.letters text.now) site.now ≡ Ok plan) }
    ensures fault { IfErr result (λ e. IsFault e (planned (command cmd.now) (T.letters text.now) site.now)) }
    // One by one, the edits make what all changes make at once, each of them over the text as it stands.
    ensures at_once { IfOk result (λ plan. IfOk (wanted (command cmd.now) (T.letters text.now) site.now)
        (λ e. text_after (T.letters text.now) plan.edits ≡ spliced (T.letters text.now) e.changes)) }
    // Each edit is inside the text as it is then, and dot inside the text after all of them.
    ensures in_range { IfOk result (λ plan. AreInRange (T.letters text.now) plan.edits) }
    ensures dot { IfOk result (λ plan. IsInside (text_after (T.letters text.now) plan.edits) plan.dot) }
{
    let over = Over { alloc, text, site };
    let mut doing = Doing {
        effects: Effects::none(alloc, site.dot),
        cursor: LineCursor::start(),
    };
    run(cmd, &Kept::none(), &over, site.dot, &mut doing)?;
    let Effects {
        changes,
        prints,
        jobs,
        last,
    } = doing.effects;
    let edits = edits_for(alloc, &changes, text.len())?;
    let dot = dot_after(last, edits.as_slice())?;
    Ok(EditPlan {
        edits,
        dot,
        prints,
        jobs,
    })
}
