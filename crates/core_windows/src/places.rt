//! The windows by place.

ghost use Rattle.std.specs.Prelude.{◌≡◌, ◌<◌, ◌++◌, ◌∷◌, vec_len, vec_capacity, [], length, IfOk, OnErr, Option, Some};
ghost use Rattle.std.specs.Prelude.{None};
ghost use Rattle.std.specs.Option.{option_map};
ghost use Rattle.core_windows.specs.Places.{at_place, live_at, gone};
ghost use Rattle.core_windows.specs.Windows.{Window, added, set, planned};
ghost use Rattle.core_windows.specs.Shapes.{shape_of_pane, seen_of, shapes_of, seen_in, AreRoomier, IsReadyPane, Lives};
ghost use Rattle.core_windows.specs.Shapes.{Always, IsPlannable, IsSettable};
ghost use Rattle.core_windows.specs.Trail.{undone, CanUndo, all_undone, CanGoBack};

use crate::change::Setting;
use crate::pane::Pane;
use crate::slots::{add, make, reserve, set, settle_slot, take_back};
use crate::undo::Undo;
use am_text::{NoMemory, Rune};
use std::alloc::Global;
use std::mem;
use win_text::{Ready, TextPlan};

/// Makes ready to do a plan in the window at this place.
pub(crate) fn reserve_at(
    panes: &mut Vec<Option<Pane>>,
    at: usize,
    plan: &TextPlan,
) -> Result<Ready, NoMemory>
    requires within { at < length panes.old.items }
    requires can { Lives (IsPlannable plan.now) (live_at (seen_in (shapes_of panes.old.items)) at) }
    ensures roomier { AreRoomier (shapes_of panes.old.items) (shapes_of panes.new.items) }
    ensures ready { IfOk result (λ ready. Lives (IsReadyPane plan.now ready) (live_at panes.new.items at)) }
{
    reserve(&mut panes[at], plan)
}

/// Does a plan that is ready in the window at this place. It takes no memory.
pub(crate) fn make_at(
    panes: &mut Vec<Option<Pane>>,
    at: usize,
    plan: TextPlan,
    ready: Ready,
) -> Undo
    requires within { at < length panes.old.items }
    requires ready { Lives (IsReadyPane plan ready) (live_at panes.old.items at) }
    ensures windows { seen_in (shapes_of panes.new.items) ≡ at_place (option_map (planned plan)) at
        (seen_in (shapes_of panes.old.items)) }
    ensures back { undone result (shapes_of panes.new.items) ≡ shapes_of panes.old.items }
    ensures can { CanUndo result (shapes_of panes.new.items) }
{
    Undo::Restore(at, make(&mut panes[at], plan, ready))
}

/// Puts a text at the end of the tag of the window at this place. A refusal changes nothing.
pub(crate) fn add_at(
    panes: &mut Vec<Option<Pane>>,
    at: usize,
    text: &[Rune],
) -> Result<Undo, NoMemory>
    requires within { at < length panes.old.items }
    requires lives { Lives Always (live_at (seen_in (shapes_of panes.old.items)) at) }
    ensures err { OnErr result (shapes_of panes.new.items ≡ shapes_of panes.old.items) }
    ensures windows { IfOk result (λ undo. seen_in (shapes_of panes.new.items)
        ≡ at_place (option_map (added text.now)) at (seen_in (shapes_of panes.old.items))) }
    ensures back { IfOk result (λ undo. undone undo (shapes_of panes.new.items) ≡ shapes_of panes.old.items) }
    ensures can { IfOk result (λ undo. CanUndo undo (shapes_of panes.new.items)) }
{
    let slot = &mut panes[at];
    match add(slot, text) {
        Ok(back) => Ok(Undo::Restore(at, back)),
        Err(error) => Err(error),
    }
}

/// Sets a part of the window at this place. It takes no memory.
pub(crate) fn set_at(
    alloc: Global,
    panes: &mut Vec<Option<Pane>>,
    at: usize,
    setting: Setting,
) -> Undo
    requires within { at < length panes.old.items }
    requires can { Lives (IsSettable setting) (live_at (seen_in (shapes_of panes.old.items)) at) }
    ensures windows { seen_in (shapes_of panes.new.items) ≡ at_place (option_map (set setting)) at
        (seen_in (shapes_of panes.old.items)) }
    ensures back { undone result (shapes_of panes.new.items) ≡ shapes_of panes.old.items }
    ensures can { CanUndo result (shapes_of panes.new.items) }
{
    Undo::Restore(at, set(alloc, &mut panes[at], setting))
}

/// Takes the window at this place away. It takes no memory.
pub(crate) fn delete_at(panes: &mut Vec<Option<Pane>>, at: usize) -> Undo
    requires within { at < length panes.old.items }
    requires lives { Lives Always (live_at (seen_in (shapes_of panes.old.items)) at) }
    ensures windows { seen_in (shapes_of panes.new.items) ≡ at_place gone at (seen_in (shapes_of panes.old.items)) }
    ensures back { undone result (shapes_of panes.new.items) ≡ shapes_of panes.old.items }
    ensures can { CanUndo result (shapes_of panes.new.items) }
{
    let slot = &mut panes[at];
    match mem::replace(slot, None) {
        Some(pane) => Undo::Revive(at, pane),
        None => unreachable!(),
    }
}

/// Puts a window behind the others, into the room that is there.
pub(crate) fn put(panes: &mut Vec<Option<Pane>>, pane: Pane) -> Undo
    requires { vec_len panes.old < vec_capacity panes.old }
    ensures windows { seen_in (shapes_of panes.new.items) ≡ seen_in (shapes_of panes.old.items)
        ++ Some (seen_of (shape_of_pane pane)) ∷ [] }
    ensures back { undone result (shapes_of panes.new.items) ≡ shapes_of panes.old.items }
    ensures can { CanUndo result (shapes_of panes.new.items) }
{
    panes.push_reserved(Some(pane));
    Undo::Unmake
}

// Takes a change back. It takes no memory.
fn undo(panes: &mut Vec<Option<Pane>>, step: Undo)
    requires { CanUndo step (shapes_of panes.old.items) }
    ensures { shapes_of panes.new.items ≡ undone step (shapes_of panes.old.items) }
{
    match step {
        Undo::Unmake => {
            panes.pop();
        }
        Undo::Revive(at, pane) => panes[at] = Some(pane),
        Undo::Restore(at, back) => take_back(&mut panes[at], back),
    }
}

/// Takes all changes back, the newest first. It takes no memory.
pub(crate) fn undo_all(panes: &mut Vec<Option<Pane>>, trail: &mut Vec<Undo>)
    requires { CanGoBack trail.old.items (shapes_of panes.old.items) }
    ensures shapes { shapes_of panes.new.items ≡ all_undone trail.old.items (shapes_of panes.old.items) }
    ensures trail { trail.new.items ≡ [] }
{
    while let Some(step) = trail.pop() {
        undo(panes, step);
    }
}

// What was done can't be taken back any more. It takes no memory.
fn settle(panes: &mut Vec<Option<Pane>>, step: &Undo)
    ensures { seen_in (shapes_of panes.new.items) ≡ seen_in (shapes_of panes.old.items) }
{
    if let Undo::Restore(at, _) = step {
        if *at < panes.len() {
            settle_slot(&mut panes[*at]);
        }
    }
}

/// What was done can't be taken back any more. It takes no memory.
pub(crate) fn settle_all(panes: &mut Vec<Option<Pane>>, trail: &mut Vec<Undo>)
    ensures windows { seen_in (shapes_of panes.new.items) ≡ seen_in (shapes_of panes.old.items) }
    ensures trail { trail.new.items ≡ [] }
{
    while let Some(step) = trail.pop() {
        settle(panes, &step);
    }
}
