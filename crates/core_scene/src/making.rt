//! The items of a change.

ghost use Rattle.std.specs.Prelude.{◌≡◌, IfOk};
ghost use Rattle.core_windows.specs.Windows.{window_at};
ghost use Rattle.core_scene.specs.NewItems.{edits_if_any, edits_of_undo, edits_of_redo, items_of_edits, items_of};

use crate::edits::items_of_edits;
use crate::plain::NewItems;
use crate::tags::{items_of_add, items_of_set};
use am_text::{Items, NoMemory};
use core_windows::{Change, Windows};
use std::alloc::Global;
use win_events::Origin;

// The items of the edits that Undo of a window makes.
fn items_of_undo(
    alloc: Global,
    windows: &Windows,
    origin: Origin,
    window: u32,
) -> Result<NewItems, NoMemory>
    ensures { IfOk result (λ items. items ≡ items_of_edits origin
        (edits_of_undo (window_at windows.now.present window))) }
{
    let Some(pane) = windows.get(window) else {
        return Ok(Items::new(alloc));
    };
    match pane.body.undo_plan()? {
        Some(plan) => items_of_edits(alloc, origin, plan.edits.as_slice()),
        None => Ok(Items::new(alloc)),
    }
}

// The items of the edits that Redo of a window makes.
fn items_of_redo(
    alloc: Global,
    windows: &Windows,
    origin: Origin,
    window: u32,
) -> Result<NewItems, NoMemory>
    ensures { IfOk result (λ items. items ≡ items_of_edits origin
        (edits_of_redo (window_at windows.now.present window))) }
{
    let Some(pane) = windows.get(window) else {
        return Ok(Items::new(alloc));
    };
    match pane.body.redo_plan()? {
        Some(plan) => items_of_edits(alloc, origin, plan.edits.as_slice()),
        None => Ok(Items::new(alloc)),
    }
}

/// The items that a change of the windows makes, in the order in which they are made, of this origin. The windows are
/// those before the change. A range that ends past 64 bits is want of memory.
///
/// An edit makes an item of what it takes away and then one of what it puts; a text at the end of a tag makes one, and
/// so does the removal of a tag's right part. What is empty makes none.
pub fn items_of(
    alloc: Global,
    windows: &Windows,
    origin: Origin,
    change: &Change,
) -> Result<NewItems, NoMemory>
    ensures { IfOk result (λ items. items ≡ items_of windows.now.present origin change.now) }
{
    match change {
        Change::Makes { .. } => Ok(Items::new(alloc)),
        Change::Deletes { .. } => Ok(Items::new(alloc)),
        Change::Edits { edits, .. } => items_of_edits(alloc, origin, edits.as_slice()),
        Change::Adds { window, text } => {
            items_of_add(alloc, windows, origin, *window, text.as_slice())
        }
        Change::Sets { window, setting } => items_of_set(alloc, windows, origin, *window, setting),
        Change::Undoes { window } => items_of_undo(alloc, windows, origin, *window),
        Change::Redoes { window } => items_of_redo(alloc, windows, origin, *window),
    }
}
