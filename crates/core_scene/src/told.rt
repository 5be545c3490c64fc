//! The items that deeds make, and the windows that they delete.

ghost use Rattle.std.specs.Prelude.{◌≡◌, ◌++◌, ◌∷◌, [], map, OnOk};
ghost use Rattle.std.specs.Option.{option_to_list};
ghost use Rattle.core_scene.specs.NewItems.{items_of};
ghost use Rattle.core_scene.specs.Told.{of_window, told_in, told_if_any, teller_of, deletes};

use crate::deed::{WindowItem, WindowItems};
use crate::{NewItems, items_of};
use am_text::{Ids, NoMemory};
use core_windows::{Change, Windows};
use event_book::Book;
use std::alloc::Global;
use win_events::{Item, Origin};

// The window that a change makes items of.
fn teller_of(change: &Change) -> Option<u32>
    ensures { result ≡ teller_of change.now }
{
    match change {
        Change::Makes { .. } => None,
        Change::Deletes { .. } => None,
        Change::Edits { window, .. } => Some(*window),
        Change::Adds { window, .. } => Some(*window),
        Change::Sets { window, .. } => Some(*window),
        Change::Undoes { window } => Some(*window),
        Change::Redoes { window } => Some(*window),
    }
}

// The window that a change deletes, if it deletes one.
fn deleted_of(change: &Change) -> Option<u32>
    ensures { option_to_list result ≡ deletes change.now }
{
    match change {
        Change::Makes { .. } => None,
        Change::Deletes { window } => Some(*window),
        Change::Edits { .. } => None,
        Change::Adds { .. } => None,
        Change::Sets { .. } => None,
        Change::Undoes { .. } => None,
        Change::Redoes { .. } => None,
    }
}

/// Puts the window that a change deletes at the end, if it deletes one.
#[tactic(auto, using(crate::proofs::Joined::joined))]
pub(crate) fn tell_deletion(deleted: &mut Ids, change: &Change) -> Result<(), NoMemory>
    ensures { OnOk result (deleted.new ≡ deleted.old ++ deletes change.now) }
{
    match deleted_of(change) {
        Some(window) => deleted.push(window),
        None => Ok(()),
    }
}

// Puts items of a window at the end.
#[tactic(auto, using(crate::proofs::Joined::joined))]
fn put_all(items: &mut WindowItems, window: u32, more: NewItems) -> Result<(), NoMemory>
    ensures { OnOk result (items.new ≡ items.old ++ map (of_window window) more) }
{
    for item in more.into_vec() {
        items.push(WindowItem { window, item })?;
    }
    Ok(())
}

/// Puts an item of a window at the end, where its event file is open.
pub(crate) fn tell_item(
    book: &Book,
    items: &mut WindowItems,
    window: u32,
    item: Item,
) -> Result<(), NoMemory>
    ensures { OnOk result (items.new ≡ items.old ++ told_in book.now.present window (item ∷ [])) }
{
    if book.is_open(window) {
        items.push(WindowItem { window, item })?;
    }
    Ok(())
}

/// Puts the items of a change at the end, where the event file of its window is open. The windows are those before it.
pub(crate) fn tell_change(
    alloc: Global,
    windows: &Windows,
    book: &Book,
    items: &mut WindowItems,
    origin: Origin,
    change: &Change,
) -> Result<(), NoMemory>
    ensures { OnOk result (items.new ≡ items.old ++ told_if_any book.now.present (teller_of change.now)
        (items_of windows.now.present origin change.now)) }
{
    let Some(window) = teller_of(change) else {
        return Ok(());
    };
    if book.is_open(window) {
        put_all(items, window, items_of(alloc, windows, origin, change)?)?;
    }
    Ok(())
}
