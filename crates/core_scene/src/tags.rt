//! Items of tags.

ghost use Rattle.std.specs.Prelude.{◌≡◌, IfOk};
ghost use Rattle.std.specs.Option.{option_to_list};
ghost use Rattle.core_windows.specs.Panes.{window_of};
ghost use Rattle.core_windows.specs.Windows.{window_at};
ghost use Rattle.core_scene.specs.NewItems.{tag_len, items_of_add, setting_item, items_of_set};
ghost use Rattle.core_scene.specs.Sizes.{sized_clear};

use crate::plain::{NewItems, plain_item, put_if_any, put_item};
use crate::size::TagSize;
use am_text::{Items, NoMemory, Range, Rune};
use core_windows::{Pane, Setting, Windows};
use std::alloc::Global;
use win_events::{Item, Origin, Sort};

// How many runes the tag of a window has.
fn tag_len(pane: &Pane) -> Result<usize, NoMemory>
    ensures { IfOk result (λ runes. runes ≡ tag_len (window_of pane.now)) }
{
    TagSize::of(pane).whole()
}

/// The items of a text that is put at the end of the tag of a window.
pub(crate) fn items_of_add(
    alloc: Global,
    windows: &Windows,
    origin: Origin,
    window: u32,
    text: &[Rune],
) -> Result<NewItems, NoMemory>
    ensures { IfOk result (λ items. items ≡ items_of_add origin (window_at windows.now.present window) text.now) }
{
    let mut items = Items::new(alloc);
    if let Some(pane) = windows.get(window) {
        let item = put_item(alloc, origin, Sort::TagIns, tag_len(pane)?, text)?;
        put_if_any(&mut items, item)?;
    }
    Ok(items)
}

// The item of a right part that is removed, unless it is empty.
fn cleared_item(alloc: Global, origin: Origin, size: TagSize) -> Result<Option<Item>, NoMemory>
    ensures { IfOk result (λ item. item ≡ sized_clear origin size) }
{
    if size.right == 0 {
        return Ok(None);
    }
    let range = Range {
        q0: size.left()?,
        q1: size.whole()?,
    };
    Ok(Some(plain_item(origin, Sort::TagDel, range, Items::new(alloc))))
}

fn setting_item(
    alloc: Global,
    origin: Origin,
    pane: &Pane,
    setting: &Setting,
) -> Result<Option<Item>, NoMemory>
    ensures { IfOk result (λ item. item ≡ setting_item origin (window_of pane.now) setting.now) }
{
    match setting {
        Setting::ClearTag => cleared_item(alloc, origin, TagSize::of(pane)),
        _ => Ok(None),
    }
}

/// The items of a setting of a window, none where it doesn't live.
pub(crate) fn items_of_set(
    alloc: Global,
    windows: &Windows,
    origin: Origin,
    window: u32,
    setting: &Setting,
) -> Result<NewItems, NoMemory>
    ensures { IfOk result (λ items. items ≡ items_of_set origin (window_at windows.now.present window) setting.now) }
{
    let mut items = Items::new(alloc);
    if let Some(pane) = windows.get(window) {
        put_if_any(&mut items, setting_item(alloc, origin, pane, setting)?)?;
    }
    Ok(items)
}
