//! Items without a flag, an expansion or an argument.

ghost use Rattle.std.specs.Prelude.{◌≡◌, ◌++◌, IfOk, OnOk};
ghost use Rattle.std.specs.Option.{option_to_list};
ghost use Rattle.core_scene.specs.NewItems.{plain_item, put_item};

use am_text::{Items, NoMemory, Range, Rune, Runes};
use std::alloc::Global;
use win_events::{Item, Origin, Sort};

/// Items that a change makes, in the order in which they are made.
pub type NewItems = Items<Item>;

/// An item of a range and a text.
pub(crate) fn plain_item(origin: Origin, sort: Sort, range: Range, text: Runes) -> Item
    ensures { result ≡ plain_item origin sort range text }
{
    Item {
        origin,
        sort,
        range,
        flag: 0,
        text,
        expanded: None,
        argument: None,
    }
}

/// The item of a text that is put at a place, unless it is empty. A range that ends past 64 bits is want of memory: a
/// text of that length can't be there.
pub(crate) fn put_item(
    alloc: Global,
    origin: Origin,
    sort: Sort,
    at: usize,
    text: &[Rune],
) -> Result<Option<Item>, NoMemory>
    ensures { IfOk result (λ item. item ≡ put_item origin sort at text.now) }
{
    if text.is_empty() {
        return Ok(None);
    }
    let q1 = at.checked_add(text.len()).ok_or(NoMemory)?;
    let text = Items::copied(alloc, text)?;
    Ok(Some(plain_item(origin, sort, Range { q0: at, q1 }, text)))
}

/// Puts an item at the end, if there is one.
pub(crate) fn put_if_any(items: &mut NewItems, item: Option<Item>) -> Result<(), NoMemory>
    ensures { OnOk result (items.new ≡ items.old ++ option_to_list item) }
{
    if let Some(item) = item {
        items.push(item)?;
    }
    Ok(())
}
