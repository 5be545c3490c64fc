//! Items of edits.

ghost use Rattle.std.specs.Prelude.{◌≡◌, ◌++◌, IfOk, OnOk};
ghost use Rattle.core_scene.specs.NewItems.{cut_item, edit_items, items_of_edits};

use crate::plain::{NewItems, plain_item, put_if_any, put_item};
use am_text::{Items, NoMemory, Range};
use edit_log::Edit;
use std::alloc::Global;
use win_events::{Item, Origin, Sort};

// The item of what an edit takes away, unless its range is null.
fn cut_item(alloc: Global, origin: Origin, edit: &Edit) -> Option<Item>
    ensures { result ≡ cut_item origin edit.now }
{
    if edit.q0 < edit.q1 {
        let range = Range {
            q0: edit.q0,
            q1: edit.q1,
        };
        Some(plain_item(origin, Sort::BodyDel, range, Items::new(alloc)))
    } else {
        None
    }
}

// Puts the items of an edit at the end.
#[tactic(auto, using(crate::proofs::ItemJoined::joined))]
fn put_edit(
    alloc: Global,
    items: &mut NewItems,
    origin: Origin,
    edit: &Edit,
) -> Result<(), NoMemory>
    ensures { OnOk result (items.new ≡ items.old ++ edit_items origin edit.now) }
{
    put_if_any(items, cut_item(alloc, origin, edit))?;
    let put = put_item(alloc, origin, Sort::BodyIns, edit.q0, edit.text.as_slice())?;
    put_if_any(items, put)?;
    Ok(())
}

/// The items of edits of a body.
#[tactic(auto, using(crate::proofs::ItemJoined::joined))]
pub(crate) fn items_of_edits(
    alloc: Global,
    origin: Origin,
    edits: &[Edit],
) -> Result<NewItems, NoMemory>
    ensures { IfOk result (λ items. items ≡ items_of_edits origin edits.now) }
{
    let mut items = Items::new(alloc);
    let mut rest = edits;
    while let [edit, after @ ..] = rest {
        put_edit(alloc, &mut items, origin, edit)?;
        rest = after;
    }
    Ok(items)
}
