//! A window at its place, or none.

ghost use Rattle.std.specs.Prelude.{◌≡◌, ◌≤◌, length, take, IfOk, IfSome, OnErr, Option, Some, None};
ghost use Rattle.std.specs.Option.{option_map};
ghost use Rattle.win_text.specs.Bodies.{undo_plan_of, redo_plan_of};
ghost use Rattle.core_windows.specs.Possible.{CanSet};
ghost use Rattle.core_windows.specs.Windows.{Window, added, set, planned, edit_plan};
ghost use Rattle.core_windows.specs.Shapes.{shape_of_pane, seen_of, name_back, right_back, shape_if_live, seen_if_live};
ghost use Rattle.core_windows.specs.Shapes.{taken_back, CanTakeBack, IsSlotRoomier, IsReadyPane, Lives, Always};
ghost use Rattle.core_windows.specs.Shapes.{IsEditable, IsPlannable, IsSettable};

use crate::change::Setting;
use crate::pane::Pane;
use crate::undo::{Back, TagBack};
use am_text::{NoMemory, Roomy, Rune};
use edit_log::Edits;
use std::alloc::Global;
use std::mem;
use win_text::{Ready, TextPlan};

/// The plan of edits by the step of this number.
pub(crate) fn edit_plan(
    slot: &Option<Pane>,
    edits: Edits,
    number: u64,
) -> Result<TextPlan, NoMemory>
    requires { Lives (IsEditable edits) (seen_if_live (shape_if_live slot.now)) }
    ensures plan { IfOk result (λ plan. Lives (λ (w : Window). plan ≡ edit_plan edits number w)
        (seen_if_live (shape_if_live slot.now))) }
    ensures can { IfOk result (λ plan. Lives (IsPlannable plan) (seen_if_live (shape_if_live slot.now))) }
{
    match slot {
        Some(pane) => pane.body.plan(edits, None, number),
        None => unreachable!(),
    }
}

/// The plan of Undo, if there is a group to take back.
pub(crate) fn undo_plan(slot: &Option<Pane>) -> Result<Option<TextPlan>, NoMemory>
    requires { Lives Always (seen_if_live (shape_if_live slot.now)) }
    ensures plan { IfOk result (λ plan. Lives (λ (w : Window). plan ≡ undo_plan_of w.body)
        (seen_if_live (shape_if_live slot.now))) }
    ensures can { IfOk result (λ plan. IfSome plan
        (λ p. Lives (IsPlannable p) (seen_if_live (shape_if_live slot.now)))) }
{
    match slot {
        Some(pane) => pane.body.undo_plan(),
        None => unreachable!(),
    }
}

/// The plan of Redo, if there is a group to make again.
pub(crate) fn redo_plan(slot: &Option<Pane>) -> Result<Option<TextPlan>, NoMemory>
    requires { Lives Always (seen_if_live (shape_if_live slot.now)) }
    ensures plan { IfOk result (λ plan. Lives (λ (w : Window). plan ≡ redo_plan_of w.body)
        (seen_if_live (shape_if_live slot.now))) }
    ensures can { IfOk result (λ plan. IfSome plan
        (λ p. Lives (IsPlannable p) (seen_if_live (shape_if_live slot.now)))) }
{
    match slot {
        Some(pane) => pane.body.redo_plan(),
        None => unreachable!(),
    }
}

/// Makes ready to do a plan. The window stays, whatever the answer.
pub(crate) fn reserve(slot: &mut Option<Pane>, plan: &TextPlan) -> Result<Ready, NoMemory>
    requires { Lives (IsPlannable plan.now) (seen_if_live (shape_if_live slot.old)) }
    ensures roomier { IsSlotRoomier (shape_if_live slot.old) (shape_if_live slot.new) }
    ensures ready { IfOk result (λ ready. Lives (IsReadyPane plan.now ready) slot.new) }
{
    match slot {
        Some(pane) => pane.body.reserve(plan),
        None => unreachable!(),
    }
}

/// Does a plan that is ready. It takes no memory.
pub(crate) fn make(slot: &mut Option<Pane>, plan: TextPlan, ready: Ready) -> Back
    requires { Lives (IsReadyPane plan ready) slot.old }
    ensures window { seen_if_live (shape_if_live slot.new)
        ≡ option_map (planned plan) (seen_if_live (shape_if_live slot.old)) }
    ensures back { option_map (taken_back result) (shape_if_live slot.new) ≡ shape_if_live slot.old }
    ensures can { Lives (CanTakeBack result) (shape_if_live slot.new) }
{
    match slot {
        Some(pane) => {
            let modified = pane.modified;
            pane.modified = modified || !plan.edits.is_empty();
            Back {
                trace: pane.body.make(plan, ready),
                modified,
                tag: TagBack::Nothing,
            }
        }
        None => unreachable!(),
    }
}

/// Puts a text at the end of the right part of the tag. A refusal changes nothing.
pub(crate) fn add(slot: &mut Option<Pane>, text: &[Rune]) -> Result<Back, NoMemory>
    requires { Lives Always (seen_if_live (shape_if_live slot.old)) }
    ensures err { OnErr result (shape_if_live slot.new ≡ shape_if_live slot.old) }
    ensures window { IfOk result (λ back. seen_if_live (shape_if_live slot.new)
        ≡ option_map (added text.now) (seen_if_live (shape_if_live slot.old))) }
    ensures back { IfOk result (λ back. option_map (taken_back back) (shape_if_live slot.new)
        ≡ shape_if_live slot.old) }
    ensures can { IfOk result (λ back. Lives (CanTakeBack back) (shape_if_live slot.new)) }
{
    match slot {
        Some(pane) => add_pane(pane, text),
        None => unreachable!(),
    }
}

fn add_pane(pane: &mut Pane, text: &[Rune]) -> Result<Back, NoMemory>
    ensures err { OnErr result (shape_of_pane pane.new ≡ shape_of_pane pane.old) }
    ensures window { IfOk result (λ back. seen_of (shape_of_pane pane.new)
        ≡ added text.now (seen_of (shape_of_pane pane.old))) }
    ensures back { IfOk result (λ back. taken_back back (shape_of_pane pane.new) ≡ shape_of_pane pane.old) }
    ensures can { IfOk result (λ back. CanTakeBack back (shape_of_pane pane.new)) }
{
    pane.right.reserve(text.len())?;
    let back = Back {
        trace: pane.body.note(),
        modified: pane.modified,
        tag: TagBack::Shorten(pane.right.len()),
    };
    pane.right.put_all(text);
    Ok(back)
}

/// Sets a part of the window. It takes no memory.
pub(crate) fn set(alloc: Global, slot: &mut Option<Pane>, setting: Setting) -> Back
    requires { Lives (IsSettable setting) (seen_if_live (shape_if_live slot.old)) }
    ensures window { seen_if_live (shape_if_live slot.new)
        ≡ option_map (set setting) (seen_if_live (shape_if_live slot.old)) }
    ensures back { option_map (taken_back result) (shape_if_live slot.new) ≡ shape_if_live slot.old }
    ensures can { Lives (CanTakeBack result) (shape_if_live slot.new) }
{
    match slot {
        Some(pane) => set_pane(alloc, pane, setting),
        None => unreachable!(),
    }
}

fn set_pane(alloc: Global, pane: &mut Pane, setting: Setting) -> Back
    requires { CanSet pane.old.body.state.text setting }
    ensures window { seen_of (shape_of_pane pane.new) ≡ set setting (seen_of (shape_of_pane pane.old)) }
    ensures back { taken_back result (shape_of_pane pane.new) ≡ shape_of_pane pane.old }
    ensures can { CanTakeBack result (shape_of_pane pane.new) }
{
    let trace = pane.body.note();
    let modified = pane.modified;
    match setting {
        Setting::AddrToDot => pane.body.set_addr(pane.body.dot()),
        Setting::DotToAddr => pane.body.set_dot(pane.body.addr()),
        Setting::LimitToAddr => pane.body.set_limit(Some(pane.body.addr())),
        Setting::NoLimit => pane.body.set_limit(None),
        Setting::Dot(range) => pane.body.set_dot(range),
        Setting::Addr(range) => pane.body.set_addr(range),
        Setting::Clean => pane.modified = false,
        Setting::Dirty => pane.modified = true,
        Setting::Mark(automatic) => pane.body.mark(automatic),
        Setting::ClearTag => {
            let tag = TagBack::Retag(mem::replace(&mut pane.right, Roomy::new(alloc)));
            return Back {
                trace,
                modified,
                tag,
            };
        }
        Setting::Name(name) => {
            let tag = TagBack::Rename(mem::replace(&mut pane.name, name));
            return Back {
                trace,
                modified,
                tag,
            };
        }
    }
    Back {
        trace,
        modified,
        tag: TagBack::Nothing,
    }
}

// Leaves so many runes at most.
#[tactic(auto, using(crate::proofs::TagLemmas::shortened))]
fn shorten(right: &mut Roomy<Rune>, len: usize)
    ensures { right.new.items ≡ take len right.old.items }
{
    while len < right.len() {
        let last = right.len() - 1;
        right.remove(last);
    }
}

fn take_tag_back(pane: &mut Pane, tag: TagBack)
    ensures name { pane.new.name ≡ name_back tag pane.old.name }
    ensures right { pane.new.right.items ≡ right_back tag pane.old.right.items }
    ensures body { pane.new.body ≡ pane.old.body }
    ensures modified { pane.new.modified ≡ pane.old.modified }
{
    match tag {
        TagBack::Nothing => {}
        TagBack::Rename(name) => pane.name = name,
        TagBack::Retag(right) => pane.right = right,
        TagBack::Shorten(len) => shorten(&mut pane.right, len),
    }
}

/// Takes a change of the window back. It takes no memory.
pub(crate) fn take_back(slot: &mut Option<Pane>, back: Back)
    requires { Lives (CanTakeBack back) (shape_if_live slot.old) }
    ensures { shape_if_live slot.new ≡ option_map (taken_back back) (shape_if_live slot.old) }
{
    match slot {
        Some(pane) => {
            let Back {
                trace,
                modified,
                tag,
            } = back;
            pane.body.unmake(trace);
            pane.modified = modified;
            take_tag_back(pane, tag);
        }
        None => unreachable!(),
    }
}

/// What was done in the window can't be taken back any more. It takes no memory.
pub(crate) fn settle_slot(slot: &mut Option<Pane>)
    ensures { seen_if_live (shape_if_live slot.new) ≡ seen_if_live (shape_if_live slot.old) }
{
    if let Some(pane) = slot {
        pane.body.settle();
    }
}
