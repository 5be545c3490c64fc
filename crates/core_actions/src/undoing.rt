//! Undo and Redo, in all windows that one step changed.

ghost use Rattle.std.specs.Prelude.{◌≡◌, ◌++◌, Some, IfOk, OnOk};
ghost use Rattle.core_windows.specs.Panes.{window_of, windows_of, window_if_live};
ghost use Rattle.core_windows.specs.Windows.{window_at};
ghost use Rattle.core_scene.specs.Scenes.{scene_of, kept_of, Did};
ghost use Rattle.core_actions.specs.Undoing.{next_group, moves, is_number, moves_if, moves_from, move_deeds};

use am_text::{Items, NoMemory};
use core_scene::{Change, Deed, Deeds, Entry, Scene, Windows};
use core_windows::Pane;
use std::alloc::Global;

/// Which way a group of edits is moved.
#[derive(Clone, Copy, Debug, PartialEq, Eq)]
pub enum Move {
    /// The last group that is past is taken back.
    Undo,
    /// The first group that was undone is made again.
    Redo,
}

/// The windows' next groups of this number, moved this way.
#[derive(Clone, Copy)]
struct Group {
    way: Move,
    number: u64,
}

// The number of the next group to be moved, if there is one.
fn next_of(pane: &Pane, way: Move) -> Option<u64>
    ensures { result ≡ next_group way (Some (window_of pane.now)) }
{
    match way {
        Move::Undo => pane.body.last_group(),
        Move::Redo => pane.body.next_group(),
    }
}

fn next_group(slot: &Option<Pane>, way: Move) -> Option<u64>
    ensures { result ≡ next_group way (window_if_live slot.now) }
{
    match slot {
        Some(pane) => next_of(pane, way),
        None => None,
    }
}

fn next_group_at(windows: &Windows, window: u32, way: Move) -> Option<u64>
    ensures { result ≡ next_group way (window_at windows.now.present window) }
{
    match windows.get(window) {
        Some(pane) => next_of(pane, way),
        None => None,
    }
}

fn moves(way: Move, window: u32) -> Change
    ensures { result ≡ moves way window }
{
    match way {
        Move::Undo => Change::Undoes { window },
        Move::Redo => Change::Redoes { window },
    }
}

fn is_number(number: u64, group: Option<u64>) -> bool
    ensures { result ≡ is_number number group }
{
    match group {
        Some(other) => other == number,
        None => false,
    }
}

// Adds the move of a window, if its next group is of the number.
fn add_move(
    deeds: &mut Deeds,
    group: Group,
    window: u32,
    slot: &Option<Pane>,
) -> Result<(), NoMemory>
    ensures { OnOk result (deeds.new ≡ deeds.old ++ moves_if group.way group.number window (window_if_live slot.now)) }
{
    if is_number(group.number, next_group(slot, group.way)) {
        deeds.push(Deed::Windows(moves(group.way, window)))?;
    }
    Ok(())
}

// The moves of all windows whose next group is of the number.
#[tactic(auto, using(crate::proofs::Moving::moving))]
fn moves_of(alloc: Global, windows: &Windows, group: Group) -> Result<Deeds, NoMemory>
    ensures { IfOk result (λ deeds. deeds ≡ moves_from group.way group.number 1 windows.now.present) }
{
    // law: the windows are fewer than 2^32, known once their next number is read
    let _next = windows.world().next;
    let mut deeds = Items::new(alloc);
    let mut window = 1;
    let mut rest = windows.panes();
    while let [slot, after @ ..] = rest {
        add_move(&mut deeds, group, window, slot)?;
        window += 1;
        rest = after;
    }
    Ok(deeds)
}

/// Undo and Redo in a window: its next group of edits is moved, and so is that of each live window whose next group
/// was begun by the same step, by number. Where the window has no such group, nothing is done, and a window that
/// isn't moved keeps everything.
#[tactic(auto, using(crate::proofs::Moving::possible))]
pub fn move_groups(
    alloc: Global,
    scene: &mut Scene,
    entry: Entry,
    window: u32,
    way: Move,
) -> Result<(), NoMemory>
    ensures ok { OnOk result (Did entry (scene_of scene.old) (scene_of scene.new)
        (move_deeds way window (scene_of scene.old))) }
    ensures kept { kept_of scene.new ≡ kept_of scene.old }
{
    let Some(number) = next_group_at(&scene.windows, window, way) else {
        return Ok(());
    };
    let deeds = moves_of(alloc, &scene.windows, Group { way, number })?;
    scene.act_all(alloc, entry, deeds)
}
