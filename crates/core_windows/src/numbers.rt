//! The numbers of the live windows.

ghost use Rattle.std.specs.Prelude.{◌≡◌, ◌==◌, not, false, [], filter, None, Some, IfOk};
ghost use Rattle.acme_tree.specs.Trees.{world_is_full};
ghost use Rattle.core_windows.specs.Numbering.{others, with_next, without, numbers_after, numbers_of, renumbered};
ghost use Rattle.core_windows.specs.Numbering.{MayMake};
ghost use Rattle.core_windows.specs.Windows.{world_with};

use crate::change::Change;
use acme_tree::World;
use am_text::{Ids, Items, NoMemory};
use std::alloc::Global;
use std::mem;

/// The numbers of the live windows, and the one that the next window gets.
#[derive(Drop)]
pub struct Numbers {
    pub windows: Ids,
    pub next: u32,
}

/// No window. It takes no memory.
pub(crate) fn new_world(alloc: Global, watched: bool) -> World
    ensures { result ≡ world_with watched [] }
{
    World {
        windows: Items::new(alloc),
        next: 1,
        watched,
    }
}

fn with_next(alloc: Global, world: &World) -> Result<Numbers, NoMemory>
    requires { world_is_full world.now ≡ false }
    ensures { IfOk result (λ numbers. numbers ≡ with_next world.now) }
{
    let mut windows = Items::copied(alloc, world.windows.as_slice())?;
    windows.push(world.next)?;
    Ok(Numbers {
        windows,
        next: world.next + 1,
    })
}

fn drop_id(ids: &mut Vec<u32>, window: u32)
    ensures { ids.new.items ≡ others window ids.old.items }
{
    ids.retain(|id| *id != window);
}

fn without(alloc: Global, world: &World, window: u32) -> Result<Numbers, NoMemory>
    ensures { IfOk result (λ numbers. numbers ≡ without world.now window) }
{
    let mut ids = Vec::from_slice(alloc, world.windows.as_slice())?;
    drop_id(&mut ids, window);
    Ok(Numbers {
        windows: Items::from_vec(ids),
        next: world.next,
    })
}

/// The numbers after a change that makes or deletes a window.
pub(crate) fn numbers_after(
    alloc: Global,
    world: &World,
    change: &Change,
) -> Result<Option<Numbers>, NoMemory>
    requires { MayMake world.now change.now }
    ensures { IfOk result (λ numbers. numbers ≡ numbers_after world.now change.now) }
{
    match change {
        Change::Makes { .. } => Ok(Some(with_next(alloc, world)?)),
        Change::Deletes { window } => Ok(Some(without(alloc, world, *window)?)),
        Change::Edits { .. } => Ok(None),
        Change::Adds { .. } => Ok(None),
        Change::Sets { .. } => Ok(None),
        Change::Undoes { .. } => Ok(None),
        Change::Redoes { .. } => Ok(None),
    }
}

// Puts numbers into the world, and gives those that were there.
fn exchanged(world: &mut World, numbers: Numbers) -> Numbers
    ensures world { world.new ≡ renumbered world.old (Some numbers) }
    ensures numbers { result ≡ numbers_of world.old }
{
    let Numbers { windows, next } = numbers;
    let old = Numbers {
        windows: mem::replace(&mut world.windows, windows),
        next: world.next,
    };
    world.next = next;
    old
}

/// Puts numbers into the world, if there are any. Those of the kept windows are held, also where they
/// are the first to change.
pub(crate) fn renumber(world: &mut World, earlier: &mut Option<Numbers>, numbers: Option<Numbers>)
    ensures world { world.new ≡ renumbered world.old numbers }
    ensures watched { world.new.watched ≡ world.old.watched }
    ensures kept { renumbered world.new earlier.new ≡ renumbered world.old earlier.old }
{
    if let Some(numbers) = numbers {
        let old = exchanged(world, numbers);
        if earlier.is_none() {
            *earlier = Some(old);
        }
    }
}

/// Puts the numbers of the kept windows into the world. It takes no memory.
pub(crate) fn take_numbers_back(world: &mut World, earlier: &mut Option<Numbers>)
    ensures world { world.new ≡ renumbered world.old earlier.old }
    ensures watched { world.new.watched ≡ world.old.watched }
    ensures earlier { earlier.new ≡ None }
{
    if let Some(numbers) = earlier.take() {
        let Numbers { windows, next } = numbers;
        world.windows = windows;
        world.next = next;
    }
}
