//! The live windows, by rising number, for commands over many of them.

ghost use Rattle.std.specs.Prelude.{◌≡◌, ◌<◌, length, IfOk};
ghost use Rattle.edit_parts.specs.Tree.{command};
ghost use Rattle.core_windows.specs.Windows.{window_at, numbers};
ghost use Rattle.core_actions.specs.Seen.{name_of};
ghost use Rattle.core_edit.specs.Plans.{IsPlanOf};
ghost use Rattle.core_windows.specs.Possible.{text_in};
ghost use Rattle.core_across.specs.Plans.{number_at, live_names, plan_at, numbered, IsPlanIn};

use am_text::{NoMemory, Rune};
use core_edit::{CommandFault, window_plan};
use core_scene::Windows;
use edit_files::Windows as Taken;
use edit_run::{Cmd, EditPlan};
use std::alloc::Global;

/// The live windows of the editor.
#[derive(Clone, Copy)]
pub(crate) struct Live<'a> {
    pub alloc: Global,
    pub windows: &'a Windows,
}

/// The number of the live window at a place.
pub(crate) fn number_at(windows: &Windows, k: usize) -> u32
    ensures { result ≡ number_at windows.now.present k }
{
    match windows.world().windows.as_slice().get(k) {
        Some(window) => *window,
        None => 0,
    }
}

/// The name of a window, nothing where it doesn't live.
fn name_of(windows: &Windows, window: u32) -> &[Rune]
    ensures { result.now ≡ name_of (window_at windows.now.present window) }
{
    match windows.get(window) {
        Some(pane) => pane.name.as_slice(),
        None => &[],
    }
}

impl<'a> Taken for Live<'a> {
    type Plan = EditPlan;

    type Fault = Option<CommandFault>;

    ghost ids = { λ live. numbers 1 live.windows.now.present };

    ghost names = { λ live. live_names live.windows.now.present };

    ghost runs = { λ live k c. plan_at live.windows.now.present k c };

    ghost suits = { λ live k plan. IsPlanIn live.windows.now.present (numbered live.windows.now.present (k, plan)) };

    fn len(&self) -> usize {
        self.windows.world().windows.len()
    }

    fn id(&self, k: usize) -> u32 {
        self.windows.world().windows.as_slice()[k]
    }

    fn name(&self, k: usize) -> &[Rune] {
        name_of(self.windows, number_at(self.windows, k))
    }

    fn run(&self, k: usize, cmd: &Cmd) -> Result<Result<EditPlan, Option<CommandFault>>, NoMemory> {
        match window_plan(self.alloc, self.windows, number_at(self.windows, k), cmd)? {
            Ok(plan) => Ok(Ok(plan)),
            Err(fault) => Ok(Err(Some(fault))),
        }
    }
}
