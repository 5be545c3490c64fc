//! What a command makes of the bodies of windows. Nothing is changed by that.

ghost use Rattle.std.specs.Prelude.{◌≡◌, map, IfOk, IsSome, IsTrue};
ghost use Rattle.edit_parts.specs.Tree.{command};
ghost use Rattle.edit_files.specs.Across.{across_told, is_across};
ghost use Rattle.edit_files.specs.Command.{files_command};
ghost use Rattle.core_windows.specs.Windows.{window_at};
ghost use Rattle.core_edit.specs.Plans.{window_plan};
ghost use Rattle.core_across.specs.Plans.{one_plan, live_names, plan_at, numbered, with_numbers, command_plans};
ghost use Rattle.core_across.specs.Plans.{AreSound};

use crate::live::{Live, number_at};
use am_text::{Items, NoMemory};
use core_edit::{CommandFault, window_plan};
use core_scene::Windows;
use edit_files::{AcrossFault, FilesCmd, Plans, across};
use edit_run::{Cmd, EditPlan};
use std::alloc::Global;

/// A plan of the body of a window.
#[derive(Drop)]
pub(crate) struct WindowPlan {
    pub window: u32,
    pub plan: EditPlan,
}

/// Plans of bodies, by rising number of their windows.
pub(crate) type WindowPlans = Items<WindowPlan>;

/// Plans, or the fault of the first window at fault.
pub(crate) type CommandPlans = Result<WindowPlans, Option<CommandFault>>;

// The plan of one window alone.
fn one_plan(
    alloc: Global,
    windows: &Windows,
    window: u32,
    cmd: &Cmd,
) -> Result<CommandPlans, NoMemory>
    requires { IsSome (window_at windows.now.present window) }
    ensures exact { IfOk result (λ planned. planned
        ≡ one_plan window (window_plan window (window_at windows.now.present window) (command cmd.now))) }
    ensures sound { IfOk result (λ planned. IfOk planned (AreSound windows.now.present)) }
{
    match window_plan(alloc, windows, window, cmd)? {
        Ok(plan) => {
            let mut plans = Items::new(alloc);
            plans.push(WindowPlan { window, plan })?;
            Ok(Ok(plans))
        }
        Err(fault) => Ok(Err(Some(fault))),
    }
}

// A plan of the live window at a place, with its number.
fn numbered(windows: &Windows, at_place: (usize, EditPlan)) -> WindowPlan
    ensures { result ≡ numbered windows.now.present at_place }
{
    let (k, plan) = at_place;
    let window = number_at(windows, k);
    WindowPlan { window, plan }
}

// Plans of the live windows at these places, with their numbers.
#[tactic(auto, using(crate::proofs::Joined::words))]
fn with_numbers(
    alloc: Global,
    windows: &Windows,
    plans: Plans<EditPlan>,
) -> Result<WindowPlans, NoMemory>
    ensures { IfOk result (λ all. all ≡ map (numbered windows.now.present) plans) }
{
    let mut all = Items::new(alloc);
    for at_place in plans.into_vec() {
        all.push(numbered(windows, at_place))?;
    }
    Ok(all)
}

// The plans of the windows that a command over windows takes.
fn across_plans(alloc: Global, windows: &Windows, cmd: &FilesCmd) -> Result<CommandPlans, NoMemory>
    requires { IsTrue (is_across cmd.now) }
    ensures exact { IfOk result (λ planned. planned ≡ with_numbers windows.now.present
        (across_told (plan_at windows.now.present) (live_names windows.now.present) cmd.now)) }
    ensures sound { IfOk result (λ planned. IfOk planned (AreSound windows.now.present)) }
{
    match across(alloc, &Live { alloc, windows }, cmd) {
        Ok(plans) => Ok(Ok(with_numbers(alloc, windows, plans)?)),
        Err(AcrossFault::At(_, fault)) => Ok(Err(fault)),
        Err(AcrossFault::NoMemory) => Err(NoMemory),
    }
}

/// What a command makes of the body of its window, or of those of the windows that it takes.
pub(crate) fn command_plans(
    alloc: Global,
    windows: &Windows,
    window: u32,
    cmd: &FilesCmd,
) -> Result<CommandPlans, NoMemory>
    requires { IsSome (window_at windows.now.present window) }
    ensures exact { IfOk result (λ planned. planned
        ≡ command_plans window (files_command cmd.now) windows.now.present) }
    ensures sound { IfOk result (λ planned. IfOk planned (AreSound windows.now.present)) }
{
    match cmd {
        FilesCmd::One(cmd) => one_plan(alloc, windows, window, cmd),
        FilesCmd::Each(_, _) => across_plans(alloc, windows, cmd),
        FilesCmd::Other(_, _) => across_plans(alloc, windows, cmd),
        _ => Ok(Ok(Items::new(alloc))),
    }
}
