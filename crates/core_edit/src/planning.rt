//! What a command of Edit is to make of a window's body.

ghost use Rattle.std.specs.Prelude.{◌≡◌, Some, Ok, IsSome, IfOk};
ghost use Rattle.edit_parts.specs.Tree.{command};
ghost use Rattle.core_windows.specs.Panes.{window_of};
ghost use Rattle.core_windows.specs.Possible.{text_in};
ghost use Rattle.core_windows.specs.Windows.{window_at};
ghost use Rattle.core_edit.specs.Plans.{as_planned, site_of, plan_if_fits, plan_of, window_plan, IsPlanOf};
ghost use Rattle.core_edit.specs.Plans.{length_with, length_after};

use crate::fault::{CommandFault, command_fault};
use am_text::{Letters, NoMemory, Runes};
use core_scene::Windows;
use core_windows::Pane;
use edit_run::{Cmd, Edit, EditPlan, Site, changes};
use std::alloc::Global;
use win_text::{BODY_RUNES, Body};

/// A plan, or the fault that is said.
pub type Planned = Result<EditPlan, CommandFault>;

// How many runes a text of so many runes has after an edit.
fn length_with(size: usize, edit: &Edit) -> Result<usize, NoMemory>
    ensures { IfOk result (λ n. n ≡ length_with size edit.now) }
{
    let left = size.saturating_sub(edit.q1.saturating_sub(edit.q0));
    match left.checked_add(edit.text.len()) {
        Some(len) => Ok(len),
        None => Err(NoMemory),
    }
}

// How many runes it has after edits.
fn length_after(size: usize, edits: &[Edit]) -> Result<usize, NoMemory>
    ensures { IfOk result (λ n. n ≡ length_after size edits.now) }
{
    let mut len = size;
    let mut rest = edits;
    while let [edit, after @ ..] = rest {
        len = length_with(len, edit)?;
        rest = after;
    }
    Ok(len)
}

// A plan of a body, if the body has room for what it makes.
#[tactic(auto, using(crate::proofs::Lengths::lengths))]
fn plan_if_fits(body: &Body, plan: EditPlan) -> Result<Planned, NoMemory>
    requires { IsPlanOf body.now.state.text plan }
    ensures exact { IfOk result (λ planned. as_planned planned ≡ plan_if_fits body.now.state.text (Ok plan)) }
    ensures sound { IfOk result (λ planned. IfOk planned (IsPlanOf body.now.state.text)) }
{
    let len = length_after(body.len(), plan.edits.as_slice())?;
    if len <= BODY_RUNES {
        Ok(Ok(plan))
    } else {
        Ok(Err(CommandFault::TextTooLong))
    }
}

// Where the commands of a window are done.
fn site_of(alloc: Global, window: u32, pane: &Pane) -> Result<Site, NoMemory>
    ensures { IfOk result (λ site. site ≡ site_of window (Some (window_of pane.now))) }
{
    let name = Runes::copied(alloc, pane.name.as_slice())?;
    Ok(Site {
        window,
        name,
        dot: pane.body.dot(),
    })
}

// What a command makes of a window's body.
#[tactic(auto, using(crate::proofs::Lengths::ranges))]
fn plan_of(alloc: Global, window: u32, pane: &Pane, cmd: &Cmd) -> Result<Planned, NoMemory>
    ensures exact { IfOk result (λ planned. as_planned planned
        ≡ plan_of (command cmd.now) pane.now.body.state.text (site_of window (Some (window_of pane.now)))) }
    ensures sound { IfOk result (λ planned. IfOk planned (IsPlanOf pane.now.body.state.text)) }
{
    // law: the ranges of a body are inside its text
    pane.body.is_sound();
    let site = site_of(alloc, window, pane)?;
    match changes(alloc, cmd, &pane.body, &site) {
        Ok(plan) => plan_if_fits(&pane.body, plan),
        Err(fault) => Ok(Err(command_fault(fault)?)),
    }
}

/// What a command makes of a window's body, or the fault that is said. Nothing is changed.
pub fn window_plan(
    alloc: Global,
    windows: &Windows,
    window: u32,
    cmd: &Cmd,
) -> Result<Planned, NoMemory>
    requires { IsSome (window_at windows.now.present window) }
    ensures exact { IfOk result (λ planned. as_planned planned
        ≡ window_plan window (window_at windows.now.present window) (command cmd.now)) }
    ensures sound { IfOk result (λ planned. IfOk planned (IsPlanOf (text_in (window_at windows.now.present window)))) }
{
    match windows.get(window) {
        Some(pane) => plan_of(alloc, window, pane, cmd),
        None => unreachable!(),
    }
}
