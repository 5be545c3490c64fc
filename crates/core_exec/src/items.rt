//! Items of Exec and Look.

ghost use Rattle.std.specs.Prelude.{◌≡◌, IfOk};
ghost use Rattle.acme_cmd.specs.Commands.{classified};
ghost use Rattle.core_exec.specs.Clicks.{exec_sort, look_sort, flag_if, is_builtin, exec_flag, exec_item, step_flag};
ghost use Rattle.core_exec.specs.Clicks.{look_item};

use crate::click::{Clicked, own_text};
use crate::looking::LookStep;
use acme_cmd::{Command, classify};
use am_journal::{Side, Spot};
use am_text::Runes;
use win_events::{Item, Origin, Sort};

fn exec_sort(side: Side) -> Sort
    ensures { result ≡ exec_sort side }
{
    match side {
        Side::Body => Sort::BodyExec,
        Side::Tag => Sort::TagExec,
    }
}

fn look_sort(side: Side) -> Sort
    ensures { result ≡ look_sort side }
{
    match side {
        Side::Body => Sort::BodyLook,
        Side::Tag => Sort::TagLook,
    }
}

// The command is a built-in one, or the look can be done without loading a file.
const WITHIN_FLAG: u32 = 1;

// The range is null.
const NULL_FLAG: u32 = 2;

// The text names a file or a window.
const NAMES_FLAG: u32 = 4;

// The messages of an argument follow.
const CHORD_FLAG: u32 = 8;

fn flag_if(holds: bool, flag: u32) -> u32
    ensures { result ≡ flag_if holds flag }
{
    if holds { flag } else { 0 }
}

fn is_builtin(command: Command) -> bool
    ensures { result ≡ is_builtin command }
{
    match command {
        Command::Builtin(_, _) => true,
        Command::Pipe(_, _) => false,
        Command::External => false,
    }
}

fn exec_flag(clicked: &Clicked, chord: bool) -> u32
    ensures { result ≡ exec_flag clicked.now chord }
{
    let command = classify(own_text(&clicked.text, &clicked.expanded));
    flag_if(is_builtin(command), WITHIN_FLAG)
        + flag_if(clicked.expanded.is_some(), NULL_FLAG)
        + flag_if(chord, CHORD_FLAG)
}

/// The item of an Exec, with the text and the place of its chord's argument, if there is one.
pub(crate) fn exec_item(at: Spot, clicked: Clicked, argument: Option<(Runes, Runes)>) -> Item
    ensures { result ≡ exec_item at clicked argument }
{
    Item {
        origin: Origin::M,
        sort: exec_sort(at.side),
        range: at.range,
        flag: exec_flag(&clicked, argument.is_some()),
        text: clicked.text,
        expanded: clicked.expanded,
        argument,
    }
}

fn step_flag(step: LookStep) -> u32
    ensures { result ≡ step_flag step }
{
    match step {
        LookStep::Plumbs => 0,
        LookStep::Takes => WITHIN_FLAG + NAMES_FLAG,
        LookStep::Opens => NAMES_FLAG,
        LookStep::Searches => WITHIN_FLAG,
    }
}

/// The item of a Look whose first step that can be done is this one.
pub(crate) fn look_item(at: Spot, clicked: Clicked, step: LookStep) -> Item
    ensures { result ≡ look_item at clicked step }
{
    Item {
        origin: Origin::M,
        sort: look_sort(at.side),
        range: at.range,
        flag: step_flag(step) + flag_if(clicked.expanded.is_some(), NULL_FLAG),
        text: clicked.text,
        expanded: clicked.expanded,
        argument: None,
    }
}
