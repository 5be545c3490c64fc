//! What a command makes of the windows that it takes.

ghost use Rattle.std.specs.Prelude.{◌≡◌, ◌<◌, true, false, [], ◌∷◌, ◌++◌, length, slice_index_or};
ghost use Rattle.std.specs.Prelude.{Ok, Err, IfOk, IfErr, IfSome, OnOk, IsTrue};
ghost use Rattle.re_syntax.specs.Tree.{tree};
ghost use Rattle.edit_parts.specs.Tree.{command};
ghost use Rattle.edit_files.specs.Across.{has_match, takes, told_here, plan_list, AllSuit, plans_from, across_told};
ghost use Rattle.edit_files.specs.Across.{is_across};
ghost use Rattle.edit_files.specs.Faults.{Tells};

use crate::command::FilesCmd;
use crate::windows::Windows;
use am_text::{Items, Letters, NoMemory, Rune};
use edit_parts::Cmd;
use re_spans::{Re, first_match};
use std::alloc::Global;

/// Plans, each with the place of its window in the list of windows.
pub type Plans<P> = Items<(usize, P)>;

/// Why a command isn't done: a window's fault, with its place, or want of memory.
#[derive(Drop)]
pub enum AcrossFault<F> {
    At(usize, F),
    NoMemory,
}

/// A name as a text.
#[derive(Clone, Copy, Debug)]
struct Name<'a> {
    runes: &'a [Rune],
}

impl<'a> Letters for Name<'a> {
    ghost letters = { λ name. name.runes.now };

    fn len(&self) -> usize {
        self.runes.len()
    }

    fn at(&self, i: usize) -> Rune {
        self.runes[i]
    }
}

fn has_match(alloc: Global, re: &Re, name: &[Rune]) -> Result<bool, NoMemory>
    ensures { IfOk result (λ yes. yes ≡ has_match (tree re.now) name.now) }
{
    let text = Name { runes: name };
    Ok(first_match(alloc, re, &text, 0, name.len(), None)?.is_some())
}

fn takes(alloc: Global, with_match: bool, re: &Re, name: &[Rune]) -> Result<bool, NoMemory>
    ensures { IfOk result (λ yes. yes ≡ takes with_match (tree re.now) name.now) }
{
    let has = has_match(alloc, re, name)?;
    Ok(if with_match { has } else { !has })
}

// What one window makes of it.
fn told_at<W: Windows>(
    alloc: Global,
    windows: &W,
    with_match: bool,
    re: &Re,
    cmd: &Cmd,
    k: usize,
) -> Result<Option<W::Plan>, AcrossFault<W::Fault>>
    requires { k < length (W.names windows.now) }
    ensures ok { IfOk result (λ plan. told_here k (W.runs windows.now k (command cmd.now))
        (takes with_match (tree re.now) (slice_index_or (W.names windows.now) k [])) ≡ Ok plan) }
    ensures err { IfErr result (λ fault. Tells fault (told_here k (W.runs windows.now k (command cmd.now))
        (takes with_match (tree re.now) (slice_index_or (W.names windows.now) k [])))) }
    ensures suits { IfOk result (λ plan. IfSome plan (W.suits windows.now k)) }
{
    match takes(alloc, with_match, re, windows.name(k)) {
        Ok(true) => {}
        Ok(false) => return Ok(None),
        Err(NoMemory) => return Err(AcrossFault::NoMemory),
    }
    match windows.run(k, cmd) {
        Ok(Ok(plan)) => Ok(Some(plan)),
        Ok(Err(fault)) => Err(AcrossFault::At(k, fault)),
        Err(NoMemory) => Err(AcrossFault::NoMemory),
    }
}

// The plan of a window behind the others, if there is one.
fn put<P: Drop>(all: &mut Plans<P>, k: usize, plan: Option<P>) -> Result<(), NoMemory>
    ensures { OnOk result (all.new ≡ all.old ++ plan_list k plan) }
{
    match plan {
        Some(plan) => all.push((k, plan)),
        None => Ok(()),
    }
}

// The plans of the windows that are taken.
fn plans<W: Windows>(
    alloc: Global,
    windows: &W,
    with_match: bool,
    re: &Re,
    cmd: &Cmd,
) -> Result<Plans<W::Plan>, AcrossFault<W::Fault>>
    ensures ok { IfOk result (λ plans. plans_from (λ k. W.runs windows.now k (command cmd.now))
        (takes with_match (tree re.now)) 0 (W.names windows.now) ≡ Ok plans) }
    ensures err { IfErr result (λ fault. Tells fault (plans_from (λ k. W.runs windows.now k (command cmd.now))
        (takes with_match (tree re.now)) 0 (W.names windows.now))) }
    ensures suits { IfOk result (AllSuit (W.suits windows.now)) }
{
    let count = windows.len();
    let mut all = Items::new(alloc);
    for k in 0..count {
        let plan = told_at(alloc, windows, with_match, re, cmd, k)?;
        match put(&mut all, k, plan) {
            Ok(()) => {}
            Err(NoMemory) => return Err(AcrossFault::NoMemory),
        }
    }
    Ok(all)
}

/// The plans of the windows that `X` or `Y` takes, by rising number, or the fault of the first one that has one.
/// Nothing is changed. What windows tell of a plan of theirs holds of each.
pub fn across<W: Windows>(
    alloc: Global,
    windows: &W,
    cmd: &FilesCmd,
) -> Result<Plans<W::Plan>, AcrossFault<W::Fault>>
    requires { IsTrue (is_across cmd.now) }
    ensures ok { IfOk result (λ plans. across_told (W.runs windows.now) (W.names windows.now) cmd.now ≡ Ok plans) }
    ensures err { IfErr result (λ fault. Tells fault (across_told (W.runs windows.now) (W.names windows.now) cmd.now)) }
    ensures suits { IfOk result (AllSuit (W.suits windows.now)) }
{
    match cmd {
        FilesCmd::Each(re, cmd) => plans(alloc, windows, true, re, cmd),
        FilesCmd::Other(re, cmd) => plans(alloc, windows, false, re, cmd),
        _ => Ok(Items::new(alloc)),
    }
}
