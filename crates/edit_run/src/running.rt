//! The commands of a tree, one after another.

ghost use Rattle.std.specs.Prelude.{◌≡◌, ◌≤◌, length, Ok, IfOk, IfErr, OnOk};
ghost use Rattle.re_syntax.specs.Tree.{tree};
ghost use Rattle.addr_syntax.specs.Tree.{tree_of};
ghost use Rattle.edit_parts.specs.Tree.{action, command};
ghost use Rattle.edit_parts.specs.Kinds.{loop_of};
ghost use Rattle.sam_address.specs.Value.{IsInside};
ghost use Rattle.edit_run.specs.Faults.{IsFault};
ghost use Rattle.edit_run.specs.Kept.{inner_of, IsFor, OfFirst, IsKept, AreOf};
ghost use Rattle.edit_run.specs.Ranges.{AreInside};
ghost use Rattle.edit_run.specs.Lines.{IsCursorOf};
ghost use Rattle.edit_run.specs.Meaning.{do_action, meaning, for_each, do_list, ranges_of};
ghost use Rattle.edit_run.specs.Within.{IsWithin};

use crate::acts::{
    ask_with, ask_without, copy_text, delete, move_text, print, print_lines, print_places,
    put_text, range_of, replace_all,
};
use crate::doing::{Doing, Over};
use crate::fault::EditFault;
use crate::kept::{Kept, behind, made_for};
use crate::matching::{choose, matches_in, ranges_of};
use am_text::{JobKind, Letters, Range};
use edit_parts::Loop::{ForBetween, ForEach, Where, WhereNot};
use edit_parts::{Act, Cmd, Loop};
use re_spans::Re;

// Does a command for each of these ranges.
#[cycle(command)]
fn run_each<T: Letters>(
    cmd: &Cmd,
    kept: &Kept,
    over: &Over<T>,
    ranges: &[Range],
    doing: &mut Doing,
) -> Result<(), EditFault>
    requires kept { IsKept (action cmd.now.act) kept.now }
    requires ranges { AreInside (T.letters over.now.text.now) ranges.now }
    requires cursor { IsCursorOf (T.letters over.now.text.now) doing.old.cursor }
    requires within { IsWithin (T.letters over.now.text.now) doing.old.effects }
    ensures value { OnOk result (for_each (meaning (command cmd.now) (T.letters over.now.text.now) over.now.site.now)
        ranges.now doing.old.effects ≡ Ok doing.new.effects) }
    ensures fault { IfErr result (λ e. IsFault e (for_each
        (meaning (command cmd.now) (T.letters over.now.text.now) over.now.site.now) ranges.now doing.old.effects)) }
    ensures cursor { OnOk result (IsCursorOf (T.letters over.now.text.now) doing.new.cursor) }
    ensures within { OnOk result (IsWithin (T.letters over.now.text.now) doing.new.effects) }
{
    let mut rest = ranges;
    while let [range, after @ ..] = rest {
        run(cmd, kept, over, *range, doing)?;
        rest = after;
    }
    Ok(())
}

// Does the next command of a block, by the first of these machines.
#[cycle(command)]
fn run_next<T: Letters>(
    cmd: &Cmd,
    kept: &[Kept],
    over: &Over<T>,
    dot: Range,
    doing: &mut Doing,
) -> Result<(), EditFault>
    requires kept { OfFirst (IsKept (action cmd.now.act)) kept.now }
    requires dot { IsInside (T.letters over.now.text.now) dot }
    requires cursor { IsCursorOf (T.letters over.now.text.now) doing.old.cursor }
    requires within { IsWithin (T.letters over.now.text.now) doing.old.effects }
    ensures value { OnOk result (meaning (command cmd.now) (T.letters over.now.text.now) over.now.site.now dot
        doing.old.effects ≡ Ok doing.new.effects) }
    ensures fault { IfErr result (λ e. IsFault e (meaning (command cmd.now) (T.letters over.now.text.now)
        over.now.site.now dot doing.old.effects)) }
    ensures cursor { OnOk result (IsCursorOf (T.letters over.now.text.now) doing.new.cursor) }
    ensures within { OnOk result (IsWithin (T.letters over.now.text.now) doing.new.effects) }
{
    match kept {
        [first, ..] => run(cmd, first, over, dot, doing),
        [] => run(cmd, &Kept::none(), over, dot, doing),
    }
}

// Does commands one after another, each over the same dot.
#[cycle(command)]
#[tactic(auto, using(crate::proofs::Blocks::listing, crate::proofs::Keeping::kept_first, crate::proofs::Keeping::kept_behind))]
fn run_all<T: Letters>(
    commands: &[Cmd],
    kept: &[Kept],
    over: &Over<T>,
    dot: Range,
    doing: &mut Doing,
) -> Result<(), EditFault>
    requires kept { AreOf kept.now commands.now }
    requires dot { IsInside (T.letters over.now.text.now) dot }
    requires cursor { IsCursorOf (T.letters over.now.text.now) doing.old.cursor }
    requires within { IsWithin (T.letters over.now.text.now) doing.old.effects }
    ensures value { OnOk result (do_list commands.now (T.letters over.now.text.now) over.now.site.now dot
        doing.old.effects ≡ Ok doing.new.effects) }
    ensures fault { IfErr result (λ e. IsFault e (do_list commands.now (T.letters over.now.text.now) over.now.site.now
        dot doing.old.effects)) }
    ensures cursor { OnOk result (IsCursorOf (T.letters over.now.text.now) doing.new.cursor) }
    ensures within { OnOk result (IsWithin (T.letters over.now.text.now) doing.new.effects) }
{
    let mut rest = kept;
    for cmd in commands {
        run_next(cmd, rest, over, dot, doing)?;
        rest = behind(rest);
    }
    Ok(())
}

// Does a loop's command for the ranges that the loop has in the range that began last.
#[cycle(command)]
fn repeat<T: Letters>(
    cmd: &Cmd,
    kind: Loop,
    re: &Re,
    kept: &Kept,
    over: &Over<T>,
    doing: &mut Doing,
) -> Result<(), EditFault>
    requires machine { IsFor (tree re.now) kept.now.machine }
    requires inner { OfFirst (IsKept (action cmd.now.act)) (inner_of kept.now.inner) }
    requires cursor { IsCursorOf (T.letters over.now.text.now) doing.old.cursor }
    requires within { IsWithin (T.letters over.now.text.now) doing.old.effects }
    ensures value { OnOk result (for_each (meaning (command cmd.now) (T.letters over.now.text.now) over.now.site.now)
        (ranges_of (loop_of kind) (tree re.now) (T.letters over.now.text.now) doing.old.effects.last) doing.old.effects
        ≡ Ok doing.new.effects) }
    ensures fault { IfErr result (λ e. IsFault e (for_each
        (meaning (command cmd.now) (T.letters over.now.text.now) over.now.site.now)
        (ranges_of (loop_of kind) (tree re.now) (T.letters over.now.text.now) doing.old.effects.last)
        doing.old.effects)) }
    ensures cursor { OnOk result (IsCursorOf (T.letters over.now.text.now) doing.new.cursor) }
    ensures within { OnOk result (IsWithin (T.letters over.now.text.now) doing.new.effects) }
{
    let machine = &kept.machine;
    let ranges = ranges_of(over, kind, re, machine, doing.effects.last)?;
    let ranges = ranges.as_slice();
    match kept.inner() {
        [inner, ..] => run_each(cmd, inner, over, ranges, doing),
        [] => {
            let made = made_for(over.alloc, &cmd.act, ranges.len(), over.text.len())?;
            run_each(cmd, &made, over, ranges, doing)
        }
    }
}

// Does what a command does with the range that began last, its own.
#[cycle(command)]
#[tactic(auto, using(crate::proofs::Inside::chosen_matches))]
fn act<T: Letters>(
    act: &Act,
    kept: &Kept,
    over: &Over<T>,
    dot: Range,
    doing: &mut Doing,
) -> Result<(), EditFault>
    requires kept { IsKept (action act.now) kept.now }
    requires dot { IsInside (T.letters over.now.text.now) dot }
    requires cursor { IsCursorOf (T.letters over.now.text.now) doing.old.cursor }
    requires within { IsWithin (T.letters over.now.text.now) doing.old.effects }
    ensures value { OnOk result (do_action (action act.now) (T.letters over.now.text.now) over.now.site.now dot
        doing.old.effects.last doing.old.effects ≡ Ok doing.new.effects) }
    ensures fault { IfErr result (λ e. IsFault e (do_action (action act.now) (T.letters over.now.text.now)
        over.now.site.now dot doing.old.effects.last doing.old.effects)) }
    ensures cursor { OnOk result (IsCursorOf (T.letters over.now.text.now) doing.new.cursor) }
    ensures within { OnOk result (IsWithin (T.letters over.now.text.now) doing.new.effects) }
{
    let range = doing.effects.last;
    let effects = &mut doing.effects;
    match act {
        Act::Nothing => Ok(()),
        Act::Append(put) => put_text(over.alloc, range.q1, range.q1, put, effects),
        Act::Change(put) => put_text(over.alloc, range.q0, range.q1, put, effects),
        Act::Insert(put) => put_text(over.alloc, range.q0, range.q0, put, effects),
        Act::Delete => delete(over.alloc, range, effects),
        Act::Subst { nth, re, with, all } => {
            let spans = matches_in(over.alloc, re, &kept.machine, over.text, range)?;
            let spans = choose(spans.as_slice(), *nth, *all);
            replace_all(over, re, with.as_slice(), spans, effects)
        }
        Act::Move(to) => move_text(over, to, dot, range, effects),
        Act::Copy(to) => copy_text(over, to, dot, range, effects),
        Act::Print => print(over, range, effects),
        Act::LineNo => print_lines(over, range, doing),
        Act::CharNo => print_places(over.alloc, over.site, range, effects),
        Act::Each(re, cmd) => repeat(cmd, ForEach, re, kept, over, doing),
        Act::Between(re, cmd) => repeat(cmd, ForBetween, re, kept, over, doing),
        Act::If(re, cmd) => repeat(cmd, Where, re, kept, over, doing),
        Act::Unless(re, cmd) => repeat(cmd, WhereNot, re, kept, over, doing),
        Act::Block(all) => run_all(all.as_slice(), kept.of_commands(all), over, range, doing),
        Act::Pipe(command) => ask_with(over, JobKind::Pipe, command, range, effects),
        Act::From(command) => ask_without(over, command, effects),
        Act::To(command) => ask_with(over, JobKind::To, command, range, effects),
    }
}

/// Does a command, where dot is this range, by its machines.
#[cycle(command)]
pub fn run<T: Letters>(
    cmd: &Cmd,
    kept: &Kept,
    over: &Over<T>,
    dot: Range,
    doing: &mut Doing,
) -> Result<(), EditFault>
    requires kept { IsKept (action cmd.now.act) kept.now }
    requires dot { IsInside (T.letters over.now.text.now) dot }
    requires cursor { IsCursorOf (T.letters over.now.text.now) doing.old.cursor }
    requires within { IsWithin (T.letters over.now.text.now) doing.old.effects }
    ensures value { OnOk result (meaning (command cmd.now) (T.letters over.now.text.now) over.now.site.now dot
        doing.old.effects ≡ Ok doing.new.effects) }
    ensures fault { IfErr result (λ e. IsFault e (meaning (command cmd.now) (T.letters over.now.text.now)
        over.now.site.now dot doing.old.effects)) }
    ensures cursor { OnOk result (IsCursorOf (T.letters over.now.text.now) doing.new.cursor) }
    ensures within { OnOk result (IsWithin (T.letters over.now.text.now) doing.new.effects) }
{
    let range = range_of(over, &cmd.addr, dot)?;
    doing.effects.begin(range);
    act(&cmd.act, kept, over, dot, doing)
}
