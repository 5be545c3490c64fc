//! The machines of a command's expressions, each made once for all ranges that its command is done for.

ghost use Rattle.std.specs.Prelude.{◌≡◌, IfOk};
ghost use Rattle.re_syntax.specs.Tree.{tree};
ghost use Rattle.edit_parts.specs.declared.command.Act.{Block};
ghost use Rattle.edit_parts.specs.Tree.{Action, action};
ghost use Rattle.edit_run.specs.Kept.{inner_of, behind, IsFor, OfFirst, IsKept, AreOf};

use am_text::NoMemory;
use edit_parts::{Act, Cmd, Cmds};
use re_machine::Machine;
use re_spans::Re;
use std::alloc::Global;

/// In a range of fewer runes a search costs less than a machine.
pub const SHORT: usize = 256;

/// The machines of a command: that of its own expression, where one was made, and those of the commands that it does.
#[derive(Drop)]
#[cycle(kept)]
pub struct Kept {
    pub machine: Option<Machine>,
    pub inner: Inner,
}

/// The machines of the commands that a command does: of the one of a loop, or of each of a block.
#[derive(Drop)]
#[cycle(kept)]
pub enum Inner {
    /// None were made.
    Nothing,
    Commands(Vec<Kept>),
}

impl Kept {
    /// No machine is made.
    #[tactic(auto, using(crate::proofs::Keeping::none_made))]
    pub fn none() -> Kept
        ensures { (act : Action) → IsKept act result }
    {
        Kept {
            machine: None,
            inner: Inner::Nothing,
        }
    }

    /// The machines of the commands that it does.
    #[tactic(auto, using(crate::proofs::Keeping::inner_shown))]
    pub fn inner(&self) -> &[Kept]
        ensures { result.now ≡ inner_of self.now.inner }
    {
        match &self.inner {
            Inner::Nothing => &[],
            Inner::Commands(all) => all.as_slice(),
        }
    }

    /// The machines of the commands of a block.
    pub fn of_commands(&self, commands: &Cmds) -> &[Kept]
        requires { IsKept (action (Block commands.now)) self.now }
        ensures { AreOf result.now commands.now.items }
    {
        self.inner()
    }
}

/// The machines behind the first.
pub fn behind(kept: &[Kept]) -> &[Kept]
    ensures { result.now ≡ behind kept.now }
{
    match kept {
        [] => &[],
        [_, after @ ..] => after,
    }
}

// The machine of an expression, and those of the commands that are done for what it finds.
#[tactic(auto, using(crate::proofs::Keeping::inner_shown))]
fn with_inner(alloc: Global, re: &Re, inner: Vec<Kept>) -> Result<Kept, NoMemory>
    ensures machine { IfOk result (λ kept. IsFor (tree re.now) kept.machine) }
    ensures inner { IfOk result (λ kept. inner_of kept.inner ≡ inner.items) }
{
    let machine = Machine::build(alloc, re)?;
    Ok(Kept {
        machine: Some(machine),
        inner: Inner::Commands(inner),
    })
}

// The machines of a block.
#[tactic(auto, using(crate::proofs::Keeping::inner_shown))]
fn of_block(inner: Vec<Kept>) -> Kept
    ensures { inner_of result.inner ≡ inner.items }
{
    Kept {
        machine: None,
        inner: Inner::Commands(inner),
    }
}

// The machines of a loop and of its command.
#[cycle(making)]
fn of_loop(alloc: Global, cmd: &Cmd, re: &Re) -> Result<Kept, NoMemory>
    ensures machine { IfOk result (λ kept. IsFor (tree re.now) kept.machine) }
    ensures inner { IfOk result (λ kept. OfFirst (IsKept (action cmd.now.act)) (inner_of kept.inner)) }
{
    let mut inner = Vec::new(alloc);
    inner.push(kept_for(alloc, &cmd.act)?)?;
    with_inner(alloc, re, inner)
}

// The machines of each of these commands.
#[cycle(making)]
#[tactic(auto, using(crate::proofs::Keeping::kept_none, crate::proofs::Keeping::kept_more))]
fn each_of(alloc: Global, commands: &[Cmd]) -> Result<Vec<Kept>, NoMemory>
    ensures { IfOk result (λ all. AreOf all.items commands.now) }
{
    let mut all = Vec::new(alloc);
    for cmd in commands {
        let kept = kept_for(alloc, &cmd.act)?;
        all.push(kept)?;
    }
    Ok(all)
}

// The machines of all expressions that a command searches for.
#[cycle(making)]
#[tactic(auto, using(crate::proofs::Keeping::kept_block))]
fn kept_for(alloc: Global, act: &Act) -> Result<Kept, NoMemory>
    ensures { IfOk result (IsKept (action act.now)) }
{
    match act {
        Act::Subst { re, .. } => with_inner(alloc, re, Vec::new(alloc)),
        Act::Each(re, cmd) => of_loop(alloc, cmd, re),
        Act::Between(re, cmd) => of_loop(alloc, cmd, re),
        Act::If(re, cmd) => of_loop(alloc, cmd, re),
        Act::Unless(re, cmd) => of_loop(alloc, cmd, re),
        Act::Block(all) => {
            let inner = each_of(alloc, all.as_slice())?;
            Ok(of_block(inner))
        }
        _ => Ok(Kept::none()),
    }
}

/// The machines of a command that is done so many times over a text of so many runes. None is made where it is done
/// once at most, or where all its ranges are short.
pub fn made_for(alloc: Global, act: &Act, times: usize, count: usize) -> Result<Kept, NoMemory>
    ensures { IfOk result (IsKept (action act.now)) }
{
    if times < 2 || count < SHORT {
        return Ok(Kept::none());
    }
    kept_for(alloc, act)
}
