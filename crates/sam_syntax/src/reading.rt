//! Joins the pieces of commands to their tree.
//!
//! `None` says that no command goes on so. The parser never meets it, since it asks `position::after_kind` before.

ghost use Rattle.std.specs.Prelude.{◌≡◌, ◌<◌, ◌↔◌, IsTrue, [], length, map, Some, None, IfOk, IfSome, IfNone};
ghost use Rattle.re_syntax.specs.Tree as expression;
ghost use Rattle.addr_syntax.specs.Tree as address;
ghost use Rattle.addr_syntax.specs.Tree.{Missing};
ghost use Rattle.edit_parts.specs.Tree.{action, command, Loops, Nothing, Print};
ghost use Rattle.edit_parts.specs.Kinds.{loop_of};
ghost use Rattle.edit_parts.specs.Pieces as piece;
ghost use Rattle.edit_parts.specs.Pieces.{EndsLine, At, Opens, Closes, Does};
ghost use Rattle.sam_syntax.specs.Limits.{level_limit};
ghost use Rattle.sam_syntax.specs.Depth.{heads_of};
ghost use Rattle.sam_syntax.specs.Joined.{Looping, begin, in_loops, command_of, with_command, with_line, block_of};
ghost use Rattle.sam_syntax.specs.Joined.{start_of, after_piece};
ghost use Rattle.sam_syntax.specs.Read.{head_of, block_is, line_is, start_is, reading_of, IsNext};

use am_text::NoMemory;
use edit_parts::{Act, Addr, Cmd, Cmds, Loop};
use re_syntax::Re;
use std::alloc::Global;
use std::collections::VecDeque;

/// A loop with its expression, and the address before it.
#[derive(Drop)]
pub struct Head {
    pub addr: Option<Addr>,
    pub kind: Loop,
    pub re: Re,
}

/// An open block: the loops that it stands in, the innermost first, its address, and its commands so far.
#[derive(Drop)]
pub struct OpenBlock {
    pub heads: VecDeque<Head>,
    pub addr: Option<Addr>,
    pub commands: Cmds,
}

/// A line so far.
#[derive(Drop)]
pub enum Line {
    /// Behind `{`.
    Opened,
    /// Behind so many loops, the innermost first.
    Looping(VecDeque<Head>),
    /// And behind an address.
    Addressed(VecDeque<Head>, Addr),
    /// Behind the line's command.
    Ended(Cmd),
}

/// What stands before a command on its line.
#[derive(Drop)]
pub struct Start {
    pub heads: VecDeque<Head>,
    pub addr: Option<Addr>,
}

/// All so far: the open blocks, the innermost first, the line, and how many levels stand round what comes next.
#[derive(Drop)]
pub struct Sheet {
    pub blocks: VecDeque<OpenBlock>,
    pub line: Line,
    pub depth: usize,
}

// A loop over a command.
fn loop_act(alloc: Global, kind: Loop, re: Re, inner: Cmd) -> Result<Act, NoMemory>
    ensures { IfOk result (λ act. action act ≡ Loops (loop_of kind) (expression.tree re) (command inner).0
        (command inner).1) }
{
    let inner = Box::new(alloc, inner)?;
    Ok(match kind {
        Loop::ForEach => Act::Each(re, inner),
        Loop::ForBetween => Act::Between(re, inner),
        Loop::Where => Act::If(re, inner),
        Loop::WhereNot => Act::Unless(re, inner),
    })
}

// A command inside loops.
fn in_loops(alloc: Global, mut heads: VecDeque<Head>, cmd: Cmd) -> Result<Cmd, NoMemory>
    ensures { IfOk result (λ new. command new ≡ in_loops (map head_of heads.items) (command cmd)) }
{
    let mut whole = cmd;
    while let Some(head) = heads.pop_front() {
        let Head { addr, kind, re } = head;
        whole = Cmd {
            addr,
            act: loop_act(alloc, kind, re, whole)?,
        };
    }
    Ok(whole)
}

// A command without an address.
fn alone(act: Act) -> Cmd
    ensures { command result ≡ (Missing, action act) }
{
    Cmd { addr: None, act }
}

// The command is let go. A call does it, so that the check of this function doesn't go into the tree's type.
fn no_start(cmd: Cmd) -> Option<Start>
    ensures { result ≡ None }
{
    drop(cmd);
    None
}

// What stands before a command that begins on this line.
fn start_of(line: Line) -> Option<Start>
    ensures some { IfSome result (λ s. start_of (line_is line) ≡ Some (start_is s)) }
    ensures none { IfNone result (start_of (line_is line) ≡ None) }
{
    match line {
        Line::Looping(heads) => Some(Start { heads, addr: None }),
        Line::Addressed(heads, addr) => Some(Start {
            heads,
            addr: Some(addr),
        }),
        // never reached, as all that lead to `None` here
        Line::Opened => None,
        Line::Ended(cmd) => no_start(cmd),
    }
}

// The command of a line.
fn command_of(alloc: Global, line: Line) -> Result<Cmd, NoMemory>
    ensures { IfOk result (λ new. command new ≡ command_of (line_is line)) }
{
    match line {
        Line::Opened => Ok(alone(Act::Nothing)),
        Line::Looping(heads) => {
            if heads.is_empty() {
                Ok(alone(Act::Nothing))
            } else {
                in_loops(alloc, heads, alone(Act::Print))
            }
        }
        Line::Addressed(heads, at) => in_loops(
            alloc,
            heads,
            Cmd {
                addr: Some(at),
                act: Act::Nothing,
            },
        ),
        Line::Ended(cmd) => Ok(cmd),
    }
}

// A block with a command more.
fn with_command(block: OpenBlock, cmd: Cmd) -> Result<OpenBlock, NoMemory>
    ensures { IfOk result (λ new. block_is new ≡ with_command (block_is block) (command cmd)) }
{
    let OpenBlock {
        heads,
        addr,
        mut commands,
    } = block;
    commands.push(cmd)?;
    Ok(OpenBlock {
        heads,
        addr,
        commands,
    })
}

// A block with the command of a line.
fn with_line(alloc: Global, block: OpenBlock, line: Line) -> Result<OpenBlock, NoMemory>
    ensures { IfOk result (λ new. block_is new ≡ with_line (block_is block) (line_is line)) }
{
    match line {
        Line::Opened => Ok(block),
        ended => with_command(block, command_of(alloc, ended)?),
    }
}

// The command that a block is.
fn block_of(alloc: Global, block: OpenBlock) -> Result<Cmd, NoMemory>
    ensures { IfOk result (λ new. command new ≡ block_of (block_is block)) }
{
    let OpenBlock {
        heads,
        addr,
        commands,
    } = block;
    in_loops(
        alloc,
        heads,
        Cmd {
            addr,
            act: Act::Block(commands),
        },
    )
}

// The line and the address are let go, by calls as in `no_start`.
fn no_sheet(line: Line, addr: Addr) -> Option<Sheet>
    ensures { result ≡ None }
{
    drop(line);
    drop(addr);
    None
}

/// With the address of a command.
pub fn join_address(sheet: Sheet, addr: Addr) -> Option<Sheet>
    ensures some { IfSome result (IsNext sheet (At (address.tree addr))) }
    ensures none { IfNone result (after_piece (reading_of sheet) (At (address.tree addr)) ≡ None) }
{
    let Sheet {
        blocks,
        line,
        depth,
    } = sheet;
    match line {
        Line::Looping(heads) => Some(Sheet {
            blocks,
            line: Line::Addressed(heads, addr),
            depth,
        }),
        // never reached
        Line::Opened => no_sheet(Line::Opened, addr),
        Line::Addressed(heads, other) => no_sheet(Line::Addressed(heads, other), addr),
        Line::Ended(cmd) => no_sheet(Line::Ended(cmd), addr),
    }
}

/// With a loop, whose command comes next.
pub fn join_loop(sheet: Sheet, kind: Loop, re: Re) -> Result<Option<Sheet>, NoMemory>
    requires { sheet.depth < level_limit }
    ensures some { IfOk result (λ o. IfSome o (IsNext sheet (piece.Loops (loop_of kind) (expression.tree re)))) }
    ensures none { IfOk result (λ o. IfNone o (after_piece (reading_of sheet)
        (piece.Loops (loop_of kind) (expression.tree re)) ≡ None)) }
{
    let Sheet {
        blocks,
        line,
        depth,
    } = sheet;
    let Some(Start { mut heads, addr }) = start_of(line) else {
        // never reached
        return Ok(None);
    };
    heads.push_front(Head { addr, kind, re })?;
    Ok(Some(Sheet {
        blocks,
        line: Line::Looping(heads),
        depth: depth + 1,
    }))
}

/// With what the line's command does.
pub fn join_action(alloc: Global, sheet: Sheet, act: Act) -> Result<Option<Sheet>, NoMemory>
    ensures some { IfOk result (λ o. IfSome o (IsNext sheet (Does (action act)))) }
    ensures none { IfOk result (λ o. IfNone o (after_piece (reading_of sheet) (Does (action act)) ≡ None)) }
{
    let Sheet {
        blocks,
        line,
        depth,
    } = sheet;
    let Some(Start { heads, addr }) = start_of(line) else {
        // never reached
        drop(act);
        return Ok(None);
    };
    let depth = depth.saturating_sub(heads.len());
    let whole = in_loops(alloc, heads, Cmd { addr, act })?;
    Ok(Some(Sheet {
        blocks,
        line: Line::Ended(whole),
        depth,
    }))
}

/// With a block that opens.
pub fn open_block(alloc: Global, sheet: Sheet) -> Result<Option<Sheet>, NoMemory>
    requires { sheet.depth < level_limit }
    ensures some { IfOk result (λ o. IfSome o (IsNext sheet Opens)) }
    ensures none { IfOk result (λ o. IfNone o (after_piece (reading_of sheet) Opens ≡ None)) }
{
    let Sheet {
        mut blocks,
        line,
        depth,
    } = sheet;
    let Some(Start { heads, addr }) = start_of(line) else {
        // never reached
        return Ok(None);
    };
    blocks.push_front(OpenBlock {
        heads,
        addr,
        commands: Vec::new(alloc),
    })?;
    Ok(Some(Sheet {
        blocks,
        line: Line::Opened,
        depth: depth + 1,
    }))
}

// How many loops the line is behind.
fn loops_of(line: &Line) -> usize
    ensures { result ≡ length (heads_of (line_is line.now)) }
{
    match line {
        Line::Looping(heads) => heads.len(),
        Line::Addressed(heads, _) => heads.len(),
        Line::Opened => 0,
        Line::Ended(_) => 0,
    }
}

/// With the end of a line.
pub fn end_line(alloc: Global, sheet: Sheet) -> Result<Option<Sheet>, NoMemory>
    ensures some { IfOk result (λ o. IfSome o (IsNext sheet EndsLine)) }
    ensures none { IfOk result (λ o. IfNone o (after_piece (reading_of sheet) EndsLine ≡ None)) }
{
    let Sheet {
        mut blocks,
        line,
        depth,
    } = sheet;
    let Some(block) = blocks.pop_front() else {
        // never reached
        drop(line);
        return Ok(None);
    };
    let depth = depth.saturating_sub(loops_of(&line));
    blocks.push_front(with_line(alloc, block, line)?)?;
    Ok(Some(Sheet {
        blocks,
        line: Line::Looping(VecDeque::new(alloc)),
        depth,
    }))
}

// Whether the line is at its beginning.
fn begins(line: &Line) -> bool
    ensures { IsTrue result ↔ (line_is line.now ≡ Looping []) }
{
    match line {
        Line::Looping(heads) => heads.is_empty(),
        _ => false,
    }
}

/// With the end of a block.
pub fn close_block(alloc: Global, sheet: Sheet) -> Result<Option<Sheet>, NoMemory>
    ensures some { IfOk result (λ o. IfSome o (IsNext sheet Closes)) }
    ensures none { IfOk result (λ o. IfNone o (after_piece (reading_of sheet) Closes ≡ None)) }
{
    let Sheet {
        mut blocks,
        line,
        depth,
    } = sheet;
    // neither `None` is ever reached
    let Some(block) = blocks.pop_front() else {
        return Ok(None);
    };
    if !begins(&line) {
        return Ok(None);
    }
    let depth = depth.saturating_sub(block.heads.len()).saturating_sub(1);
    Ok(Some(Sheet {
        blocks,
        line: Line::Ended(block_of(alloc, block)?),
        depth,
    }))
}

/// The command of the line, where no block is open.
pub fn command(alloc: Global, sheet: Sheet) -> Result<Cmd, NoMemory>
    ensures { IfOk result (λ c. command c ≡ command_of (line_is sheet.line)) }
{
    command_of(alloc, sheet.line)
}

/// What is read before the first piece.
pub fn begin(alloc: Global) -> Sheet
    ensures depth { result.depth ≡ 0 }
    ensures reading { reading_of result ≡ begin }
{
    Sheet {
        blocks: VecDeque::new(alloc),
        line: Line::Looping(VecDeque::new(alloc)),
        depth: 0,
    }
}
