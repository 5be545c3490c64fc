//! Builds the tree from tokens.

ghost use Rattle.std.specs.Prelude.{◌≡◌, ◌<◌, ◌+◌, ◌^◌, [], ◌∷◌, map, IfOk, IfSome, IfNone, None, Some};
ghost use Rattle.re_syntax.specs.Tree.{tree, repetition};
ghost use Rattle.re_syntax.specs.Build.{level_of, stack_of, chain, choice, level_tree, with_part, repeat_last};
ghost use Rattle.re_syntax.specs.Build.{end_side, with_group, after_token, nothing, weight};

use crate::re::Re;
use crate::scanner::Token;
use crate::sign::Repeat;
use am_text::NoMemory;
use std::alloc::Global;
use std::collections::VecDeque;

/// An open group, or what no group holds: the sides before the last bar, and the parts after it, the last first.
#[derive(Drop)]
pub struct Frame {
    pub number: u32,
    pub sides: VecDeque<Re>,
    pub parts: VecDeque<Re>,
}

/// The open groups round the innermost one, the nearest first, that one, and how many were ever opened.
#[derive(Drop)]
pub struct Builder {
    pub outer: VecDeque<Frame>,
    pub top: Frame,
    pub groups: u32,
}

fn empty_frame(alloc: Global, number: u32) -> Frame
    ensures { level_of result ≡ record { number = number; sides = []; parts = [] } }
{
    Frame {
        number,
        sides: VecDeque::new(alloc),
        parts: VecDeque::new(alloc),
    }
}

fn repetition(alloc: Global, repeat: Repeat, piece: Re) -> Result<Re, NoMemory>
    ensures { IfOk result (λ re. tree re ≡ repetition repeat (tree piece)) }
{
    let piece = Box::new(alloc, piece)?;
    Ok(match repeat {
        Repeat::Star => Re::Star(piece),
        Repeat::Plus => Re::Plus(piece),
        Repeat::Opt => Re::Opt(piece),
    })
}

// The concatenation of the parts, nested to the right.
fn chain(alloc: Global, last: Re, mut parts: VecDeque<Re>) -> Result<Re, NoMemory>
    ensures { IfOk result (λ re. tree re ≡ chain (tree last) (map tree parts.items)) }
{
    let mut whole = last;
    while let Some(part) = parts.pop_front() {
        whole = Re::Cat(Box::new(alloc, part)?, Box::new(alloc, whole)?);
    }
    Ok(whole)
}

// The alternation of the sides, nested to the right.
fn choice(alloc: Global, last: Re, mut sides: VecDeque<Re>) -> Result<Re, NoMemory>
    ensures { IfOk result (λ re. tree re ≡ choice (tree last) (map tree sides.items)) }
{
    let mut whole = last;
    while let Some(side) = sides.pop_front() {
        whole = Re::Alt(Box::new(alloc, side)?, Box::new(alloc, whole)?);
    }
    Ok(whole)
}

// The tree of a frame; `None` where a part is missing.
fn level_tree(alloc: Global, frame: Frame) -> Result<Option<Re>, NoMemory>
    ensures some { IfOk result (λ answer. IfSome answer (λ re. level_tree (level_of frame) ≡ Some (tree re))) }
    ensures none { IfOk result (λ answer. IfNone answer (level_tree (level_of frame) ≡ None)) }
{
    let Frame {
        number: _,
        sides,
        mut parts,
    } = frame;
    let Some(last) = parts.pop_front() else {
        return Ok(None);
    };
    let side = chain(alloc, last, parts)?;
    Ok(Some(choice(alloc, side, sides)?))
}

fn with_part(mut frame: Frame, part: Re) -> Result<Frame, NoMemory>
    ensures { IfOk result (λ new. level_of new ≡ with_part (level_of frame) (tree part)) }
{
    frame.parts.push_front(part)?;
    Ok(frame)
}

fn repeat_last(alloc: Global, mut frame: Frame, repeat: Repeat) -> Result<Frame, NoMemory>
    ensures { IfOk result (λ new. level_of new ≡ repeat_last (level_of frame) (level_of frame).parts
        (repetition repeat)) }
{
    let Some(piece) = frame.parts.pop_front() else {
        return Ok(frame);
    };
    let whole = repetition(alloc, repeat, piece)?;
    frame.parts.push_front(whole)?;
    Ok(frame)
}

fn end_side(alloc: Global, frame: Frame) -> Result<Frame, NoMemory>
    ensures { IfOk result (λ new. level_of new ≡ end_side (level_of frame) (level_of frame).parts) }
{
    let Frame {
        number,
        mut sides,
        mut parts,
    } = frame;
    let Some(last) = parts.pop_front() else {
        return Ok(Frame {
            number,
            sides,
            parts,
        });
    };
    sides.push_front(chain(alloc, last, parts)?)?;
    Ok(Frame {
        number,
        sides,
        parts: VecDeque::new(alloc),
    })
}

fn enter(alloc: Global, builder: Builder) -> Result<Builder, NoMemory>
    requires { builder.groups + 1 < 2 ^ 32 }
    ensures { IfOk result (λ new. stack_of new ≡ after_token (stack_of builder) Token.Enter) }
{
    let Builder {
        mut outer,
        top,
        groups,
    } = builder;
    outer.push_front(top)?;
    Ok(Builder {
        outer,
        top: empty_frame(alloc, groups + 1),
        groups: groups + 1,
    })
}

fn leave(alloc: Global, builder: Builder) -> Result<Builder, NoMemory>
    ensures { IfOk result (λ new. stack_of new ≡ after_token (stack_of builder) Token.Leave) }
{
    let Builder {
        mut outer,
        top,
        groups,
    } = builder;
    let number = top.number;
    if outer.is_empty() || top.parts.is_empty() {
        return Ok(Builder { outer, top, groups });
    }
    let Some(re) = level_tree(alloc, top)? else {
        unreachable!()
    };
    let Some(around) = outer.pop_front() else {
        unreachable!()
    };
    Ok(Builder {
        outer,
        top: with_part(around, Re::Group(number, Box::new(alloc, re)?))?,
        groups,
    })
}

/// The builder after one token more.
pub fn after_token(alloc: Global, mut builder: Builder, token: Token) -> Result<Builder, NoMemory>
    requires { builder.groups + 1 < 2 ^ 32 }
    ensures { IfOk result (λ new. stack_of new ≡ after_token (stack_of builder) token) }
{
    match token {
        Token::Leaf(re) => {
            builder.top.parts.push_front(re)?;
            Ok(builder)
        }
        Token::Often(repeat) => {
            let Builder { outer, top, groups } = builder;
            let top = repeat_last(alloc, top, repeat)?;
            Ok(Builder { outer, top, groups })
        }
        Token::Or => {
            let Builder { outer, top, groups } = builder;
            let top = end_side(alloc, top)?;
            Ok(Builder { outer, top, groups })
        }
        Token::Enter => enter(alloc, builder),
        Token::Leave => leave(alloc, builder),
    }
}

/// The builder before the first token.
pub fn nothing(alloc: Global) -> Builder
    ensures { stack_of result ≡ nothing }
{
    Builder {
        outer: VecDeque::new(alloc),
        top: empty_frame(alloc, 0),
        groups: 0,
    }
}

/// The tree, where no group is open.
pub fn tree(alloc: Global, builder: Builder) -> Result<Option<Re>, NoMemory>
    ensures some { IfOk result (λ answer. IfSome answer (λ re. level_tree (stack_of builder).top ≡ Some (tree re))) }
    ensures none { IfOk result (λ answer. IfNone answer (level_tree (stack_of builder).top ≡ None)) }
{
    level_tree(alloc, builder.top)
}

/// How many nodes a token adds.
pub fn weight(token: &Token) -> usize
    ensures { result ≡ weight token.now }
{
    match token {
        Token::Leaf(_) => 2,
        Token::Often(_) => 1,
        Token::Or => 0,
        Token::Enter => 1,
        Token::Leave => 0,
    }
}
