//! Reads the tree of an expression.

ghost use Rattle.std.specs.Prelude.{◌≡◌, ◌≤◌, ◌<◌, ◌+◌, ◌^◌, ◌⊎◌, ℕ, List, Option, length, true, false, IfOk, IfErr};
ghost use Rattle.std.specs.Prelude.{IfSome, IfNone, Some, None, slice_index};
ghost use Rattle.re_syntax.specs.Tree.{tree, nodes, most_nodes};
ghost use Rattle.re_syntax.specs.Answer.{IsRead, Refuses};
ghost use Rattle.re_syntax.specs.Signs.{is_stop};
ghost use Rattle.re_syntax.specs.Scan.{scan, start};
ghost use Rattle.re_syntax.specs.Build.{stack_of, level_tree, after_token, weight};
ghost use Rattle.re_syntax.specs.Read.{Reading, begin, read, is_outside, is_escaped, is_complete, Follows, Finishes};
ghost use Rattle.re_syntax.specs.Read.{FinishFails};

use crate::builder::{self, Builder};
use crate::re::{Re, ReFault};
use crate::scanner::{self, Mode, Scanner, Token};
use crate::sign::is_stop;
use am_text::{NoMemory, Rune};
use std::alloc::Global;

// How many nodes a tree may have.
const MOST_NODES: usize = 2048;

// One more: that is how tokens count.
const MOST: usize = MOST_NODES + 1;

/// What is read so far. Past the limit nothing is built any more.
#[derive(Drop)]
pub struct Parser {
    pub scanner: Scanner,
    pub builder: Builder,
    pub size: usize,
}

fn begin(alloc: Global, stop: Option<Rune>) -> Parser
    ensures { Follows result (begin stop) }
{
    Parser {
        scanner: scanner::start(alloc, stop),
        builder: builder::nothing(alloc),
        size: 0,
    }
}

// Builds on, where there are not too many nodes.
fn take(
    alloc: Global,
    scanner: Scanner,
    builder: Builder,
    size: usize,
    token: Token,
) -> Result<Parser, NoMemory>
    requires { builder.groups ≤ size }
    ensures { IfOk result (λ new. (m : Reading) → Follows (record { scanner = scanner; builder = builder; size = size })
        m → Follows new (record { scanner = scanner; stack = after_token m.stack token; size = m.size + weight token })) }
{
    if size > MOST {
        return Ok(Parser {
            scanner,
            builder,
            size,
        });
    }
    let size = size + builder::weight(&token);
    if size > MOST {
        return Ok(Parser {
            scanner,
            builder,
            size,
        });
    }
    Ok(Parser {
        scanner,
        builder: builder::after_token(alloc, builder, token)?,
        size,
    })
}

// The parser after one rune more; `None` where no expression goes on so.
fn read(alloc: Global, parser: Parser, c: Rune) -> Result<Option<Parser>, NoMemory>
    requires depth { parser.scanner.depth + 1 < 2 ^ 64 }
    requires few { parser.builder.groups ≤ parser.size }
    ensures none { IfOk result (λ answer. IfNone answer ((m : Reading) → Follows parser m → read m c ≡ None)) }
    ensures some { IfOk result (λ answer. IfSome answer (λ new. (m : Reading) → Follows parser m → (next : Reading)
        × (read m c ≡ Some next) × Follows new next)) }
{
    let Parser {
        scanner,
        builder,
        size,
    } = parser;
    let Some((scanner, token)) = scanner::scan(alloc, scanner, c)? else {
        return Ok(None);
    };
    match token {
        None => Ok(Some(Parser {
            scanner,
            builder,
            size,
        })),
        Some(token) => Ok(Some(take(alloc, scanner, builder, size, token)?)),
    }
}

fn is_outside(mode: Mode) -> bool
    ensures { result ≡ is_outside mode }
{
    matches!(mode, Mode::Outside)
}

fn is_escaped(mode: Mode) -> bool
    ensures { result ≡ is_escaped mode }
{
    matches!(
        mode,
        Mode::Escaped | Mode::NextEscaped | Mode::UptoEscaped(_)
    )
}

fn is_complete(scanner: &Scanner) -> bool
    ensures { result ≡ is_complete scanner.now }
{
    is_outside(scanner.mode) && !scanner.expects && scanner.depth == 0
}

// The tree of what is read, where that ends at this place.
fn finish(alloc: Global, parser: Parser, at: usize) -> Result<(Re, usize), ReFault>
    ensures ok { IfOk result (λ answer. Finishes parser at answer.0 answer.1) }
    ensures err { IfErr result (FinishFails parser at) }
{
    let Parser {
        scanner,
        builder,
        size,
    } = parser;
    if !is_complete(&scanner) {
        return Err(ReFault::Bad(at));
    }
    if size > MOST {
        return Err(ReFault::Nodes);
    }
    match builder::tree(alloc, builder)? {
        Some(re) => Ok((re, at)),
        None => Err(ReFault::Bad(at)),
    }
}

/// Reads the expression at a place up to the delimiter, where no backslash stands before that, or up to the end.
/// Answers its tree and the place where it ends. The grammar is that of regexp(6), with a delimiter.
pub fn parse_re(
    alloc: Global,
    text: &[Rune],
    from: usize,
    stop: Option<Rune>,
) -> Result<(Re, usize), ReFault>
    requires { from ≤ length text.now }
    ensures read { IfOk result (λ answer. IsRead stop text.now from answer.1 (tree answer.0)) }
    ensures small { IfOk result (λ answer. nodes (tree answer.0) ≤ 2048) }
    ensures refused { IfErr result (Refuses stop text.now from) }
{
    let mut parser = begin(alloc, stop);
    for at in from..text.len() {
        let c = text[at];
        if is_stop(stop, c) && !is_escaped(parser.scanner.mode) {
            return finish(alloc, parser, at);
        }
        match read(alloc, parser, c)? {
            Some(next) => parser = next,
            None => return Err(ReFault::Bad(at)),
        }
    }
    finish(alloc, parser, text.len())
}
