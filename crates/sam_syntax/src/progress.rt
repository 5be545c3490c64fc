//! What is read so far, and with one token more.

ghost use Rattle.std.specs.Prelude.{◌≡◌, false, true, IfOk, IfErr, if◌then◌else◌};
ghost use Rattle.re_syntax.specs.Tree as expression;
ghost use Rattle.addr_syntax.specs.Tree as address;
ghost use Rattle.addr_syntax.specs.Answer.{IsLimited};
ghost use Rattle.edit_parts.specs.Tree.{Action, command};
ghost use Rattle.edit_parts.specs.Kinds.{loop_of};
ghost use Rattle.edit_parts.specs.Limits.{is_large_expression};
ghost use Rattle.edit_parts.specs.Pieces as piece;
ghost use Rattle.edit_parts.specs.Pieces.{Piece, At, Opens, Does};
ghost use Rattle.edit_parts.specs.Answer.{IsToken, IsBuiltExpression, IsBuiltAction};
ghost use Rattle.sam_syntax.specs.Limits.{levels};
ghost use Rattle.sam_syntax.specs.Joined.{Reading, begin, is_done, whole};
ghost use Rattle.sam_syntax.specs.Position.{place_of, position_of};
ghost use Rattle.sam_syntax.specs.Read.{line_is, Follows, GoesTo, Joins, whole_if, is_told_large, piece_large};
ghost use Rattle.sam_syntax.specs.Read.{piece_levels, PastFails, FinishFails};
ghost use Rattle.sam_syntax.specs.Answer.{IsInLimits};

use crate::position::{Place, Position, is_end};
use crate::reading::{
    self, Line, Sheet, close_block, end_line, join_action, join_address, join_loop, open_block,
};
use am_text::NoMemory;
use edit_parts::{Act, Addr, Cmd, Limited, Loop, SynFault, Token};
use re_syntax::Re;
use std::alloc::Global;

// How many levels a command may have.
const MOST: usize = 32;

/// A limit that is passed.
#[derive(Clone, Copy)]
pub enum Limit {
    /// There are too many levels, or an address has too many operators.
    Deep,
    /// An expression has too many nodes.
    Large,
}

/// What is read so far. Past a limit nothing is built, but the text is read on.
#[derive(Drop)]
pub enum Progress {
    Whole(Sheet),
    Past(Position, Limit),
}

fn place_of(line: &Line) -> Place
    ensures { result ≡ place_of (line_is line.now) }
{
    match line {
        Line::Opened => Place::Opened,
        Line::Looping(heads) => {
            if heads.is_empty() {
                Place::Begins
            } else {
                Place::Looping
            }
        }
        Line::Addressed(_, _) => Place::Addressed,
        Line::Ended(_) => Place::Ended,
    }
}

/// Where the reader is.
pub fn position_of(progress: &Progress) -> Position
    ensures { (r : Reading) → Follows progress.now r → result ≡ position_of r }
{
    match progress {
        Progress::Whole(sheet) => Position {
            blocks: sheet.blocks.len(),
            place: place_of(&sheet.line),
        },
        Progress::Past(at, _) => *at,
    }
}

// Past a limit all that is built is let go. A call does it, so that the check of this function doesn't
// go into the tree's type.
fn past(sheet: Sheet, next: Position, limit: Limit) -> Option<Progress>
    ensures { result ≡ Some (Progress.Past next limit) }
{
    drop(sheet);
    Some(Progress::Past(next, limit))
}

fn whole_if(sheet: Option<Sheet>) -> Option<Progress>
    ensures { result ≡ whole_if sheet }
{
    match sheet {
        Some(sheet) => Some(Progress::Whole(sheet)),
        // never reached (reading.rt)
        None => None,
    }
}

fn with_address(sheet: Sheet, built: Limited<Addr>, next: Position) -> Option<Progress>
    ensures { (a : address.Tree) → IsLimited built a → Joins (Progress.Whole sheet) (At a) next result }
{
    match built {
        Limited::Whole(addr) => whole_if(join_address(sheet, addr)),
        Limited::Deep => past(sheet, next, Limit::Deep),
        Limited::Large => past(sheet, next, Limit::Large),
    }
}

fn with_small_loop(
    sheet: Sheet,
    kind: Loop,
    re: Re,
    next: Position,
) -> Result<Option<Progress>, NoMemory>
    ensures { IfOk result (λ o. (t : expression.Tree) → IsBuiltExpression (Some re) t
        → Joins (Progress.Whole sheet) (piece.Loops (loop_of kind) t) next o) }
{
    if sheet.depth < MOST {
        Ok(whole_if(join_loop(sheet, kind, re)?))
    } else {
        Ok(past(sheet, next, Limit::Deep))
    }
}

fn with_loop(
    sheet: Sheet,
    kind: Loop,
    re: Option<Re>,
    next: Position,
) -> Result<Option<Progress>, NoMemory>
    ensures { IfOk result (λ o. (t : expression.Tree) → IsBuiltExpression re t
        → Joins (Progress.Whole sheet) (piece.Loops (loop_of kind) t) next o) }
{
    match re {
        Some(re) => with_small_loop(sheet, kind, re, next),
        None => Ok(past(sheet, next, Limit::Large)),
    }
}

fn with_block(alloc: Global, sheet: Sheet, next: Position) -> Result<Option<Progress>, NoMemory>
    ensures { IfOk result (Joins (Progress.Whole sheet) Opens next) }
{
    if sheet.depth < MOST {
        Ok(whole_if(open_block(alloc, sheet)?))
    } else {
        Ok(past(sheet, next, Limit::Deep))
    }
}

fn with_action(
    alloc: Global,
    sheet: Sheet,
    built: Limited<Act>,
    next: Position,
) -> Result<Option<Progress>, NoMemory>
    ensures { IfOk result (λ o. (act : Action) → IsBuiltAction built act → levels act ≡ 0
        → Joins (Progress.Whole sheet) (Does act) next o) }
{
    match built {
        Limited::Whole(act) => Ok(whole_if(join_action(alloc, sheet, act)?)),
        Limited::Deep => Ok(past(sheet, next, Limit::Deep)),
        Limited::Large => Ok(past(sheet, next, Limit::Large)),
    }
}

fn with_token(
    alloc: Global,
    sheet: Sheet,
    token: Token,
    next: Position,
) -> Result<Option<Progress>, NoMemory>
    ensures { IfOk result (λ o. (p : Piece) → IsToken token p → piece_levels p ≡ 0
        → Joins (Progress.Whole sheet) p next o) }
{
    match token {
        Token::Blank => Ok(Some(Progress::Whole(sheet))),
        Token::EndsLine => Ok(whole_if(end_line(alloc, sheet)?)),
        Token::At(built) => Ok(with_address(sheet, built, next)),
        Token::Loops(kind, re) => with_loop(sheet, kind, re, next),
        Token::Opens => with_block(alloc, sheet, next),
        Token::Closes => Ok(whole_if(close_block(alloc, sheet)?)),
        Token::Does(built) => with_action(alloc, sheet, built, next),
    }
}

// Whether an expression of what is read has too many nodes.
fn is_told_large<T>(built: &Limited<T>) -> bool
    ensures { result ≡ is_told_large built.now }
{
    match built {
        Limited::Whole(_) => false,
        Limited::Deep => false,
        Limited::Large => true,
    }
}

fn is_large_expression(built: &Option<Re>) -> bool
    ensures { (re : expression.Tree) → IsBuiltExpression built.now re → result ≡ is_large_expression re }
{
    match built {
        Some(_) => false,
        None => true,
    }
}

// Whether an expression of the token has too many nodes.
fn is_large(token: &Token) -> bool
    ensures { (p : Piece) → IsToken token.now p → result ≡ piece_large p }
{
    match token {
        Token::At(built) => is_told_large(built),
        Token::Loops(_, built) => is_large_expression(built),
        Token::Does(built) => is_told_large(built),
        Token::Blank => false,
        Token::EndsLine => false,
        Token::Opens => false,
        Token::Closes => false,
    }
}

fn worse(limit: Limit, large: bool) -> Limit
    ensures { result ≡ (if large then Limit.Large else limit) }
{
    if large { Limit::Large } else { limit }
}

// Past a limit, a token is let go, by a call as in `past`.
fn past_on(limit: Limit, token: Token, next: Position) -> Progress
    ensures { (p : Piece) → IsToken token p → result
        ≡ Progress.Past next (if piece_large p then Limit.Large else limit) }
{
    let large = is_large(&token);
    drop(token);
    Progress::Past(next, worse(limit, large))
}

/// What is read with one token more, behind which the reader is at the position; `None` where no command goes on so,
/// which `after_kind` tells before.
pub fn join(
    alloc: Global,
    progress: Progress,
    token: Token,
    next: Position,
) -> Result<Option<Progress>, NoMemory>
    ensures { IfOk result (λ o. (p : Piece) → IsToken token p → piece_levels p ≡ 0 → Joins progress p next o) }
{
    match progress {
        Progress::Whole(sheet) => with_token(alloc, sheet, token, next),
        Progress::Past(_, limit) => Ok(Some(past_on(limit, token, next))),
    }
}

/// What is read before the first token.
pub fn begin(alloc: Global) -> Progress
    ensures { Follows result begin }
{
    Progress::Whole(reading::begin(alloc))
}

// The command of all that is read, where it may end here.
fn whole(alloc: Global, progress: Progress) -> Result<Cmd, SynFault>
    ensures ok { IfOk result (λ c. (r : Reading) → Follows progress r → is_done r ≡ true → (command c ≡ whole r)
        × IsInLimits (whole r)) }
    ensures err { IfErr result (λ e. (r : Reading) → Follows progress r → PastFails r e) }
{
    match progress {
        Progress::Whole(sheet) => Ok(reading::command(alloc, sheet)?),
        Progress::Past(_, Limit::Deep) => Err(SynFault::Deep),
        Progress::Past(_, Limit::Large) => Err(SynFault::Nodes),
    }
}

// All that is read is let go, by a call as in `past`.
fn short(progress: Progress, end: usize) -> Result<Cmd, SynFault>
    ensures { result ≡ Err (SynFault.Bad end) }
{
    drop(progress);
    Err(SynFault::Bad(end))
}

/// The command of all that is read.
pub fn finish(alloc: Global, progress: Progress, end: usize) -> Result<Cmd, SynFault>
    ensures ok { IfOk result (λ c. (r : Reading) → Follows progress r → (is_done r ≡ true) × (command c ≡ whole r)
        × IsInLimits (whole r)) }
    ensures err { IfErr result (λ e. (r : Reading) → Follows progress r → FinishFails end r e) }
{
    if is_end(position_of(&progress)) {
        whole(alloc, progress)
    } else {
        short(progress, end)
    }
}
