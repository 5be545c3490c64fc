//! Joins the pieces of an address to its tree.

ghost use Rattle.std.specs.Prelude.{◌≡◌, ◌-◌, true, false, nat_lt, Option, Some, None, IfOk, IfSome, IfNone};
ghost use Rattle.std.specs.Prelude.{if◌then◌else◌};
ghost use Rattle.addr_syntax.specs.Tree.{Tree, tree, side, tree_of, operators, is_large};
ghost use Rattle.addr_syntax.specs.Joined.{Reading, Nothing, begin, after_piece, is_nothing, by_sign, by_separator};
ghost use Rattle.addr_syntax.specs.Joined.{first_part, with_part, row_tree, whole, join_part, join_sign};
ghost use Rattle.addr_syntax.specs.Joined.{join_separator};
ghost use Rattle.addr_syntax.specs.Read.{row_of, reading_of, ending_of, Builds, Follows, IsPart, supplied};
ghost use Rattle.addr_syntax.specs.Pieces.{Piece};
ghost use Rattle.addr_syntax.specs.Scan.{IsToken};
ghost use Rattle.addr_syntax.specs.declared.address.Addr.{back-Addr-Plus-0};

use crate::address::Addr;
use crate::mark::{Separator, Sign};
use am_text::NoMemory;
use std::alloc::Global;

// How many operators an address may have.
const MOST_OPERATORS: usize = 1024;

/// A row of parts and signs so far.
#[derive(Drop)]
pub enum Row {
    Nothing,
    /// A sign whose right side comes next, and what stands left of it.
    Signed(Option<Addr>, Sign),
    Ended(Addr),
}

/// What stands before the last comma or semicolon, and the row behind it.
#[derive(Drop)]
pub struct Sides {
    pub before: Option<(Option<Addr>, Separator)>,
    pub row: Row,
}

/// What is built so far.
#[derive(Drop)]
pub enum Built {
    /// The sides, and how many operators they have.
    Whole(Sides, usize),
    /// There are too many operators.
    Deep,
    /// There is an expression of too many nodes.
    Large,
}

/// How a row ends.
#[derive(Clone, Copy)]
pub enum Ending {
    Nothing,
    Sign,
    Part,
}

/// How the last row ends, and what is built.
#[derive(Drop)]
pub struct Progress {
    pub ending: Ending,
    pub built: Built,
}

// A side in a box of its own, where there is one.
fn in_box(alloc: Global, a: Option<Addr>) -> Result<Option<Box<Addr>>, NoMemory>
    ensures { IfOk result (λ b. side (back-Addr-Plus-0 b) ≡ tree_of a) }
{
    match a {
        Some(a) => Ok(Some(Box::new(alloc, a)?)),
        None => Ok(None),
    }
}

// The sum or the difference.
fn by_sign(alloc: Global, sign: Sign, a: Option<Addr>, b: Option<Addr>) -> Result<Addr, NoMemory>
    ensures { IfOk result (λ new. tree new ≡ by_sign sign (tree_of a) (tree_of b)) }
{
    let a = in_box(alloc, a)?;
    let b = in_box(alloc, b)?;
    match sign {
        Sign::Plus => Ok(Addr::Plus(a, b)),
        Sign::Minus => Ok(Addr::Minus(a, b)),
    }
}

// The span from one side to the other.
fn by_separator(
    alloc: Global,
    separator: Separator,
    a: Option<Addr>,
    b: Option<Addr>,
) -> Result<Addr, NoMemory>
    ensures { IfOk result (λ new. tree new ≡ by_separator separator (tree_of a) (tree_of b)) }
{
    let a = in_box(alloc, a)?;
    let b = in_box(alloc, b)?;
    match separator {
        Separator::Comma => Ok(Addr::Comma(a, b)),
        Separator::Semi => Ok(Addr::Semi(a, b)),
    }
}

// A line number as the first part of a row.
fn first_part(part: Addr) -> Addr
    ensures { tree result ≡ first_part (tree part) }
{
    match part {
        Addr::Line(0) => Addr::Zero,
        other => other,
    }
}

// A part more behind a row.
fn with_part(alloc: Global, row: Row, part: Addr) -> Result<Row, NoMemory>
    ensures { IfOk result (λ new. row_of new ≡ with_part (row_of row) (tree part)) }
{
    match row {
        Row::Nothing => Ok(Row::Ended(first_part(part))),
        Row::Signed(a, sign) => Ok(Row::Ended(by_sign(alloc, sign, a, Some(part))?)),
        Row::Ended(a) => Ok(Row::Ended(by_sign(alloc, Sign::Plus, Some(a), Some(part))?)),
    }
}

// The tree of a row, where it has one.
fn row_tree(alloc: Global, row: Row) -> Result<Option<Addr>, NoMemory>
    ensures tree { IfOk result (λ new. tree_of new ≡ row_tree (row_of row)) }
    ensures none { IfOk result (λ new. IfNone new (row_of row ≡ Nothing)) }
{
    match row {
        Row::Nothing => Ok(None),
        Row::Signed(a, sign) => Ok(Some(by_sign(alloc, sign, a, None)?)),
        Row::Ended(a) => Ok(Some(a)),
    }
}

/// The tree of both sides, where there is one.
pub fn whole(alloc: Global, sides: Sides) -> Result<Option<Addr>, NoMemory>
    ensures tree { IfOk result (λ new. tree_of new ≡ whole (reading_of sides)) }
    ensures none { IfOk result (λ new. IfNone new (reading_of sides ≡ begin)) }
{
    let Sides { before, row } = sides;
    let last = row_tree(alloc, row)?;
    match before {
        Some((a, separator)) => Ok(Some(by_separator(alloc, separator, a, last)?)),
        None => Ok(last),
    }
}

// With a part behind the row.
fn join_part(alloc: Global, sides: Sides, part: Addr) -> Result<Sides, NoMemory>
    ensures { IfOk result (λ new. reading_of new ≡ join_part (reading_of sides) (tree part)) }
{
    let Sides { before, row } = sides;
    Ok(Sides {
        before,
        row: with_part(alloc, row, part)?,
    })
}

// With a sign behind the row.
fn join_sign(alloc: Global, sides: Sides, sign: Sign) -> Result<Sides, NoMemory>
    ensures { IfOk result (λ new. reading_of new ≡ join_sign (reading_of sides) sign) }
{
    let Sides { before, row } = sides;
    Ok(Sides {
        before,
        row: Row::Signed(row_tree(alloc, row)?, sign),
    })
}

// With a separator behind the row.
fn join_separator(alloc: Global, sides: Sides, separator: Separator) -> Result<Sides, NoMemory>
    ensures { IfOk result (λ new. reading_of new ≡ join_separator (reading_of sides) separator) }
{
    Ok(Sides {
        before: Some((whole(alloc, sides)?, separator)),
        row: Row::Nothing,
    })
}

// What is built, where there was room for so many operators before so many more.
fn within_room(sides: Sides, room: usize, more: usize) -> Built
    ensures { result ≡ (if nat_lt room more then Built.Deep else Built.Whole sides (room - more)) }
{
    if room < more {
        Built::Deep
    } else {
        Built::Whole(sides, room - more)
    }
}

// How many operators come with a part.
fn supplied(ending: Ending) -> usize
    ensures { result ≡ supplied ending }
{
    match ending {
        Ending::Nothing => 0,
        Ending::Sign => 0,
        Ending::Part => 1,
    }
}

// Past a limit the parts are let go.
fn too_large(_built: Built) -> Built
    ensures { result ≡ Built.Large }
{
    Built::Large
}

// Nothing is built of the part.
fn without(built: Built, _part: Addr) -> Built
    ensures { result ≡ built }
{
    built
}

#[tactic(auto, using(crate::proofs::Counts::counts))]
fn build_small_part(alloc: Global, built: Built, part: Addr, more: usize) -> Result<Built, NoMemory>
    ensures { IfOk result (λ new. (r : Reading) → Builds built r → is_large (tree part) ≡ false → operators (tree part)
        ≡ 0 → more ≡ supplied (ending_of r.row) → Builds new (join_part r (tree part))) }
{
    match built {
        Built::Whole(sides, room) => Ok(within_room(join_part(alloc, sides, part)?, room, more)),
        Built::Deep => Ok(without(Built::Deep, part)),
        Built::Large => Ok(without(Built::Large, part)),
    }
}

// With a part, or with one that has a large expression.
#[tactic(auto, using(crate::proofs::Counts::counts))]
fn build_part(
    alloc: Global,
    built: Built,
    part: Option<Addr>,
    more: usize,
) -> Result<Built, NoMemory>
    ensures { IfOk result (λ new. (r : Reading) (p : Tree) → Builds built r → IsPart part p → more
        ≡ supplied (ending_of r.row) → Builds new (join_part r p)) }
{
    match part {
        Some(part) => build_small_part(alloc, built, part, more),
        None => Ok(too_large(built)),
    }
}

fn build_sign(alloc: Global, built: Built, sign: Sign) -> Result<Built, NoMemory>
    ensures { IfOk result (λ new. (r : Reading) → Builds built r → Builds new (join_sign r sign)) }
{
    match built {
        Built::Whole(sides, room) => Ok(within_room(join_sign(alloc, sides, sign)?, room, 1)),
        Built::Deep => Ok(Built::Deep),
        Built::Large => Ok(Built::Large),
    }
}

fn build_separator(alloc: Global, built: Built, separator: Separator) -> Result<Built, NoMemory>
    ensures { IfOk result (λ new. (r : Reading) → Builds built r → Builds new (join_separator r separator)) }
{
    match built {
        Built::Whole(sides, room) => {
            Ok(within_room(join_separator(alloc, sides, separator)?, room, 1))
        }
        Built::Deep => Ok(Built::Deep),
        Built::Large => Ok(Built::Large),
    }
}

/// A part, a sign or a separator.
#[derive(Drop)]
pub enum Token {
    /// `.` or `$`, which stand only where a row begins.
    Begins(Addr),
    /// A part that may stand anywhere, or one that has a large expression.
    Stands(Option<Addr>),
    Adds(Sign),
    Splits(Separator),
}

fn with_stands(alloc: Global, progress: Progress, part: Option<Addr>) -> Result<Progress, NoMemory>
    ensures { IfOk result (λ new. (r : Reading) (p : Tree) → Follows progress r → IsPart part p
        → Follows new (join_part r p)) }
{
    let Progress { ending, built } = progress;
    Ok(Progress {
        ending: Ending::Part,
        built: build_part(alloc, built, part, supplied(ending))?,
    })
}

fn with_adds(alloc: Global, progress: Progress, sign: Sign) -> Result<Progress, NoMemory>
    ensures { IfOk result (λ new. (r : Reading) → Follows progress r → Follows new (join_sign r sign)) }
{
    let Progress { ending: _, built } = progress;
    Ok(Progress {
        ending: Ending::Sign,
        built: build_sign(alloc, built, sign)?,
    })
}

fn with_splits(
    alloc: Global,
    progress: Progress,
    separator: Separator,
) -> Result<Progress, NoMemory>
    ensures { IfOk result (λ new. (r : Reading) → Follows progress r → Follows new (join_separator r separator)) }
{
    let Progress { ending: _, built } = progress;
    Ok(Progress {
        ending: Ending::Nothing,
        built: build_separator(alloc, built, separator)?,
    })
}

fn is_nothing(ending: Ending) -> bool
    ensures { (r : Reading) → ending ≡ ending_of r.row → result ≡ is_nothing r.row }
{
    matches!(ending, Ending::Nothing)
}

// With `.` or `$`; `None` where no row begins.
fn with_begins(alloc: Global, progress: Progress, part: Addr) -> Result<Option<Progress>, NoMemory>
    ensures some { IfOk result (λ o. IfSome o (λ new. (r : Reading) (q : Tree) → Follows progress r
        → IsPart (Some part) q → (is_nothing r.row ≡ true) × Follows new (join_part r q))) }
    ensures none { IfOk result (λ o. IfNone o ((r : Reading) → Follows progress r → is_nothing r.row ≡ false)) }
{
    if !is_nothing(progress.ending) {
        return Ok(None);
    }
    Ok(Some(with_stands(alloc, progress, Some(part))?))
}

/// What is read with one token more; `None` where no address goes on so.
pub fn join(alloc: Global, progress: Progress, token: Token) -> Result<Option<Progress>, NoMemory>
    ensures some { IfOk result (λ o. IfSome o (λ new. (r : Reading) (p : Piece) → Follows progress r → IsToken token p
        → (s : Reading) × (after_piece r p ≡ Some s) × Follows new s)) }
    ensures none { IfOk result (λ o. IfNone o ((r : Reading) (p : Piece) → Follows progress r → IsToken token p
        → after_piece r p ≡ None)) }
{
    match token {
        Token::Begins(part) => with_begins(alloc, progress, part),
        Token::Stands(part) => Ok(Some(with_stands(alloc, progress, part)?)),
        Token::Adds(sign) => Ok(Some(with_adds(alloc, progress, sign)?)),
        Token::Splits(separator) => Ok(Some(with_splits(alloc, progress, separator)?)),
    }
}

/// What is read before the first token.
pub fn begin() -> Progress
    ensures { Follows result begin }
{
    Progress {
        ending: Ending::Nothing,
        built: Built::Whole(
            Sides {
                before: None,
                row: Row::Nothing,
            },
            MOST_OPERATORS,
        ),
    }
}
