//! Where in a command the reader is.

ghost use Rattle.std.specs.Prelude.{◌≡◌, ◌+◌, ◌<◌, ◌^◌};
ghost use Rattle.sam_syntax.specs.Position.{behind_start, behind_address, behind_block, behind_line, after_kind};
ghost use Rattle.sam_syntax.specs.Position.{is_end};

use edit_parts::Kind;

/// What kind of line is read.
#[derive(Clone, Copy)]
pub enum Place {
    /// Behind `{`.
    Opened,
    /// At the beginning of a line.
    Begins,
    /// Behind a loop.
    Looping,
    /// Behind an address.
    Addressed,
    /// Behind the line's command.
    Ended,
}

/// How many blocks are open, and what kind of line is read.
#[derive(Clone, Copy)]
pub struct Position {
    pub blocks: usize,
    pub place: Place,
}

// This place, inside so many blocks.
fn to(blocks: usize, place: Place) -> Option<Position>
    ensures { result ≡ Some (record { blocks = blocks; place = place }) }
{
    Some(Position { blocks, place })
}

// Behind something that begins or is a command.
fn behind_start(position: Position, blocks: usize, place: Place) -> Option<Position>
    ensures { result ≡ behind_start position.place blocks place }
{
    match position.place {
        Place::Begins => to(blocks, place),
        Place::Looping => to(blocks, place),
        Place::Addressed => to(blocks, place),
        Place::Opened => None,
        Place::Ended => None,
    }
}

// Behind an address.
fn behind_address(position: Position) -> Option<Position>
    ensures { result ≡ behind_address position.place position.blocks }
{
    match position.place {
        Place::Begins => to(position.blocks, Place::Addressed),
        Place::Looping => to(position.blocks, Place::Addressed),
        Place::Addressed => None,
        Place::Opened => None,
        Place::Ended => None,
    }
}

// Behind the end of a block.
fn behind_block(position: Position) -> Option<Position>
    ensures { result ≡ behind_block position.place position.blocks }
{
    if position.blocks == 0 {
        return None;
    }
    match position.place {
        Place::Begins => to(position.blocks - 1, Place::Ended),
        Place::Looping => None,
        Place::Addressed => None,
        Place::Opened => None,
        Place::Ended => None,
    }
}

// Behind the end of a line.
fn behind_line(position: Position) -> Option<Position>
    ensures { result ≡ behind_line position.blocks }
{
    if position.blocks == 0 {
        None
    } else {
        to(position.blocks, Place::Begins)
    }
}

/// Where the reader is behind a piece of this kind; `None` where none can stand.
pub fn after_kind(position: Position, kind: Kind) -> Option<Position>
    ensures { position.blocks + 1 < 2 ^ 64 → result ≡ after_kind position kind }
{
    match kind {
        Kind::Blank => Some(position),
        Kind::EndsLine => behind_line(position),
        Kind::Address => behind_address(position),
        Kind::Loops(_) => behind_start(position, position.blocks, Place::Looping),
        Kind::Opens => behind_start(position, position.blocks.saturating_add(1), Place::Opened),
        Kind::Closes => behind_block(position),
        Kind::Acts(_) => behind_start(position, position.blocks, Place::Ended),
        Kind::Other => None,
    }
}

/// Whether a command may end here.
pub fn is_end(position: Position) -> bool
    ensures { result ≡ is_end position }
{
    if position.blocks > 0 {
        return false;
    }
    match position.place {
        Place::Opened => false,
        Place::Begins => true,
        Place::Looping => true,
        Place::Addressed => true,
        Place::Ended => true,
    }
}
