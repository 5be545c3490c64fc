//! Why a command of Edit isn't done, and how that is said.

ghost use Rattle.std.specs.Prelude.{◌≡◌, IfOk};
ghost use Rattle.core_edit.specs.Faults.{fault_text, fault_line};
ghost use Rattle.core_edit.specs.Plans.{IsToldAs};

use am_text::{NoMemory, Runes, put_words};
use edit_run::EditFault;
use std::alloc::Global;

/// Why a command of Edit isn't done, as it is said in a line of an errors window.
#[derive(Clone, Copy, Debug, PartialEq, Eq)]
pub enum CommandFault {
    /// The text is no command, or one that passes a limit of the language.
    BadCommand,
    /// The body has no line or rune that an address asks for.
    AddressOutOfRange,
    /// An expression of an address has no match.
    NoMatch,
    /// An address would end before it begins.
    AddressOutOfOrder,
    /// A change begins before the end of the one before it.
    ChangesOutOfSequence,
    /// Text would be moved into itself.
    MoveOverlaps,
    /// The body would have more than 16,777,216 runes.
    TextTooLong,
    /// No live window has the name.
    NoSuchWindow,
    /// The window is modified, and its name is one that guards it.
    WindowModified,
    /// Neither the command nor the window has a name.
    NoFileName,
    /// No file or directory has the name, or none can have it.
    FileNotFound,
}

/// The fault of a command over a text, as it is said.
pub(crate) fn command_fault(fault: EditFault) -> Result<CommandFault, NoMemory>
    ensures { IfOk result (IsToldAs fault) }
{
    match fault {
        EditFault::Range => Ok(CommandFault::AddressOutOfRange),
        EditFault::NoMatch => Ok(CommandFault::NoMatch),
        EditFault::Order => Ok(CommandFault::AddressOutOfOrder),
        EditFault::Sequence => Ok(CommandFault::ChangesOutOfSequence),
        EditFault::Overlap => Ok(CommandFault::MoveOverlaps),
        EditFault::NoMemory => Err(NoMemory),
    }
}

fn fault_text(fault: CommandFault) -> &'static [u8]
    ensures { result.now ≡ fault_text fault }
{
    match fault {
        CommandFault::BadCommand => b"bad command",
        CommandFault::AddressOutOfRange => b"address out of range",
        CommandFault::NoMatch => b"no match",
        CommandFault::AddressOutOfOrder => b"address out of order",
        CommandFault::ChangesOutOfSequence => b"changes out of sequence",
        CommandFault::MoveOverlaps => b"move overlaps",
        CommandFault::TextTooLong => b"text too long",
        CommandFault::NoSuchWindow => b"no such window",
        CommandFault::WindowModified => b"window modified",
        CommandFault::NoFileName => b"no file name",
        CommandFault::FileNotFound => b"file not found",
    }
}

/// The line that says a fault.
#[tactic(auto, unfolding(crate::specs::Faults::fault_line))]
pub fn fault_line(alloc: Global, fault: CommandFault) -> Result<Runes, NoMemory>
    ensures { IfOk result (λ line. line ≡ fault_line fault) }
{
    let mut line = Runes::new(alloc);
    put_words(&mut line, b"Edit: ")?;
    put_words(&mut line, fault_text(fault))?;
    put_words(&mut line, b"\n")?;
    Ok(line)
}
