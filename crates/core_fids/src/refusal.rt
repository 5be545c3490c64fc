//! Named refusals, which are answered by Rerror.

ghost use Rattle.std.specs.Prelude.{◌≡◌, IfOk};
ghost use Rattle.core_fids.specs.Refusals.{refusal_text, refusal_with_effect};
ghost use Rattle.core_fids.specs.Done.{IsSent, IsStill};
ghost use Rattle.core_fids.specs.declared.refusal.Fault.TheVariants.{NoMemory};

use crate::effect::{Effect, Reaction};
use am_text::{Items, NoMemory};
use ninep_types::RBody;
use std::alloc::Global;

/// Why a message is refused.
#[derive(Clone, Copy, Debug, PartialEq, Eq)]
pub enum Refusal {
    /// No session is open.
    VersionFirst,
    /// The msize asked for is below 256.
    MsizeTooSmall,
    /// There is no authentication.
    AuthenticationNotRequired,
    /// The number is that of no fid.
    BadFid,
    /// The number is in use.
    FidInUse,
    /// The connection has 1,024 fids, in format 2 16,384.
    TooManyFids,
    /// No tree has this name.
    NoSuchTree,
    /// The number isn't in use.
    UnknownFid,
    /// The window was deleted.
    WindowDeleted,
    /// The fid is open.
    FidIsOpen,
    /// The fid isn't open.
    FidIsNotOpen,
    /// A name is walked from a file.
    NotADirectory,
    /// The directory has no file of this name.
    FileNotFound,
    /// No more windows can be made.
    TooManyWindows,
    /// No more openings of event files, of ports, of `log` or of `jobs` can be made.
    TooManyOpenings,
    /// The mode has bits that mean nothing.
    BadOpenMode,
    /// The file isn't for this.
    PermissionDenied,
    /// The connection has 64 reads that wait, in format 2 256.
    TooManyWaitingReads,
    /// The fid of a waiting read was freed.
    FidClunked,
    /// A directory is read neither from its front nor on from the last read.
    BadDirectoryOffset,
    /// A body would have more than 16,777,216 runes, or the right part of a tag more than 65,536.
    TextTooLong,
    /// The window is modified.
    WindowModified,
    /// What is written to `ctl` is no control message.
    BadControlMessage,
    /// A control message gives a name that no window can have.
    BadFileName,
    /// What is written to `addr` is no address.
    BadAddress,
    /// An address names a rune or a line that isn't there.
    AddressOutOfRange,
    /// An expression of an address has no match.
    NoMatch,
    /// The right side of `,` or `;` ends before the left one begins.
    AddressOutOfOrder,
    /// What is written to `data` ends in an unfinished rune.
    PartialRune,
    /// The window has no name, by which its text could be read or stored.
    NoFileName,
    /// What is written to an event file is no event message.
    BadEvent,
    /// No item that was taken fits what is written back.
    NoSuchEvent,
    /// The item that fits what is written back was written back before.
    EventAlreadyWrittenBack,
    /// What is written to `send` is no plumb message.
    BadPlumbMessage,
    /// No set of rules takes the message, and it names no port.
    NoMatchingRule,
    /// The port of the message has no opening, or there is no such port.
    PortNotOpen,
    /// The port keeps as many messages as it may.
    PortQueueFull,
    /// What is written to `rules` has a line that is no rule, or a set that is none.
    BadRule,
    /// An expression of a rule has more than 2,048 nodes.
    BadExpressionSize,
    /// There would be more than 65,536 ports, or more than 262,144 bytes of rules.
    TooManyRules,
    /// What is written to `jobs` is no answer to a request.
    BadAnswer,
    /// The request was answered before.
    RequestAlreadyAnswered,
    /// The opening of `jobs` didn't take the request.
    NoSuchRequest,
}

/// Why a message isn't done.
#[derive(Clone, Copy, Debug, PartialEq, Eq)]
pub enum Fault {
    /// It is refused.
    Refused(Refusal),
    /// There is no memory for it.
    NoMemory,
}

impl From<am_text::NoMemory> for Fault {
    ghost from_gives = { λ _ e. e ≡ NoMemory };

    fn from(_e: am_text::NoMemory) -> Fault {
        Fault::NoMemory
    }
}

/// The text of a refusal, as the answer has it.
pub(crate) fn refusal_text(refusal: Refusal) -> &'static [u8]
    ensures { result.now ≡ refusal_text refusal }
{
    match refusal {
        Refusal::VersionFirst => b"version first",
        Refusal::MsizeTooSmall => b"msize too small",
        Refusal::AuthenticationNotRequired => b"authentication not required",
        Refusal::BadFid => b"bad fid",
        Refusal::FidInUse => b"fid in use",
        Refusal::TooManyFids => b"too many fids",
        Refusal::NoSuchTree => b"no such tree",
        Refusal::UnknownFid => b"unknown fid",
        Refusal::WindowDeleted => b"window deleted",
        Refusal::FidIsOpen => b"fid is open",
        Refusal::FidIsNotOpen => b"fid is not open",
        Refusal::NotADirectory => b"not a directory",
        Refusal::FileNotFound => b"file not found",
        Refusal::TooManyWindows => b"too many windows",
        Refusal::TooManyOpenings => b"too many openings",
        Refusal::BadOpenMode => b"bad open mode",
        Refusal::PermissionDenied => b"permission denied",
        Refusal::TooManyWaitingReads => b"too many waiting reads",
        Refusal::FidClunked => b"fid clunked",
        Refusal::BadDirectoryOffset => b"bad directory offset",
        Refusal::TextTooLong => b"text too long",
        Refusal::WindowModified => b"window modified",
        Refusal::BadControlMessage => b"bad control message",
        Refusal::BadFileName => b"bad file name",
        Refusal::BadAddress => b"bad address",
        Refusal::AddressOutOfRange => b"address out of range",
        Refusal::NoMatch => b"no match",
        Refusal::AddressOutOfOrder => b"address out of order",
        Refusal::PartialRune => b"partial rune",
        Refusal::NoFileName => b"no file name",
        Refusal::BadEvent => b"bad event",
        Refusal::NoSuchEvent => b"no such event",
        Refusal::EventAlreadyWrittenBack => b"event already written back",
        Refusal::BadPlumbMessage => b"bad plumb message",
        Refusal::NoMatchingRule => b"no matching rule",
        Refusal::PortNotOpen => b"port not open",
        Refusal::PortQueueFull => b"port queue full",
        Refusal::BadRule => b"bad rule",
        Refusal::BadExpressionSize => b"bad regular expression size",
        Refusal::TooManyRules => b"too many rules",
        Refusal::BadAnswer => b"bad answer",
        Refusal::RequestAlreadyAnswered => b"request already answered",
        Refusal::NoSuchRequest => b"no such request",
    }
}

/// The answer of a refusal: an Rerror with its text.
#[tactic(auto, using(crate::proofs::Answers::sent))]
pub fn error(alloc: Global, refusal: Refusal) -> Result<RBody, NoMemory>
    ensures exact { IfOk result (λ answer. answer ≡ RBody.Error (refusal_text refusal)) }
    ensures sent { IfOk result IsSent }
{
    Ok(RBody::Error {
        ename: Items::copied(alloc, refusal_text(refusal))?,
    })
}

/// What a message does that is refused and does this.
pub fn refuse(alloc: Global, effect: Effect, refusal: Refusal) -> Result<Reaction, NoMemory>
    ensures exact { IfOk result (λ d. d ≡ refusal_with_effect effect refusal) }
    ensures still { IfOk result IsStill }
{
    Ok(Reaction::plain(effect, Items::new(alloc), error(alloc, refusal)?))
}
