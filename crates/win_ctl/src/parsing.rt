//! Reading control messages.

ghost use Rattle.std.specs.Prelude.{◌≡◌, IfOk, IfErr, Ok};
ghost use Rattle.am_text.specs.Utf8.{decode};
ghost use Rattle.win_ctl.specs.Messages.{message_beside, range_messages, window_messages, idle_messages, is_dump};
ghost use Rattle.win_ctl.specs.Messages.{plain_msg, has_blank, is_bad_name, name_msg, ctl_of, Refuses};

use crate::message::{CtlFault, CtlMsg};
use am_text::{Rune, SPACE, after_front, decode_whole};
use std::alloc::Global;

fn range_msg(line: &[u8]) -> Option<CtlMsg>
    ensures { result ≡ message_beside range_messages line.now }
{
    if line == b"addr=dot".as_slice() {
        Some(CtlMsg::AddrDot)
    } else if line == b"dot=addr".as_slice() {
        Some(CtlMsg::DotAddr)
    } else if line == b"limit=addr".as_slice() {
        Some(CtlMsg::LimitAddr)
    } else if line == b"mark".as_slice() {
        Some(CtlMsg::Mark)
    } else if line == b"nomark".as_slice() {
        Some(CtlMsg::NoMark)
    } else {
        None
    }
}

fn window_msg(line: &[u8]) -> Option<CtlMsg>
    ensures { result ≡ message_beside window_messages line.now }
{
    if line == b"clean".as_slice() {
        Some(CtlMsg::Clean)
    } else if line == b"dirty".as_slice() {
        Some(CtlMsg::Dirty)
    } else if line == b"cleartag".as_slice() {
        Some(CtlMsg::ClearTag)
    } else if line == b"del".as_slice() {
        Some(CtlMsg::Del)
    } else if line == b"delete".as_slice() {
        Some(CtlMsg::Delete)
    } else if line == b"get".as_slice() {
        Some(CtlMsg::Get)
    } else if line == b"put".as_slice() {
        Some(CtlMsg::Put)
    } else {
        None
    }
}

fn idle_msg(line: &[u8]) -> Option<CtlMsg>
    ensures { result ≡ message_beside idle_messages line.now }
{
    if line == b"dump".as_slice() {
        Some(CtlMsg::Idle)
    } else if line == b"dumpdir".as_slice() {
        Some(CtlMsg::Idle)
    } else if line == b"scroll".as_slice() {
        Some(CtlMsg::Idle)
    } else if line == b"noscroll".as_slice() {
        Some(CtlMsg::Idle)
    } else if line == b"show".as_slice() {
        Some(CtlMsg::Idle)
    } else {
        None
    }
}

// Whether a dump is asked for, with a text after its blank.
fn is_dump(line: &[u8]) -> bool
    ensures { result ≡ is_dump line.now }
{
    line.starts_with(b"dump ") || line.starts_with(b"dumpdir ")
}

// The message of a line that gives no name.
#[tactic(auto, unfolding(crate::specs::Messages::plain_msg))]
fn plain_msg(line: &[u8]) -> Option<CtlMsg>
    ensures { result ≡ plain_msg line.now }
{
    if is_dump(line) {
        return Some(CtlMsg::Idle);
    }
    if let Some(msg) = range_msg(line) {
        return Some(msg);
    }
    if let Some(msg) = window_msg(line) {
        return Some(msg);
    }
    idle_msg(line)
}

// Whether a rune is a blank or a control: none past the blank is.
fn has_blank(name: &[Rune]) -> bool
    ensures { result ≡ has_blank name.now }
{
    name.iter().any(|rune| *rune <= SPACE)
}

fn is_bad_name(name: &[Rune]) -> bool
    ensures { result ≡ is_bad_name name.now }
{
    name.is_empty() || has_blank(name)
}

// The message that gives this name.
#[tactic(auto, using(crate::proofs::CtlLemmas::names))]
fn name_msg(alloc: Global, bytes: &[u8]) -> Result<CtlMsg, CtlFault>
    ensures ok { IfOk result (λ msg. name_msg (decode bytes.now) ≡ Ok msg) }
    ensures fault { IfErr result (λ e. Refuses e (name_msg (decode bytes.now))) }
{
    let name = decode_whole(alloc, bytes)?;
    if is_bad_name(name.as_slice()) {
        return Err(CtlFault::BadName);
    }
    Ok(CtlMsg::Name(name))
}

/// The control message in one line without its newline. Unknown comes exactly where there is no such message, also
/// where memory runs out. BadName comes exactly where a name is given that is empty or has a rune of at most 0x20. Only
/// a line with a name takes memory.
#[tactic(auto, unfolding(crate::specs::Messages::ctl_of))]
pub fn parse_ctl(alloc: Global, line: &[u8]) -> Result<CtlMsg, CtlFault>
    ensures ok { IfOk result (λ msg. ctl_of line.now ≡ Ok msg) }
    ensures fault { IfErr result (λ e. Refuses e (ctl_of line.now)) }
{
    if let Some(name) = after_front(b"name ", line) {
        return name_msg(alloc, name);
    }
    match plain_msg(line) {
        Some(msg) => Ok(msg),
        None => Err(CtlFault::Unknown),
    }
}
