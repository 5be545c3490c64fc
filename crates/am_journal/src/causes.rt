//! Why a connection ended, in words.

ghost use Rattle.std.specs.Prelude.{◌≡◌, ◌++◌, OnOk};
ghost use Rattle.am_journal.specs.Causes.{fault_word, bad_word, cause, plain_causes, broken_causes, looked_up};
ghost use Rattle.am_journal.specs.Causes.{ending_of};

use crate::ending::{Bad, Ending};
use am_text::{Bytes, NoMemory};
use ninep_types::WireFault;

fn fault_word(fault: WireFault) -> &'static [u8]
    ensures { result.now ≡ fault_word fault }
{
    match fault {
        WireFault::Size => b"size",
        WireFault::Kind => b"type",
        WireFault::Short => b"short",
        WireFault::Long => b"long",
        WireFault::Text => b"text",
        WireFault::Names => b"names",
    }
}

fn bad_word(bad: Bad) -> &'static [u8]
    ensures { result.now ≡ bad_word bad }
{
    match bad {
        Bad::Wire(fault) => fault_word(fault),
        Bad::Size => b"msize",
        Bad::Tag => b"tag",
    }
}

/// Puts two texts at the end.
pub(crate) fn put_two(out: &mut Bytes, first: &[u8], second: &[u8]) -> Result<(), NoMemory>
    ensures { OnOk result (out.new ≡ out.old ++ first.now ++ second.now) }
{
    out.append(first)?;
    out.append(second)?;
    Ok(())
}

/// Puts the words of a cause at the end.
pub(crate) fn put_cause(out: &mut Bytes, ending: Ending) -> Result<(), NoMemory>
    ensures { OnOk result (out.new ≡ out.old ++ cause ending) }
{
    match ending {
        Ending::End => out.append(b"end"),
        Ending::Torn => out.append(b"torn"),
        Ending::ReadFault => out.append(b"fault"),
        Ending::Broken(bad) => put_two(out, b"broken ", bad_word(bad)),
        Ending::Spent => out.append(b"spent"),
        Ending::Gone => out.append(b"gone"),
        Ending::NoMemory => out.append(b"memory"),
    }
}

fn plain_of(words: &[u8]) -> Option<Ending>
    ensures { result ≡ looked_up plain_causes words.now }
{
    if words == b"end".as_slice() {
        Some(Ending::End)
    } else if words == b"torn".as_slice() {
        Some(Ending::Torn)
    } else if words == b"fault".as_slice() {
        Some(Ending::ReadFault)
    } else if words == b"spent".as_slice() {
        Some(Ending::Spent)
    } else if words == b"gone".as_slice() {
        Some(Ending::Gone)
    } else if words == b"memory".as_slice() {
        Some(Ending::NoMemory)
    } else {
        None
    }
}

fn broken_of(words: &[u8]) -> Option<Ending>
    ensures { result ≡ looked_up broken_causes words.now }
{
    let bad = if words == b"broken size".as_slice() {
        Bad::Wire(WireFault::Size)
    } else if words == b"broken type".as_slice() {
        Bad::Wire(WireFault::Kind)
    } else if words == b"broken short".as_slice() {
        Bad::Wire(WireFault::Short)
    } else if words == b"broken long".as_slice() {
        Bad::Wire(WireFault::Long)
    } else if words == b"broken text".as_slice() {
        Bad::Wire(WireFault::Text)
    } else if words == b"broken names".as_slice() {
        Bad::Wire(WireFault::Names)
    } else if words == b"broken msize".as_slice() {
        Bad::Size
    } else if words == b"broken tag".as_slice() {
        Bad::Tag
    } else {
        return None;
    };
    Some(Ending::Broken(bad))
}

/// The cause that these words tell.
#[tactic(auto, unfolding(crate::specs::Causes::ending_of))]
pub(crate) fn ending_of(words: &[u8]) -> Option<Ending>
    ensures { result ≡ ending_of words.now }
{
    match plain_of(words) {
        Some(ending) => Some(ending),
        None => broken_of(words),
    }
}
