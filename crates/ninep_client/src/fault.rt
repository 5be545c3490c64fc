//! Why a call has no reply.

ghost use Rattle.std.specs.Prelude.{◌≡◌, not};
ghost use Rattle.ninep_client.specs.declared.fault.CallFault.TheVariants.{NoMemory};
ghost use Rattle.ninep_client.specs.Hearing.{fault_of};
ghost use Rattle.ninep_client.specs.Calls.{closes};

use am_text::Bytes;
use ninep_types::{WireError, WireFault};

/// Why a message was not sent, or there is no reply to give.
#[derive(Drop)]
pub enum CallFault {
    /// The server answered an error with this text (error(5)).
    Remote(Bytes),
    /// The message is longer than the server takes.
    Large,
    /// 1,024 tags are asked.
    Tags,
    /// An earlier call has closed the client.
    Closed,
    /// The sink has failed.
    WriteFault,
    /// The source has failed.
    ReadFault,
    /// The source came to its end.
    Ended,
    /// The source came to its end inside a message.
    Torn,
    /// What came is no message from a server.
    Wire(WireFault),
    /// A reply came to a tag that isn't asked, or has a reply already.
    Unasked(u16),
    /// A reply came with this type, which doesn't answer the message of its tag.
    Kind(u8),
    /// There isn't memory enough.
    NoMemory,
}

impl From<am_text::NoMemory> for CallFault {
    ghost from_gives = { λ _ e. e ≡ NoMemory };

    fn from(_e: am_text::NoMemory) -> CallFault {
        CallFault::NoMemory
    }
}

impl From<WireError> for CallFault {
    ghost from_gives = { λ w e. e ≡ fault_of w };

    fn from(e: WireError) -> CallFault {
        match e {
            WireError::Fault(fault) => CallFault::Wire(fault),
            WireError::NoMemory => CallFault::NoMemory,
        }
    }
}

/// Whether it is want of memory.
pub(crate) fn is_memory(fault: &CallFault) -> bool
    ensures { result ≡ not (closes fault.now) }
{
    matches!(fault, CallFault::NoMemory)
}

/// Whether a fault that comes while the client waits closes it.
pub(crate) fn closes(fault: &CallFault) -> bool
    ensures { result ≡ closes fault.now }
{
    !is_memory(fault)
}
