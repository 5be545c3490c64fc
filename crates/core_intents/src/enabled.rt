//! The reasons for which an event isn't enabled.

ghost use Rattle.std.specs.Prelude.{◌≡◌};
ghost use Rattle.core_intents.specs.Enabled.{first_why, dial_refusal, live_refusal, size_refusal, tag_refusal};
ghost use Rattle.core_intents.specs.Enabled.{replies_refusal, msg_refusal, took_refusal, new_refusal, tree_refusal};

use am_journal::Why;
use core_parts::{Connection, REPLIES};
use ninep_types::MAX_MSIZE;

/// The first of two reasons, of which the second counts where there is no first one.
pub(crate) fn first_why(first: Option<Why>, later: Option<Why>) -> Option<Why>
    ensures { result ≡ first_why first later }
{
    match first {
        Some(why) => Some(why),
        None => later,
    }
}

/// Why a connection can't be dialled.
pub(crate) fn dial_refusal(connection: Connection) -> Option<Why>
    ensures { result ≡ dial_refusal connection }
{
    match connection {
        Connection::Undialed => None,
        Connection::Live => Some(Why::Dialed),
        Connection::Ended(_) => Some(Why::Dialed),
    }
}

/// Why a connection can't do what one does that lives.
pub(crate) fn live_refusal(connection: Connection) -> Option<Why>
    ensures { result ≡ live_refusal connection }
{
    match connection {
        Connection::Undialed => Some(Why::Conn),
        Connection::Live => None,
        Connection::Ended(_) => Some(Why::Ended),
    }
}

fn size_refusal(msize: Option<u32>, size: usize) -> Option<Why>
    ensures { result ≡ size_refusal msize size }
{
    let most = msize.unwrap_or(MAX_MSIZE);
    if most as usize >= size {
        None
    } else {
        Some(Why::Size)
    }
}

fn replies_refusal(count: usize) -> Option<Why>
    ensures { result ≡ replies_refusal count }
{
    if count >= REPLIES {
        Some(Why::Replies)
    } else {
        None
    }
}

fn tag_refusal(used: bool) -> Option<Why>
    ensures { result ≡ tag_refusal used }
{
    if used { Some(Why::Tag) } else { None }
}

/// Why a message of so many bytes can't come, whose tag is that of a read that waits, or isn't.
pub(crate) fn msg_refusal(
    connection: Connection,
    msize: Option<u32>,
    used: bool,
    count: usize,
    size: usize,
) -> Option<Why>
    ensures { result ≡ msg_refusal connection msize used count size }
{
    first_why(
        live_refusal(connection),
        first_why(
            size_refusal(msize, size),
            first_why(tag_refusal(used), replies_refusal(count)),
        ),
    )
}

/// Why the unsent replies, of which there are so many, can't be taken.
pub(crate) fn took_refusal(connection: Connection, count: usize) -> Option<Why>
    ensures { result ≡ took_refusal connection count }
{
    match connection {
        Connection::Undialed => Some(Why::Conn),
        Connection::Live => { if count == 0 { Some(Why::Nothing) } else { None } }
        Connection::Ended(_) => { if count == 0 { Some(Why::Nothing) } else { None } }
    }
}

/// Why no window can be made.
pub(crate) fn new_refusal(full: bool) -> Option<Why>
    ensures { result ≡ new_refusal full }
{
    if full { Some(Why::Windows) } else { None }
}

/// Why nothing can be stored or made in the tree of files, where it clashes with what stands there.
pub(crate) fn tree_refusal(clashes: bool) -> Option<Why>
    ensures { result ≡ tree_refusal clashes }
{
    if clashes { Some(Why::Tree) } else { None }
}
