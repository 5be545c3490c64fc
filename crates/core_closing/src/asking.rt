//! Answers to what is asked of the editor.

ghost use Rattle.std.specs.Prelude.{◌≡◌};
ghost use Rattle.core_closing.specs.Asks.{is_ended, has_room, answer_in};
ghost use Rattle.core_parts.specs.Parts.{present_of, AreSteady};

use am_counter::Ask;
use core_parts::{Connection, Parts, REPLIES, connection_at};

fn is_ended(connection: Connection) -> bool
    ensures { result ≡ is_ended connection }
{
    match connection {
        Connection::Undialed => false,
        Connection::Live => false,
        Connection::Ended(_) => true,
    }
}

// Whether a message may come, by the number of unsent replies.
fn has_room(count: usize) -> bool
    ensures { result ≡ has_room count }
{
    count < REPLIES
}

/// Answers a question. It takes no memory.
pub fn answer(parts: &Parts, ask: Ask) -> bool
    requires { AreSteady parts.now }
    ensures { result ≡ answer_in (present_of parts.now) ask }
{
    match ask {
        Ask::EventOpen(window) => parts.scene.book.is_open(window),
        Ask::Room(conn) => has_room(parts.outputs.count(conn)),
        Ask::Ended(conn) => is_ended(connection_at(&parts.connections, conn)),
    }
}
