//! How a connection ended.

ghost use Rattle.std.specs.Prelude.{◌≡◌};
ghost use Rattle.am_slots.specs.Connection.{ended_by};
ghost use Rattle.am_server.specs.Served.{first_of, ending_of};

use am_journal::{Ending, Event};

fn ended_by(event: &Event, conn: u32) -> Option<Ending>
    ensures { result ≡ first_of (ended_by conn event.now) }
{
    match event {
        Event::Hang { conn: c, why } if *c == conn => Some(*why),
        _ => None,
    }
}

/// The cause of a connection's first hang-up in a journal, or `None` where it has none.
pub(crate) fn ending_in(journal: &[Event], conn: u32) -> Option<Ending>
    ensures { result ≡ ending_of journal.now conn }
{
    for event in journal {
        if let Some(why) = ended_by(event, conn) {
            return Some(why);
        }
    }
    None
}
