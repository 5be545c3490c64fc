//! Events in words.

ghost use Rattle.std.specs.Prelude.{◌≡◌, IfOk};
ghost use Rattle.am_journal.specs.Lawful.{IsLawful};
ghost use Rattle.ninep_trace.specs.Words.{event_words};

use crate::t_words::words_t;
use am_journal::{Event, write_line};
use am_text::{Bytes, NoMemory};
use std::alloc::Global;

/// The one line in words of an event, without its newline: a message is in words, every other
/// event is as in a transcript.
pub fn words_of(alloc: Global, event: &Event) -> Result<Bytes, NoMemory>
    requires { IsLawful event.now }
    ensures exact { IfOk result (λ line. line ≡ event_words event.now) }
{
    match event {
        Event::Msg { conn, msg } => words_t(alloc, *conn, msg),
        Event::Dial { .. }
        | Event::Hang { .. }
        | Event::Took { .. }
        | Event::New
        | Event::Key { .. }
        | Event::Sel { .. }
        | Event::Exec { .. }
        | Event::Arg { .. }
        | Event::Look { .. }
        | Event::File { .. }
        | Event::Dir { .. } => write_line(alloc, event),
    }
}
