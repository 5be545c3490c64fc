//! Laws of all journals.

ghost use Rattle.am_counter.specs.Laws.{TellsConnections};
ghost use Rattle.am_journal.specs.declared.event.Format.{Format};
ghost use Rattle.acme_core.specs.Asks.{answers_in};
ghost use Rattle.acme_core.specs.Laws.{EachIsAnswered, KeepsFormat};
ghost use Rattle.acme_core.specs.Run.{enabled_in};

use core_answers::laws::reactions_are_answered;

/// Over a journal of enabled events, of either format, a connection was dialled, or has ended, exactly where the journal has that entry.
#[tactic(auto, using(crate::proofs::Connected::connected))]
pub fn journals_tell_connections()
    ensures { (format : Format) → TellsConnections (enabled_in format) (answers_in format) }
{}

/// A message is answered by its own R message, unless one of the named refusals applies, whose text is answered.
pub fn messages_are_answered()
    ensures { EachIsAnswered }
{
    // law: each reaction answers its message
    reactions_are_answered();
}

/// No event changes the format, by which the limits of fids and of waiting reads go.
pub fn events_keep_the_format()
    ensures { KeepsFormat }
{}
