//! Laws of all journals.

ghost use Rattle.core_laws.specs.Laws.{RepliesAreSentOrUnsent, NothingAfterTheHangUp, EndedGetAllReplies};
ghost use Rattle.core_laws.specs.Laws.{RepliesAreSaid, FlushesAreAnswered, EachFlushIsAnswered, NothingToAFlushedTag};
ghost use Rattle.core_laws.specs.Laws.{ClicksAreTold, LivesNameTheEntry, WrittenBackOnce, NoReadCanBeAnswered};
ghost use Rattle.core_laws.specs.Moving.{ExecutedMovesAreMoves};
ghost use Rattle.core_laws.specs.Refusals.{RefusalsFollow};

/// All that was ever replied to a connection is what was sent to it, and then what is unsent.
#[tactic(auto, using(crate::proofs::Unsents::sent_or_unsent))]
pub fn replies_are_sent_or_unsent()
    ensures { RepliesAreSentOrUnsent }
{}

/// Once a connection has ended, no entry replies anything to it. So where nothing was unsent then, or later, what was
/// sent is all that it was ever replied.
pub fn ended_connections_get_nothing_more()
    ensures behind { NothingAfterTheHangUp }
    ensures all { EndedGetAllReplies }
{}

/// What an entry replies is what it says to connections, each time to the message of a tag. A Tflush in a session is
/// answered by Rflush alone, as is one for the tag of a read that waits. Behind an Rflush, whatever stood before it, no
/// read waits with the tag that it was said for, and nothing is said to that tag, up to the next message of that tag.
#[tactic(auto, using(crate::proofs::Flushes::flushing, crate::proofs::Sessions::answering))]
pub fn flushed_reads_are_not_answered()
    ensures said { RepliesAreSaid }
    ensures each { EachFlushIsAnswered }
    ensures answered { FlushesAreAnswered }
    ensures behind { NothingToAFlushedTag }
{}

/// An Exec or a Look in a window whose event file is open makes the item of that click, if it stands for a text, and no
/// other, which answers reads that wait. Nothing else changes.
pub fn clicks_are_told_where_the_event_file_is_open()
    ensures { ClicksAreTold }
{}

/// The life of an item names the entry that wrote it back, and did its action, whatever comes behind it. So an item
/// is acted on once at most.
#[tactic(auto, using(crate::proofs::Backs::backing))]
pub fn items_are_written_back_once()
    ensures named { LivesNameTheEntry }
    ensures once { WrittenBackOnce }
{}

/// Between entries no read that waits can be answered: an entry answers the oldest that can be, until none can.
pub fn no_waiting_read_can_be_answered()
    ensures { NoReadCanBeAnswered }
{}

/// Executing the built-in Undo, or Redo, does just that: by an Exec in a window whose event file isn't open, with an
/// argument or without one, and by an item that is written back.
#[tactic(auto, using(crate::proofs::Executed::executing))]
pub fn executed_moves_are_moves()
    ensures { ExecutedMovesAreMoves }
{}

/// Which refusal a message gets follows from the state: its text is said for the message exactly where there is one,
/// and else its own R message, unless it is a read that waits.
pub fn refusals_follow_from_the_state()
    ensures { RefusalsFollow }
{}
