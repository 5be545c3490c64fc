//! What each call does to what an opening was given.

ghost use Rattle.event_book.specs.Laws.{BeginsWithNothing, AskAppends, ServeAppends, AskLeavesOthers};
ghost use Rattle.event_book.specs.Laws.{ServeLeavesOthers, NothingElseGives, CancelledIsGone, CancelledIsNotNext};
ghost use Rattle.event_book.specs.Laws.{OnlyAskWaits, ServedWaited, TakenWithItsAnswer, NoneTakenNoneChanged};
ghost use Rattle.event_book.specs.Laws.{TakenByAnswers, FoundFits, WrittenOnce, DroppedAtClose, EndedStay};

/// An opening begins with nothing given.
pub fn begins_with_nothing()
    ensures { BeginsWithNothing }
{}

/// Each answer appends its bytes to what its opening was given, and nothing to what others were.
pub fn answers_append()
    ensures ask { AskAppends }
    ensures serve { ServeAppends }
    ensures ask_others { AskLeavesOthers }
    ensures serve_others { ServeLeavesOthers }
{}

/// No other call changes what an opening was given that is open before and after it: none but an
/// `ask` that is answered and a `serve` that answers.
pub fn nothing_else_gives()
    ensures { NothingElseGives }
{}

/// After a cancel no read with that tag on that connection waits, nor is one the next. Only `ask`
/// makes a read wait, the one that it is called for, and `serve` answers only reads that wait. So a
/// read that was flushed is not answered, and takes no item, unless it is asked anew.
pub fn flushed_takes_none()
    ensures cancelled { CancelledIsGone }
    ensures next { CancelledIsNotNext }
    ensures adds { OnlyAskWaits }
    ensures served { ServedWaited }
{}

/// An answer that takes an item is a non-empty prefix of its spelling. The item was pending, then its
/// opening took it at the answer's entry, and all other items stay. An answer that takes none leaves
/// all items. No other call takes one: what is taken after it was so before, by the same opening at
/// the same entry.
pub fn taken_by_answers()
    ensures taken { TakenWithItsAnswer }
    ensures none { NoneTakenNoneChanged }
    ensures alone { TakenByAnswers }
{}

/// What `find` answers was taken and fits, so it can be written back; then it isn't found again.
pub fn written_once()
    ensures found { FoundFits }
    ensures once { WrittenOnce }
{}

/// An item is dropped only at the entry that closes the last opening of its window, or deletes the
/// window.
pub fn dropped_at_close()
    ensures { DroppedAtClose }
{}

/// What is written back or dropped stays so, with the same entries, whatever call is made.
pub fn ended_stay()
    ensures { EndedStay }
{}
