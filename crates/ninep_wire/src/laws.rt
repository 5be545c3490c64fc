//! Laws of the spellings. Each function has a law as its contract, and does nothing.

ghost use Rattle.ninep_wire.specs.Laws.{PrefixFree_t, PrefixFree_r, ReadAgain_t, ReadAgain_r, HasSize_t, HasSize_r};

/// No spelling is a proper prefix of another of its direction, so a stream of messages has one cut.
pub fn spellings_are_prefix_free()
    ensures t { PrefixFree_t }
    ensures r { PrefixFree_r }
{}

/// What is written is read again: reading the spelling of a message gives the message.
pub fn spellings_are_read_again()
    ensures t { ReadAgain_t }
    ensures r { ReadAgain_r }
{}

/// How many bytes the spelling of each message has.
pub fn spellings_have_their_size()
    ensures t { HasSize_t }
    ensures r { HasSize_r }
{}
