//! Laws of reading and writing. Each function has laws as its contract, and does nothing.

ghost use Rattle.plumb_msg.specs.Laws.{ReadAgain, WholeStays, BadStays, WholeIsExact, MoreIsExact, BadIsExact};
ghost use Rattle.plumb_msg.specs.Laws.{AttrsAreExact, LineIsOneList};

/// What is written is read again, whatever follows it.
pub fn messages_are_read_again()
    ensures { ReadAgain }
{}

/// What is read at the front of bytes stays so as bytes are added.
pub fn reading_goes_on()
    ensures whole { WholeStays }
    ensures bad { BadStays }
{}

/// The three answers of reading, by the grammar of messages.
pub fn answers_are_exact()
    ensures whole { WholeIsExact }
    ensures more { MoreIsExact }
    ensures bad { BadIsExact }
{}

/// The attributes of a line, by the grammar of lines of attributes.
pub fn attribute_lines_are_their_grammar()
    ensures exact { AttrsAreExact }
    ensures one { LineIsOneList }
{}
