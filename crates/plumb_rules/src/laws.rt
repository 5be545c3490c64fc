//! What holds of all patterns and routes. Each function has laws as its contract, and does nothing.

ghost use Rattle.plumb_rules.specs.Laws.{TreesAreThose, FirstSetIsTaken, ElseToItsPort, PortIsDst, SpelledStaysSo};
ghost use Rattle.plumb_rules.specs.Laws.{DataAreKept};

/// A text has a tree exactly where it is an expression with that tree.
pub fn expressions_have_trees()
    ensures { TreesAreThose }
{}

/// The first set that holds is taken, whatever follows it; where none holds the message goes to the port that it names.
pub fn first_set_is_taken()
    ensures first { FirstSetIsTaken }
    ensures own { ElseToItsPort }
{}

/// The message that is delivered to a port has it as dst; a message that can be spelled is delivered as one that can;
/// and the data of a message without a click are delivered byte by byte as they came where no rule sets them or adds
/// attributes.
pub fn messages_are_delivered_whole()
    ensures port { PortIsDst }
    ensures spelled { SpelledStaysSo }
    ensures kept { DataAreKept }
{}
