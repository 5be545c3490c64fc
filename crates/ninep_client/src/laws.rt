//! A law of a client's calls. The function has it as its contract, and does nothing.

ghost use Rattle.ninep_client.specs.Laws.{GivesEachOnce};

/// Each reply that is given for a tag is the next message with that tag, and none is given twice.
pub fn replies_are_given_once()
    ensures { GivesEachOnce }
{}
