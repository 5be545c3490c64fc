//! Laws of actions. Each function has a law as its contract, and does nothing.

ghost use Rattle.core_actions.specs.UndoLaws.{MovesAreLinked};

/// Undo and Redo in a window move the next group of each window where it was begun by the same step as that window's,
/// and leave each other window whole; where that window has no group, all.
pub fn moves_are_linked()
    ensures { MovesAreLinked }
{}
