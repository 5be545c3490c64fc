//! What holds of all texts of Edit. The function has a law as its contract, and does nothing.

ghost use Rattle.core_across.specs.EditLaws.{FaultsAreOnlySaid};

/// Where a text of Edit is no command or has a fault, nothing changes but the errors window of the directory, where the
/// fault is said: no other window, and nothing beside the windows.
pub fn faults_are_only_said()
    ensures { FaultsAreOnlySaid }
{}
