//! Laws of what commands make of windows. Each function has laws as its contract, and does nothing.

ghost use Rattle.std.specs.Prelude.{ℕ, Result};
ghost use Rattle.edit_files.specs.Laws.{PlansAreOfTheTaken, FaultsAreOfTheFirst};

use crate::windows::Windows;

/// The plans are those of the windows taken, in their order; a fault is that of the first one at fault.
pub fn plans_are_of_the_taken<W: Windows>(_windows: &W)
    ensures plans { (run : ℕ → Result W.Plan W.Fault) → PlansAreOfTheTaken run }
    ensures fault { (run : ℕ → Result W.Plan W.Fault) → FaultsAreOfTheFirst run }
{}
