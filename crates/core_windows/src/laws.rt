//! Laws of windows. Each function has a law as its contract, and does nothing.

ghost use Rattle.core_windows.specs.WindowLaws.{ChangesShow, ChangesAreLawful, NumbersStay};

use win_text::laws::{begins_lawful, numbers_never_fall};

/// What the changes of a step make of the windows as they stand is what they make of them by all
/// edits that were ever made.
pub fn changes_show()
    ensures { ChangesShow }
{
    // law: a window is lawful as it begins
    begins_lawful();
}

/// Windows by all edits are lawful at the start and after the changes of each step.
pub fn changes_are_lawful()
    ensures { ChangesAreLawful }
{
    // law: a window is lawful as it begins
    begins_lawful();
}

/// Along the undo groups of each window the numbers never fall, and none is above that of the last step.
pub fn group_numbers_never_fall()
    ensures { NumbersStay }
{
    numbers_never_fall();
}
