//! Laws of the order in which answers are said.

ghost use Rattle.core_steps.specs.Order.{KeepsRows, StaysInOrder};

/// The answers of each kind stand in the whole as they stood in their row; and the whole is in the order of asking
/// where each row is.
pub fn answers_are_in_order()
    ensures rows { KeepsRows }
    ensures order { StaysInOrder }
{}
