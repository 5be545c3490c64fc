//! Faults of actions, as Edit says them.

ghost use Rattle.std.specs.Prelude.{◌≡◌};
ghost use Rattle.core_across.specs.FileFaults.{action_fault};

use core_actions::ActionFault;
use core_edit::CommandFault;

/// A fault of Get and Put, as Edit says it.
pub(crate) fn action_fault(fault: ActionFault) -> CommandFault
    ensures { result ≡ action_fault fault }
{
    match fault {
        ActionFault::NoFileName => CommandFault::NoFileName,
        ActionFault::FileNotFound => CommandFault::FileNotFound,
        ActionFault::TextTooLong => CommandFault::TextTooLong,
    }
}
