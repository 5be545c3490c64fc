//! Replies that are taken.

ghost use Rattle.std.specs.Prelude.{◌≡◌};
ghost use Rattle.am_text.specs.Twice.{both, IsSteady};
ghost use Rattle.core_closing.specs.Closing.{left_unsent};

use core_outputs::Outputs;
use core_parts::Kind;
use std::alloc::Global;

/// Takes the replies of a connection, where an event of this kind does. It takes no memory.
pub fn take_replies(alloc: Global, outputs: &mut Outputs, kind: Kind)
    requires { IsSteady outputs.old }
    ensures { outputs.new ≡ both (left_unsent outputs.old.present kind) }
{
    match kind {
        Kind::Takes { conn } => outputs.take(alloc, conn),
        Kind::Dials { .. } => {}
        Kind::Asks { .. } => {}
        Kind::Ends { .. } => {}
        Kind::Acts => {}
    }
}
