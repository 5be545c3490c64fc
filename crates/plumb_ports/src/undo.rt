//! What takes changes of the ports back.

ghost use Rattle.std.specs.Prelude.{◌≡◌, []};
ghost use Rattle.plumb_ports.specs.Undo.{undone, all_undone};

use crate::kept::KeptMessages;
use crate::port_map::PortMap;

/// What takes one change of the ports back.
#[derive(Drop)]
pub enum Undo {
    /// The newest port goes.
    Remove,
    /// The newest message that the port keeps goes.
    Unkeep { port: u32 },
    /// The port keeps these messages again.
    Restore { port: u32, messages: KeptMessages },
}

/// Takes one change back. It takes no memory.
fn take_back(ports: &mut PortMap, step: Undo)
    ensures { ports.new ≡ undone step ports.old }
{
    match step {
        Undo::Remove => ports.remove_last(),
        Undo::Unkeep { port } => ports.unkeep(port),
        Undo::Restore { port, messages } => ports.restore(port, messages),
    }
}

/// Takes all changes back, the newest first. It takes no memory.
pub fn take_all_back(ports: &mut PortMap, trail: &mut Vec<Undo>)
    ensures ports { ports.new ≡ all_undone trail.old.items ports.old }
    ensures trail { trail.new.items ≡ [] }
{
    while let Some(step) = trail.pop() {
        take_back(ports, step);
    }
}
