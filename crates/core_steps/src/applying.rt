//! Doing what is ready.

ghost use Rattle.std.specs.Prelude.{◌≡◌};
ghost use Rattle.core_events.specs.Sound.{IsSound};
ghost use Rattle.core_events.specs.PortSound.{ArePortsSound};
ghost use Rattle.core_watch.specs.Sound.{IsWatchSound};
ghost use Rattle.core_parts.specs.Doing.{Doing};
ghost use Rattle.core_parts.specs.Parts.{present_of, AreSteady};
ghost use Rattle.core_steps.specs.Ready.{HasReady};
ghost use Rattle.core_steps.specs.Stages.{after};

use am_journal::Event;
use core_closing::{
    Prepared, change_book, change_connections, change_ports, change_sessions, change_users,
    change_watch, take_replies,
};
use core_parts::{Parts, kind_of};
use std::alloc::Global;

/// Does an event that is ready in the tables, and gives it back. It takes no memory.
pub fn apply(alloc: Global, parts: &mut Parts, prepared: Prepared) -> Event
    requires { (d : Doing) × HasReady parts.old prepared d }
    ensures event { result ≡ prepared.event }
    ensures state { (d : Doing) → HasReady parts.old prepared d → present_of parts.new
        ≡ after (present_of parts.old) prepared.event d }
    ensures sound { IsSound parts.new.entries parts.new.scene.book.kept }
    ensures ports { ArePortsSound parts.new.scene.ports.kept }
    ensures watch { IsWatchSound parts.new.scene.watch.kept }
    ensures steady { AreSteady parts.new }
{
    let kind = kind_of(&prepared.event);
    change_connections(parts.connections.as_mut_slice(), kind);
    parts.scene.keep(alloc);
    change_book(&mut parts.scene.book, &parts.sessions, kind, &prepared);
    change_ports(&mut parts.scene.ports, &parts.sessions, kind, &prepared);
    change_watch(&mut parts.scene.watch, &parts.sessions, kind, &prepared);
    let Prepared {
        event,
        at,
        effect,
        events,
        user,
        said,
        replies,
        ..
    } = prepared;
    change_users(parts.users.as_mut_slice(), kind, user);
    change_sessions(&mut parts.sessions, kind, &effect, events, said.as_slice());
    parts.outputs.keep();
    take_replies(alloc, &mut parts.outputs, kind);
    parts.replies = replies;
    parts.entries = at;
    event
}
