//! Deciding whether an event is enabled, and making its step ready.

ghost use Rattle.std.specs.Prelude.{◌≡◌, ◌+◌, ◌<◌, ◌≤◌, ◌^◌, true, false, Some, None, length, IfOk, IfErr, OnOk, OnErr};
ghost use Rattle.am_journal.specs.Lawful.{IsLawful};
ghost use Rattle.core_parts.specs.Connections.{live_count, IsJoinedFor};
ghost use Rattle.core_parts.specs.Kinds.{kind_of, is_hang};
ghost use Rattle.core_intents.specs.Doings.{enabled_at, doing_of};
ghost use Rattle.acme_core.specs.Kept.{AreSound, IsPrepared, IsReady, HasEntries, planned_of};
ghost use Rattle.core_parts.specs.Parts.{present_of, AreSteady};
ghost use Rattle.core_steps.specs.Ready.{HasReady};
ghost use Rattle.acme_core.specs.Run.{Refuses, IsHang, IsWhy};

use am_journal::{Event, Refused};
use am_text::{Items, NoMemory, Roomy};
use core_closing::Prepared;
use core_fids::{Effect, EventChange};
use core_intents::{intent_of, why_not};
use core_parts::{CONNECTIONS, Parts, is_hang};
use core_steps::grow;
use std::alloc::Global;

// Makes an enabled event ready.
#[tactic(auto, using(crate::proofs::Joins::joined))]
fn ready(
    alloc: Global,
    events: &mut Roomy<Event>,
    parts: &mut Parts,
    event: Event,
) -> Result<Prepared, NoMemory>
    requires lawful { IsLawful event }
    requires stays { is_hang event ≡ false }
    requires sound { AreSound parts.old }
    requires steady { AreSteady parts.old }
    requires counted { parts.old.entries ≡ length events.old.items }
    requires allowed { enabled_at (present_of parts.old) event ≡ None }
    ensures items { events.new.items ≡ events.old.items }
    ensures spare { events.old.spare ≤ events.new.spare }
    ensures state { present_of parts.new ≡ present_of parts.old }
    ensures event { IfOk result (λ p. p.event ≡ event) }
    ensures prepared { IfOk result (IsPrepared (present_of parts.old) events.new.spare parts.new) }
{
    let intent = intent_of(alloc, parts, &event)?;
    events.reserve(CONNECTIONS + 2)?;
    let at = parts.entries + 1;
    grow(alloc, parts, event, intent, at)
}

// A hang-up, whose entry was reserved. It takes no memory.
fn hanging(alloc: Global, parts: &Parts, event: Event) -> Prepared
    requires hang { is_hang event ≡ true }
    requires joined { IsJoinedFor parts.now.sessions.kept (kind_of event) }
    requires steady { AreSteady parts.now }
    requires sound { AreSound parts.now }
    requires numbers { parts.now.entries + 1 < 2 ^ 64 }
    ensures event { result.event ≡ event }
    ensures ready { HasReady parts.now result (doing_of (present_of parts.now) event) }
{
    Prepared {
        event,
        at: parts.entries + 1,
        effect: Effect::Nothing,
        events: EventChange::Nothing,
        deleted: Items::new(alloc),
        back: None,
        answers: None,
        user: None,
        said: Items::new(alloc),
        replies: Vec::new(alloc),
    }
}

/// Decides whether an event is enabled, and makes it ready in tables in which nothing is ready. It stands in `prepared`
/// then. What the tables mean stays, and a refusal leaves nothing ready in them.
#[tactic(auto, using(crate::proofs::Joins::joined, crate::proofs::Hangs::hung))]
pub(crate) fn prepare(
    alloc: Global,
    events: &mut Roomy<Event>,
    parts: &mut Parts,
    event: Event,
    prepared: &mut Option<Prepared>,
) -> Result<(), Refused>
    requires lawful { IsLawful event }
    requires sound { AreSound parts.old }
    requires steady { AreSteady parts.old }
    requires counted { parts.old.entries ≡ length events.old.items }
    requires hangs { HasEntries parts.old.entries events.old.spare (live_count parts.old.connections.items) }
    ensures items { events.new.items ≡ events.old.items }
    ensures spare { events.old.spare ≤ events.new.spare }
    ensures state { present_of parts.new ≡ present_of parts.old }
    ensures event { OnOk result (planned_of prepared.new ≡ Some event) }
    ensures prepared { OnOk result (IsReady (present_of parts.old) events.new.spare parts.new prepared.new) }
    ensures stays { OnErr result (prepared.new ≡ prepared.old) }
    ensures refused { IfErr result (λ e. Refuses e (enabled_at (present_of parts.old) event)) }
    ensures hang { IsHang event → IfErr result IsWhy }
    ensures steady { OnErr result (AreSteady parts.new) }
{
    if let Some(why) = why_not(parts, &event) {
        return Err(Refused::NotEnabled(why));
    }
    if is_hang(&event) {
        *prepared = Some(hanging(alloc, parts, event));
        return Ok(());
    }
    match ready(alloc, events, parts, event) {
        Ok(made) => {
            *prepared = Some(made);
            Ok(())
        }
        Err(NoMemory) => {
            parts.back(alloc);
            Err(Refused::NoMemory)
        }
    }
}
