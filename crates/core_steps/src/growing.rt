//! What a step makes, done to the present states, which can be taken back.

ghost use Rattle.std.specs.Prelude.{◌≡◌, ◌∷◌, [], false, IfOk, OnOk};
ghost use Rattle.am_text.specs.Twice.{IsSteady};
ghost use Rattle.core_events.specs.Responses.{AreSaid};
ghost use Rattle.core_events.specs.Putting.{put_all, put_living, ending};
ghost use Rattle.core_events.specs.Serving.{served_all, book_served_all};
ghost use Rattle.core_events.specs.Sound.{IsSound, IsIdle};
ghost use Rattle.core_events.specs.PortAsking.{joined_with};
ghost use Rattle.core_events.specs.PortServing.{ports_served, ports_after_serving};
ghost use Rattle.core_events.specs.PortSound.{ArePortsSound};
ghost use Rattle.core_watch.specs.Asking.{opened_with};
ghost use Rattle.core_watch.specs.Serving.{watch_served, watch_after_serving};
ghost use Rattle.core_watch.specs.Sound.{IsWatchSound};
ghost use Rattle.core_parts.specs.Connections.{IsJoinedFor, IsOfJoined};
ghost use Rattle.core_parts.specs.Kinds.{kind_of, is_hang};
ghost use Rattle.core_parts.specs.Parts.{present_of, AreSteady};
ghost use Rattle.core_parts.specs.States.{next_entry};
ghost use Rattle.core_intents.specs.Doings.{IsAnswerable, CanBeDone, CanBeMeant, resolved};
ghost use Rattle.core_steps.specs.Heard.{found_in, heard_of, tables_heard, book_heard, ports_heard, watch_heard};
ghost use Rattle.core_steps.specs.Heard.{AreAllSaid};
ghost use Rattle.core_steps.specs.Order.{as_asked};
ghost use Rattle.core_steps.specs.Ready.{HasReady};

use crate::acting::{Acted, act};
use crate::files::{Asks, grow_files};
use crate::following::{follow, watch_read_of};
use crate::ordering::as_asked;
use crate::reading::{ask_port, port_read_of};
use crate::saying::{Heard, Told, tell};
use am_journal::Event;
use am_text::{Bytes, Ids, Items, NoMemory};
use core_closing::Prepared;
use core_events::{
    Book, Ports, Responses, clunked, deletions, open_port, put_all, put_living, serve_all,
    serve_ports,
};
use core_fids::{Effect, EventChange};
use core_intents::{Intent, user_of, with_held};
use core_parts::{Parts, conn_of, kind_of};
use core_scene::{Entry, WindowItems};
use core_watch::{RequestAnswer, Watch, open_watch, serve_watch};
use std::alloc::Global;

// The event files with the items that come; and what is said to the waiting reads that get them. Items of windows that
// the step deletes come last. Where none come no waiting read can be answered.
fn grow_items(
    alloc: Global,
    book: &mut Book,
    items: WindowItems,
    deleted: &[u32],
    at: u64,
) -> Result<Responses, NoMemory>
    requires sound { IsSound at book.old.present }
    requires idle { IsIdle book.old.present }
    ensures exact { IfOk result (λ said. said ≡ served_all at (put_living deleted.now book.old.present items)) }
    ensures said { IfOk result AreSaid }
    ensures book { OnOk result (book.new.present ≡ put_all
        (book_served_all at (put_living deleted.now book.old.present items)) (ending deleted.now items)) }
    ensures kept { book.new.kept ≡ book.old.kept }
    ensures sound { OnOk result (IsSound at book.new.present) }
{
    if items.is_empty() {
        return Ok(Items::new(alloc));
    }
    let last = put_living(alloc, book, items, deleted)?;
    let said = serve_all(alloc, book, at)?;
    put_all(book, last)?;
    Ok(said)
}

// The ports with the opening that a message joins; and what is said to the waiting reads that can be answered then.
fn grow_ports(alloc: Global, ports: &mut Ports, events: EventChange) -> Result<Responses, NoMemory>
    requires sound { ArePortsSound ports.old.present }
    ensures exact { IfOk result (λ said. said ≡ ports_served (joined_with ports.old.present events)) }
    ensures said { IfOk result AreSaid }
    ensures ports { OnOk result (ports.new.present ≡ ports_after_serving (joined_with ports.old.present events)) }
    ensures kept { ports.new.kept ≡ ports.old.kept }
    ensures sound { OnOk result (ArePortsSound ports.new.present) }
{
    open_port(ports, events)?;
    serve_ports(alloc, ports)
}

// The files `log` and `jobs` with the opening that a message makes; and what is said to the waiting reads that can be
// answered at this entry then.
fn grow_watch(
    alloc: Global,
    watch: &mut Watch,
    events: EventChange,
    at: u64,
) -> Result<Responses, NoMemory>
    requires sound { IsWatchSound watch.old.present }
    ensures exact { IfOk result (λ said. said ≡ watch_served at (opened_with watch.old.present events)) }
    ensures said { IfOk result AreSaid }
    ensures watch { OnOk result (watch.new.present ≡ watch_after_serving at (opened_with watch.old.present events)) }
    ensures kept { watch.new.kept ≡ watch.old.kept }
    ensures sound { OnOk result (IsWatchSound watch.new.present) }
{
    open_watch(watch, events)?;
    serve_watch(alloc, watch, at)
}

// Openings are made, and items come; and what is said to the waiting reads of all files that can be answered then.
fn serve(
    alloc: Global,
    parts: &mut Parts,
    events: EventChange,
    items: WindowItems,
    deleted: &[u32],
    at: u64,
) -> Result<Responses, NoMemory>
    requires sound { IsSound at parts.old.scene.book.present }
    requires idle { IsIdle parts.old.scene.book.present }
    requires ports { ArePortsSound parts.old.scene.ports.present }
    requires watch { IsWatchSound parts.old.scene.watch.present }
    ensures exact { IfOk result (λ said. said ≡ as_asked parts.old.sessions.present (
        served_all at (put_living deleted.now parts.old.scene.book.present items)
        ∷ ports_served (joined_with parts.old.scene.ports.present events)
        ∷ watch_served at (opened_with parts.old.scene.watch.present events)
        ∷ [])) }
    ensures said { IfOk result AreSaid }
    ensures book { OnOk result (parts.new.scene.book.present ≡ put_all
        (book_served_all at (put_living deleted.now parts.old.scene.book.present items)) (ending deleted.now items)) }
    ensures ports { OnOk result (parts.new.scene.ports.present
        ≡ ports_after_serving (joined_with parts.old.scene.ports.present events)) }
    ensures watch { OnOk result (parts.new.scene.watch.present
        ≡ watch_after_serving at (opened_with parts.old.scene.watch.present events)) }
    ensures sound { OnOk result (IsSound at parts.new.scene.book.present) }
    ensures sound_ports { OnOk result (ArePortsSound parts.new.scene.ports.present) }
    ensures sound_watch { OnOk result (IsWatchSound parts.new.scene.watch.present) }
    ensures kept { present_of parts.new ≡ present_of parts.old }
    ensures rest { parts.new ≡ record parts.old {
      scene = record parts.old.scene {
        book = parts.new.scene.book;
        ports = parts.new.scene.ports;
        watch = parts.new.scene.watch;
      };
    } }
{
    let delivered = grow_ports(alloc, &mut parts.scene.ports, events)?;
    let noted = grow_watch(alloc, &mut parts.scene.watch, events, at)?;
    let given = grow_items(alloc, &mut parts.scene.book, items, deleted, at)?;
    let others = as_asked(alloc, &parts.sessions, delivered, noted)?;
    as_asked(alloc, &parts.sessions, given, others)
}

// All that is said, and what is done with it to the sessions, the event files, the ports, and the files `log` and
// `jobs`: the message is answered, or waits; items come; waiting reads are answered.
#[tactic(auto, using(crate::proofs::Joins::joining, crate::proofs::Idling::asking))]
fn hear(
    alloc: Global,
    parts: &mut Parts,
    asks: Asks,
    effect: &Effect,
    items: WindowItems,
    deleted: &[u32],
) -> Result<Heard, NoMemory>
    requires steady { IsSteady parts.old.scene.book }
    requires sound { IsSound asks.at parts.old.scene.book.present }
    requires idle { IsIdle parts.old.scene.book.present }
    requires answerable { IsAnswerable asks.answer }
    requires joined { IsJoinedFor parts.old.sessions.present asks.kind }
    requires ports { ArePortsSound parts.old.scene.ports.present }
    requires watch { IsWatchSound parts.old.scene.watch.present }
    ensures heard { IfOk result (λ h. h ≡ heard_of (found_in parts.old effect.now) asks items deleted.now) }
    ensures said { IfOk result AreAllSaid }
    ensures tables { OnOk result (parts.new.sessions.present ≡ tables_heard (found_in parts.old effect.now) asks) }
    ensures book { OnOk result (parts.new.scene.book.present
        ≡ book_heard (found_in parts.old effect.now) asks items deleted.now) }
    ensures ports { OnOk result (parts.new.scene.ports.present ≡ ports_heard (found_in parts.old effect.now) asks) }
    ensures watch { OnOk result (parts.new.scene.watch.present ≡ watch_heard (found_in parts.old effect.now) asks) }
    ensures there { OnOk result (IsOfJoined parts.new.sessions.present asks.kind) }
    ensures sound { OnOk result (IsSound asks.at parts.new.scene.book.present) }
    ensures sound_ports { OnOk result (ArePortsSound parts.new.scene.ports.present) }
    ensures sound_watch { OnOk result (IsWatchSound parts.new.scene.watch.present) }
    ensures kept { present_of parts.new ≡ present_of parts.old }
    ensures rest { parts.new ≡ record parts.old {
      scene = record parts.old.scene {
        book = parts.new.scene.book;
        ports = parts.new.scene.ports;
        watch = parts.new.scene.watch;
      };
      sessions = parts.new.sessions;
    } }
{
    let (kind, events, at) = (asks.kind, asks.events, asks.at);
    let port_read = port_read_of(kind, &asks.answer);
    let watch_read = watch_read_of(kind, &asks.answer, at);
    let clunked = clunked(alloc, &parts.sessions, conn_of(kind), effect)?;
    let ended = deletions(alloc, &parts.sessions, deleted)?;
    let answered = grow_files(
        alloc,
        &mut parts.scene.book,
        &mut parts.sessions,
        asks,
        effect,
    )?;
    let asked = ask_port(
        alloc,
        &mut parts.scene.ports,
        &mut parts.sessions,
        port_read,
    )?;
    let followed = follow(
        alloc,
        &mut parts.scene.watch,
        &mut parts.sessions,
        watch_read,
    )?;
    let served = serve(alloc, parts, events, items, deleted, at)?;
    Ok(Heard {
        clunked,
        answered,
        asked,
        followed,
        deleted: ended,
        served,
    })
}

// What a step makes: what its message does to fids, the answer to a request that it writes, the windows that it deletes,
// the user whom it attaches, and what is said.
#[derive(Drop)]
struct Grown {
    effect: Effect,
    answers: Option<RequestAnswer>,
    deleted: Ids,
    user: Option<Bytes>,
    told: Told,
}

// All that an event makes ready. The event is only lent: at each way out it would have to be dropped.
#[tactic(auto, using(crate::proofs::Joins::joining))]
fn grow_parts(
    alloc: Global,
    parts: &mut Parts,
    event: &Event,
    intent: Intent,
    at: u64,
) -> Result<Grown, NoMemory>
    requires stays { is_hang event.now ≡ false }
    requires possible { CanBeMeant (present_of parts.old) intent }
    requires answerable { IsAnswerable intent.answer }
    requires joined { IsJoinedFor parts.old.sessions.kept (kind_of event.now) }
    requires steady { AreSteady parts.old }
    requires sound { IsSound at parts.old.scene.book.kept }
    requires idle { IsIdle parts.old.scene.book.kept }
    requires ports { ArePortsSound parts.old.scene.ports.kept }
    requires watch { IsWatchSound parts.old.scene.watch.kept }
    requires at { at ≡ next_entry (present_of parts.old) }
    ensures state { present_of parts.new ≡ present_of parts.old }
    ensures possible { OnOk result (CanBeDone (present_of parts.old) (resolved (present_of parts.old) intent)) }
    ensures ready { IfOk result (λ g. HasReady parts.new (record {
      event = event.now;
      at = at;
      effect = g.effect;
      events = intent.events;
      deleted = g.deleted;
      back = intent.back;
      answers = g.answers;
      user = g.user;
      said = g.told.said;
      replies =
          g.told.replies;
    }) (resolved (present_of parts.old) intent)) }
{
    let Intent {
        effect,
        events,
        task,
        origin,
        answer,
        answers,
        ..
    } = intent;
    let Acted {
        items,
        deleted,
        held,
        answer,
    } = act(alloc, &mut parts.scene, Entry { at, origin }, task, answer)?;
    let user = user_of(alloc, event, &answer)?;
    let effect = with_held(effect, held);
    let asks = Asks {
        kind: kind_of(event),
        answer,
        events,
        at,
    };
    let heard = hear(alloc, parts, asks, &effect, items, deleted.as_slice())?;
    let told = tell(alloc, &mut parts.outputs, heard)?;
    Ok(Grown {
        effect,
        answers,
        deleted,
        user,
        told,
    })
}

/// Makes all that an event does ready, by what it is to do and the number of its entry. What the tables mean stays.
/// `NoMemory` where there is none for that: `Parts::back` then takes back what was made ready.
pub fn grow(
    alloc: Global,
    parts: &mut Parts,
    event: Event,
    intent: Intent,
    at: u64,
) -> Result<Prepared, NoMemory>
    requires stays { is_hang event ≡ false }
    requires possible { CanBeMeant (present_of parts.old) intent }
    requires answerable { IsAnswerable intent.answer }
    requires joined { IsJoinedFor parts.old.sessions.kept (kind_of event) }
    requires steady { AreSteady parts.old }
    requires sound { IsSound at parts.old.scene.book.kept }
    requires idle { IsIdle parts.old.scene.book.kept }
    requires ports { ArePortsSound parts.old.scene.ports.kept }
    requires watch { IsWatchSound parts.old.scene.watch.kept }
    requires at { at ≡ next_entry (present_of parts.old) }
    ensures state { present_of parts.new ≡ present_of parts.old }
    ensures event { IfOk result (λ p. p.event ≡ event) }
    ensures possible { OnOk result (CanBeDone (present_of parts.old) (resolved (present_of parts.old) intent)) }
    ensures ready { IfOk result (λ p. HasReady parts.new p (resolved (present_of parts.old) intent)) }
{
    let (events, back) = (intent.events, intent.back);
    let Grown {
        effect,
        answers,
        deleted,
        user,
        told: Told { said, replies },
    } = grow_parts(alloc, parts, &event, intent, at)?;
    Ok(Prepared {
        event,
        at,
        effect,
        events,
        deleted,
        back,
        answers,
        user,
        said,
        replies,
    })
}
