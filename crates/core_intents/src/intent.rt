//! What an event is to do, as the editor stands.

ghost use Rattle.std.specs.Prelude.{◌≡◌, [], ◌∷◌, None, IfOk};
ghost use Rattle.am_text.specs.Utf8.{utf8};
ghost use Rattle.ninep_types.specs.Spelling.{Fits_t};
ghost use Rattle.am_journal.specs.Lawful.{IsLawful};
ghost use Rattle.core_windows.specs.declared.change.Change.TheVariants as change;
ghost use Rattle.core_fids.specs.Done.{HasSpelling};
ghost use Rattle.core_intents.specs.Doings.{enabled_at, IsAnswerable, CanBeMeant};
ghost use Rattle.core_intents.specs.Intents.{is_refusal, or_refused, answer_or, held_or, with_held, not_found};
ghost use Rattle.core_intents.specs.Intents.{item_of_text, back_task, item_if_any, refusal_if_any, answer_unless};
ghost use Rattle.core_intents.specs.Intents.{demanded_task, demanded_item, demanded_answer, demand_refusal};
ghost use Rattle.core_intents.specs.Intents.{opened_at, reaction_at, message_intent, acting, nothing, intent_of};
ghost use Rattle.core_intents.specs.Origins.{message_origin};
ghost use Rattle.core_parts.specs.Parts.{present_of, AreSteady};
ghost use Rattle.core_scene.specs.Scenes.{kept_of, IsSettled};
ghost use Rattle.core_watch.specs.Answering.{answer_refusal};

use crate::origin::message_origin;
use crate::typing::{key_changes, sel_changes};
use am_journal::{Event, Spot};
use am_text::{Bytes, Items, NoMemory, Runes, encode};
use core_answers::reaction_of;
use core_events::BackItem;
use core_fids::{Answer, Demand, Effect, EventChange, Opened, Reaction, Refusal, Server, error};
use core_parts::Parts;
use core_scene::{Change, Changes, Scene};
use core_tasks::Task;
use core_watch::{RequestAnswer, Watch, answer_refusal};
use event_book::{BackFault, Book};
use fid_table::{Fid, Held};
use ninep_types::{RBody, TMsg};
use std::alloc::Global;
use win_events::{Origin, read_back};

/// What an event is to do: to the fids and the session of its connection, to event files and ports, and by a task to
/// the scene; what the items come from that it makes; how its message is answered, where it is one and its task isn't
/// refused; the item that it writes back; and the answer to a request that it writes.
#[derive(Drop)]
pub struct Intent {
    pub effect: Effect,
    pub events: EventChange,
    pub task: Task,
    pub origin: Origin,
    pub answer: Option<Answer>,
    pub back: Option<BackItem>,
    pub answers: Option<RequestAnswer>,
}

// What a demand comes to: the task, the item that is written back, the answer to a request that is written, and why it
// is refused, if it is.
#[derive(Drop)]
struct Demanded {
    task: Task,
    back: Option<BackItem>,
    answers: Option<RequestAnswer>,
    refusal: Option<Refusal>,
}

// ---- answers

fn is_refusal(answer: &Answer) -> bool
    ensures { result ≡ is_refusal answer.now }
{
    match answer {
        Answer::Says(RBody::Error { .. }) => true,
        _ => false,
    }
}

fn or_refused(alloc: Global, refusal: Option<Refusal>, answer: Answer) -> Result<Answer, NoMemory>
    requires { HasSpelling answer }
    ensures exact { IfOk result (λ a. a ≡ or_refused refusal answer) }
    ensures spelled { IfOk result HasSpelling }
{
    match refusal {
        Some(refusal) if !is_refusal(&answer) => Ok(Answer::Says(error(alloc, refusal)?)),
        Some(_) => Ok(answer),
        None => Ok(answer),
    }
}

/// The answer to a message, where there is one: the text of a refusal in its place. `NoMemory` where
/// there is none for that text.
pub fn answer_or(
    alloc: Global,
    refusal: Option<Refusal>,
    answer: Option<Answer>,
) -> Result<Option<Answer>, NoMemory>
    requires { IsAnswerable answer }
    ensures exact { IfOk result (λ a. a ≡ answer_or refusal answer) }
    ensures answerable { IfOk result IsAnswerable }
{
    match answer {
        None => Ok(None),
        Some(answer) => Ok(Some(or_refused(alloc, refusal, answer)?)),
    }
}

// ---- what a fid holds

fn holding(fid: Fid, held: Option<Held>) -> Fid
    ensures { result ≡ record fid { held = held_or fid.held held } }
{
    match held {
        None => fid,
        Some(held) => Fid { held, ..fid },
    }
}

/// The effect, where the fid that it puts holds this text, if there is one.
pub fn with_held(effect: Effect, held: Option<Held>) -> Effect
    ensures { result ≡ with_held effect held }
{
    match effect {
        Effect::Puts { number, fid } => Effect::Puts {
            number,
            fid: holding(fid, held),
        },
        Effect::Nothing => Effect::Nothing,
        Effect::Begins { msize } => Effect::Begins { msize },
        Effect::Frees { number } => Effect::Frees { number },
    }
}

// ---- an item that is written back

fn not_found(fault: BackFault) -> Refusal
    ensures { result ≡ not_found fault }
{
    match fault {
        BackFault::Already => Refusal::EventAlreadyWrittenBack,
        BackFault::NoSuch => Refusal::NoSuchEvent,
    }
}

// The item of the window that a text names.
fn item_of_text(book: &Book, window: u32, text: &[u8]) -> Result<BackItem, Refusal>
    ensures { result ≡ item_of_text book.now.present window text.now }
{
    let Some(message) = read_back(text) else {
        return Err(Refusal::BadEvent);
    };
    match book.find(window, &message) {
        Ok(number) => Ok(BackItem { window, number }),
        Err(fault) => Err(not_found(fault)),
    }
}

fn by_item(alloc: Global, found: Result<BackItem, Refusal>) -> Demanded
    ensures { result
        ≡ record { task = back_task found; back = item_if_any found; answers = None; refusal = refusal_if_any found } }
{
    match found {
        Ok(item) => Demanded {
            task: Task::Back {
                window: item.window,
                number: item.number,
            },
            back: Some(item),
            answers: None,
            refusal: None,
        },
        Err(refusal) => Demanded {
            task: Task::Changes(Items::new(alloc)),
            back: None,
            answers: None,
            refusal: Some(refusal),
        },
    }
}

// ---- messages

// A task alone.
fn by_task(task: Task) -> Demanded
    ensures { result ≡ record { task = task; back = None; answers = None; refusal = None } }
{
    Demanded {
        task,
        back: None,
        answers: None,
        refusal: None,
    }
}

fn answer_unless(refusal: Option<Refusal>, answer: RequestAnswer) -> Option<RequestAnswer>
    ensures { result ≡ answer_unless refusal answer }
{
    match refusal {
        None => Some(answer),
        Some(_) => None,
    }
}

// These changes, and an answer to a request, unless it is refused.
fn by_answer(watch: &Watch, changes: Changes, answer: RequestAnswer) -> Demanded
    ensures { result ≡ record {
      task = Task.Changes changes;
      back = None;
      answers = answer_unless (answer_refusal watch.now.present answer.opening answer.text) answer;
      refusal = answer_refusal watch.now.present answer.opening answer.text;
    } }
{
    let refusal = answer_refusal(watch, answer.opening, answer.text.as_slice());
    Demanded {
        task: Task::Changes(changes),
        back: None,
        answers: answer_unless(refusal, answer),
        refusal,
    }
}

// What a message does to the scene, which makes these changes, or asks for something else.
fn by_demand(alloc: Global, scene: &Scene, changes: Changes, demand: Demand) -> Demanded
    requires { IsSettled scene.now }
    ensures task { result.task ≡ demanded_task scene.now.book.kept changes demand }
    ensures back { result.back ≡ demanded_item scene.now.book.kept demand }
    ensures answers { result.answers ≡ demanded_answer (kept_of scene.now) demand }
    ensures refusal { result.refusal ≡ demand_refusal (kept_of scene.now) demand }
{
    match demand {
        Demand::Nothing => by_task(Task::Changes(changes)),
        Demand::Controls { window, text } => by_task(Task::Controls { window, text }),
        Demand::WriteBack { window, text } => {
            by_item(alloc, item_of_text(&scene.book, window, text.as_slice()))
        }
        Demand::ClearsRules => by_task(Task::ClearsRules),
        Demand::AddsRules { text } => by_task(Task::AddsRules { text }),
        Demand::AddsRest { text } => by_task(Task::AddsRest { text }),
        Demand::Sends { text } => by_task(Task::Sends { text }),
        Demand::Answers { opening, text } => by_answer(
            &scene.watch,
            changes,
            RequestAnswer { opening, text },
        ),
    }
}

#[tactic(auto, using(crate::proofs::Meant::demanding))]
fn message_intent(alloc: Global, parts: &Parts, conn: u32, msg: &TMsg) -> Result<Intent, NoMemory>
    requires fits { Fits_t msg.now }
    requires steady { AreSteady parts.now }
    ensures exact { IfOk result (λ i. i ≡ message_intent (present_of parts.now).scene
        (reaction_at (present_of parts.now) conn msg.now)
        (message_origin (present_of parts.now).tables conn msg.now.body)) }
    ensures possible { IfOk result (CanBeMeant (present_of parts.now)) }
    ensures answerable { IfOk result (λ i. IsAnswerable i.answer) }
{
    let server = Server {
        sessions: &parts.sessions,
        windows: &parts.scene.windows,
        rules: &parts.scene.rules,
        ports: &parts.scene.ports,
        opened: Opened {
            events: parts.scene.book.openings(),
            watch: parts.scene.watch.opened(),
        },
        conn,
    };
    let Reaction {
        effect,
        events,
        changes,
        demand,
        answer,
    } = reaction_of(alloc, &server, &msg.body)?;
    let Demanded {
        task,
        back,
        answers,
        refusal,
    } = by_demand(alloc, &parts.scene, changes, demand);
    let answer = or_refused(alloc, refusal, answer)?;
    Ok(Intent {
        effect,
        events,
        task,
        origin: message_origin(&parts.sessions, conn, &msg.body),
        answer: Some(answer),
        back,
        answers,
    })
}

// ---- all events

// What does a task alone.
fn acting(task: Task, origin: Origin) -> Intent
    ensures { result ≡ acting task origin }
{
    Intent {
        effect: Effect::Nothing,
        events: EventChange::Nothing,
        task,
        origin,
        answer: None,
        back: None,
        answers: None,
    }
}

fn nothing(alloc: Global) -> Intent
    ensures { result ≡ nothing }
{
    acting(Task::Changes(Items::new(alloc)), Origin::F)
}

fn new_window(alloc: Global) -> Result<Changes, NoMemory>
    ensures { IfOk result (λ changes. changes ≡ change.Makes [] ∷ []) }
{
    let mut changes = Items::new(alloc);
    changes.push(Change::Makes {
        name: Items::new(alloc),
    })?;
    Ok(changes)
}

fn exec_task(at: Spot, chord: Option<Spot>) -> Task
    ensures { result ≡ Task.Exec at chord }
{
    Task::Exec { at, chord }
}

// A file of this text is stored.
fn stored(alloc: Global, path: &Bytes, text: &Runes) -> Result<Task, NoMemory>
    ensures { IfOk result (λ stored. stored ≡ Task.Stores path.now (utf8 text.now)) }
{
    Ok(Task::Stores {
        path: Bytes::copied(alloc, path.as_slice())?,
        bytes: encode(alloc, text)?,
    })
}

fn made(alloc: Global, path: &Bytes) -> Result<Task, NoMemory>
    ensures { IfOk result (λ made. made ≡ Task.MakesDir path.now) }
{
    Ok(Task::MakesDir {
        path: Bytes::copied(alloc, path.as_slice())?,
    })
}

/// What an enabled event is to do. Nothing is changed; `NoMemory` where there is none for the answer.
#[tactic(auto, using(crate::proofs::Meant::meaning))]
pub fn intent_of(alloc: Global, parts: &Parts, event: &Event) -> Result<Intent, NoMemory>
    requires lawful { IsLawful event.now }
    requires steady { AreSteady parts.now }
    requires allowed { enabled_at (present_of parts.now) event.now ≡ None }
    ensures exact { IfOk result (λ i. i ≡ intent_of (present_of parts.now) event.now) }
    ensures possible { IfOk result (CanBeMeant (present_of parts.now)) }
    ensures answerable { IfOk result (λ i. IsAnswerable i.answer) }
{
    let windows = &parts.scene.windows;
    match event {
        Event::Msg { conn, msg } => message_intent(alloc, parts, *conn, msg),
        Event::Dial { .. } => Ok(nothing(alloc)),
        Event::Hang { .. } => Ok(nothing(alloc)),
        Event::Took { .. } => Ok(nothing(alloc)),
        Event::New => Ok(acting(Task::Changes(new_window(alloc)?), Origin::F)),
        Event::Key { window, side, text } => {
            let changes = key_changes(alloc, windows, *window, *side, text.as_slice())?;
            Ok(acting(Task::Changes(changes), Origin::K))
        }
        Event::Sel { window, range } => {
            let changes = sel_changes(alloc, windows, *window, *range)?;
            Ok(acting(Task::Changes(changes), Origin::M))
        }
        Event::Exec { at } => Ok(acting(exec_task(*at, None), Origin::M)),
        Event::Arg { at, chord } => Ok(acting(exec_task(*at, Some(*chord)), Origin::M)),
        Event::Look { at } => Ok(acting(Task::Look { at: *at }, Origin::M)),
        Event::File { path, text } => Ok(acting(stored(alloc, path, text)?, Origin::F)),
        Event::Dir { path } => Ok(acting(made(alloc, path)?, Origin::F)),
    }
}
