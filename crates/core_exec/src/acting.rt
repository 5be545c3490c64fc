//! Exec and Look, as items where the window's event file is open, and done where it isn't or where
//! an item is written back.

ghost use Rattle.std.specs.Prelude.{◌≡◌, IsSome, IfSome, IfOk, OnOk};
ghost use Rattle.event_book.specs.BookState.{item_of};
ghost use Rattle.core_windows.specs.Windows.{window_at};
ghost use Rattle.core_scene.specs.Scenes.{scene_of, kept_of, Did};
ghost use Rattle.core_exec.specs.Clicks.{IsSpot, own_text, text_if_any, look_item};
ghost use Rattle.core_exec.specs.Looking.{look_step};
ghost use Rattle.core_exec.specs.Acting.{exec_click, exec_at_deeds, look_click, look_at_deeds, action_of, act_on_deeds};

use crate::click::{Clicked, argument_if_any, clicked_at, own_text};
use crate::items::{exec_item, look_item};
use crate::looking::{look_at_text, look_step};
use crate::running::{Executed, exec};
use acme_cmd::Click;
use am_journal::Spot;
use am_text::{NoMemory, Runes};
use core_scene::{Deed, Entry, Scene};
use std::alloc::Global;
use win_events::{Item, Sort};

/// A text and its place.
type Argument = (Runes, Runes);

// The text of an argument, if there is one.
fn text_if_any(alloc: Global, argument: &Option<Argument>) -> Result<Option<Runes>, NoMemory>
    ensures { IfOk result (λ text. text ≡ text_if_any argument.now) }
{
    match argument {
        Some((text, _)) => Ok(Some(Runes::copied(alloc, text.as_slice())?)),
        None => Ok(None),
    }
}

// What is executed of a click.
fn to_execute(
    alloc: Global,
    clicked: &Clicked,
    argument: &Option<Argument>,
) -> Result<Executed, NoMemory>
    ensures { IfOk result (λ x. x ≡ record {
      text = own_text clicked.now.text clicked.now.expanded;
      chord = text_if_any argument.now;
    }) }
{
    Ok(Executed {
        text: Runes::copied(alloc, own_text(&clicked.text, &clicked.expanded))?,
        chord: text_if_any(alloc, argument)?,
    })
}

// An item, or what it stands for is done.
#[tactic(auto, unfolding(crate::specs::Acting::exec_click))]
fn exec_clicked(
    alloc: Global,
    scene: &mut Scene,
    entry: Entry,
    at: Spot,
    work: (Clicked, Option<Argument>),
) -> Result<(), NoMemory>
    requires { IsSome (window_at scene.old.windows.present at.window) }
    ensures ok { OnOk result (Did entry (scene_of scene.old) (scene_of scene.new)
        (exec_click entry at work.1 work.0 (scene_of scene.old))) }
    ensures kept { kept_of scene.new ≡ kept_of scene.old }
{
    let (clicked, argument) = work;
    if scene.book.is_open(at.window) {
        let item = exec_item(at, clicked, argument);
        let window = at.window;
        return scene.act(alloc, entry, Deed::Item { window, item });
    }
    let executed = to_execute(alloc, &clicked, &argument)?;
    exec(alloc, scene, entry, at.window, executed)
}

/// Exec of a range of a window's text, with the argument of a chord, if there is one.
///
/// While the window's event file is open it makes an item and does nothing else. Where it isn't, what the range stands
/// for is executed, and a null range that stands for nothing does nothing.
#[tactic(auto, using(crate::proofs::Joined::joins))]
pub fn exec_at(
    alloc: Global,
    scene: &mut Scene,
    entry: Entry,
    at: Spot,
    chord: Option<Spot>,
) -> Result<(), NoMemory>
    requires at { IsSpot scene.old.windows.present at }
    requires chord { IfSome chord (IsSpot scene.old.windows.present) }
    ensures ok { OnOk result (Did entry (scene_of scene.old) (scene_of scene.new)
        (exec_at_deeds entry at chord (scene_of scene.old))) }
    ensures kept { kept_of scene.new ≡ kept_of scene.old }
{
    let argument = argument_if_any(alloc, &scene.windows, chord)?;
    match clicked_at(alloc, &scene.windows, at, Click::Exec)? {
        Some(clicked) => exec_clicked(alloc, scene, entry, at, (clicked, argument)),
        None => Ok(()),
    }
}

// The text of a click.
fn text_of(alloc: Global, clicked: &Clicked) -> Result<Runes, NoMemory>
    ensures { IfOk result (λ text. text ≡ own_text clicked.now.text clicked.now.expanded) }
{
    Runes::copied(alloc, own_text(&clicked.text, &clicked.expanded))
}

// The item of a click with Look.
fn item_at(alloc: Global, scene: &Scene, at: Spot, clicked: Clicked) -> Result<Item, NoMemory>
    ensures { IfOk result (λ item. item ≡ look_item at clicked
        (look_step at.window (own_text clicked.text clicked.expanded) (scene_of scene.now))) }
{
    let text = text_of(alloc, &clicked)?;
    let step = look_step(alloc, scene, at.window, &text)?;
    Ok(look_item(at, clicked, step))
}

// An item, or what it stands for is looked at.
#[tactic(auto, unfolding(crate::specs::Acting::look_click))]
fn look_clicked(
    alloc: Global,
    scene: &mut Scene,
    entry: Entry,
    at: Spot,
    clicked: Clicked,
) -> Result<(), NoMemory>
    requires { IsSome (window_at scene.old.windows.present at.window) }
    ensures ok { OnOk result (Did entry (scene_of scene.old) (scene_of scene.new)
        (look_click entry at clicked (scene_of scene.old))) }
    ensures kept { kept_of scene.new ≡ kept_of scene.old }
{
    let window = at.window;
    if scene.book.is_open(window) {
        let item = item_at(alloc, scene, at, clicked)?;
        return scene.act(alloc, entry, Deed::Item { window, item });
    }
    let text = text_of(alloc, &clicked)?;
    look_at_text(alloc, scene, entry, window, &text)
}

/// Look at a range of a window's text.
///
/// While the window's event file is open it makes an item and does nothing else. Where it isn't, what the range stands
/// for is looked at: the plumber takes it, or else it is opened as a name or searched for. A null range that stands
/// for nothing does nothing.
#[tactic(auto, using(crate::proofs::Joined::joins))]
pub fn look_at(alloc: Global, scene: &mut Scene, entry: Entry, at: Spot) -> Result<(), NoMemory>
    requires { IsSpot scene.old.windows.present at }
    ensures ok { OnOk result (Did entry (scene_of scene.old) (scene_of scene.new)
        (look_at_deeds entry at (scene_of scene.old))) }
    ensures kept { kept_of scene.new ≡ kept_of scene.old }
{
    match clicked_at(alloc, &scene.windows, at, Click::Look)? {
        Some(clicked) => look_clicked(alloc, scene, entry, at, clicked),
        None => Ok(()),
    }
}

// The action of an item.
#[tactic(auto, using(crate::proofs::Joined::joins))]
fn act(
    alloc: Global,
    scene: &mut Scene,
    entry: Entry,
    window: u32,
    work: (Sort, Executed),
) -> Result<(), NoMemory>
    requires { IsSome (window_at scene.old.windows.present window) }
    ensures ok { OnOk result (Did entry (scene_of scene.old) (scene_of scene.new)
        (action_of entry window work.0 (record { text = work.1.text; chord = work.1.chord }) (scene_of scene.old))) }
    ensures kept { kept_of scene.new ≡ kept_of scene.old }
{
    let (sort, executed) = work;
    match sort {
        Sort::BodyExec => exec(alloc, scene, entry, window, executed),
        Sort::TagExec => exec(alloc, scene, entry, window, executed),
        Sort::BodyLook => look_at_text(alloc, scene, entry, window, &executed.text),
        Sort::TagLook => look_at_text(alloc, scene, entry, window, &executed.text),
        Sort::BodyDel => Ok(()),
        Sort::TagDel => Ok(()),
        Sort::BodyIns => Ok(()),
        Sort::TagIns => Ok(()),
    }
}

// What is executed or looked at of an item.
fn of_item(alloc: Global, item: &Item) -> Result<(Sort, Executed), NoMemory>
    ensures { IfOk result (λ x. x ≡ (
      item.now.sort,
      record {
        text = own_text item.now.text item.now.expanded;
        chord = text_if_any item.now.argument;
      },
    )) }
{
    let text = Runes::copied(alloc, own_text(&item.text, &item.expanded))?;
    let chord = text_if_any(alloc, &item.argument)?;
    Ok((item.sort, Executed { text, chord }))
}

/// Does the action of an item of a window, as if its event file were closed: with the item's own
/// text, and its chord's text.
#[tactic(auto, using(crate::proofs::Joined::joins))]
pub fn act_on(
    alloc: Global,
    scene: &mut Scene,
    entry: Entry,
    window: u32,
    number: u64,
) -> Result<(), NoMemory>
    requires { IsSome (window_at scene.old.windows.present window) }
    ensures ok { OnOk result (Did entry (scene_of scene.old) (scene_of scene.new)
        (act_on_deeds entry window number (scene_of scene.old))) }
    ensures kept { kept_of scene.new ≡ kept_of scene.old }
{
    let Some(item) = scene.book.item(window, number) else {
        return Ok(());
    };
    let work = of_item(alloc, item)?;
    act(alloc, scene, entry, window, work)
}
