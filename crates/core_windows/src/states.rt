//! All windows by place, in two states.

ghost use Rattle.std.specs.Prelude.{◌≡◌, ◌-◌, ◌<◌, ◌++◌, ◌∷◌, [], length, IfOk, IfSome, OnOk, OnErr, Option, Some};
ghost use Rattle.std.specs.Prelude.{None};
ghost use Rattle.std.specs.Option.{option_map};
ghost use Rattle.am_text.specs.Twice.{both};
ghost use Rattle.win_text.specs.Bodies.{undo_plan_of, redo_plan_of};
ghost use Rattle.core_windows.specs.Places.{at_place, live_at, gone};
ghost use Rattle.core_windows.specs.Windows.{Window, window_addr, planned, named_window, edit_plan, edited};
ghost use Rattle.core_windows.specs.Windows.{undone_window, redone_window, added, set, changed};
ghost use Rattle.core_windows.specs.Possible.{CanChange};
ghost use Rattle.core_windows.specs.Panes.{windows_of};
ghost use Rattle.core_windows.specs.Shapes.{Lives, Always, IsEditable, IsPlannable, IsSettable};

use crate::change::{Change, Setting};
use crate::looks::kept_addr;
use crate::pane::Pane;
use crate::places::{add_at, delete_at, make_at, put, reserve_at, set_at, settle_all, undo_all};
use crate::slots::{edit_plan, redo_plan, undo_plan};
use crate::undo::Undo;
use am_text::{NoMemory, Range, Rune, Runes};
use edit_log::Edits;
use std::alloc::Global;
use std::marker::Model;
use win_text::TextPlan;

/// All windows that were ever made, by place, in two states.
#[derive(Drop)]
pub struct States {
    alloc: Global,
    panes: Vec<Option<Pane>>,
    // What takes the changes since the last `keep` back, the oldest first.
    trail: Vec<Undo>,
}

impl Model for States {
    ghost use Rattle.std.specs.Prelude.{List, Option};
    ghost use Rattle.am_text.specs.Twice.{Twice};
    ghost use Rattle.core_windows.specs.Windows.{Window};

    ghost Value = { Twice (List (Option Window)) };

    ghost use Rattle.core_windows.specs.Shapes.{shapes_of, seen_in};
    ghost use Rattle.core_windows.specs.Trail.{all_undone, CanGoBack};

    ghost view = { λ s. record {
      present = seen_in (shapes_of s.panes.items);
      kept = seen_in (all_undone s.trail.items (shapes_of s.panes.items));
    } };

    ghost invariant = { λ s. CanGoBack s.trail.items (shapes_of s.panes.items) };
}

// The place of the window of a number.
fn place_of(window: u32) -> usize
    requires { 0 < window }
    ensures { result ≡ window - 1 }
{
    window as usize - 1
}

impl States {
    /// No window was ever made.
    pub(crate) fn new(alloc: Global) -> States
        ensures { result ≡ both [] }
    {
        States {
            alloc,
            panes: Vec::new(alloc),
            trail: Vec::new(alloc),
        }
    }

    /// The windows by place, with nothing in the place of a deleted one.
    pub(crate) fn panes(&self) -> &[Option<Pane>]
        ensures { windows_of result.now ≡ self.now.present }
    {
        self.panes.as_slice()
    }

    /// The address that the window at this place had at the last `keep`, if it lived then.
    pub(crate) fn kept_addr(&self, at: usize) -> Option<Range>
        ensures { result ≡ option_map window_addr (live_at self.now.kept at) }
    {
        kept_addr(self.trail.as_slice(), self.panes.as_slice(), at)
    }

    /// The present state becomes the kept one. It takes no memory.
    pub(crate) fn keep(&mut self)
        ensures { self.new ≡ both self.old.present }
    {
        settle_all(&mut self.panes, &mut self.trail);
    }

    /// The kept state becomes the present one again. It takes no memory.
    pub(crate) fn back(&mut self)
        ensures { self.new ≡ both self.old.kept }
    {
        undo_all(&mut self.panes, &mut self.trail);
    }

    /// Does a change of the step of this number, in the present state alone. A refusal changes nothing.
    pub(crate) fn change(&mut self, change: Change, at: u64) -> Result<(), NoMemory>
        requires { CanChange self.old.present change }
        ensures ok { OnOk result (self.new ≡ record self.old { present = changed at self.old.present change }) }
        ensures err { OnErr result (self.new ≡ self.old) }
    {
        match change {
            Change::Makes { name } => self.make(name),
            Change::Deletes { window } => self.delete(place_of(window)),
            Change::Edits { window, edits } => self.edit(place_of(window), edits, at),
            Change::Adds { window, text } => self.add(place_of(window), text.as_slice()),
            Change::Sets { window, setting } => self.set(place_of(window), setting),
            Change::Undoes { window } => self.undo(place_of(window)),
            Change::Redoes { window } => self.redo(place_of(window)),
        }
    }

    // Makes a window of this name.
    fn make(&mut self, name: Runes) -> Result<(), NoMemory>
        ensures ok { OnOk result
            (self.new ≡ record self.old { present = self.old.present ++ Some (named_window name) ∷ [] }) }
        ensures err { OnErr result (self.new ≡ self.old) }
    {
        self.trail.reserve(1)?;
        self.panes.reserve(1)?;
        let pane = Pane::new(self.alloc, name)?;
        let undo = put(&mut self.panes, pane);
        self.trail.push_reserved(undo);
        Ok(())
    }

    // Deletes the window at this place.
    fn delete(&mut self, at: usize) -> Result<(), NoMemory>
        requires { Lives Always (live_at self.old.present at) }
        ensures ok { OnOk result (self.new ≡ record self.old { present = at_place gone at self.old.present }) }
        ensures err { OnErr result (self.new ≡ self.old) }
    {
        self.trail.reserve(1)?;
        let undo = delete_at(&mut self.panes, at);
        self.trail.push_reserved(undo);
        Ok(())
    }

    // Edits the body of the window at this place.
    fn edit(&mut self, place: usize, edits: Edits, at: u64) -> Result<(), NoMemory>
        requires { Lives (IsEditable edits) (live_at self.old.present place) }
        ensures ok { OnOk result
            (self.new ≡ record self.old { present = at_place (option_map (edited edits at)) place self.old.present }) }
        ensures err { OnErr result (self.new ≡ self.old) }
    {
        let plan = self.edit_plan(place, edits, at)?;
        self.do_plan(place, plan)
    }

    // Puts a text at the end of the tag of the window at this place.
    fn add(&mut self, at: usize, text: &[Rune]) -> Result<(), NoMemory>
        requires { Lives Always (live_at self.old.present at) }
        ensures ok { OnOk result
            (self.new ≡ record self.old { present = at_place (option_map (added text.now)) at self.old.present }) }
        ensures err { OnErr result (self.new ≡ self.old) }
    {
        self.trail.reserve(1)?;
        let undo = add_at(&mut self.panes, at, text)?;
        self.trail.push_reserved(undo);
        Ok(())
    }

    // Sets a part of the window at this place.
    fn set(&mut self, at: usize, setting: Setting) -> Result<(), NoMemory>
        requires { Lives (IsSettable setting) (live_at self.old.present at) }
        ensures ok { OnOk result
            (self.new ≡ record self.old { present = at_place (option_map (set setting)) at self.old.present }) }
        ensures err { OnErr result (self.new ≡ self.old) }
    {
        self.trail.reserve(1)?;
        let undo = set_at(self.alloc, &mut self.panes, at, setting);
        self.trail.push_reserved(undo);
        Ok(())
    }

    // Takes the last group of the window at this place back, if there is one.
    fn undo(&mut self, at: usize) -> Result<(), NoMemory>
        requires { Lives Always (live_at self.old.present at) }
        ensures ok { OnOk result
            (self.new ≡ record self.old { present = at_place (option_map undone_window) at self.old.present }) }
        ensures err { OnErr result (self.new ≡ self.old) }
    {
        match self.undo_plan(at)? {
            Some(plan) => self.do_plan(at, plan),
            None => Ok(()),
        }
    }

    // Makes the first undone group of the window at this place again, if there is one.
    fn redo(&mut self, at: usize) -> Result<(), NoMemory>
        requires { Lives Always (live_at self.old.present at) }
        ensures ok { OnOk result
            (self.new ≡ record self.old { present = at_place (option_map redone_window) at self.old.present }) }
        ensures err { OnErr result (self.new ≡ self.old) }
    {
        match self.redo_plan(at)? {
            Some(plan) => self.do_plan(at, plan),
            None => Ok(()),
        }
    }

    // The plan of edits of the window at this place.
    fn edit_plan(&self, place: usize, edits: Edits, at: u64) -> Result<TextPlan, NoMemory>
        requires { Lives (IsEditable edits) (live_at self.now.present place) }
        ensures plan { IfOk result (λ plan. Lives (λ (w : Window). plan ≡ edit_plan edits at w)
            (live_at self.now.present place)) }
        ensures can { IfOk result (λ plan. Lives (IsPlannable plan) (live_at self.now.present place)) }
    {
        edit_plan(&self.panes[place], edits, at)
    }

    // The plan of Undo of the window at this place, if there is a group to take back.
    fn undo_plan(&self, at: usize) -> Result<Option<TextPlan>, NoMemory>
        requires { Lives Always (live_at self.now.present at) }
        ensures plan { IfOk result (λ plan. Lives (λ (w : Window). plan ≡ undo_plan_of w.body)
            (live_at self.now.present at)) }
        ensures can { IfOk result (λ plan. IfSome plan (λ p. Lives (IsPlannable p) (live_at self.now.present at))) }
    {
        undo_plan(&self.panes[at])
    }

    // The plan of Redo of the window at this place, if there is a group to make again.
    fn redo_plan(&self, at: usize) -> Result<Option<TextPlan>, NoMemory>
        requires { Lives Always (live_at self.now.present at) }
        ensures plan { IfOk result (λ plan. Lives (λ (w : Window). plan ≡ redo_plan_of w.body)
            (live_at self.now.present at)) }
        ensures can { IfOk result (λ plan. IfSome plan (λ p. Lives (IsPlannable p) (live_at self.now.present at))) }
    {
        redo_plan(&self.panes[at])
    }

    // Does a plan in the window at this place.
    fn do_plan(&mut self, at: usize, plan: TextPlan) -> Result<(), NoMemory>
        requires { Lives (IsPlannable plan) (live_at self.old.present at) }
        ensures ok { OnOk result
            (self.new ≡ record self.old { present = at_place (option_map (planned plan)) at self.old.present }) }
        ensures err { OnErr result (self.new ≡ self.old) }
    {
        self.trail.reserve(1)?;
        let ready = reserve_at(&mut self.panes, at, &plan)?;
        let undo = make_at(&mut self.panes, at, plan, ready);
        self.trail.push_reserved(undo);
        Ok(())
    }
}
