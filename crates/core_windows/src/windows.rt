//! All windows by number, in two states.

ghost use Rattle.std.specs.Prelude.{◌≡◌, [], Some, None, MatchOption, IsSome, IfSome, OnOk, OnErr, length};
ghost use Rattle.std.specs.Option.{option_map};
ghost use Rattle.core_windows.specs.Windows.{window_at, window_addr, world_with, both_windows, named, changed};
ghost use Rattle.core_windows.specs.Possible.{CanChange};
ghost use Rattle.core_windows.specs.Panes.{window_of, windows_of};

use crate::change::Change;
use crate::finding::{number_of, pane_at};
use crate::numbers::{Numbers, new_world, numbers_after, renumber, take_numbers_back};
use crate::pane::Pane;
use crate::states::States;
use acme_tree::World;
use am_text::{NoMemory, Range, Rune};
use std::alloc::Global;
use std::marker::Model;

/// All windows that were ever made, by number from 1, of which some live, in two states: changes are made in the
/// present one, which `keep` makes the kept one, and from which `back` leads to the kept one again.
pub struct Windows {
    alloc: Global,
    states: States,
    world: World,
    // The numbers of the kept state, where a window was made or deleted since.
    earlier: Option<Numbers>,
}

// By hand, so that a crate that drops windows goes by this drop, and has not to prove those of all that is in them.
impl Drop for Windows {
    fn drop(self) {
        let Windows {
            alloc: _,
            states: _,
            world: _,
            earlier: _,
        } = self;
    }
}

impl Model for Windows {
    ghost use Rattle.core_windows.specs.Windows.{WindowsState};

    ghost Value = { WindowsState };

    ghost use Rattle.core_windows.specs.Numbering.{IsNumbered};

    ghost view = { λ w. record { present = w.states.present; kept = w.states.kept; watched = w.world.watched } };

    ghost invariant = { λ w. IsNumbered w.states w.world w.earlier };
}

impl Windows {
    /// No window was ever made; the root of the editor's tree has the files `log` and `jobs`, or doesn't. It takes no
    /// memory.
    pub fn new(alloc: Global, watched: bool) -> Windows
        ensures { result ≡ both_windows watched [] }
    {
        Windows {
            alloc,
            states: States::new(alloc),
            world: new_world(alloc, watched),
            earlier: None,
        }
    }

    /// What the editor's tree is made of: the numbers of the live windows, and the number that the next
    /// window gets, and whether it is watched. No number is given twice.
    pub fn world(&self) -> &World
        ensures { result.now ≡ world_with self.now.watched self.now.present }
    {
        &self.world
    }

    /// The windows by number from 1, with nothing in the place of a deleted one.
    pub fn panes(&self) -> &[Option<Pane>]
        ensures { windows_of result.now ≡ self.now.present }
    {
        self.states.panes()
    }

    /// How many windows were ever made.
    pub fn count(&self) -> usize
        ensures { result ≡ length self.now.present }
    {
        self.states.panes().len()
    }

    /// The window of that number, if it lives.
    pub fn get(&self, window: u32) -> Option<&Pane>
        ensures { MatchOption result
            (window_at self.now.present window ≡ None)
            (λ pane. window_at self.now.present window ≡ Some (window_of pane.now)) }
    {
        pane_at(self.states.panes(), window)
    }

    /// The live window of least number that has this name.
    pub fn named(&self, name: &[Rune]) -> Option<u32>
        ensures number { result ≡ named self.now.present name.now }
        ensures lives { IfSome result (λ window. IsSome (window_at self.now.present window)) }
    {
        number_of(&self.world, self.states.panes(), name)
    }

    /// The address that the window of that number had at the last `keep`, if it lived then.
    pub fn kept_addr(&self, window: u32) -> Option<Range>
        ensures { result ≡ option_map window_addr (window_at self.now.kept window) }
    {
        let place = (window as usize).checked_sub(1)?;
        self.states.kept_addr(place)
    }

    /// Makes a change of the step of this number, in the present state alone. A refusal changes nothing.
    pub fn change(&mut self, change: Change, at: u64) -> Result<(), NoMemory>
        requires { CanChange self.old.present change }
        ensures ok { OnOk result (self.new ≡ record self.old { present = changed at self.old.present change }) }
        ensures err { OnErr result (self.new ≡ self.old) }
    {
        let numbers = numbers_after(self.alloc, &self.world, &change)?;
        self.states.change(change, at)?;
        renumber(&mut self.world, &mut self.earlier, numbers);
        Ok(())
    }

    /// The present state becomes the kept one. It takes no memory.
    pub fn keep(&mut self)
        ensures { self.new ≡ both_windows self.old.watched self.old.present }
    {
        self.states.keep();
        self.earlier = None;
    }

    /// The kept state becomes the present one again. It takes no memory.
    pub fn back(&mut self)
        ensures { self.new ≡ both_windows self.old.watched self.old.kept }
    {
        self.states.back();
        take_numbers_back(&mut self.world, &mut self.earlier);
    }
}
