//! The items of a window, with their lives.

ghost use Rattle.std.specs.Prelude.{◌≡◌, ◌≤◌, ◌<◌, ◌-◌, false, [], ◌∷◌, ◌++◌, length, take, OnOk, OnErr, option_map};
ghost use Rattle.std.specs.Prelude.{option_copied};
ghost use Rattle.am_text.specs.Twice.{Twice, both};
ghost use Rattle.event_book.specs.Lives.{is_pending, is_taken, has_taken, fresh, take_first, all_dropped, back_life};
ghost use Rattle.event_book.specs.Lives.{written_back, numbered, views_from};
ghost use Rattle.event_book.specs.Finding.{found_in};
ghost use Rattle.event_book.specs.Shown.{shown, shown_life, AreSettled, dropped_after, with_life_at};

use crate::finding::{BackFault, found_in};
use am_journal::{ItemView, ItemViews};
use am_text::NoMemory;
use std::alloc::Global;
use std::marker::Model;
use win_events::{BackMsg, Item, Life, spell};

/// An item, and what became of it.
#[derive(Drop)]
pub struct Recorded {
    pub item: Item,
    pub life: Life,
}

/// The items of a window in order, in two states.
///
/// The first `settled` of them are not pending, and all others are, whatever life stands there. At
/// the last `keep` there were `kept` items, the first `kept_settled` of them not pending.
#[derive(Drop)]
pub struct ItemList {
    all: Vec<Recorded>,
    settled: usize,
    kept: usize,
    kept_settled: usize,
}

impl Model for ItemList {
    ghost use Rattle.std.specs.Prelude.{List, take};
    ghost use Rattle.am_text.specs.Twice.{Twice};
    ghost use Rattle.event_book.specs.declared.lives.Recorded.{Recorded};

    ghost Value = { Twice (List Recorded) };

    ghost use Rattle.event_book.specs.Shown.{shown, IsSplit};

    ghost view = { λ l. record {
      present = shown l.settled l.all.items;
      kept = shown l.kept_settled
          (take l.kept l.all.items);
    } };

    ghost invariant = { λ l. IsSplit l.settled l.kept l.kept_settled l.all.items };
}

fn shown_life(all: &[Recorded], settled: usize, i: usize) -> Life
    requires { i < length all.now }
    ensures { result ≡ shown_life all.now settled i }
{
    if i < settled {
        all[i].life
    } else {
        Life::Pending
    }
}

// Puts the items from this place on into the ledger, each pending where it isn't settled.
fn append_views(
    alloc: Global,
    window: u32,
    all: &[Recorded],
    settled: usize,
    views: &mut ItemViews,
) -> Result<(), NoMemory>
    ensures { OnOk result (views.new ≡ views.old ++ views_from window 1 (shown settled all.now)) }
{
    for i in 0..all.len() {
        let life = shown_life(all, settled, i);
        let spelled = spell(alloc, &all[i].item)?;
        views.push(ItemView {
            window,
            number: i as u64 + 1,
            life,
            spelled,
        })?;
    }
    Ok(())
}

fn set_life(all: &mut Vec<Recorded>, place: usize, life: Life)
    requires { place < length all.old.items }
    ensures { all.new.items ≡ with_life_at life place all.old.items }
{
    let recorded = &mut all[place];
    recorded.life = life;
}

// The items from this place on are dropped.
fn drop_after(all: &mut Vec<Recorded>, from: usize, at: u64)
    ensures { all.new.items ≡ dropped_after at from all.old.items }
{
    for i in from..all.len() {
        set_life(all, i, Life::Dropped { at });
    }
}

fn is_taken(life: Life) -> bool
    ensures { result ≡ is_taken life }
{
    match life {
        Life::Taken { .. } => true,
        _ => false,
    }
}

fn back_life(life: Life, at: u64) -> Life
    ensures { result ≡ back_life at life }
{
    match life {
        Life::Taken {
            opening,
            at: taken_at,
        } => Life::Back {
            opening,
            at: taken_at,
            back: at,
        },
        other => other,
    }
}

// The item with this number is written back, if it is one of the settled ones.
fn write_back(all: &mut Vec<Recorded>, settled: usize, number: u64, at: u64)
    requires { settled ≤ length all.old.items }
    ensures shown { shown settled all.new.items ≡ written_back at number (shown settled all.old.items) }
    ensures ones { AreSettled settled all.old.items → AreSettled settled all.new.items }
    ensures len { length all.new.items ≡ length all.old.items }
{
    if number == 0 {
        return;
    }
    if number > settled as u64 {
        return;
    }
    let place = number as usize - 1;
    let life = back_life(all[place].life, at);
    set_life(all, place, life);
}

impl ItemList {
    /// No items. It takes no memory.
    pub fn new(alloc: Global) -> Self
        ensures { result ≡ both [] }
    {
        ItemList {
            all: Vec::new(alloc),
            settled: 0,
            kept: 0,
            kept_settled: 0,
        }
    }

    /// How many items there are.
    pub fn len(&self) -> usize
        ensures { result ≡ length self.now.present }
    {
        self.all.len()
    }

    /// Puts an item at the end. It is pending.
    pub fn push(&mut self, item: Item) -> Result<(), NoMemory>
        ensures ok { OnOk result (self.new ≡ record self.old { present = self.old.present ++ fresh item ∷ [] }) }
        ensures err { OnErr result (self.new ≡ self.old) }
    {
        self.all.push(Recorded {
            item,
            life: Life::Pending,
        })?;
        Ok(())
    }

    /// The first pending item gets this life.
    pub fn settle(&mut self, life: Life)
        requires { is_pending life ≡ false }
        ensures { self.new ≡ record self.old { present = take_first life self.old.present } }
    {
        if self.settled < self.all.len() {
            set_life(&mut self.all, self.settled, life);
            self.settled += 1;
        }
    }

    /// All pending items are dropped. It takes no memory.
    pub fn drop_pending(&mut self, at: u64)
        ensures { self.new ≡ both (all_dropped at self.old.present) }
    {
        drop_after(&mut self.all, self.settled, at);
        self.settled = self.all.len();
        self.kept_settled = self.settled;
        self.kept = self.settled;
    }

    /// The taken item with this number is written back. It takes no memory.
    pub fn set_back(&mut self, number: u64, at: u64)
        ensures { self.new ≡ both (written_back at number self.old.present) }
    {
        write_back(&mut self.all, self.settled, number, at);
        self.kept = self.all.len();
        self.kept_settled = self.settled;
    }

    /// The number of the item that a message written back names. It takes no memory.
    pub fn find(&self, message: &BackMsg) -> Result<u64, BackFault>
        ensures { result ≡ found_in message.now self.now.present }
    {
        found_in(message, &self.all[..self.settled])
    }

    /// The item with this number, if there is one.
    pub fn item(&self, number: u64) -> Option<&Item>
        ensures { option_copied result ≡ option_map (λ e. e.item) (numbered self.now.present number) }
    {
        if number == 0 {
            return None;
        }
        match self.all.get(number as usize - 1) {
            Some(recorded) => Some(&recorded.item),
            None => None,
        }
    }

    /// Whether the item with this number was taken, and not written back.
    pub fn is_taken(&self, number: u64) -> bool
        ensures { result ≡ has_taken (numbered self.now.present number) }
    {
        if number == 0 {
            return false;
        }
        if number > self.settled as u64 {
            return false;
        }
        is_taken(self.all[number as usize - 1].life)
    }

    /// Puts all items with their lives and spellings into a ledger.
    pub fn append_views(
        &self,
        alloc: Global,
        window: u32,
        views: &mut ItemViews,
    ) -> Result<(), NoMemory>
        ensures { OnOk result (views.new ≡ views.old ++ views_from window 1 self.now.present) }
    {
        append_views(alloc, window, self.all.as_slice(), self.settled, views)
    }

    /// Puts all kept items with their kept lives and their spellings into a ledger.
    pub fn append_kept_views(
        &self,
        alloc: Global,
        window: u32,
        views: &mut ItemViews,
    ) -> Result<(), NoMemory>
        ensures { OnOk result (views.new ≡ views.old ++ views_from window 1 self.now.kept) }
    {
        let kept = &self.all.as_slice()[..self.kept];
        append_views(alloc, window, kept, self.kept_settled, views)
    }

    /// The present state becomes the kept one. It takes no memory.
    pub fn keep(&mut self)
        ensures { self.new ≡ both self.old.present }
    {
        self.kept = self.all.len();
        self.kept_settled = self.settled;
    }

    /// The kept state becomes the present one again. It takes no memory.
    pub fn back(&mut self)
        ensures { self.new ≡ both self.old.kept }
    {
        self.all.truncate(self.kept);
        self.settled = self.kept_settled;
    }
}
