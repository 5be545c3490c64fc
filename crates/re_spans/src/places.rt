//! Sets of places of a text.

ghost use Rattle.std.specs.Prelude.{◌≡◌, ◌<◌, ◌≤◌, ◌+◌, ◌-◌, ◌^◌, ◌↔◌, ◌⊎◌, ℕ, length, IfOk, IsTrue, true, false};
ghost use Rattle.std.specs.Prelude.{replicate, slice_index_or};
ghost use Rattle.re_spans.specs.Places.{has, past, put, put_if, none_from};
ghost use Rattle.re_spans.specs.Turns.{first};

use crate::way::Way;
use am_text::NoMemory;
use std::alloc::Global;
use std::marker::Model;

/// A set of places from a lowest one on, which contracts see as a test of each.
#[derive(Drop)]
pub struct Places {
    lowest: usize,
    tests: Vec<bool>,
}

impl Model for Places {
    ghost use Rattle.re_spans.specs.Places.{Cells};

    ghost Value = { Cells };

    ghost view = { λ s. record { low = s.lowest; cells = s.tests.items } };
}

/// How many places these are, the lowest and the highest among them.
pub fn count_of(low: usize, high: usize) -> Result<usize, NoMemory>
    requires { low ≤ high }
    ensures { IfOk result (λ count. count ≡ high + 1 - low) }
{
    match (high - low).checked_add(1) {
        Some(count) => Ok(count),
        None => Err(NoMemory),
    }
}

// Puts all places from one on.
fn put_from(tests: &mut [bool], first: usize)
    ensures { (k : ℕ) → k < length tests.old → IsTrue (slice_index_or tests.new k false) ↔
        (IsTrue (slice_index_or tests.old k false) ⊎ (first ≤ k)) }
{
    for k in first..tests.len() {
        tests[k] = true;
    }
}

impl Places {
    /// Of the places from the lowest to the highest those that aren't below the first one.
    pub fn from(alloc: Global, low: usize, high: usize, first: usize) -> Result<Places, NoMemory>
        requires above { low ≤ first }
        requires below { first ≤ high }
        ensures low { IfOk result (λ s. s.low ≡ low) }
        ensures past { IfOk result (λ s. past s ≡ high + 1) }
        ensures places { IfOk result (λ s. (j : ℕ) → low ≤ j → j ≤ high → IsTrue (has s j) ↔ (first ≤ j)) }
    {
        let count = count_of(low, high)?;
        let mut tests = vec![in alloc; false; count]?;
        put_from(tests.as_mut_slice(), first - low);
        Ok(Places { lowest: low, tests })
    }

    /// All of the places from the lowest to the highest.
    pub fn all(alloc: Global, low: usize, high: usize) -> Result<Places, NoMemory>
        requires { low ≤ high }
        ensures { IfOk result (λ s. s ≡ record { low = low; cells = replicate (high + 1 - low) true }) }
    {
        let count = count_of(low, high)?;
        Ok(Places {
            lowest: low,
            tests: vec![in alloc; true; count]?,
        })
    }

    /// One of the places from the lowest to the highest.
    pub fn one(alloc: Global, low: usize, high: usize, place: usize) -> Result<Places, NoMemory>
        requires above { low ≤ place }
        requires below { place ≤ high }
        ensures { IfOk result (λ s. s ≡ put (none_from low (high + 1 - low)) place) }
    {
        let count = count_of(low, high)?;
        let mut all = Places {
            lowest: low,
            tests: vec![in alloc; false; count]?,
        };
        all.put(place);
        Ok(all)
    }

    /// None of the places of another set.
    pub fn none_of(alloc: Global, other: &Places) -> Result<Places, NoMemory>
        ensures { IfOk result (λ s. s ≡ none_from other.now.low (length other.now.cells)) }
    {
        Ok(Places {
            lowest: other.lowest,
            tests: vec![in alloc; false; other.count()]?,
        })
    }

    /// How many places there are, in the set or not.
    pub fn count(&self) -> usize
        ensures { result ≡ length self.now.cells }
    {
        self.tests.len()
    }

    /// The place at which a search through the set begins.
    pub fn first(&self, way: Way) -> usize
        requires some { 0 < length self.now.cells }
        requires within { past self.now ≤ 2 ^ 64 }
        ensures { result ≡ first way self.now }
    {
        match way {
            Way::On => self.lowest,
            Way::Back => self.lowest + (self.tests.len() - 1),
        }
    }

    /// The place is in the set.
    pub fn has(&self, place: usize) -> bool
        requires above { self.now.low ≤ place }
        requires below { place < past self.now }
        ensures { result ≡ has self.now place }
    {
        self.tests[place - self.lowest]
    }

    fn put(&mut self, place: usize)
        requires above { self.old.low ≤ place }
        requires below { place < past self.old }
        ensures { self.new ≡ put self.old place }
    {
        let n = place - self.lowest;
        self.tests[n] = true;
    }

    /// Puts the place where `on` holds.
    pub fn put_if(&mut self, place: usize, on: bool)
        requires above { self.old.low ≤ place }
        requires below { place < past self.old }
        ensures { self.new ≡ put_if self.old place on }
    {
        if on {
            self.put(place);
        }
    }
}
