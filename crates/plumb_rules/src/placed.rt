//! Attributes of a message, each found by its name without comparing it with all others.

ghost use Rattle.std.specs.Prelude.{◌≡◌, List, ℕ, Some, [], if◌then◌else◌, IfOk, OnOk};
ghost use Rattle.std.specs.Str.{bytes_eq};
ghost use Rattle.plumb_rules.specs.Attributes.{place_from, place_among, with_attr};

use am_text::{Items, NoMemory};
use plumb_msg::{Attr, Attrs};
use std::alloc::Global;
use std::collections::BTreeMap;
use std::marker::Model;

/// Names in byte order, each with a place.
#[derive(Drop)]
pub struct Places {
    by_name: BTreeMap<Vec<u8>, usize>,
}

impl Model for Places {
    ghost use Rattle.std.specs.Prelude.{List, ℕ, map};

    ghost Value = { List (List ℕ × ℕ) };

    ghost view = { λ p. map (λ e. (e.0.items, e.1)) p.by_name.entries };
}

impl Places {
    // No names. It takes no memory.
    fn new(alloc: Global) -> Self
        ensures { result ≡ [] }
    {
        Places {
            by_name: BTreeMap::new(alloc),
        }
    }

    // The place of a name.
    fn of(&self, name: &[u8]) -> Option<usize>
        ensures { result ≡ place_among self.now name.now }
    {
        self.by_name.get(name).copied()
    }

    // The name has this place from now on.
    fn put(&mut self, alloc: Global, name: &[u8], place: usize) -> Result<(), NoMemory>
        ensures { OnOk result ((other : List ℕ) → place_among self.new
            other ≡ (if bytes_eq name.now other then Some place else place_among self.old other)) }
    {
        let name = Vec::from_slice(alloc, name)?;
        self.by_name.insert(name, place)?;
        Ok(())
    }
}

// The place of each name among these attributes: of the first one with it, since the last is put first.
#[tactic(auto, using(crate::proofs::Placing::before))]
fn places_of(alloc: Global, attrs: &[Attr]) -> Result<Places, NoMemory>
    ensures { IfOk result (λ all. (name : List ℕ) → place_among all name ≡ place_from 0 attrs.now name) }
{
    let mut all = Places::new(alloc);
    let mut i = attrs.len();
    while i > 0 {
        i -= 1;
        all.put(alloc, attrs[i].name.as_slice(), i)?;
    }
    Ok(all)
}

/// A list of attributes, with the places of their names apart.
#[derive(Drop)]
pub struct PlacedAttrs {
    attrs: Attrs,
    places: Places,
}

impl Model for PlacedAttrs {
    ghost use Rattle.std.specs.Prelude.{◌≡◌, List, ℕ};
    ghost use Rattle.plumb_msg.specs.declared.message.Attr.{Attr};
    ghost use Rattle.plumb_rules.specs.Attributes.{place_from, place_among};

    ghost Value = { List Attr };

    ghost view = { λ a. a.attrs };

    ghost invariant = { λ a. (name : List ℕ) → place_among a.places name ≡ place_from 0 a.attrs name };
}

impl PlacedAttrs {
    /// These attributes.
    pub fn of(alloc: Global, attrs: Attrs) -> Result<Self, NoMemory>
        ensures { IfOk result (λ all. all ≡ attrs) }
    {
        let places = places_of(alloc, attrs.as_slice())?;
        Ok(PlacedAttrs { attrs, places })
    }

    /// With an attribute in place of the one with its name, or at the end.
    #[tactic(auto, using(crate::proofs::Placing::placing))]
    pub fn with(self, alloc: Global, attr: Attr) -> Result<Self, NoMemory>
        ensures { IfOk result (λ new. new ≡ with_attr self attr) }
    {
        let PlacedAttrs { attrs, mut places } = self;
        let mut all = attrs.into_vec();
        match places.of(attr.name.as_slice()) {
            Some(i) => {
                all[i] = attr;
                Ok(PlacedAttrs {
                    attrs: Items::from_vec(all),
                    places,
                })
            }
            None => {
                places.put(alloc, attr.name.as_slice(), all.len())?;
                all.push(attr)?;
                Ok(PlacedAttrs {
                    attrs: Items::from_vec(all),
                    places,
                })
            }
        }
    }

    /// The list alone.
    pub fn into_attrs(self) -> Attrs
        ensures { result ≡ self }
    {
        self.attrs
    }
}
