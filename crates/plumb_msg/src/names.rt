//! Names of attributes, each found without comparing it with all others.

ghost use Rattle.std.specs.Prelude.{◌≡◌, ◌||◌, ◌++◌, ◌∷◌, [], List, ℕ, IfOk, OnOk};
ghost use Rattle.std.specs.Str.{bytes_eq};
ghost use Rattle.plumb_msg.specs.Names.{is_known, is_among};

use crate::message::{Attr, Attrs};
use am_text::NoMemory;
use std::alloc::Global;
use std::collections::BTreeSet;
use std::marker::Model;

/// Names in byte order, each once.
#[derive(Drop)]
pub struct Names {
    all: BTreeSet<Vec<u8>>,
}

impl Model for Names {
    ghost use Rattle.std.specs.Prelude.{List, ℕ, map};

    ghost Value = { List (List ℕ) };

    ghost view = { λ n. map (λ v. v.items) n.all.keys };
}

impl Names {
    /// No names. It takes no memory.
    pub fn new(alloc: Global) -> Self
        ensures { result ≡ [] }
    {
        Names {
            all: BTreeSet::new(alloc),
        }
    }

    /// Whether the name is among them.
    pub fn has(&self, name: &[u8]) -> bool
        ensures { result ≡ is_among name.now self.now }
    {
        self.all.contains(name)
    }

    /// The name is among them from now on.
    pub fn put(&mut self, alloc: Global, name: &[u8]) -> Result<(), NoMemory>
        ensures { OnOk result ((other : List ℕ) → is_among other self.new
            ≡ (is_among other self.old || bytes_eq name.now other)) }
    {
        let name = Vec::from_slice(alloc, name)?;
        self.all.insert(name)?;
        Ok(())
    }
}

/// A list of attributes, with their names apart.
#[derive(Drop)]
pub struct NamedAttrs {
    attrs: Attrs,
    names: Names,
}

impl Model for NamedAttrs {
    ghost use Rattle.std.specs.Prelude.{◌≡◌, List, ℕ};
    ghost use Rattle.plumb_msg.specs.Names.{is_known, is_among};
    ghost use Rattle.plumb_msg.specs.declared.message.Attr.{Attr};

    ghost Value = { List Attr };

    ghost view = { λ a. a.attrs };

    ghost invariant = { λ a. (name : List ℕ) → is_among name a.names ≡ is_known name a.attrs };
}

impl NamedAttrs {
    /// No attributes. It takes no memory.
    pub fn new(alloc: Global) -> Self
        ensures { result ≡ [] }
    {
        NamedAttrs {
            attrs: Attrs::new(alloc),
            names: Names::new(alloc),
        }
    }

    /// Whether one of the attributes has this name.
    pub fn has(&self, name: &[u8]) -> bool
        ensures { result ≡ is_known name.now self.now }
    {
        self.names.has(name)
    }

    /// With one more at the end.
    #[tactic(auto, using(crate::proofs::NameLemmas::naming))]
    pub fn with(self, alloc: Global, attr: Attr) -> Result<Self, NoMemory>
        ensures { IfOk result (λ new. new ≡ self ++ attr ∷ []) }
    {
        let NamedAttrs {
            mut attrs,
            mut names,
        } = self;
        names.put(alloc, attr.name.as_slice())?;
        attrs.push(attr)?;
        Ok(NamedAttrs { attrs, names })
    }

    /// The list alone.
    pub fn into_attrs(self) -> Attrs
        ensures { result ≡ self }
    {
        self.attrs
    }
}
