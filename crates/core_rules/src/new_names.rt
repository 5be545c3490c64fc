//! Names of ports that rules bring.

ghost use Rattle.std.specs.Prelude.{◌≡◌, ◌++◌, ◌∷◌, [], false, map, length, IfOk, OnOk};
ghost use Rattle.core_rules.specs.NewNames.{is_among, is_known, with_name, new_names};
ghost use Rattle.core_scene.specs.declared.deed.Deed.TheVariants as deed;

use am_text::{Bytes, Items, NoMemory};
use core_scene::{Deed, Deeds, Ports};
use indexmap::IndexSet;
use std::alloc::Global;
use std::marker::Model;

/// Names in the order in which they were put, each once.
#[derive(Drop)]
pub(crate) struct NewNames {
    names: IndexSet<Vec<u8>>,
}

impl Model for NewNames {
    ghost use Rattle.std.specs.Prelude.{List, ℕ, map};

    ghost Value = { List (List ℕ) };

    ghost view = { λ n. map (λ v. v.items) n.names.keys };
}

impl NewNames {
    // No names. It takes no memory.
    fn new(alloc: Global) -> NewNames
        ensures { result ≡ [] }
    {
        NewNames {
            names: IndexSet::new(alloc),
        }
    }

    /// How many there are.
    pub(crate) fn len(&self) -> usize
        ensures { result ≡ length self.now }
    {
        self.names.len()
    }

    // Whether the name is one of them.
    fn has(&self, name: &[u8]) -> bool
        ensures { result ≡ is_among name.now self.now }
    {
        self.names.contains(name)
    }

    // Puts a name that isn't one of them.
    fn put(&mut self, alloc: Global, name: &[u8]) -> Result<(), NoMemory>
        requires { is_among name.now self.old ≡ false }
        ensures { OnOk result (self.new ≡ self.old ++ name.now ∷ []) }
    {
        let name = Vec::from_slice(alloc, name)?;
        self.names.insert(name)?;
        Ok(())
    }

    /// The deeds that add a port for each of them.
    #[tactic(auto, using(crate::proofs::Named::joins))]
    pub(crate) fn deeds(&self, alloc: Global) -> Result<Deeds, NoMemory>
        ensures { IfOk result (λ deeds. deeds ≡ map deed.AddsPort self.now) }
    {
        let mut deeds = Items::new(alloc);
        let mut rest = self.names.as_slice();
        while let [name, after @ ..] = rest {
            deeds.push(Deed::AddsPort(Bytes::copied(alloc, name.as_slice())?))?;
            rest = after;
        }
        Ok(deeds)
    }
}

// Whether a port has the name, or one of these names is it.
fn is_known(ports: &Ports, names: &NewNames, name: &[u8]) -> bool
    ensures { result ≡ is_known ports.now.present.ports names.now name.now }
{
    ports.number(name).is_some() || names.has(name)
}

// Puts a name behind the others, if no port has it and it isn't one of them.
fn put_name(alloc: Global, ports: &Ports, names: &mut NewNames, name: &[u8]) -> Result<(), NoMemory>
    ensures { OnOk result (names.new ≡ with_name ports.now.present.ports names.old name.now) }
{
    if !is_known(ports, names, name) {
        names.put(alloc, name)?;
    }
    Ok(())
}

/// Those of the names that no port has, each once, in the order in which they are first named.
pub(crate) fn new_names(alloc: Global, ports: &Ports, names: &[Bytes]) -> Result<NewNames, NoMemory>
    ensures { IfOk result (λ new. new ≡ new_names ports.now.present.ports names.now) }
{
    let mut new = NewNames::new(alloc);
    let mut rest = names;
    while let [name, after @ ..] = rest {
        put_name(alloc, ports, &mut new, name.as_slice())?;
        rest = after;
    }
    Ok(new)
}
