//! Changes of the windows as deeds.

ghost use Rattle.std.specs.Prelude.{◌≡◌, IfOk};
ghost use Rattle.core_scene.specs.Changing.{deeds_of};

use crate::deed::{Deed, Deeds};
use am_text::{Items, NoMemory};
use core_windows::Changes;
use std::alloc::Global;

/// Changes of the windows as deeds, in the same order.
#[tactic(auto, using(crate::proofs::Joined::joined))]
pub fn deeds_of(alloc: Global, changes: Changes) -> Result<Deeds, NoMemory>
    ensures { IfOk result (λ deeds. deeds ≡ deeds_of changes) }
{
    let mut deeds = Items::new(alloc);
    for change in changes.into_vec() {
        deeds.push(Deed::Windows(change))?;
    }
    Ok(deeds)
}
