//! Reads the address that a text is.

ghost use Rattle.std.specs.Prelude.{◌≡◌, IfOk};
ghost use Rattle.std.specs.Option.{option_map};
ghost use Rattle.addr_syntax.specs.Tree.{tree};
ghost use Rattle.addr_syntax.specs.Addresses.{small_address};

use crate::address::{Addr, SynFault};
use crate::parser::parse_addr;
use am_text::{NoMemory, Rune};
use std::alloc::Global;

/// The address that the whole text is, after sam(1), and `None` where it is none inside the limits: no expression of
/// more than 2,048 nodes, and at most 1,024 of `+`, `-`, `,` and `;`, each `+` that isn't written included.
pub fn read_address(alloc: Global, text: &[Rune]) -> Result<Option<Addr>, NoMemory>
    ensures { IfOk result (λ found. option_map tree found ≡ small_address text.now) }
{
    match parse_addr(alloc, text) {
        Ok(address) => Ok(Some(address)),
        Err(SynFault::Bad(_)) => Ok(None),
        Err(SynFault::Nodes) => Ok(None),
        Err(SynFault::Deep) => Ok(None),
        Err(SynFault::NoMemory) => Err(NoMemory),
    }
}
