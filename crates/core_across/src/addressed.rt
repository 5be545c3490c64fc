//! The range of an address of `r` and `w` in a window's body.

ghost use Rattle.std.specs.Prelude.{◌≡◌, Some, IsSome, IfOk};
ghost use Rattle.addr_syntax.specs.Tree.{tree, tree_of};
ghost use Rattle.win_text.specs.Bodies.{IsInside};
ghost use Rattle.core_windows.specs.Panes.{window_of};
ghost use Rattle.core_windows.specs.Possible.{text_in};
ghost use Rattle.core_windows.specs.Windows.{window_at};
ghost use Rattle.core_across.specs.Addressed.{range_or_fault, address_in, range_in};

use am_text::{Letters, NoMemory, Range};
use core_edit::CommandFault;
use core_scene::Windows;
use core_windows::Pane;
use edit_files::Addr;
use sam_address::{AddrFault, value};
use std::alloc::Global;

// The range of an address in a body, over all of which it searches.
fn address_in(
    alloc: Global,
    pane: &Pane,
    addr: &Addr,
) -> Result<Result<Range, CommandFault>, NoMemory>
    ensures exact { IfOk result (λ range. range
        ≡ range_or_fault (address_in (Some (window_of pane.now)) (tree addr.now))) }
    ensures inside { IfOk result (λ range. IfOk range (IsInside pane.now.body.state.text)) }
{
    // law: the ranges of a body are inside its text
    pane.body.is_sound();
    let whole = Range {
        q0: 0,
        q1: pane.body.len(),
    };
    match value(alloc, addr, &pane.body, pane.body.dot(), whole) {
        Ok(range) => Ok(Ok(range)),
        Err(AddrFault::Range) => Ok(Err(CommandFault::AddressOutOfRange)),
        Err(AddrFault::NoMatch) => Ok(Err(CommandFault::NoMatch)),
        Err(AddrFault::Order) => Ok(Err(CommandFault::AddressOutOfOrder)),
        Err(AddrFault::NoMemory) => Err(NoMemory),
    }
}

/// The range of an address in a window's body, which is the given one where no address is written.
#[tactic(auto, using(crate::proofs::Written::written))]
pub(crate) fn range_in(
    alloc: Global,
    windows: &Windows,
    window: u32,
    addr: &Option<Addr>,
    missing: Range,
) -> Result<Result<Range, CommandFault>, NoMemory>
    requires lives { IsSome (window_at windows.now.present window) }
    requires inside { IsInside (text_in (window_at windows.now.present window)) missing }
    ensures exact { IfOk result (λ range. range
        ≡ range_in (window_at windows.now.present window) (tree_of addr.now) missing) }
    ensures inside { IfOk result (λ range. IfOk range (IsInside (text_in (window_at windows.now.present window)))) }
{
    let Some(addr) = addr else {
        return Ok(Ok(missing));
    };
    match windows.get(window) {
        Some(pane) => address_in(alloc, pane, addr),
        None => unreachable!(),
    }
}
