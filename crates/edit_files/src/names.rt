//! Names in a command.

ghost use Rattle.std.specs.Prelude.{◌≡◌, ◌≤◌, ◌<◌, ◌+◌, ◌∷◌, ◌++◌, ◌==◌, ◌||◌, ◌&&◌, nat_lt, not, [], length, drop};
ghost use Rattle.std.specs.Prelude.{Bool, true, false, Some, IfOk, IfErr, OnOk};
ghost use Rattle.edit_files.specs.Names.{ended, names_in, few, lone, is_refused};
ghost use Rattle.edit_files.specs.Answer.{PartFails};

use am_text::{NameList, NoMemory, Rune, Runes, SPACE};
use edit_parts::SynFault;
use std::alloc::Global;
use std::mem;

// A name that is begun ends.
fn end(alloc: Global, all: &mut NameList, name: &mut Runes) -> Result<(), NoMemory>
    ensures all { OnOk result (all.new ≡ all.old ++ ended name.old []) }
    ensures name { OnOk result (name.new ≡ []) }
{
    if name.is_empty() {
        return Ok(());
    }
    let whole = mem::replace(name, Runes::new(alloc));
    all.push(whole)
}

// Whether a rune that isn't a blank can't stand here: it stands in no name, or begins a second one where one may be.
fn is_refused(all: &NameList, name: &Runes, one: bool, c: Rune) -> bool
    ensures { result ≡ is_refused all.now name.now one c }
{
    c < SPACE || (one && !all.is_empty() && name.is_empty())
}

/// The names from a place on: runs of runes above U+0020, with blanks between them. `one` says that there is one at
/// most.
pub fn read_names(
    alloc: Global,
    text: &[Rune],
    from: usize,
    one: bool,
) -> Result<NameList, SynFault>
    requires { from ≤ length text.now }
    ensures ok { IfOk result (λ names. few one (names_in (drop from text.now)) ≡ Some names) }
    ensures err { IfErr result (PartFails (λ t. few one (names_in t)) text.now from) }
{
    let mut all = NameList::new(alloc);
    let mut name = Runes::new(alloc);
    for at in from..text.len() {
        let c = text[at];
        if c == SPACE {
            end(alloc, &mut all, &mut name)?;
        } else if is_refused(&all, &name, one, c) {
            return Err(SynFault::Bad(at));
        } else {
            name.push(c)?;
        }
    }
    end(alloc, &mut all, &mut name)?;
    Ok(all)
}

/// The name from a place on, if there is one; there is no second one.
pub fn lone_name(alloc: Global, text: &[Rune], from: usize) -> Result<Option<Runes>, SynFault>
    requires { from ≤ length text.now }
    ensures ok { IfOk result (λ name. lone (names_in (drop from text.now)) ≡ Some name) }
    ensures err { IfErr result (PartFails (λ t. lone (names_in t)) text.now from) }
{
    let names = read_names(alloc, text, from, true)?;
    Ok(names.into_vec().pop())
}
