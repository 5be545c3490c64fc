//! What takes growths back.

ghost use Rattle.std.specs.Prelude.{◌≡◌, []};
ghost use Rattle.fid_table.specs.Undo.{undone, all_undone, unset};

use crate::table::Table;
use crate::types::Fid;

/// What takes one growth back.
#[derive(Drop)]
pub enum Undo {
    /// The newest connection leaves.
    Leave,
    /// The fid that wasn't in use is freed.
    Free { conn: u32, fid: u32 },
    /// The fid that was replaced is set again.
    Restore { conn: u32, fid: u32, value: Fid },
    /// The newest waiting read waits no more.
    Unwait,
}

/// What takes back that a fid was set, given the one that stood there before.
pub fn unset(conn: u32, fid: u32, before: Option<Fid>) -> Undo
    ensures { result ≡ unset conn fid before }
{
    match before {
        None => Undo::Free { conn, fid },
        Some(value) => Undo::Restore { conn, fid, value },
    }
}

/// Takes one growth back. It takes no memory.
fn take_back(table: &mut Table, step: Undo)
    ensures { table.new ≡ undone step table.old }
{
    match step {
        Undo::Leave => table.leave(),
        Undo::Free { conn, fid } => {
            table.take(conn, fid);
        }
        Undo::Restore { conn, fid, value } => table.restore(conn, fid, value),
        Undo::Unwait => table.unwait(),
    }
}

/// Takes all growths back, the newest first. It takes no memory.
pub fn take_all_back(table: &mut Table, trail: &mut Vec<Undo>)
    ensures table { table.new ≡ all_undone trail.old.items table.old }
    ensures trail { trail.new.items ≡ [] }
{
    while let Some(step) = trail.pop() {
        take_back(table, step);
    }
}
