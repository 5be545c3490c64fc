//! Walks, after walk(5).

ghost use Rattle.std.specs.Prelude.{◌≡◌, ◌≤◌, [], length, IfOk, IfErr, Ok, Err, ◌∷◌};
ghost use Rattle.ninep_types.specs.Limits.{max_names};
ghost use Rattle.core_fids.specs.Refusals.{Gives};
ghost use Rattle.core_fids.specs.Servers.{server_in, windows_in, world_in};
ghost use Rattle.core_windows.specs.declared.change.Change.TheVariants as Change;
ghost use Rattle.core_fids.specs.Done.{IsDone, MayEnd};
ghost use Rattle.core_fids.specs.Walking.{course, new_refusal, walk_refusal, arrives, walk_from, walk_reaction};

use crate::effect::{Effect, Reaction};
use crate::fids::{fids_full, fresh, is_open, is_used};
use crate::refusal::{Fault, Refusal};
use crate::server::{Server, port_names};
use acme_tree::{Node, Step, WinFile, World, qid_of, walk_one};
use am_text::{Bytes, Items, NoMemory};
use core_windows::{Change, Changes};
use fid_table::Fid;
use ninep_types::{NO_FID, Qids, RBody};
use std::alloc::Global;

/// Where a walk ends.
#[derive(Clone, Copy, Debug, PartialEq, Eq)]
pub enum WalkEnd {
    /// All names are found, and lead to this node.
    At(Node),
    /// All names are found, and a window is made for the last one, which is this file of it.
    Makes(WinFile),
    /// A name is refused.
    Stops(Refusal),
}

/// The qids of the names that are found, and where the walk ends.
#[derive(Drop)]
pub struct Course {
    pub qids: Qids,
    pub end: WalkEnd,
}

/// Where the names lead from a node, where the ports have these names.
#[tactic(auto, unfolding(crate::specs::Walking::course), using(crate::proofs::Courses::courses))]
fn course_of(
    alloc: Global,
    world: &World,
    ports: &[Bytes],
    from: Node,
    names: &[Bytes],
) -> Result<Course, NoMemory>
    ensures exact { IfOk result (λ t. t ≡ course world.now ports.now from names.now) }
    ensures few { IfOk result (λ t. length t.qids ≤ length names.now) }
    ensures may { IfOk result (λ t. MayEnd world.now t.end) }
{
    let mut qids = Items::new(alloc);
    let mut node = from;
    let mut rest = names;
    while let [name, after @ ..] = rest {
        let end = match walk_one(world, ports, node, name.as_slice(), after.is_empty()) {
            Step::Found(found) => {
                qids.push(qid_of(found))?;
                node = found;
                rest = after;
                continue;
            }
            Step::Make(file) => {
                qids.push(qid_of(Node::File(world.next, file)))?;
                WalkEnd::Makes(file)
            }
            Step::NotFound => WalkEnd::Stops(Refusal::FileNotFound),
            Step::NotDir => WalkEnd::Stops(Refusal::NotADirectory),
            Step::Deleted => WalkEnd::Stops(Refusal::WindowDeleted),
            Step::Windows => WalkEnd::Stops(Refusal::TooManyWindows),
        };
        return Ok(Course { qids, end });
    }
    Ok(Course {
        qids,
        end: WalkEnd::At(node),
    })
}

fn new_refusal(server: &Server, newfid: u32, fid: &Fid) -> Option<Refusal>
    ensures { result ≡ new_refusal (server_in server.now) newfid fid.now }
{
    if newfid == NO_FID {
        Some(Refusal::BadFid)
    } else if is_used(server, newfid) {
        Some(Refusal::FidInUse)
    } else if is_open(fid) {
        Some(Refusal::FidIsOpen)
    } else if fids_full(server) {
        Some(Refusal::TooManyFids)
    } else {
        None
    }
}

fn walk_refusal(server: &Server, number: u32, newfid: u32, fid: &Fid) -> Option<Refusal>
    ensures { result ≡ walk_refusal (server_in server.now) number newfid fid.now }
{
    if newfid != number {
        new_refusal(server, newfid, fid)
    } else if is_open(fid) {
        Some(Refusal::FidIsOpen)
    } else {
        None
    }
}

fn new_window(alloc: Global) -> Result<Changes, NoMemory>
    ensures { IfOk result (λ changes. changes ≡ Change.Makes [] ∷ []) }
{
    let mut changes = Items::new(alloc);
    changes.push(Change::Makes {
        name: Items::new(alloc),
    })?;
    Ok(changes)
}

fn arrive(alloc: Global, server: &Server, newfid: u32, course: Course) -> Result<Reaction, Fault>
    requires few { length course.qids ≤ max_names }
    requires may { MayEnd (world_in server.now) course.end }
    ensures exact { IfOk result (λ d. arrives newfid (world_in server.now) course ≡ Ok d) }
    ensures refused { IfErr result (λ e. Gives e (arrives newfid (world_in server.now) course)) }
    ensures done { IfOk result (IsDone (windows_in server.now)) }
{
    let Course { qids, end } = course;
    match end {
        WalkEnd::At(node) => Ok(Reaction::plain(
            Effect::Puts {
                number: newfid,
                fid: fresh(alloc, node),
            },
            Items::new(alloc),
            RBody::Walk { qids },
        )),
        WalkEnd::Makes(file) => Ok(Reaction::plain(
            Effect::Puts {
                number: newfid,
                fid: fresh(alloc, Node::File(server.windows.world().next, file)),
            },
            new_window(alloc)?,
            RBody::Walk { qids },
        )),
        WalkEnd::Stops(refusal) if qids.is_empty() => Err(Fault::Refused(refusal)),
        WalkEnd::Stops(_) => Ok(Reaction::plain(
            Effect::Nothing,
            Items::new(alloc),
            RBody::Walk { qids },
        )),
    }
}

/// What a Twalk does.
pub fn walk(
    alloc: Global,
    server: &Server,
    number: u32,
    newfid: u32,
    names: &[Bytes],
) -> Result<Reaction, Fault>
    requires { length names.now ≤ max_names }
    ensures exact { IfOk result (λ d. walk_reaction (server_in server.now) number newfid names.now ≡ Ok d) }
    ensures refused { IfErr result (λ e. Gives e (walk_reaction (server_in server.now) number newfid names.now)) }
    ensures done { IfOk result (IsDone (windows_in server.now)) }
{
    let Some(fid) = server.sessions.fid(server.conn, number) else {
        return Err(Fault::Refused(Refusal::UnknownFid));
    };
    if let Some(refusal) = walk_refusal(server, number, newfid, fid) {
        return Err(Fault::Refused(refusal));
    }
    let ports = port_names(server);
    let course = course_of(alloc, server.windows.world(), ports, fid.node, names)?;
    arrive(alloc, server, newfid, course)
}
