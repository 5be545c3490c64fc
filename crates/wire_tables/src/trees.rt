//! Cases of acme_tree: the trees, with window 1 and the port `edit`. PATH is `acme`, `plumb` or a window's number, and
//! names with a slash before each. NEXT is the number that the next window gets.
//!
//! | line | answer |
//! |---|---|
//! | `node` NEXT PATH | the qid's type, version and path, the mode and the name |
//! | `walk` NEXT PATH NAME | where NAME leads as the last name of a walk |
//! | `pass` NEXT PATH NAME | where it leads as another name |
//! | `open` NEXT PATH MODE | whether the node may be opened so |
//! | `list` NEXT PATH | the names of what the directory lists |
//! | `full` NEXT PATH | whether no window can be made |

use crate::fault::Fault;
use crate::fields::{cut, line, number_of};
use acme_tree::{
    Bytes, Items, Node, Step, World, children, is_dir, is_live, may_open, qid_of, stat_of,
    walk_one, world_is_full,
};
use am_text::NoMemory;
use std::alloc::Global;

/// What both trees are made of.
#[derive(Drop)]
struct Trees {
    world: World,
    ports: Items<Bytes>,
}

fn trees_with(alloc: Global, next: u32) -> Result<Trees, NoMemory> {
    let mut ports = Items::new(alloc);
    ports.push(Bytes::copied(alloc, b"edit")?)?;
    let windows = Items::copied(alloc, &[1])?;
    Ok(Trees {
        world: World {
            windows,
            next,
            watched: false,
        },
        ports,
    })
}

fn stepped_from(trees: &Trees, node: Node, name: &str, last: bool) -> Step {
    walk_one(
        &trees.world,
        trees.ports.as_slice(),
        node,
        name.as_bytes(),
        last,
    )
}

fn first_node(name: &str) -> Result<Node, Fault> {
    match name {
        "acme" => Ok(Node::Root),
        "plumb" => Ok(Node::PlumbRoot),
        number => Ok(Node::Window(number_of(number)?)),
    }
}

fn node_below(trees: &Trees, first: Node, names: &str) -> Result<Node, Fault> {
    let mut node = first;
    for name in names.split('/') {
        match stepped_from(trees, node, name, false) {
            Step::Found(next) => node = next,
            _ => return Err(Fault::NoCase),
        }
    }
    Ok(node)
}

fn node_at(trees: &Trees, path: &str) -> Result<Node, Fault> {
    match path.split_once('/') {
        Some((first, names)) => node_below(trees, first_node(first)?, names),
        None => first_node(path),
    }
}

fn shown(alloc: Global, trees: &Trees, node: Node) -> Result<Bytes, Fault> {
    let ports = trees.ports.as_slice();
    if !is_live(&trees.world, ports, node) {
        return Err(Fault::NoCase);
    }
    let stat = stat_of(alloc, ports, node)?;
    let qid = qid_of(node);
    let name = String::from_utf8_lossy(alloc, stat.name.as_slice())?;
    Ok(line(format!(in alloc;
        "{} {} {} {:#x} {name}",
        qid.kind, qid.vers, qid.path, stat.mode
    )?))
}

fn listed(alloc: Global, trees: &Trees, node: Node) -> Result<Bytes, Fault> {
    let ports = trees.ports.as_slice();
    if !is_dir(node) || !is_live(&trees.world, ports, node) {
        return Err(Fault::NoCase);
    }
    let mut names = Bytes::new(alloc);
    for stat in children(alloc, &trees.world, ports, node)?.as_slice() {
        names.append(stat.name.as_slice())?;
        names.append(b" ")?;
    }
    Ok(names)
}

fn stepped(alloc: Global, step: Step) -> Result<Bytes, Fault> {
    Ok(line(format!(in alloc; "{step:?}")?))
}

fn opened(alloc: Global, node: Node, mode: &str) -> Result<Bytes, Fault> {
    let may = may_open(node, number_of(mode)?);
    Ok(line(format!(in alloc; "{may:?}")?))
}

/// The answer to a line of a word of this table.
pub fn answer(alloc: Global, word: &str, fields: &str) -> Result<Bytes, Fault> {
    let (next, fields) = cut(fields)?;
    let (path, field) = fields.split_once('\t').unwrap_or((fields, ""));
    let trees = trees_with(alloc, number_of(next)?)?;
    let node = node_at(&trees, path)?;
    match word {
        "node" => shown(alloc, &trees, node),
        "walk" => stepped(alloc, stepped_from(&trees, node, field, true)),
        "pass" => stepped(alloc, stepped_from(&trees, node, field, false)),
        "open" => opened(alloc, node, field),
        "list" => listed(alloc, &trees, node),
        _ => Ok(line(format!(in alloc; "{}", world_is_full(&trees.world))?)),
    }
}
