//! The tree by the parts of its paths.

ghost use Rattle.std.specs.Prelude.{◌≡◌, ◌&&◌, ◌∷◌, length, not, Some, is_some, slice_get, slice_index_or};
ghost use Rattle.std.specs.Prelude.{option_copied, vec_capacity, OnOk, OnErr, IfOk};
ghost use Rattle.std.specs.Map.{keys_of};
ghost use Rattle.std.specs.List.Sorted.{IsStrictlySortedBy};
ghost use Rattle.am_text.specs.Ascii.{slash};
ghost use Rattle.name_tree.specs.Entries.{byte_order, entry_at};
ghost use Rattle.name_tree.specs.Laws.{IsOrdered};
ghost use Rattle.name_tree.specs.Kinds.{node_at, is_file_node, is_below_file};
ghost use Rattle.name_tree.specs.Paths.{is_empty, is_root};
ghost use Rattle.name_tree.specs.Shape.{no_places, keys, entries_of, child_of, place_at, node_in, grown, put_at, cut};
ghost use Rattle.name_tree.specs.Shape.{with_name, without_name};
ghost use Rattle.name_tree.specs.Trie.{IsTrie};
ghost use Rattle.name_tree.specs.Listing.{listing};
ghost use Rattle.name_tree.specs.Lines.{lines_in, names_in};

use crate::names::Names;
use crate::origin::Origin;
use crate::paths::{ends_part, front_of, is_root};
use crate::types::Node;
use am_text::{Bytes, NoMemory};
use std::alloc::Global;
use std::marker::Model;

/// Places, each with a number: its origin, the names in it, and what stands at it. Place 0 is the top.
#[derive(Drop)]
pub struct Places {
    alloc: Global,
    origins: Vec<Origin>,
    names: Vec<Names>,
    nodes: Vec<Option<Node>>,
}

impl Model for Places {
    ghost use Rattle.name_tree.specs.Shape.{Shape};

    ghost Value = { Shape };

    ghost view = { λ p. record { origins = p.origins.items; names = p.names.items; nodes = p.nodes.items } };
}

// Gives the name in this place a number.
fn insert_name(
    names: &mut Vec<Names>,
    place: usize,
    key: Vec<u8>,
    number: usize,
) -> Result<(), NoMemory>
    ensures ok { OnOk result (names.new.items ≡ with_name names.old.items place key.items number) }
    ensures err { OnErr result (names.new.items ≡ names.old.items) }
    ensures capacity { vec_capacity names.new ≡ vec_capacity names.old }
{
    if place < names.len() {
        let names = &mut names[place];
        names.insert(key, number)?;
    }
    Ok(())
}

// Takes the name of an origin out of the place above it.
fn remove_name(names: &mut Vec<Names>, origin: &Origin)
    ensures { names.new.items ≡ without_name names.old.items origin.now.above origin.now.name }
{
    if origin.above < names.len() {
        let names = &mut names[origin.above];
        names.remove(origin.name.as_slice());
    }
}

impl Places {
    /// No places. It takes no memory.
    pub fn new(alloc: Global) -> Self
        ensures { result ≡ no_places }
    {
        Places {
            alloc,
            origins: Vec::new(alloc),
            names: Vec::new(alloc),
            nodes: Vec::new(alloc),
        }
    }

    /// How many there are. The paths at which something stands ascend in byte order.
    pub fn len(&self) -> usize
        ensures len { result ≡ length self.now.origins }
        ensures ordered { IsOrdered (entries_of self.now) }
    {
        self.origins.len()
    }

    /// The place of a name in a place.
    pub fn child(&self, place: Option<usize>, name: &[u8]) -> Option<usize>
        ensures { result ≡ child_of self.now.names place name.now }
    {
        match self.names.get(place?) {
            Some(names) => names.get(name),
            None => None,
        }
    }

    /// The place of a path.
    pub fn find(&self, path: &[u8]) -> Option<usize>
        ensures { result ≡ place_at self.now.names path.now }
    {
        let mut place = Some(0);
        let mut start = 0;
        for k in 0..path.len() {
            if ends_part(path, k) {
                place = self.child(place, &path[start..k]);
                start = k + 1;
            }
        }
        self.child(place, &path[start..])
    }

    /// What stands at a path.
    #[tactic(auto, using(crate::proofs::TrieLemmas::found))]
    pub fn at(&self, path: &[u8]) -> Option<&Node>
        requires trie { IsTrie self.now }
        ensures { option_copied result ≡ entry_at (entries_of self.now) path.now }
    {
        self.node(self.find(path))
    }

    /// Whether something stands at this place, which has this path.
    #[tactic(auto, using(crate::proofs::TrieLemmas::found_there))]
    pub fn stands(&self, place: usize, path: &[u8]) -> bool
        requires trie { IsTrie self.now }
        requires place { slice_get (keys self.now.origins) place ≡ Some (slash ∷ path.now) }
        ensures { result ≡ is_some (node_at (entries_of self.now) path.now) }
    {
        is_root(path) || self.node(Some(place)).is_some()
    }

    // Whether a file stands at the place of a directory with this path.
    fn is_file_at(&self, place: Option<usize>, front: &[u8]) -> bool
        ensures { result ≡ ((not (is_empty front.now) && not (is_root front.now))
            && is_file_node (node_in self.now.nodes place)) }
    {
        !front.is_empty() && !is_root(front) && matches!(self.node(place), Some(Node::File(_)))
    }

    /// Whether a directory above the path is a file.
    pub fn is_below_file(&self, path: &[u8]) -> bool
        requires trie { IsTrie self.now }
        ensures { result ≡ is_below_file (entries_of self.now) path.now }
    {
        let mut place = Some(0);
        let mut start = 0;
        for k in 0..path.len() {
            if ends_part(path, k) {
                place = self.child(place, &path[start..k]);
                start = k + 1;
                if self.is_file_at(place, &path[..k]) {
                    return true;
                }
            }
        }
        false
    }

    /// What stands at a place.
    pub fn node(&self, place: Option<usize>) -> Option<&Node>
        ensures { option_copied result ≡ node_in self.now.nodes place }
    {
        match self.nodes.get(place?) {
            Some(node) => node.as_ref(),
            None => None,
        }
    }

    /// Makes a place of this name in another. A refusal changes nothing.
    pub fn grow(&mut self, parent: usize, name: &[u8]) -> Result<usize, NoMemory>
        ensures place { IfOk result (λ place. place ≡ length self.old.origins) }
        ensures ok { OnOk result (self.new ≡ grown self.old (record { above = parent; name = name.now })) }
        ensures err { OnErr result (self.new ≡ self.old) }
    {
        let place = self.origins.len();
        let key = Vec::from_slice(self.alloc, name)?;
        let name = Bytes::copied(self.alloc, name)?;
        self.origins.reserve(1)?;
        self.names.reserve(1)?;
        self.nodes.reserve(1)?;
        insert_name(&mut self.names, parent, key, place)?;
        self.origins.push_reserved(Origin {
            above: parent,
            name,
        });
        self.names.push_reserved(Names::new(self.alloc));
        self.nodes.push_reserved(None);
        Ok(place)
    }

    /// Puts this at a place, and gives what stood there. It takes no memory.
    pub fn put(&mut self, place: usize, node: Option<Node>) -> Option<Node>
        ensures before { result ≡ slice_index_or self.old.nodes place node }
        ensures new { self.new ≡ put_at self.old place node }
    {
        if place >= self.nodes.len() {
            return node;
        }
        std::mem::replace(&mut self.nodes[place], node)
    }

    /// Takes the newest place out. It takes no memory.
    pub fn cut(&mut self)
        ensures { self.new ≡ cut self.old }
    {
        let count = self.origins.len().saturating_sub(1);
        let origin = self.origins.pop();
        self.names.truncate(count);
        self.nodes.truncate(count);
        if let Some(origin) = origin {
            remove_name(&mut self.names, &origin);
        }
    }

    // The lines of the names in a place, which ascend.
    fn lines(&self, place: Option<usize>) -> Result<Bytes, NoMemory>
        ensures lines { IfOk result (λ text. text ≡ lines_in self.now.nodes (names_in self.now.names place)) }
        ensures ordered { IsStrictlySortedBy byte_order (keys_of (names_in self.now.names place)) }
    {
        let Some(place) = place else {
            return Ok(Bytes::new(self.alloc));
        };
        match self.names.get(place) {
            Some(names) => {
                // law: the names are in order, known once their number is asked
                let _count = names.len();
                names.lines(self.alloc, self.nodes.as_slice())
            }
            None => Ok(Bytes::new(self.alloc)),
        }
    }

    /// A directory's text.
    pub fn listing(&self, path: &[u8]) -> Result<Bytes, NoMemory>
        requires trie { IsTrie self.now }
        ensures { IfOk result (λ text. text ≡ listing (entries_of self.now) path.now) }
    {
        let front = front_of(path);
        let place = self.find(front);
        let text = self.lines(place)?;
        Ok(text)
    }
}
