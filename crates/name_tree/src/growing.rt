//! Places, and what takes their growth back.

ghost use Rattle.std.specs.Prelude.{◌≡◌, ◌∷◌, ◌++◌, [], ℕ, List, Some, true, slice_get, IsSome, IsSomeAnd, IfOk, OnOk};
ghost use Rattle.am_text.specs.Ascii.{slash};
ghost use Rattle.name_tree.specs.Entries.{with_node};
ghost use Rattle.name_tree.specs.Kinds.{with_directory, with_directory_before, with_directories, after_file};
ghost use Rattle.name_tree.specs.Kinds.{after_directory};
ghost use Rattle.name_tree.specs.Paths.{above};
ghost use Rattle.name_tree.specs.Shape.{no_places, keys, entries_of, is_name};
ghost use Rattle.name_tree.specs.Trie.{IsTrie};
ghost use Rattle.name_tree.specs.Undo.{undone, all_undone, IsGrowth};
ghost use Rattle.name_tree.specs.declared.types.Node.TheVariants.{File};

use crate::paths::ends_part;
use crate::places::Places;
use crate::types::Node;
use crate::undo::Undo;
use am_text::{Bytes, NoMemory};
use std::alloc::Global;

/// Places, and what takes their growths back, the oldest first.
#[derive(Drop)]
pub struct Growing {
    pub places: Places,
    pub trail: Vec<Undo>,
}

// Takes one growth back. It takes no memory.
fn take_back(places: &mut Places, step: Undo)
    ensures { places.new ≡ undone step places.old }
{
    match step {
        Undo::Unmake => places.cut(),
        Undo::Restore(place, node) => {
            places.put(place, node);
        }
    }
}

impl Growing {
    /// No places. It takes no memory.
    pub fn new(alloc: Global) -> Self
        ensures places { result.places ≡ no_places }
        ensures trail { result.trail.items ≡ [] }
    {
        Growing {
            places: Places::new(alloc),
            trail: Vec::new(alloc),
        }
    }

    /// Takes all growths back, the newest first. It takes no memory.
    pub fn back(&mut self)
        ensures places { self.new.places ≡ all_undone self.old.trail.items self.old.places }
        ensures trail { self.new.trail.items ≡ [] }
    {
        while let Some(step) = self.trail.pop() {
            take_back(&mut self.places, step);
        }
    }

    // The top, which is made where there is none.
    fn top(&mut self) -> Result<usize, NoMemory>
        requires trie { IsTrie self.old.places }
        ensures grown { IsGrowth self.old.trail.items self.old.places self.new.trail.items self.new.places }
        ensures entries { entries_of self.new.places ≡ entries_of self.old.places }
        ensures top { IfOk result (λ place. slice_get (keys self.new.places.origins) place ≡ Some []) }
    {
        if self.places.len() > 0 {
            return Ok(0);
        }
        self.trail.reserve(1)?;
        let place = self.places.grow(0, b"")?;
        self.trail.push_reserved(Undo::Unmake);
        Ok(place)
    }

    // The place of a name in another, which is made where there is none.
    fn child(&mut self, parent: usize, name: &[u8]) -> Result<usize, NoMemory>
        requires trie { IsTrie self.old.places }
        requires parent { IsSome (slice_get (keys self.old.places.origins) parent) }
        requires name { is_name name.now ≡ true }
        ensures grown { IsGrowth self.old.trail.items self.old.places self.new.trail.items self.new.places }
        ensures entries { entries_of self.new.places ≡ entries_of self.old.places }
        ensures place { IfOk result (λ place. (key : List ℕ) → slice_get (keys self.old.places.origins) parent
            ≡ Some key → slice_get (keys self.new.places.origins) place ≡ Some (key ++ slash ∷ name.now)) }
    {
        if let Some(place) = self.places.child(Some(parent), name) {
            return Ok(place);
        }
        self.trail.reserve(1)?;
        let place = self.places.grow(parent, name)?;
        self.trail.push_reserved(Undo::Unmake);
        Ok(place)
    }

    // Puts a node at a place.
    fn store(&mut self, place: usize, node: Node) -> Result<(), NoMemory>
        requires trie { IsTrie self.old.places }
        ensures grown { IsGrowth self.old.trail.items self.old.places self.new.trail.items self.new.places }
        ensures origins { self.new.places.origins ≡ self.old.places.origins }
        ensures ok { OnOk result ((b : ℕ) (path : List ℕ) → slice_get (keys self.old.places.origins) place
            ≡ Some (b ∷ path) → entries_of self.new.places ≡ with_node (entries_of self.old.places) path node) }
    {
        self.trail.reserve(1)?;
        let before = self.places.put(place, Some(node));
        self.trail.push_reserved(Undo::Restore(place, before));
        Ok(())
    }

    // Makes a directory at the place of a path, where nothing stands there.
    fn make_directory(&mut self, place: usize, path: &[u8]) -> Result<(), NoMemory>
        requires trie { IsTrie self.old.places }
        requires place { slice_get (keys self.old.places.origins) place ≡ Some (slash ∷ path.now) }
        ensures grown { IsGrowth self.old.trail.items self.old.places self.new.trail.items self.new.places }
        ensures origins { self.new.places.origins ≡ self.old.places.origins }
        ensures ok { OnOk result (entries_of self.new.places ≡ with_directory (entries_of self.old.places) path.now) }
    {
        if !self.places.stands(place, path) {
            self.store(place, Node::Directory)?;
        }
        Ok(())
    }

    // The place of a name in another, where a directory is made. Its path comes along.
    fn onward(&mut self, parent: usize, name: &[u8], path: &[u8]) -> Result<usize, NoMemory>
        requires trie { IsTrie self.old.places }
        requires parent { IsSomeAnd (slice_get (keys self.old.places.origins) parent) (λ key. key ++ slash ∷ name.now
            ≡ slash ∷ path.now) }
        requires name { is_name name.now ≡ true }
        ensures grown { IsGrowth self.old.trail.items self.old.places self.new.trail.items self.new.places }
        ensures place { IfOk result (λ place. slice_get (keys self.new.places.origins) place
            ≡ Some (slash ∷ path.now)) }
        ensures ok { OnOk result (entries_of self.new.places
            ≡ with_directory_before (entries_of self.old.places) path.now slash) }
    {
        let place = self.child(parent, name)?;
        if !path.is_empty() {
            self.make_directory(place, path)?;
        }
        Ok(place)
    }

    // The place of a path, and the directories above it are made.
    fn reach(&mut self, path: &[u8]) -> Result<usize, NoMemory>
        requires trie { IsTrie self.old.places }
        ensures grown { IsGrowth self.old.trail.items self.old.places self.new.trail.items self.new.places }
        ensures place { IfOk result (λ place. slice_get (keys self.new.places.origins) place
            ≡ Some (slash ∷ path.now)) }
        ensures ok { OnOk result (entries_of self.new.places ≡ with_directories (entries_of self.old.places)
            (above path.now)) }
    {
        let mut place = self.top()?;
        let mut start = 0;
        for k in 0..path.len() {
            if ends_part(path, k) {
                place = self.onward(place, &path[start..k], &path[..k])?;
                start = k + 1;
            }
        }
        let place = self.child(place, &path[start..])?;
        Ok(place)
    }

    /// Makes the directories above the path, and puts a file at it.
    pub fn file(&mut self, path: &[u8], bytes: Bytes) -> Result<(), NoMemory>
        requires trie { IsTrie self.old.places }
        ensures grown { IsGrowth self.old.trail.items self.old.places self.new.trail.items self.new.places }
        ensures ok { OnOk result (entries_of self.new.places ≡ after_file (entries_of self.old.places) path.now bytes) }
    {
        let place = self.reach(path)?;
        self.store(place, Node::File(bytes))?;
        Ok(())
    }

    /// Makes the directories above the path, and a directory at it.
    pub fn dir(&mut self, path: &[u8]) -> Result<(), NoMemory>
        requires trie { IsTrie self.old.places }
        ensures grown { IsGrowth self.old.trail.items self.old.places self.new.trail.items self.new.places }
        ensures ok { OnOk result (entries_of self.new.places ≡ after_directory (entries_of self.old.places) path.now) }
    {
        let place = self.reach(path)?;
        self.make_directory(place, path)?;
        Ok(())
    }
}
