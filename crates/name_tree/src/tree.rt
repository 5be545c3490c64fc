//! The tree of files and directories, in two states.

ghost use Rattle.std.specs.Prelude.{◌≡◌, ◌↔◌, [], Err, IfOk, OnOk, OnErr, IsTrue};
ghost use Rattle.am_text.specs.Twice.{both};
ghost use Rattle.name_tree.specs.Kinds.{is_file, is_directory, file_clashes, directory_clashes, after_file};
ghost use Rattle.name_tree.specs.Kinds.{after_directory};
ghost use Rattle.name_tree.specs.Laws.{IsOrdered};
ghost use Rattle.name_tree.specs.Listing.{found_at};
ghost use Rattle.name_tree.specs.declared.types.TreeFault.TheVariants as fault;

use crate::growing::Growing;
use crate::paths::is_root;
use crate::types::{Found, Node, TreeFault};
use am_text::{Bytes, NoMemory};
use std::alloc::Global;
use std::marker::Model;

/// The tree of files and directories, a map of paths, in two states: a present one, which every
/// look answers from, and a kept one.
///
/// A path begins with `/` and has non-empty parts that aren't `.` or `..`, without bytes of at
/// most 0x20 and backslashes. `/` itself is always a directory. `file` and `dir` change the present
/// state alone, and where they answer `NoMemory` the present state is the kept one again.
pub struct Tree {
    alloc: Global,
    // Its trail is what takes the growths since the last `keep` back.
    growing: Growing,
}

// By hand, so that a crate that drops a tree goes by this drop, and has not to prove those of all that is in it.
impl Drop for Tree {
    fn drop(self) {
        let Tree {
            alloc: _,
            growing: _,
        } = self;
    }
}

impl Model for Tree {
    ghost use Rattle.std.specs.Prelude.{List, ℕ};
    ghost use Rattle.am_text.specs.Twice.{Twice};
    ghost use Rattle.name_tree.specs.declared.types.Node.{Node};

    ghost Value = { Twice (List (List ℕ × Node)) };

    ghost use Rattle.name_tree.specs.Shape.{entries_of};
    ghost use Rattle.name_tree.specs.Trie.{IsTrie};
    ghost use Rattle.name_tree.specs.Undo.{all_undone};

    ghost view = { λ t. record {
      present = entries_of t.growing.places;
      kept = entries_of (all_undone t.growing.trail.items t.growing.places);
    } };

    ghost invariant = { λ t. IsTrie t.growing.places × IsTrie (all_undone t.growing.trail.items t.growing.places) };
}

impl Tree {
    /// No files, and no directory but `/`. It takes no memory.
    pub fn new(alloc: Global) -> Tree
        ensures { result ≡ both [] }
    {
        Tree {
            alloc,
            growing: Growing::new(alloc),
        }
    }

    /// The present state becomes the kept one. It takes no memory.
    pub fn keep(&mut self)
        ensures { self.new ≡ both self.old.present }
    {
        self.growing.trail.clear(); // nothing is left to take back
    }

    /// The kept state becomes the present one again. It takes no memory, and time for what was
    /// stored since the last `keep` alone.
    pub fn back(&mut self)
        ensures { self.new ≡ both self.old.kept }
    {
        self.growing.back();
    }

    /// Whether the path is that of a file.
    pub fn is_file(&self, path: &[u8]) -> bool
        ensures { result ≡ is_file self.now.present path.now }
    {
        !is_root(path) && matches!(self.growing.places.at(path), Some(Node::File(_)))
    }

    /// Whether the path is that of a directory.
    pub fn is_directory(&self, path: &[u8]) -> bool
        ensures { result ≡ is_directory self.now.present path.now }
    {
        is_root(path) || matches!(self.growing.places.at(path), Some(Node::Directory))
    }

    /// Whether a file can't be stored at the path: it is a directory, or a directory above it is a file.
    pub fn clashes_file(&self, path: &[u8]) -> bool
        ensures { result ≡ file_clashes self.now.present path.now }
    {
        self.is_directory(path) || self.growing.places.is_below_file(path)
    }

    /// Whether a directory can't be made at the path: it is a file, or a directory above it is a file.
    pub fn clashes_dir(&self, path: &[u8]) -> bool
        ensures { result ≡ directory_clashes self.now.present path.now }
    {
        self.is_file(path) || self.growing.places.is_below_file(path)
    }

    fn try_file(&mut self, path: &[u8], bytes: &[u8]) -> Result<(), NoMemory>
        ensures ok { OnOk result
            (self.new ≡ record self.old { present = after_file self.old.present path.now bytes.now }) }
        ensures err { OnErr result (self.new.kept ≡ self.old.kept) }
    {
        let copy = Bytes::copied(self.alloc, bytes)?;
        self.growing.file(path, copy)
    }

    /// Stores a file of these bytes, and makes the directories above it. An old file of the path
    /// is replaced.
    ///
    /// `Clash` comes exactly where the path is a directory or a directory above it is a file, and
    /// then nothing changes.
    pub fn file(&mut self, path: &[u8], bytes: &[u8]) -> Result<(), TreeFault>
        ensures clash { (result ≡ Err fault.Clash) ↔ IsTrue (file_clashes self.old.present path.now) }
        ensures stays { result ≡ Err fault.Clash → self.new ≡ self.old }
        ensures ok { OnOk result
            (self.new ≡ record self.old { present = after_file self.old.present path.now bytes.now }) }
        ensures no_memory { result ≡ Err fault.NoMemory → self.new ≡ both self.old.kept }
    {
        if self.clashes_file(path) {
            return Err(TreeFault::Clash);
        }
        match self.try_file(path, bytes) {
            Ok(()) => Ok(()),
            Err(error) => {
                self.back();
                Err(error.into())
            }
        }
    }

    fn try_dir(&mut self, path: &[u8]) -> Result<(), NoMemory>
        ensures ok { OnOk result (self.new ≡ record self.old { present = after_directory self.old.present path.now }) }
        ensures err { OnErr result (self.new.kept ≡ self.old.kept) }
    {
        self.growing.dir(path)
    }

    /// Makes a directory, and the directories above it. One that is there stays as it is.
    ///
    /// `Clash` comes exactly where the path is a file or a directory above it is a file, and then
    /// nothing changes.
    pub fn dir(&mut self, path: &[u8]) -> Result<(), TreeFault>
        ensures clash { (result ≡ Err fault.Clash) ↔ IsTrue (directory_clashes self.old.present path.now) }
        ensures stays { result ≡ Err fault.Clash → self.new ≡ self.old }
        ensures ok { OnOk result (self.new ≡ record self.old { present = after_directory self.old.present path.now }) }
        ensures no_memory { result ≡ Err fault.NoMemory → self.new ≡ both self.old.kept }
    {
        if self.clashes_dir(path) {
            return Err(TreeFault::Clash);
        }
        match self.try_dir(path) {
            Ok(()) => Ok(()),
            Err(error) => {
                self.back();
                Err(error.into())
            }
        }
    }

    /// What is at the path: a copy of a file's bytes, or a directory's listing. `Found::None` comes
    /// exactly where the path is neither a file nor a directory. The tree's paths ascend in byte
    /// order, and so do the names of a listing.
    pub fn get(&self, path: &[u8]) -> Result<Found, NoMemory>
        ensures found { IfOk result (λ found. found ≡ found_at self.now.present path.now) }
        ensures ordered { IsOrdered self.now.present }
    {
        let places = &self.growing.places;
        // law: the paths are in order, known once their number is asked
        let _count = places.len();
        if is_root(path) {
            return Ok(Found::Dir(places.listing(path)?));
        }
        match places.at(path) {
            Some(Node::File(bytes)) => Ok(Found::File(Bytes::copied(
                self.alloc,
                bytes.as_slice(),
            )?)),
            Some(Node::Directory) => Ok(Found::Dir(places.listing(path)?)),
            None => Ok(Found::None),
        }
    }
}
