//! What is asked for.

ghost use Rattle.std.specs.Prelude.{◌≡◌};
ghost use Rattle.am_words.specs.Words.{tree_name};

/// What the words after the program's name ask for.
#[derive(Debug, Drop, PartialEq, Eq)]
pub enum Asked {
    /// A replay.
    Replay,
    /// A trace: a replay in words.
    Trace,
    /// Packing a text in words into a transcript.
    Pack,
    /// A drill of so many rounds.
    Drill { rounds: u64 },
    /// Serving so many clients at a path.
    Serve { path: String, clients: u32 },
    /// Doing lines over a connection to a path, at whose root a tree is attached.
    Do { path: String, tree: Tree },
}

/// A tree of files that a server has.
#[derive(Clone, Copy, Debug, PartialEq, Eq)]
pub enum Tree {
    /// The editor's windows.
    Acme,
    /// The plumber's ports.
    Plumb,
}

impl Tree {
    /// The name that it is attached by.
    pub fn name(self) -> &'static [u8]
        ensures { result.now ≡ tree_name self }
    {
        match self {
            Tree::Acme => b"acme",
            Tree::Plumb => b"plumb",
        }
    }
}

/// Where to serve, and how many clients.
#[derive(Drop)]
pub(crate) struct Serving {
    pub(crate) path: String,
    pub(crate) clients: u32,
}

/// Where to do lines, and over which tree.
#[derive(Drop)]
pub(crate) struct Doing {
    pub(crate) path: String,
    pub(crate) tree: Tree,
}
