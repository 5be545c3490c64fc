//! The messages of 9P2000.

use am_text::{Bytes, Items, Names};

/// What a server calls a file (intro(5)): two files are the same where their qids are.
#[derive(Clone, Copy, Debug, PartialEq, Eq)]
pub struct Qid {
    /// The type bits of the file, as 128 for a directory.
    pub kind: u8,
    /// The version, which changes with the file.
    pub vers: u32,
    /// The number of the file, unique on its server.
    pub path: u64,
}

/// A list of qids.
pub type Qids = Items<Qid>;

/// A message to the server.
#[derive(Drop)]
pub struct TMsg {
    /// The client's name for this request.
    pub tag: u16,
    /// What is asked.
    pub body: TBody,
}

/// What a message to the server asks. Each page is of section 5 of the manual.
#[derive(Drop)]
pub enum TBody {
    /// version(5): the largest message that the client takes, and the protocol.
    Version {
        msize: u32,
        version: Bytes,
    },
    /// attach(5): asks for `afid`, by which `uname` shows that it is allowed the tree `aname`.
    Auth {
        afid: u32,
        uname: Bytes,
        aname: Bytes,
    },
    /// flush(5): the answer of the request with the tag `oldtag` is no longer wanted.
    Flush {
        oldtag: u16,
    },
    /// attach(5): makes `fid` the root of the tree `aname`.
    Attach {
        fid: u32,
        afid: u32,
        uname: Bytes,
        aname: Bytes,
    },
    /// walk(5): makes `newfid` the file that the names lead to from `fid`.
    Walk {
        fid: u32,
        newfid: u32,
        names: Names,
    },
    /// open(5): makes `fid` ready for reading or writing.
    Open {
        fid: u32,
        mode: u8,
    },
    /// open(5): makes the file `name` in the directory of `fid`, and opens it as `fid`.
    Create {
        fid: u32,
        name: Bytes,
        perm: u32,
        mode: u8,
    },
    /// read(5): asks for at most `count` bytes from `offset` on.
    Read {
        fid: u32,
        offset: u64,
        count: u32,
    },
    /// read(5): writes the bytes at `offset`.
    Write {
        fid: u32,
        offset: u64,
        bytes: Bytes,
    },
    /// clunk(5): forgets `fid`.
    Clunk {
        fid: u32,
    },
    /// remove(5): removes the file of `fid`, and forgets `fid`.
    Remove {
        fid: u32,
    },
    /// stat(5): asks for the stat record of the file.
    Stat {
        fid: u32,
    },
    /// stat(5): changes the stat record of the file to `stat`, which is carried as bytes.
    Wstat {
        fid: u32,
        stat: Bytes,
    },
}

/// A message from the server.
#[derive(Drop)]
pub struct RMsg {
    /// The tag of the request that is answered.
    pub tag: u16,
    /// The answer.
    pub body: RBody,
}

/// What a message from the server answers.
#[derive(Drop)]
pub enum RBody {
    /// version(5): the largest message of this connection, and its protocol.
    Version { msize: u32, version: Bytes },
    /// attach(5): the file that is read and written to show that the user is allowed the tree.
    Auth { aqid: Qid },
    /// error(5): the request failed, and why.
    Error { ename: Bytes },
    /// flush(5): the request will not be answered, or was answered before.
    Flush,
    /// attach(5): the root.
    Attach { qid: Qid },
    /// walk(5): the file that each name led to.
    Walk { qids: Qids },
    /// open(5): the file, and how many bytes pass whole; 0 where nothing is said.
    Open { qid: Qid, iounit: u32 },
    /// open(5): the file that was made, and how many bytes pass whole; 0 where nothing is said.
    Create { qid: Qid, iounit: u32 },
    /// read(5): the bytes that were read.
    Read { bytes: Bytes },
    /// read(5): how many bytes were written.
    Write { count: u32 },
    /// clunk(5): the fid is forgotten.
    Clunk,
    /// remove(5): the file is removed, and the fid forgotten.
    Remove,
    /// stat(5): the stat record of the file, carried as bytes.
    Stat { stat: Bytes },
    /// stat(5): the record is changed.
    Wstat,
}
