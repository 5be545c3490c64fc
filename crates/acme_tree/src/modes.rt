//! Modes of files, ways to open them, and types of qids, after stat(5) and open(5).

/// The bit of a file's mode that lets its owner read.
pub(crate) const READS: u32 = 0x100;

/// The bit of a file's mode that lets its owner write.
pub(crate) const WRITES: u32 = 0x80;

/// The mode of a file that is read and written.
pub(crate) const READS_AND_WRITES: u32 = 0x180;

/// The mode of an append-only file that is read and written.
pub(crate) const APPEND_MODE: u32 = 0x4000_0180;

/// The mode of a directory.
pub(crate) const DIR_MODE: u32 = 0x8000_0140;

/// The type of the qid of an append-only file.
pub(crate) const APPEND_KIND: u8 = 64;

/// The type of the qid of a directory.
pub(crate) const DIR_KIND: u8 = 128;

/// The bits of an open mode that say how: 0 to read, 1 to write, 2 for both, 3 to execute.
pub(crate) const HOW_BITS: u8 = 3;

/// The bit of an open mode that empties the file.
pub(crate) const TRUNCATE_BIT: u8 = 0x10;

/// The bit of an open mode that removes the file when its fid is clunked.
pub(crate) const REMOVE_BIT: u8 = 0x40;
