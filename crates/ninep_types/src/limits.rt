//! Limits of messages, and numbers and a name that mean something of their own.

/// The most bytes of a message, as its size field has them, and the largest msize that is agreed on: 65,536 bytes of
/// data, and 24 before them.
pub const MAX_MSIZE: u32 = 65_560;

/// The least msize that is agreed on.
pub const MIN_MSIZE: u32 = 256;

/// The bytes of a message before its fields: size, type and tag.
pub const HEAD_SIZE: u32 = 7;

/// The bytes of an Rread before its data.
pub const RREAD_HEAD: u32 = 11;

/// The most names of one Twalk, and the most qids of its answer.
pub const MAX_NAMES: u16 = 16;

/// NOTAG, the tag of Tversion.
pub const NO_TAG: u16 = 0xFFFF;

/// NOFID, the number that is no fid.
pub const NO_FID: u32 = 0xFFFF_FFFF;

/// The version of the protocol.
pub const VERSION_NAME: &[u8] = b"9P2000";
