//! Where the fields of a record stand, and how large it is.

/// The place of the qid's type.
pub(crate) const QID_KIND_PLACE: usize = 8;

/// The place of the qid's version.
pub(crate) const QID_VERS_PLACE: usize = 9;

/// The place of the qid's path.
pub(crate) const QID_PATH_PLACE: usize = 13;

/// The place of the mode.
pub(crate) const MODE_PLACE: usize = 21;

/// The place of the length.
pub(crate) const LENGTH_PLACE: usize = 33;

/// The place of the name's length.
pub(crate) const NAME_LEN_PLACE: usize = 41;

/// The place of the name.
pub(crate) const NAME_PLACE: usize = 43;

/// How many bytes a record has beside its name.
pub(crate) const UNNAMED_SIZE: usize = 61;

/// How many bytes a record has beside its size and its name.
pub(crate) const FIXED_SIZE: usize = 59;
