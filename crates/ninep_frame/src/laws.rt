//! Laws of the records. Each function has a law as its contract, and does nothing.

ghost use Rattle.ninep_frame.specs.Laws.{HasSize, PrefixFree, Longest};

/// How many bytes a record has: 61 and those of the name.
pub fn records_have_their_size()
    ensures { HasSize }
{}

/// No record is a proper prefix of another, and each is of one stat, so what a directory read gave is cut
/// into its stats in one way.
pub fn records_are_prefix_free()
    ensures { PrefixFree }
{}

/// The part of a directory read is the longest that fits.
pub fn directory_parts_are_longest()
    ensures { Longest }
{}
