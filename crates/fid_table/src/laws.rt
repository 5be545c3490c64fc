//! What holds of all sessions.

ghost use Rattle.fid_table.specs.Laws.{FindsWhatWasPut, ForgetsWhatWasTaken, LeavesOtherFids, DropsAllFids};

/// A fid that was put is the one that is found.
pub fn finds_what_was_put()
    ensures { FindsWhatWasPut }
{}

/// The number of a fid that was taken isn't in use.
pub fn forgets_what_was_taken()
    ensures { ForgetsWhatWasTaken }
{}

/// Putting and taking a fid leave every other fid, of this connection and of the others.
pub fn leaves_other_fids()
    ensures { LeavesOtherFids }
{}

/// After a version no fid of the connection is in use, and none of its reads waits. Those of the
/// others stay.
pub fn drops_all_fids()
    ensures { DropsAllFids }
{}
