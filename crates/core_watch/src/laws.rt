//! What holds of the files between the steps, at the beginning and whatever the editor notes or asks.

ghost use Rattle.acme_watch.specs.Watching.{watching};
ghost use Rattle.core_watch.specs.Sound.{IsWatchSound, IsWatchIdle, LinesKeepSound, RequestsKeepSound};

/// At the beginning the files are as the steps make them, and no waiting read can be answered.
#[tactic(auto, using(crate::proofs::Steps::beginning))]
pub fn begins_sound_and_idle()
    ensures sound { IsWatchSound watching }
    ensures idle { IsWatchIdle watching }
{}

/// Lines and requests leave the files as the steps make them; what waits may then be answered.
#[tactic(auto, using(crate::proofs::Steps::growing))]
pub fn stays_sound()
    ensures lines { LinesKeepSound }
    ensures requests { RequestsKeepSound }
{}
