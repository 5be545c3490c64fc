//! Laws of deeds. Each function has a law as its contract, and does nothing.

ghost use Rattle.core_scene.specs.SceneLaws.{DeedsJoin, DeedsShow, RequestsAreWatched};

use acme_watch::requests_stay_in_order;
use core_windows::laws::{changes_are_lawful, changes_show};

/// Deeds that are done after others are done as one list with them.
pub fn deeds_join()
    ensures { DeedsJoin }
{}

/// What deeds make of the windows as they stand is what their changes make of them by all edits that were ever made.
pub fn deeds_show()
    ensures { DeedsShow }
{
    // law: changes of the windows show in their stories, and leave these lawful
    changes_show();
    changes_are_lawful();
}

/// The requests that the file `jobs` hands out are those that were made, in their order, whatever deeds are done.
pub fn requests_are_watched()
    ensures { RequestsAreWatched }
{
    // law: the requests of a watch stay in order
    requests_stay_in_order();
}
