//! All laws of journals together.

ghost use Rattle.core_laws.specs.Journals.{JournalsAreLawful};

use acme_core::laws::messages_are_answered;
use core_scene::laws::deeds_show;
use core_windows::laws::group_numbers_never_fall;
use win_text::laws::ranges_are_inside;

/// All laws hold of each journal of the editor, whose events are lawful, were enabled at their places
/// and could be done there.
pub fn journals_are_lawful()
    ensures { JournalsAreLawful }
{
    // law: the laws of deeds, of ranges, of groups and of answers make those of journals
    deeds_show();
    ranges_are_inside();
    group_numbers_never_fall();
    messages_are_answered();
}
