//! The laws of all drills.

ghost use Rattle.std.specs.Prelude.{ℕ, ◌≤◌};
ghost use Rattle.std.specs.List.{AllByRecursion};
ghost use Rattle.am_journal.specs.Lawful.{IsInRange};
ghost use Rattle.acme_core.specs.Run.{AreEnabled};
ghost use Rattle.am_drill.specs.Drill.{most_rounds, drill_journal, events};

/// Each event of a drill is lawful, and enabled at its place; and each of its numbers fits its field, so that it
/// has a line in a transcript.
pub fn drill_is_played()
    ensures played { (rounds : ℕ) → rounds ≤ most_rounds → AreEnabled (drill_journal rounds) }
    ensures in_range { (rounds : ℕ) → AllByRecursion IsInRange (events rounds) }
{}
