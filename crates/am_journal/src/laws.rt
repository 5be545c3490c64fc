//! Laws of lines and journals.

ghost use Rattle.std.specs.Prelude.{◌≡◌, Some};
ghost use Rattle.am_journal.specs.declared.event.Event.{Event};
ghost use Rattle.am_journal.specs.Journal.{ReadsJournal};
ghost use Rattle.am_journal.specs.Lawful.{IsLawful, IsInRange};
ghost use Rattle.am_journal.specs.Line.{line_text, event_of};
ghost use Rattle.am_journal.specs.Sections.{AreReports};

/// The round trip of the transcript: the line of a lawful event is read as that event. The function does nothing.
pub fn lines_are_read_again()
    ensures { (e : Event) → IsLawful e → IsInRange e → event_of (line_text e) ≡ Some e }
{}

/// A journal's lines, each with its newline, and then a report, are read as that journal. The function does nothing.
pub fn journals_are_read_again()
    ensures { ReadsJournal }
{}

/// The parts of a report, joined, are the report. The function does nothing.
pub fn reports_are_their_parts()
    ensures { AreReports }
{}
