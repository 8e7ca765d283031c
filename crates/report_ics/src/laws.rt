//! What the text of a calendar means.

ghost use Rattle.report_ics.specs.Laws.{CalendarsAreSentWhole};

/// Unfolding the text of a calendar gives its lines, no fold is inside a character, and no line is longer than 75 bytes.
pub fn calendars_are_sent_whole()
    ensures { CalendarsAreSentWhole }
{}
