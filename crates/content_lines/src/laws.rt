//! Laws of the definitions: what folding, escaping and the texts of instants mean.

ghost use Rattle.content_lines.specs.Laws.{EscapedValuesReadBack, FoldsAreBetweenCharacters, InstantsAreInUtc, SentLinesAreShort, UnfoldingGivesTheLines};

/// Unfolding what is sent of some lines gives the lines, each with its end.
pub fn unfolding_gives_the_lines()
    ensures { UnfoldingGivesTheLines }
{}

/// What is sent of some lines has no line of more than 75 bytes.
pub fn sent_lines_are_short()
    ensures { SentLinesAreShort }
{}

/// No line that is sent begins, after the space of a fold, inside a character.
pub fn folds_are_between_characters()
    ensures { FoldsAreBetweenCharacters }
{}

/// A value without control characters is read back from how it is escaped.
pub fn escaped_values_read_back()
    ensures { EscapedValuesReadBack }
{}

/// The day and the second that are written of an instant are those of UTC.
pub fn instants_are_in_utc()
    ensures { InstantsAreInUtc }
{}
