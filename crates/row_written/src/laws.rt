//! What the definitions of lines mean.

ghost use Rattle.row_written.specs.Laws.{LengthsKeepTheirNumbers, NumbersAreTheirFields, PlainRowsStay, RowsArePlain};

/// A plain row stays as it is, where columns have no headings.
pub fn plain_rows_stay()
    ensures { PlainRowsStay }
{}

/// What a line is read as, if it is read as a row, is a plain row, or one with a case number, or a deadline's rule or `last`, in
/// place of a number.
pub fn rows_are_plain()
    ensures { RowsArePlain }
{}

/// A number that is read is its field, digit for digit.
pub fn numbers_are_their_fields()
    ensures { NumbersAreTheirFields }
{}

/// A number of slots, a period with slashes and the length of an extension have the numbers of their fields, each with the
/// same digits.
pub fn lengths_keep_their_numbers()
    ensures { LengthsKeepTheirNumbers }
{}
