//! The rows of two parts of a text, put together.

ghost use Rattle.std.specs.Prelude.{◌≡◌, ◌++◌, ◌≤◌, ℕ, List, Ok, length};
ghost use Rattle.row_forms.specs.Words.{AnswersRows, CourtNames, rows_read_from};
ghost use Rattle.program_runs.specs.Inside.Joining.{error_after};

use row_forms::{MAX_ROWS, Row, RowCause, RowError};

/// The rows of the first part and then those of the later one, or the later one's fault with the number that its row has
/// in the whole.
pub(crate) fn join_rows(
    mut rows: Vec<Row>,
    later: Result<Vec<Row>, RowError>,
) -> Result<Vec<Row>, RowError>
    requires { length rows.items ≤ 100_000 }
    ensures { (clerks : ℕ) (names : CourtNames) (firsts laters : List (List (List ℕ))) →
        rows_read_from clerks names 1 firsts ≡ Ok rows.items →
        AnswersRows (λ rows. rows.items) later (rows_read_from clerks names 1 laters) →
        AnswersRows (λ rows. rows.items) result (rows_read_from clerks names 1 (firsts ++ laters)) }
{
    match later {
        Ok(mut later) => {
            if later.len() > MAX_ROWS as usize - rows.len() {
                return Err(RowError::Fault(MAX_ROWS + 1, RowCause::TooManyRows));
            }
            rows.append(&mut later)?;
            Ok(rows)
        }
        Err(error) => Err(error_after(rows.len() as u32, error)),
    }
}

// What an error of the later part is in the whole, where that many rows come before it.
fn error_after(before: u32, error: RowError) -> RowError
    requires { before ≤ 100_000 }
    ensures { result ≡ error_after before error }
{
    match error {
        RowError::Fault(number, cause) => {
            if number > MAX_ROWS - before {
                return RowError::Fault(MAX_ROWS + 1, RowCause::TooManyRows);
            }
            RowError::Fault(before + number, cause)
        }
        RowError::OutOfMemory => RowError::OutOfMemory,
    }
}
