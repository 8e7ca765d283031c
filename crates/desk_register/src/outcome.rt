//! What a line says, and what comes of it.
ghost use Rattle.std.specs.Prelude.{◌≡◌, ◌||◌, ℕ, List, false, length, nat_lt, true};
ghost use Rattle.desk_register.specs.Entries.{most_rows};
ghost use Rattle.row_forms.specs.declared.row.Row.{Row as RowOf};
ghost use Rattle.row_forms.specs.declared.line.line.Line.TheVariants as says;
ghost use Rattle.desk_register.specs.Rows.{asks, came_of, outcome_by, within};

use crate::register::{MOST_ROWS, RowTypes};
use desk_session::Outcome;
use docket_rows::Answer;
use office_texts::Reply;
use row_forms::{Line, RowCause, Work};

// What comes of a row that has this answer: it is refused, or it is done.
fn came_of(answer: &Answer) -> Outcome
    ensures { result ≡ came_of answer.now }
{
    match answer {
        Answer::Refused(_) => Outcome::Refused,
        _ => Outcome::Taken,
    }
}

// What comes of a row that has this reply. A question changes nothing, whatever it is answered.
pub(crate) fn outcome_of(reply: &Reply) -> Outcome
    ensures { result ≡ outcome_by reply.now }
{
    match reply {
        Reply::Made(answer) => came_of(answer),
        Reply::Viewed(_) => Outcome::Taken,
    }
}

// Whether there is room for a row after this many entries.
pub(crate) fn has_room(count: u32) -> bool
    ensures { result ≡ nat_lt count most_rows }
{
    count < MOST_ROWS
}

// Whether a row asks a question.
fn asks(work: &Work) -> bool
    ensures { result ≡ asks work.now }
{
    match work {
        Work::Command(_) => false,
        Work::Query(_) => true,
    }
}

// Whether a row is answered that comes after this many entries: there is room for it, or it asks a question.
fn is_answered(count: u32, work: &Work) -> bool
    ensures { result ≡ (nat_lt count most_rows || asks work.now) }
{
    has_room(count) || asks(work)
}

// What a line says after this many entries: where there is no room, a command is one too many.
pub(crate) fn within(said: Line, count: u32) -> Line
    ensures said { (kept : List (List ℕ)) → count ≡ length kept → result ≡ within kept said }
    ensures row { (row : RowOf) → result ≡ says.Row row → said ≡ says.Row row }
    ensures asks { (row : RowOf) → result ≡ says.Row row → nat_lt count most_rows ≡ false → asks row.work ≡ true }
{
    let _types: RowTypes = None;
    match said {
        Line::Row(row) => {
            if is_answered(count, &row.work) {
                Line::Row(row)
            } else {
                Line::Fault(RowCause::TooManyRows)
            }
        }
        _ => said,
    }
}
