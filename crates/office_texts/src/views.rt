//! What queries show.

ghost use Rattle.std.specs.Prelude.{OnOk};
ghost use Rattle.office_texts.specs.Added.{AddsText};
ghost use Rattle.office_texts.specs.Views.{view_lines};

use crate::calendars::push_bookings;
use crate::refusals::push_refusal;
use crate::sheets::push_sheet;
use crate::shown::push_shown;
use court_days::Court;
use docket_rows::View;
use std::alloc::AllocError;

/// Adds what a query shows: a line, and after it the lines of the sheet or of the bookings that were asked for. `Err`
/// says that memory ran out.
#[tactic(auto, unfolding(crate::specs::Views::view_lines))]
pub fn push_view(text: &mut String, court: &Court, view: &View) -> Result<(), AllocError>
    ensures { OnOk result (AddsText text.old text.new (view_lines court.now view.now)) }
{
    match view {
        View::Sheet(sheet) => {
            text.push_str("sheet\n")?;
            push_sheet(text, court, sheet)
        }
        View::Bookings(bookings) => {
            text.push_str("calendar\n")?;
            push_bookings(text, court, bookings.as_slice())
        }
        View::Computed(shown) => {
            push_shown(text, court.clock(), shown)?;
            text.push_str("\n")
        }
        View::Refused(refusal) => {
            text.push_str("refused ")?;
            push_refusal(text, refusal)?;
            text.push_str("\n")
        }
    }
}
