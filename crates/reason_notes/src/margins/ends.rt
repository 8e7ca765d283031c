//! The day and the time of an end, as the court's clock shows them.

ghost use Rattle.std.specs.Prelude.{◌≡◌, ◌++◌, OnOk, string_bytes};
ghost use Rattle.reason_notes.specs.Margins.Ends.{end_day, end_time};

use court_clock::{Clock, Day};
use reason_texts::push_time_at;
use rule6::Shown;
use std::alloc::AllocError;

/// The day of an end, as the court's clock shows it.
pub fn end_day(clock: &Clock, shown: &Shown) -> Option<Day>
    ensures { result ≡ end_day clock.now shown.now }
{
    match *shown {
        Shown::Last { day, .. } => Some(day),
        Shown::Until(end) => match clock.civil_of(end) {
            Some((day, _)) => Some(day),
            None => None,
        },
        Shown::Beyond => None,
    }
}

/// Adds the time of an end that is an instant. `Err` says that memory ran out.
pub fn push_end_time(text: &mut String, clock: &Clock, shown: &Shown) -> Result<(), AllocError>
    ensures { OnOk result (string_bytes text.new ≡ string_bytes text.old ++ end_time clock.now shown.now) }
{
    match *shown {
        Shown::Until(end) => {
            text.push_str(", ")?;
            push_time_at(text, clock, end)
        }
        _ => Ok(()),
    }
}
