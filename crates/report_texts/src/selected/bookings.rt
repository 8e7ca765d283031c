//! Judges' bookings, with the numbers of their motions.
ghost use Rattle.std.specs.Prelude.{◌≡◌, map, IfOk};
ghost use Rattle.docket_rows.specs.Words.{Rows, setup_of};
ghost use Rattle.docket_core.specs.Words.{StandsFor};
ghost use Rattle.docket_selection.specs.Words.{chosen_calendars};
ghost use Rattle.desk_numbers.specs.Words.{numbered_booking};
ghost use Rattle.report_texts.specs.Selected.{numbered_calendar, numbered_day};

use crate::labels::Labels;
use court_days::Court;
use desk_numbers::MovedNumbers;
use docket_core::Docket;
use docket_selection::{Choice, DayBookings, JudgeCalendar, calendars_of};
use hearing_slots::Bookings;
use std::alloc::{AllocError, Global};
use std::mem;

// Gives bookings the numbers of their motions.
fn number_bookings(alloc: Global, moved: &MovedNumbers, bookings: &mut Bookings)
    ensures { bookings.new ≡ map (numbered_booking moved.now) bookings.old }
{
    let taken = mem::replace(bookings, Bookings::from_vec(Vec::new(alloc)));
    *bookings = moved.number_bookings(taken);
}

// Gives the bookings of a judge the numbers of their motions.
fn number_calendar(alloc: Global, moved: &MovedNumbers, calendar: &mut JudgeCalendar)
    ensures { calendar.new ≡ numbered_calendar moved.now calendar.old }
{
    number_bookings(alloc, moved, &mut calendar.bookings);
}

// Gives the bookings on a day the numbers of their motions.
fn number_day(alloc: Global, moved: &MovedNumbers, day: &mut DayBookings)
    ensures { day.new ≡ numbered_day moved.now day.old }
{
    number_bookings(alloc, moved, &mut day.bookings);
}

// Gives the bookings of judges, which have the places of their motions, the numbers of those.
fn number_calendars(alloc: Global, moved: &MovedNumbers, calendars: &mut [JudgeCalendar])
    ensures { calendars.new ≡ map (numbered_calendar moved.now) calendars.old }
{
    'list: for calendar in calendars.iter_mut() {
        number_calendar(alloc, moved, calendar);
    }
}

/// The chosen judges' bookings, as `calendars_of` selects them, with the numbers of their motions. `Err` says that memory ran
/// out.
pub fn numbered_calendars(
    alloc: Global,
    court: &Court,
    docket: &Docket,
    labels: &Labels<'_>,
    choice: &Choice,
) -> Result<Vec<JudgeCalendar>, AllocError>
    requires court { docket.now.setup ≡ setup_of court.now }
    ensures { (docketed : Rows) → StandsFor docket.now docketed → IfOk result (λ list. list.items ≡ map (numbered_calendar labels.now.moved) (chosen_calendars (setup_of court.now) docketed choice.now)) }
{
    let mut calendars = calendars_of(alloc, court, docket, choice)?;
    number_calendars(alloc, labels.moved, &mut calendars);
    Ok(calendars)
}

/// Gives the bookings on days, which have the places of their motions, the numbers of those.
pub fn number_days(alloc: Global, moved: &MovedNumbers, days: &mut [DayBookings])
    ensures { days.new ≡ map (numbered_day moved.now) days.old }
{
    'list: for day in days.iter_mut() {
        number_day(alloc, moved, day);
    }
}
