//! What may be wrong with a court's file that has no fault.

ghost use Rattle.std.specs.Prelude.{IfOk};
ghost use Rattle.toml.specs.View.{table_view};
ghost use Rattle.court_days.specs.Words.{file_of};
ghost use Rattle.court_file_check.specs.AreWarnings.{AreWarnings};

use crate::review::{DayTest, days_that};
use court_clock::Day;
use court_days::{Court, Days};
use court_file_text::Key;
use court_holidays::{Closing, State};
use std::alloc::{AllocError, Global};
use toml::Table;

mod closings;
mod holidays;
mod hours;
pub(crate) mod names;
pub(crate) mod slips;
mod years;
pub(crate) mod zone;

use closings::unsaid_closings;
use holidays::unsaid_holidays;
use hours::{closes_early, ends_soon, is_efiling_early, is_long_day, is_short_span};
use names::{Alike, alike_at};
use slips::{Slip, slips_at};
use years::bare_years;
use zone::{ZoneDoubt, zone_doubt};

/// What a check goes by beside the file.
#[derive(Clone, Copy, Debug)]
pub struct Asked {
    /// The day from which the file is used, if it is given.
    pub today: Option<Day>,
    /// Whether the court is in the capital's region, which has Inauguration Day.
    pub capital: bool,
    /// The State whose holidays the court keeps, if it is known.
    pub state: Option<State>,
}

/// What may be wrong with a court's file.
#[derive(Debug, Drop)]
pub struct Warnings {
    /// What is unusual of the zone.
    pub zone: Option<ZoneDoubt>,
    /// The office closes before noon.
    pub closes_early: bool,
    /// The office is open for more than twelve hours.
    pub long_day: bool,
    /// Electronic filing ends before the office closes.
    pub efiling_early: bool,
    /// The span is shorter than the longest period of the table of periods.
    pub short_span: bool,
    /// The span ends too early for the day from which the file is used.
    pub ends_soon: bool,
    /// The years in the span of which the federal list has no day.
    pub bare_years: Vec<u16>,
    /// The days that are due in the federal list and that it lacks, but for Saturdays and Sundays.
    pub lacking: Vec<Day>,
    /// The days of the federal list that aren't due.
    pub unknown: Vec<Day>,
    /// The days of the span on which the President closed the executive departments, and of which the file says nothing.
    pub closings: Vec<Closing>,
    /// The holidays of the State's law in the span that no list has, and of which the file says nothing.
    pub unlisted: Vec<Day>,
    /// The Saturdays and Sundays of the federal list.
    pub federal_at_weekend: Vec<Day>,
    /// Those of the state list.
    pub state_at_weekend: Vec<Day>,
    /// The days that both lists have.
    pub in_both: Vec<Day>,
    /// What is unusual of items of the federal list, with their numbers.
    pub federal_slips: Vec<(usize, Slip)>,
    /// The same of the state list.
    pub state_slips: Vec<(usize, Slip)>,
    /// The judges' names that differ from another only in the case of letters.
    pub judges_alike: Vec<Alike>,
    /// The same of the rooms.
    pub rooms_alike: Vec<Alike>,
}

/// What may be wrong with the file with this text, which is that of the court. An `Err` says that memory ran out.
pub(crate) fn warnings_of(
    alloc: Global,
    text: &[u8],
    file: &Table,
    court: &Court,
    asked: &Asked,
) -> Result<Warnings, AllocError>
    ensures { IfOk result (AreWarnings asked.now text.now (table_view file.now) (file_of court.now)) }
{
    let capital = asked.capital;
    let clock = court.clock();
    let days: &Days = court.days();
    Ok(Warnings {
        zone: zone_doubt(file, days.to()),
        closes_early: closes_early(clock),
        long_day: is_long_day(clock),
        efiling_early: is_efiling_early(clock.closes(), clock.efiling_until()),
        short_span: is_short_span(days),
        ends_soon: ends_soon(days, asked.today),
        bare_years: bare_years(alloc, days)?,
        lacking: days_that(alloc, days, DayTest::Lacking { capital })?,
        unknown: days_that(alloc, days, DayTest::Unknown { capital })?,
        closings: unsaid_closings(alloc, days, text)?,
        unlisted: unsaid_holidays(alloc, days, text, capital, asked.state)?,
        federal_at_weekend: days_that(alloc, days, DayTest::FederalAtWeekend)?,
        state_at_weekend: days_that(alloc, days, DayTest::StateAtWeekend)?,
        in_both: days_that(alloc, days, DayTest::InBoth)?,
        federal_slips: slips_at(alloc, file, Key::Federal, days)?,
        state_slips: slips_at(alloc, file, Key::State, days)?,
        judges_alike: alike_at(alloc, file, Key::Judges)?,
        rooms_alike: alike_at(alloc, file, Key::Rooms)?,
    })
}
