//! The days of a court, here and by other readings.

ghost use Rattle.std.specs.Prelude.{◌≡◌, filter, IfOk};
ghost use Rattle.reason_notes.specs.Readings.ByReading.{DaysByReadingView, days_by_reading, is_observed_friday, without_doubtful, without_fridays};

use court_clock::Day;
use court_days::{Days, HolidayList};
use court_holidays::observed_on;
use std::alloc::{AllocError, Global};
use std::marker::Model;

/// The days of a court, and the same days by the two readings by which some of its holidays are none. They are made once for all
/// deadlines that are looked at, since to make them is to go over all days that the court's file covers.
#[derive(Debug, Drop)]
pub struct DaysByReading {
    here: Days,
    fridays_open: Days,
    doubtful_open: Days,
}

impl Model for DaysByReading {
    ghost Value = { DaysByReadingView };

    ghost view = { λ d. record { here = d.here; fridays_open = d.fridays_open; doubtful_open = d.doubtful_open } };
}

impl DaysByReading {
    /// These days, of which `doubtful` are in doubt as holidays of the state. `Err` says that memory ran out, or that there are as
    /// many copies of the days as can be counted.
    pub fn new(alloc: Global, days: &Days, doubtful: &[Day]) -> Result<DaysByReading, AllocError>
        ensures { IfOk result (λ by. by ≡ days_by_reading days.now doubtful.now) }
    {
        Ok(DaysByReading {
            here: days.copy()?,
            fridays_open: without_fridays(alloc, days)?,
            doubtful_open: without_doubtful(alloc, days, doubtful)?,
        })
    }

    /// The days as they are here.
    pub fn here(&self) -> &Days
        ensures { result.now ≡ self.now.here }
    {
        &self.here
    }

    /// The days of which no Friday is a legal holiday because a Saturday's is observed on it (5 U.S.C. 6103(b)(1)).
    pub(crate) fn fridays_open(&self) -> &Days
        ensures { result.now ≡ self.now.fridays_open }
    {
        &self.fridays_open
    }

    /// The days of which none that is in doubt is a holiday of the state (Fed. R. Civ. P. 6(a)(6)(C)).
    pub(crate) fn doubtful_open(&self) -> &Days
        ensures { result.now ≡ self.now.doubtful_open }
    {
        &self.doubtful_open
    }
}

/// The days without the Fridays on which a Saturday's holiday is observed.
#[tactic(auto, unfolding(crate::specs::Readings::ByReading::without_fridays))]
fn without_fridays(alloc: Global, days: &Days) -> Result<Days, AllocError>
    ensures { IfOk result (λ other. other ≡ without_fridays days.now) }
{
    let fridays = observed_fridays(alloc, days.listed(HolidayList::Federal))?;
    days.without(alloc, HolidayList::Federal, fridays.as_slice())
}

/// Those of the days that are such Fridays.
fn observed_fridays(alloc: Global, days: &[Day]) -> Result<Vec<Day>, AllocError>
    ensures { IfOk result (λ fridays. fridays.items ≡ filter is_observed_friday days.now) }
{
    let mut fridays = Vec::from_slice(alloc, days)?;
    fridays.retain(|day| is_observed_friday(*day));
    Ok(fridays)
}

/// Whether the day is a Friday on which the holiday of the Saturday after it is observed.
fn is_observed_friday(day: Day) -> bool
    ensures { result ≡ is_observed_friday day }
{
    day.weekday() == 4 && observed_on(day).is_some()
}

/// The days without those that are in doubt as holidays of the state.
#[tactic(auto, unfolding(crate::specs::Readings::ByReading::without_doubtful))]
fn without_doubtful(alloc: Global, days: &Days, doubtful: &[Day]) -> Result<Days, AllocError>
    ensures { IfOk result (λ other. other ≡ without_doubtful days.now doubtful.now) }
{
    days.without(alloc, HolidayList::State, doubtful)
}
