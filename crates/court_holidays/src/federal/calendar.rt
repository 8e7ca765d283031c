//! The holidays of a year, and the holiday that a day is.

ghost use Rattle.std.specs.Prelude.{◌≡◌};
ghost use Rattle.std.specs.List.{find};
ghost use Rattle.jiff_tz.specs.Year.{year_of_day};
ghost use Rattle.court_holidays.specs.Federal.Calendar.{holiday_on, is_day, is_kept, kept_on};

use crate::dates::year_of;
use crate::federal::statute::FederalHoliday;
use court_clock::Day;

/// All holidays, in the order of their days in a year.
const ALL: [FederalHoliday; 12] = [
    FederalHoliday::NewYearsDay,
    FederalHoliday::BirthdayOfMartinLutherKingJr,
    FederalHoliday::InaugurationDay,
    FederalHoliday::WashingtonsBirthday,
    FederalHoliday::MemorialDay,
    FederalHoliday::Juneteenth,
    FederalHoliday::IndependenceDay,
    FederalHoliday::LaborDay,
    FederalHoliday::ColumbusDay,
    FederalHoliday::VeteransDay,
    FederalHoliday::ThanksgivingDay,
    FederalHoliday::ChristmasDay,
];

/// The holiday that the day is by law. Where it is Inauguration Day and another, the other. None for any other day, and
/// for a day that isn't in the years 1970 to 2199.
#[tactic(auto, unfolding(crate::specs::Federal::Calendar::holiday_on))]
pub fn holiday_on(day: Day, capital: bool) -> Option<FederalHoliday>
    ensures { result ≡ holiday_on day capital }
{
    first_on(&ALL[..], year_of(day), day, capital)
}

/// The first of the holidays that is on the day in the year.
fn first_on(
    holidays: &[FederalHoliday],
    year: i16,
    day: Day,
    capital: bool,
) -> Option<FederalHoliday>
    ensures { result ≡ find (λ h. is_day day (kept_on capital year h)) holidays.now }
{
    holidays
        .iter()
        .copied()
        .find(|holiday| is_on(day, capital, year, *holiday))
}

/// The day of the holiday in a year, at a court that has it.
fn kept_on(capital: bool, year: i16, holiday: FederalHoliday) -> Option<Day>
    ensures { result ≡ kept_on capital year holiday }
{
    if !is_kept(capital, holiday) {
        return None;
    }
    holiday.day_in(year)
}

/// Whether a court has the holiday.
pub(crate) fn is_kept(capital: bool, holiday: FederalHoliday) -> bool
    ensures { result ≡ is_kept capital holiday }
{
    match holiday {
        FederalHoliday::InaugurationDay => capital,
        _ => true,
    }
}

/// Whether the day is that of the holiday in the year.
fn is_on(day: Day, capital: bool, year: i16, holiday: FederalHoliday) -> bool
    ensures { result ≡ is_day day (kept_on capital year holiday) }
{
    match kept_on(capital, year, holiday) {
        Some(set) => set == day,
        None => false,
    }
}
