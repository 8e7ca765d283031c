//! The holidays, and the day that the statute sets aside for each.

ghost use Rattle.std.specs.Prelude.{◌≡◌};
ghost use Rattle.court_holidays.specs.Dates.{IsStated};
ghost use Rattle.court_holidays.specs.Federal.Statute.{federal_statute, is_stated, set_in, since, statute_name, words_of};
ghost use Rattle.court_holidays.specs.declared.federal.statute.FederalHoliday.TheVariants.{InaugurationDay};

use crate::dates::{last_weekday, nth_weekday, on};
use court_clock::Day;
use jiff_core::civil::Weekday;

/// A federal holiday. They are in the order of their days in a year.
#[derive(Clone, Copy, Debug, PartialEq, Eq)]
pub enum FederalHoliday {
    /// 1 January.
    NewYearsDay,
    /// The third Monday in January, since 1986.
    BirthdayOfMartinLutherKingJr,
    /// 20 January of the years after those that four divides, or the 21st where the 20th is a Sunday. It is a holiday in
    /// the capital's region only (5 U.S.C. 6103(c)), and none that Rule 6(a)(6)(A) lists.
    InaugurationDay,
    /// The third Monday in February; before 1971 the 22nd.
    WashingtonsBirthday,
    /// The last Monday in May; before 1971 the 30th.
    MemorialDay,
    /// 19 June, since 2021.
    Juneteenth,
    /// 4 July.
    IndependenceDay,
    /// The first Monday in September.
    LaborDay,
    /// The second Monday in October, since 1971.
    ColumbusDay,
    /// 11 November; from 1971 to 1977 the fourth Monday in October.
    VeteransDay,
    /// The fourth Thursday in November.
    ThanksgivingDay,
    /// 25 December.
    ChristmasDay,
}

impl FederalHoliday {
    /// The name, as the statute has it.
    pub fn name(self) -> &'static str
        ensures { result.now ≡ statute_name self }
    {
        match self {
            FederalHoliday::NewYearsDay => "New Year's Day",
            FederalHoliday::BirthdayOfMartinLutherKingJr => "Birthday of Martin Luther King, Jr.",
            FederalHoliday::InaugurationDay => "Inauguration Day",
            FederalHoliday::WashingtonsBirthday => "Washington's Birthday",
            FederalHoliday::MemorialDay => "Memorial Day",
            FederalHoliday::Juneteenth => "Juneteenth National Independence Day",
            FederalHoliday::IndependenceDay => "Independence Day",
            FederalHoliday::LaborDay => "Labor Day",
            FederalHoliday::ColumbusDay => "Columbus Day",
            FederalHoliday::VeteransDay => "Veterans Day",
            FederalHoliday::ThanksgivingDay => "Thanksgiving Day",
            FederalHoliday::ChristmasDay => "Christmas Day",
        }
    }

    /// The part of the statute that sets its day.
    pub fn statute(self) -> &'static str
        ensures { result.now ≡ federal_statute self }
    {
        match self {
            FederalHoliday::InaugurationDay => "5 U.S.C. 6103(c)",
            _ => "5 U.S.C. 6103(a)",
        }
    }

    /// The day that the law sets aside for the holiday in the year. None where the law has no such holiday in the year,
    /// and for a year that isn't one of 1970 to 2199.
    #[tactic(auto, unfolding(crate::specs::Federal::Statute::set_in))]
    pub fn day_in(self, year: i16) -> Option<Day>
        ensures { result ≡ set_in self year }
    {
        if !is_stated(year) {
            return None;
        }
        words_of(self, year)
    }
}

/// Whether the year is one of those for which the definitions say what the law sets.
fn is_stated(year: i16) -> bool
    ensures { result ≡ is_stated year }
{
    1970 <= year && year <= 2199
}

/// The day that the statute sets aside in the year, if it does.
#[tactic(auto, using(crate::proofs::DateLemmas::february_22))]
fn words_of(holiday: FederalHoliday, year: i16) -> Option<Day>
    requires { IsStated year }
    ensures { result ≡ words_of holiday year }
{
    match holiday {
        FederalHoliday::NewYearsDay => Some(on(year, 1, 1)),
        FederalHoliday::BirthdayOfMartinLutherKingJr => {
            since(1986, year, nth_weekday(year, 1, 3, Weekday::Monday))
        }
        FederalHoliday::InaugurationDay => inauguration(year),
        FederalHoliday::WashingtonsBirthday => Some(if year < 1971 {
            on(year, 2, 22)
        } else {
            nth_weekday(year, 2, 3, Weekday::Monday)
        }),
        FederalHoliday::MemorialDay => Some(if year < 1971 {
            on(year, 5, 30)
        } else {
            last_weekday(year, 5, 31, Weekday::Monday)
        }),
        FederalHoliday::Juneteenth => since(2021, year, on(year, 6, 19)),
        FederalHoliday::IndependenceDay => Some(on(year, 7, 4)),
        FederalHoliday::LaborDay => Some(nth_weekday(year, 9, 1, Weekday::Monday)),
        FederalHoliday::ColumbusDay => since(1971, year, nth_weekday(year, 10, 2, Weekday::Monday)),
        FederalHoliday::VeteransDay => Some(if 1971 <= year && year <= 1977 {
            nth_weekday(year, 10, 4, Weekday::Monday)
        } else {
            on(year, 11, 11)
        }),
        FederalHoliday::ThanksgivingDay => Some(nth_weekday(year, 11, 4, Weekday::Thursday)),
        FederalHoliday::ChristmasDay => Some(on(year, 12, 25)),
    }
}

/// The day, in the years from the first on.
fn since(first: i16, year: i16, day: Day) -> Option<Day>
    ensures { result ≡ since first year day }
{
    if year < first {
        return None;
    }
    Some(day)
}

/// The day of an inauguration, in each year after one that four divides: 20 January, or the 21st where that is a Sunday.
fn inauguration(year: i16) -> Option<Day>
    requires { IsStated year }
    ensures { result ≡ words_of InaugurationDay year }
{
    if year.unsigned_abs() % 4 != 1 {
        return None;
    }
    let day = on(year, 1, 20);
    if day.weekday() == 6 {
        return Some(on(year, 1, 21));
    }
    Some(day)
}
