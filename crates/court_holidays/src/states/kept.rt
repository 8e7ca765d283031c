//! The day on which a state's holiday is kept, and in which years it is one.

ghost use Rattle.std.specs.Prelude.{◌≡◌};
ghost use Rattle.court_holidays.specs.Dates.{IsNear};
ghost use Rattle.court_holidays.specs.States.Calendar.{is_set_on};
ghost use Rattle.court_holidays.specs.States.Kept.{has_primary, is_even, is_in_force, is_stated, kept_by, kept_in, set_in, weekend_rule};

use crate::dates::{earlier, later, year_of};
use crate::states::days::words_of;
use crate::states::statute::{StateHoliday, WeekendRule};
use court_clock::Day;

impl StateHoliday {
    /// Where it is kept that falls on a Saturday or a Sunday.
    #[tactic(auto, unfolding(crate::specs::States::Kept::weekend_rule))]
    pub fn weekend_rule(self) -> WeekendRule
        ensures { result ≡ weekend_rule self }
    {
        match self {
            StateHoliday::LincolnsBirthday
            | StateHoliday::CesarChavezDay
            | StateHoliday::AdmissionDay
            | StateHoliday::KingsBirthday
            | StateHoliday::LeesBirthday
            | StateHoliday::SusanBAnthonysBirthday
            | StateHoliday::PascuaFloridaDay
            | StateHoliday::ConfederateMemorialDay
            | StateHoliday::DavissBirthday
            | StateHoliday::FlagDay
            | StateHoliday::RooseveltDay
            | StateHoliday::TrumanDay
            | StateHoliday::GreekIndependenceDay
            | StateHoliday::HalifaxResolvesDay
            | StateHoliday::MecklenburgDay
            | StateHoliday::ConfederateMemorialTenthOfMay
            | StateHoliday::AmericanCitizenshipDay
            | StateHoliday::AbolitionDay
            | StateHoliday::ConstitutionDay
            | StateHoliday::DiscoveryDay => WeekendRule::SundayToMonday,
            StateHoliday::LincolnDay
            | StateHoliday::AlaskaDay
            | StateHoliday::ChristmasEve
            | StateHoliday::DistrictEmancipationDay
            | StateHoliday::PrinceKuhioDay
            | StateHoliday::KamehamehaDay
            | StateHoliday::ConfederateMemorialDayOfSouthCarolina
            | StateHoliday::PioneerDay
            | StateHoliday::BenningtonBattleDay
            | StateHoliday::WestVirginiaDay => WeekendRule::NearestWeekday,
            _ => WeekendRule::Stays,
        }
    }

    /// The day that the law sets for the holiday in the year. None where it is no holiday in the year, and for a year
    /// that isn't one of 2016 to 2199.
    #[tactic(auto, unfolding(crate::specs::States::Kept::set_in))]
    fn day_in(self, year: i16) -> Option<Day>
        ensures { result ≡ set_in self year }
    {
        if !is_stated(year) || !is_in_force(self, year) {
            return None;
        }
        Some(words_of(self, year))
    }

    /// The day on which the holiday of the year is kept, which may be beside the day that the law sets.
    #[tactic(auto, unfolding(crate::specs::States::Kept::set_in, crate::specs::States::Kept::kept_in))]
    pub fn kept_in(self, year: i16) -> Option<Day>
        ensures { result ≡ kept_in self year }
    {
        if !is_stated(year) || !is_in_force(self, year) {
            return None;
        }
        Some(kept_by(self.weekend_rule(), words_of(self, year)))
    }

    /// Whether the law sets the day itself for the holiday.
    pub fn is_set_on(self, day: Day) -> bool
        ensures { result ≡ is_set_on day self }
    {
        self.day_in(year_of(day)) == Some(day)
    }
}

/// Whether the year is one of those for which the definitions say what the laws set.
fn is_stated(year: i16) -> bool
    ensures { result ≡ is_stated year }
{
    2016 <= year && year <= 2199
}

/// Whether it is a holiday in the year.
#[tactic(auto, unfolding(crate::specs::States::Kept::is_in_force))]
fn is_in_force(holiday: StateHoliday, year: i16) -> bool
    ensures { result ≡ is_in_force holiday year }
{
    match holiday {
        StateHoliday::AmericanCitizenshipDay => 2018 <= year,
        StateHoliday::ElectionDaySince2020 | StateHoliday::FrancesXavierCabriniDay => 2020 <= year,
        StateHoliday::JuneteenthOfNewJersey => 2021 <= year,
        StateHoliday::JuneteenthOfUtah => 2022 <= year,
        StateHoliday::TexasEmancipationDay | StateHoliday::LeeJacksonDay => year <= 2020,
        StateHoliday::LeeDayTo2022 | StateHoliday::ConfederateMemorialDayTo2022 => year <= 2022,
        StateHoliday::GeneralElectionDay | StateHoliday::PartisanPrimaryDay => is_even(year),
        StateHoliday::PrimaryElectionDay | StateHoliday::WestVirginiaPrimaryDay => has_primary(
            year,
        ),
        _ => true,
    }
}

/// Whether the year is even.
fn is_even(year: i16) -> bool
    ensures { result ≡ is_even year }
{
    year.unsigned_abs() % 2 == 0
}

/// Whether primaries are held on their day in the year.
fn has_primary(year: i16) -> bool
    ensures { result ≡ has_primary year }
{
    is_even(year) && year != 2020
}

/// The day on which it is kept.
fn kept_by(rule: WeekendRule, day: Day) -> Day
    requires { IsNear 500 day }
    ensures { result ≡ kept_by rule day }
{
    match (rule, day.weekday()) {
        (WeekendRule::NearestWeekday, 5) => earlier(day, 1),
        (WeekendRule::NearestWeekday | WeekendRule::SundayToMonday, 6) => later(day, 1),
        _ => day,
    }
}
