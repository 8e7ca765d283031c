//! The day of each state's holiday in a year.

ghost use Rattle.std.specs.Prelude.{◌≡◌};
ghost use Rattle.court_holidays.specs.Dates.{IsNear, IsStated};
ghost use Rattle.court_holidays.specs.States.Days.{words_of};

use crate::dates::{earlier, last_weekday, later, nth_weekday, on};
use crate::states::easter::good_friday;
use crate::states::statute::StateHoliday;
use court_clock::Day;
use jiff_core::civil::Weekday;

/// The day that the statute names in the year.
#[tactic(auto, unfolding(crate::specs::States::Days::words_of))]
pub(crate) fn words_of(holiday: StateHoliday, year: i16) -> Day
    requires { IsStated year }
    ensures value { result ≡ words_of holiday year }
    ensures near { IsNear 500 result }
{
    match holiday {
        StateHoliday::LincolnsBirthday
        | StateHoliday::LincolnDay
        | StateHoliday::LincolnsBirthdayItself => on(year, 2, 12),
        StateHoliday::GoodFriday => good_friday(year),
        StateHoliday::ElectionDay
        | StateHoliday::ElectionDaySince2020
        | StateHoliday::GeneralElectionDay => later(nth_weekday(year, 11, 1, Weekday::Monday), 1),
        StateHoliday::DayAfterThanksgiving
        | StateHoliday::NativeAmericanHeritageDay
        | StateHoliday::AmericanIndianHeritageDay
        | StateHoliday::FamilyDay
        | StateHoliday::LincolnsDay => later(nth_weekday(year, 11, 4, Weekday::Thursday), 1),
        StateHoliday::ConfederateMemorialMonday => nth_weekday(year, 4, 4, Weekday::Monday),
        StateHoliday::DavissMonday => nth_weekday(year, 6, 1, Weekday::Monday),
        StateHoliday::SewardsDay => last_weekday(year, 3, 31, Weekday::Monday),
        StateHoliday::AlaskaDay => on(year, 10, 18),
        StateHoliday::ChristmasEve | StateHoliday::DayBeforeChristmas => on(year, 12, 24),
        StateHoliday::CesarChavezDay | StateHoliday::TransferDay => on(year, 3, 31),
        StateHoliday::AdmissionDay => on(year, 9, 9),
        StateHoliday::NativeAmericanDay => nth_weekday(year, 9, 4, Weekday::Friday),
        StateHoliday::FrancesXavierCabriniDay => nth_weekday(year, 10, 1, Weekday::Monday),
        StateHoliday::DistrictEmancipationDay => on(year, 4, 16),
        StateHoliday::KingsBirthday => on(year, 1, 15),
        StateHoliday::LeesBirthday
        | StateHoliday::LeeDayTo2022
        | StateHoliday::ConfederateHeroesDay => on(year, 1, 19),
        StateHoliday::SusanBAnthonysBirthday => on(year, 2, 15),
        StateHoliday::PascuaFloridaDay => on(year, 4, 2),
        StateHoliday::ConfederateMemorialDay => on(year, 4, 26),
        StateHoliday::DavissBirthday | StateHoliday::ConfederateMemorialDayTo2022 => on(year, 6, 3),
        StateHoliday::FlagDay => on(year, 6, 14),
        StateHoliday::GuamHistoryDay | StateHoliday::PulaskisBirthday => nth_weekday(
            year,
            3,
            1,
            Weekday::Monday,
        ),
        StateHoliday::LiberationDay => on(year, 7, 21),
        StateHoliday::AllSoulsDay => on(year, 11, 2),
        StateHoliday::LadyOfCamarinDay | StateHoliday::CommonwealthConstitutionDay => on(
            year, 12, 8,
        ),
        StateHoliday::PrinceKuhioDay => on(year, 3, 26),
        StateHoliday::KamehamehaDay => on(year, 6, 11),
        StateHoliday::StatehoodDay => nth_weekday(year, 8, 3, Weekday::Friday),
        StateHoliday::PrimaryElectionDay => later(nth_weekday(year, 5, 1, Weekday::Monday), 1),
        StateHoliday::RooseveltDay => on(year, 1, 30),
        StateHoliday::BattleOfNewOrleansDay => on(year, 1, 8),
        StateHoliday::MardiGras => earlier(good_friday(year), 45),
        StateHoliday::HueyLongDay => on(year, 8, 30),
        StateHoliday::AllSaintsDay | StateHoliday::LibertyDay => on(year, 11, 1),
        StateHoliday::NewYearsEve => on(year, 12, 31),
        StateHoliday::MarylandDay | StateHoliday::GreekIndependenceDay => on(year, 3, 25),
        StateHoliday::DefendersDay => on(year, 9, 12),
        StateHoliday::PatriotsDay => nth_weekday(year, 4, 3, Weekday::Monday),
        StateHoliday::ConfederateMemorialLastMonday => last_weekday(year, 4, 30, Weekday::Monday),
        StateHoliday::TrumanDay => on(year, 5, 8),
        StateHoliday::ArborDay => last_weekday(year, 4, 30, Weekday::Friday),
        StateHoliday::NevadaDay => last_weekday(year, 10, 31, Weekday::Friday),
        StateHoliday::JuneteenthOfNewJersey => nth_weekday(year, 6, 3, Weekday::Friday),
        StateHoliday::HalifaxResolvesDay => on(year, 4, 12),
        StateHoliday::MecklenburgDay => on(year, 5, 20),
        StateHoliday::ConfederateMemorialTenthOfMay
        | StateHoliday::ConfederateMemorialDayOfSouthCarolina => on(year, 5, 10),
        StateHoliday::CovenantDay => on(year, 3, 24),
        StateHoliday::CitizenshipDay => on(year, 11, 4),
        StateHoliday::ThreeKingsDay => on(year, 1, 6),
        StateHoliday::AmericanCitizenshipDay | StateHoliday::TexasIndependenceDay => on(year, 3, 2),
        StateHoliday::AbolitionDay => on(year, 3, 22),
        StateHoliday::ConstitutionDay => on(year, 7, 25),
        StateHoliday::DiscoveryDay => on(year, 11, 19),
        StateHoliday::VictoryDay => nth_weekday(year, 8, 2, Weekday::Monday),
        StateHoliday::SanJacintoDay => on(year, 4, 21),
        StateHoliday::TexasEmancipationDay => on(year, 6, 19),
        StateHoliday::LyndonBainesJohnsonDay => on(year, 8, 27),
        StateHoliday::DayAfterChristmas | StateHoliday::ChristmasSecondDay => on(year, 12, 26),
        StateHoliday::JuneteenthOfUtah => nth_weekday(year, 6, 3, Weekday::Monday),
        StateHoliday::PioneerDay => on(year, 7, 24),
        StateHoliday::TownMeetingDay => nth_weekday(year, 3, 1, Weekday::Tuesday),
        StateHoliday::BenningtonBattleDay => on(year, 8, 16),
        StateHoliday::HolyThursday => earlier(good_friday(year), 1),
        StateHoliday::EasterMonday => later(good_friday(year), 3),
        StateHoliday::VirginIslandsEmancipationDay => on(year, 7, 3),
        StateHoliday::LeeJacksonDay => earlier(nth_weekday(year, 1, 3, Weekday::Monday), 3),
        StateHoliday::WestVirginiaDay => on(year, 6, 20),
        StateHoliday::WestVirginiaPrimaryDay => nth_weekday(year, 5, 2, Weekday::Tuesday),
        StateHoliday::PartisanPrimaryDay => nth_weekday(year, 8, 2, Weekday::Tuesday),
    }
}
