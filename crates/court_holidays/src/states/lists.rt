//! The holidays of each state that the federal list lacks.

ghost use Rattle.std.specs.Prelude.{◌≡◌};
ghost use Rattle.court_holidays.specs.States.Lists.{holidays_of};

use crate::states::listed::StateDay;
use crate::states::state::State;
use crate::states::statute::StateHoliday;

/// A list, each holiday after a word that says whether it is sure or in doubt.
macro_rules! days {
    ($($mark:ident $holiday:ident),*) => {
        &[$(StateDay::$mark(StateHoliday::$holiday)),*]
    };
}

/// The holidays of the state that the federal list lacks.
#[tactic(auto, unfolding(crate::specs::States::Lists::holidays_of))]
pub(crate) fn holidays_of(state: State) -> &'static [StateDay]
    ensures { result.now ≡ holidays_of state }
{
    match state {
        State::Alabama => days![Sure ConfederateMemorialMonday, Sure DavissMonday],
        State::Alaska => days![Sure SewardsDay, Sure AlaskaDay],
        State::Arizona => &[],
        State::Arkansas => days![Doubtful ChristmasEve],
        State::California => days![
            Sure LincolnsBirthday,
            Sure CesarChavezDay,
            Doubtful AdmissionDay,
            Sure NativeAmericanDay,
            Doubtful DayAfterThanksgiving
        ],
        State::Colorado => days![Sure FrancesXavierCabriniDay],
        State::Connecticut => days![Sure LincolnDay, Doubtful GoodFriday],
        State::Delaware => days![
            Sure GoodFriday,
            Sure GeneralElectionDay,
            Sure DayAfterThanksgiving
        ],
        State::DistrictOfColumbia => days![Sure DistrictEmancipationDay],
        State::Florida => days![
            Sure KingsBirthday,
            Sure LeesBirthday,
            Sure LincolnsBirthday,
            Sure SusanBAnthonysBirthday,
            Sure GoodFriday,
            Sure PascuaFloridaDay,
            Sure ConfederateMemorialDay,
            Sure DavissBirthday,
            Sure FlagDay,
            Sure GeneralElectionDay
        ],
        State::Georgia => &[],
        State::Guam => days![
            Sure GuamHistoryDay,
            Sure LiberationDay,
            Sure AllSoulsDay,
            Sure LadyOfCamarinDay
        ],
        State::Hawaii => days![
            Sure GoodFriday,
            Sure PrinceKuhioDay,
            Sure KamehamehaDay,
            Sure StatehoodDay,
            Sure GeneralElectionDay
        ],
        State::Idaho => &[],
        State::Illinois => days![
            Sure LincolnsBirthday,
            Sure PulaskisBirthday,
            Doubtful GoodFriday,
            Sure GeneralElectionDay
        ],
        State::Indiana => days![
            Doubtful LincolnDay,
            Sure GoodFriday,
            Sure PrimaryElectionDay,
            Sure GeneralElectionDay
        ],
        State::Iowa => days![Doubtful LincolnsBirthday],
        State::Kansas => days![Doubtful LincolnsBirthdayItself],
        State::Kentucky => days![
            Doubtful LeesBirthday,
            Doubtful RooseveltDay,
            Doubtful LincolnsBirthday,
            Doubtful DavissBirthday
        ],
        State::Louisiana => days![
            Doubtful BattleOfNewOrleansDay,
            Doubtful LeeDayTo2022,
            Doubtful MardiGras,
            Sure GoodFriday,
            Doubtful ConfederateMemorialDayTo2022,
            Doubtful HueyLongDay,
            Sure AllSaintsDay,
            Doubtful DayAfterThanksgiving,
            Doubtful DayBeforeChristmas,
            Doubtful NewYearsEve
        ],
        State::Maine => days![Sure PatriotsDay],
        State::Maryland => days![
            Doubtful LincolnsBirthdayItself,
            Doubtful MarylandDay,
            Doubtful GoodFriday,
            Doubtful DefendersDay,
            Sure GeneralElectionDay,
            Sure AmericanIndianHeritageDay
        ],
        State::Massachusetts => days![Sure PatriotsDay],
        State::Michigan => days![Doubtful LincolnsBirthday],
        State::Minnesota => days![Doubtful DayAfterThanksgiving],
        State::Mississippi => days![Sure ConfederateMemorialLastMonday],
        State::Missouri => days![Sure LincolnsBirthday, Sure TrumanDay],
        State::Montana => days![Sure GeneralElectionDay],
        State::Nebraska => days![Sure ArborDay, Sure DayAfterThanksgiving],
        State::Nevada => days![Sure NevadaDay, Sure FamilyDay],
        State::NewHampshire => days![Doubtful GeneralElectionDay],
        State::NewJersey => days![
            Doubtful LincolnsBirthday,
            Sure GoodFriday,
            Sure JuneteenthOfNewJersey,
            Sure ElectionDay
        ],
        State::NewMexico => &[],
        State::NewYork => days![Sure LincolnsBirthday, Sure ElectionDay],
        State::NorthCarolina => days![
            Doubtful LeesBirthday,
            Doubtful GreekIndependenceDay,
            Doubtful HalifaxResolvesDay,
            Doubtful GoodFriday,
            Doubtful ConfederateMemorialTenthOfMay,
            Doubtful MecklenburgDay,
            Doubtful GeneralElectionDay
        ],
        State::NorthDakota => days![Sure GoodFriday],
        State::NorthernMarianaIslands => days![
            Sure CovenantDay,
            Sure GoodFriday,
            Sure CitizenshipDay,
            Sure CommonwealthConstitutionDay
        ],
        State::Ohio => &[],
        State::Oklahoma => &[],
        State::Oregon => &[],
        State::Pennsylvania => days![Sure GoodFriday, Doubtful FlagDay, Sure ElectionDay],
        State::PuertoRico => days![
            Sure ThreeKingsDay,
            Doubtful AmericanCitizenshipDay,
            Sure AbolitionDay,
            Sure GoodFriday,
            Sure ConstitutionDay,
            Sure DiscoveryDay
        ],
        State::RhodeIsland => days![Sure VictoryDay, Sure GeneralElectionDay],
        State::SouthCarolina => days![
            Sure ConfederateMemorialDayOfSouthCarolina,
            Doubtful DayAfterThanksgiving,
            Doubtful DayAfterChristmas
        ],
        State::SouthDakota => &[],
        State::Tennessee => days![Sure GoodFriday, Doubtful GeneralElectionDay],
        State::Texas => days![
            Sure ConfederateHeroesDay,
            Sure TexasIndependenceDay,
            Sure SanJacintoDay,
            Sure TexasEmancipationDay,
            Sure LyndonBainesJohnsonDay,
            Sure DayAfterThanksgiving,
            Doubtful DayBeforeChristmas,
            Doubtful DayAfterChristmas
        ],
        State::Utah => days![Sure JuneteenthOfUtah, Sure PioneerDay],
        State::Vermont => days![Sure TownMeetingDay, Sure BenningtonBattleDay],
        State::VirginIslands => days![
            Sure ThreeKingsDay,
            Sure TransferDay,
            Sure HolyThursday,
            Sure GoodFriday,
            Sure EasterMonday,
            Sure VirginIslandsEmancipationDay,
            Sure LibertyDay,
            Sure ChristmasSecondDay
        ],
        State::Virginia => days![
            Sure LeeJacksonDay,
            Sure ElectionDaySince2020,
            Sure DayAfterThanksgiving
        ],
        State::Washington => days![Sure NativeAmericanHeritageDay],
        State::WestVirginia => days![
            Sure WestVirginiaPrimaryDay,
            Sure WestVirginiaDay,
            Sure GeneralElectionDay,
            Sure LincolnsDay
        ],
        State::Wisconsin => days![Doubtful PartisanPrimaryDay, Doubtful GeneralElectionDay],
        State::Wyoming => &[],
    }
}
