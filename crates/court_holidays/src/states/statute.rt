//! The holidays of states' laws.

/// A holiday of one state or more that isn't a federal one.
#[derive(Clone, Copy, Debug, PartialEq, Eq)]
pub enum StateHoliday {
    /// 12 February, Lincoln's birthday.
    LincolnsBirthday,
    /// The same, where one on a Saturday is kept on the Friday.
    LincolnDay,
    /// The same, where it is never moved.
    LincolnsBirthdayItself,
    /// Good Friday.
    GoodFriday,
    /// The day of a general election: the Tuesday after the first Monday of November.
    ElectionDay,
    /// The same, since 2020.
    ElectionDaySince2020,
    /// The same, in even years.
    GeneralElectionDay,
    /// The Friday after the fourth Thursday of November.
    DayAfterThanksgiving,
    /// The same, under its name in Washington.
    NativeAmericanHeritageDay,
    /// The same, under its name in Maryland.
    AmericanIndianHeritageDay,
    /// The same, under its name in Nevada.
    FamilyDay,
    /// The same, under its name in West Virginia.
    LincolnsDay,
    /// The fourth Monday of April.
    ConfederateMemorialMonday,
    /// The first Monday of June.
    DavissMonday,
    /// The last Monday of March.
    SewardsDay,
    /// 18 October.
    AlaskaDay,
    /// 24 December, where one on a Saturday is kept on the Friday.
    ChristmasEve,
    /// 31 March.
    CesarChavezDay,
    /// 9 September.
    AdmissionDay,
    /// The fourth Friday of September.
    NativeAmericanDay,
    /// The first Monday of October, since 2020.
    FrancesXavierCabriniDay,
    /// 16 April.
    DistrictEmancipationDay,
    /// 15 January.
    KingsBirthday,
    /// 19 January.
    LeesBirthday,
    /// 15 February.
    SusanBAnthonysBirthday,
    /// 2 April.
    PascuaFloridaDay,
    /// 26 April.
    ConfederateMemorialDay,
    /// 3 June.
    DavissBirthday,
    /// 14 June.
    FlagDay,
    /// The first Monday of March.
    GuamHistoryDay,
    /// 21 July.
    LiberationDay,
    /// 2 November.
    AllSoulsDay,
    /// 8 December.
    LadyOfCamarinDay,
    /// 26 March.
    PrinceKuhioDay,
    /// 11 June.
    KamehamehaDay,
    /// The third Friday of August.
    StatehoodDay,
    /// The first Monday of March.
    PulaskisBirthday,
    /// The Tuesday after the first Monday of May, in even years but 2020.
    PrimaryElectionDay,
    /// 30 January.
    RooseveltDay,
    /// 8 January.
    BattleOfNewOrleansDay,
    /// 19 January, up to 2022.
    LeeDayTo2022,
    /// The Tuesday before Ash Wednesday, 47 days before Easter.
    MardiGras,
    /// 3 June, up to 2022.
    ConfederateMemorialDayTo2022,
    /// 30 August.
    HueyLongDay,
    /// 1 November.
    AllSaintsDay,
    /// 31 December.
    NewYearsEve,
    /// 25 March.
    MarylandDay,
    /// 12 September.
    DefendersDay,
    /// The third Monday of April.
    PatriotsDay,
    /// The last Monday of April.
    ConfederateMemorialLastMonday,
    /// 8 May.
    TrumanDay,
    /// The last Friday of April.
    ArborDay,
    /// The last Friday of October.
    NevadaDay,
    /// The third Friday of June, since 2021.
    JuneteenthOfNewJersey,
    /// 25 March.
    GreekIndependenceDay,
    /// 12 April.
    HalifaxResolvesDay,
    /// 20 May.
    MecklenburgDay,
    /// 10 May, where one on a Saturday stays.
    ConfederateMemorialTenthOfMay,
    /// 24 March.
    CovenantDay,
    /// 4 November.
    CitizenshipDay,
    /// 8 December.
    CommonwealthConstitutionDay,
    /// 6 January.
    ThreeKingsDay,
    /// 2 March, since 2018.
    AmericanCitizenshipDay,
    /// 22 March.
    AbolitionDay,
    /// 25 July.
    ConstitutionDay,
    /// 19 November.
    DiscoveryDay,
    /// The second Monday of August.
    VictoryDay,
    /// 10 May, where one on a Saturday is kept on the Friday.
    ConfederateMemorialDayOfSouthCarolina,
    /// 19 January.
    ConfederateHeroesDay,
    /// 2 March.
    TexasIndependenceDay,
    /// 21 April.
    SanJacintoDay,
    /// 19 June, up to 2020; since 2021 the federal list has it.
    TexasEmancipationDay,
    /// 27 August.
    LyndonBainesJohnsonDay,
    /// 24 December.
    DayBeforeChristmas,
    /// 26 December.
    DayAfterChristmas,
    /// The Monday of 15 to 21 June, which is the third of the month, since 2022.
    JuneteenthOfUtah,
    /// 24 July.
    PioneerDay,
    /// The first Tuesday of March.
    TownMeetingDay,
    /// 16 August.
    BenningtonBattleDay,
    /// 31 March.
    TransferDay,
    /// The day before Good Friday.
    HolyThursday,
    /// The Monday after Easter, three days after Good Friday.
    EasterMonday,
    /// 3 July.
    VirginIslandsEmancipationDay,
    /// 1 November.
    LibertyDay,
    /// 26 December, under its name in the Virgin Islands.
    ChristmasSecondDay,
    /// The Friday before the third Monday of January, up to 2020.
    LeeJacksonDay,
    /// 20 June.
    WestVirginiaDay,
    /// The second Tuesday of May, in even years but 2020.
    WestVirginiaPrimaryDay,
    /// The second Tuesday of August, in even years.
    PartisanPrimaryDay,
}

/// Where a holiday is kept that falls on a Saturday or a Sunday.
#[derive(Clone, Copy, Debug, PartialEq, Eq)]
pub enum WeekendRule {
    /// On the day itself.
    Stays,
    /// On the Monday after a Sunday; on a Saturday itself.
    SundayToMonday,
    /// On the Friday before a Saturday, and on the Monday after a Sunday.
    NearestWeekday,
}
