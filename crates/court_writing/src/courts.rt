//! The district courts whose files can be written.

ghost use Rattle.std.specs.Prelude.{◌≡◌, map, option_map};
ghost use Rattle.std.specs.List.{find};
ghost use Rattle.std.specs.Str.{bytes_eq};
ghost use Rattle.court_writing.specs.Courts.{district_named, districts, of_district, zone_text};

use crate::zones::ZoneName;
use court_holidays::State;

/// A district court.
#[derive(Clone, Copy, Debug)]
pub struct CourtName {
    /// The name by which it is asked for, as `new_york_southern`.
    pub code: &'static str,
    /// Its title, as `Southern District of New York`.
    pub title: &'static str,
    /// The state in which it is.
    pub state: State,
    /// The zone of its clock.
    pub zone: ZoneName,
    /// Where in the district there is another clock.
    pub(crate) elsewhere: Elsewhere,
}

/// Where in a court's district there is another clock, and its zone.
#[derive(Clone, Copy, Debug)]
pub(crate) enum Elsewhere {
    /// Nowhere.
    Nowhere,
    /// In a city in which the court sits.
    Sits(&'static str, ZoneName),
    /// In counties in which it doesn't sit.
    Counties(&'static str, ZoneName),
}

/// A line of the table of courts.
macro_rules! court {
    ($code:literal: $title:literal, $state:ident, $zone:ident) => {
        CourtName {
            code: $code,
            title: $title,
            state: State::$state,
            zone: ZoneName::$zone,
            elsewhere: Elsewhere::Nowhere,
        }
    };
    ($code:literal: $title:literal, $state:ident, $zone:ident, $kind:ident $place:literal $other:ident) => {
        CourtName {
            code: $code,
            title: $title,
            state: State::$state,
            zone: ZoneName::$zone,
            elsewhere: Elsewhere::$kind($place, ZoneName::$other),
        }
    };
}

/// The courts, by their codes.
static COURTS: [CourtName; 94] = [
    court!("alabama_middle": "Middle District of Alabama", Alabama, Central),
    court!("alabama_northern": "Northern District of Alabama", Alabama, Central),
    court!("alabama_southern": "Southern District of Alabama", Alabama, Central),
    court!("alaska": "District of Alaska", Alaska, Alaska),
    court!("arizona": "District of Arizona", Arizona, Arizona),
    court!("arkansas_eastern": "Eastern District of Arkansas", Arkansas, Central),
    court!("arkansas_western": "Western District of Arkansas", Arkansas, Central),
    court!("california_central": "Central District of California", California, Pacific),
    court!("california_eastern": "Eastern District of California", California, Pacific),
    court!("california_northern": "Northern District of California", California, Pacific),
    court!("california_southern": "Southern District of California", California, Pacific),
    court!("colorado": "District of Colorado", Colorado, Mountain),
    court!("connecticut": "District of Connecticut", Connecticut, Eastern),
    court!("delaware": "District of Delaware", Delaware, Eastern),
    court!("district_of_columbia": "District of Columbia", DistrictOfColumbia, Eastern),
    court!("florida_middle": "Middle District of Florida", Florida, Eastern),
    court!("florida_northern": "Northern District of Florida", Florida, Eastern, Sits "Pensacola or Panama City" Central),
    court!("florida_southern": "Southern District of Florida", Florida, Eastern),
    court!("georgia_middle": "Middle District of Georgia", Georgia, Eastern),
    court!("georgia_northern": "Northern District of Georgia", Georgia, Eastern),
    court!("georgia_southern": "Southern District of Georgia", Georgia, Eastern),
    court!("guam": "District of Guam", Guam, Chamorro),
    court!("hawaii": "District of Hawaii", Hawaii, Hawaii),
    court!("idaho": "District of Idaho", Idaho, Mountain, Sits "Coeur d'Alene or Moscow" Pacific),
    court!("illinois_central": "Central District of Illinois", Illinois, Central),
    court!("illinois_northern": "Northern District of Illinois", Illinois, Central),
    court!("illinois_southern": "Southern District of Illinois", Illinois, Central),
    court!("indiana_northern": "Northern District of Indiana", Indiana, Eastern, Sits "Hammond" Central),
    court!("indiana_southern": "Southern District of Indiana", Indiana, Eastern, Sits "Evansville" Central),
    court!("iowa_northern": "Northern District of Iowa", Iowa, Central),
    court!("iowa_southern": "Southern District of Iowa", Iowa, Central),
    court!("kansas": "District of Kansas", Kansas, Central, Counties "four counties at Colorado's border" Mountain),
    court!("kentucky_eastern": "Eastern District of Kentucky", Kentucky, Eastern),
    court!("kentucky_western": "Western District of Kentucky", Kentucky, Eastern, Sits "Bowling Green, Owensboro or Paducah" Central),
    court!("louisiana_eastern": "Eastern District of Louisiana", Louisiana, Central),
    court!("louisiana_middle": "Middle District of Louisiana", Louisiana, Central),
    court!("louisiana_western": "Western District of Louisiana", Louisiana, Central),
    court!("maine": "District of Maine", Maine, Eastern),
    court!("maryland": "District of Maryland", Maryland, Eastern),
    court!("massachusetts": "District of Massachusetts", Massachusetts, Eastern),
    court!("michigan_eastern": "Eastern District of Michigan", Michigan, Eastern),
    court!("michigan_western": "Western District of Michigan", Michigan, Eastern, Counties "four counties at Wisconsin's border" Central),
    court!("minnesota": "District of Minnesota", Minnesota, Central),
    court!("mississippi_northern": "Northern District of Mississippi", Mississippi, Central),
    court!("mississippi_southern": "Southern District of Mississippi", Mississippi, Central),
    court!("missouri_eastern": "Eastern District of Missouri", Missouri, Central),
    court!("missouri_western": "Western District of Missouri", Missouri, Central),
    court!("montana": "District of Montana", Montana, Mountain),
    court!("nebraska": "District of Nebraska", Nebraska, Central, Counties "counties in the west" Mountain),
    court!("nevada": "District of Nevada", Nevada, Pacific),
    court!("new_hampshire": "District of New Hampshire", NewHampshire, Eastern),
    court!("new_jersey": "District of New Jersey", NewJersey, Eastern),
    court!("new_mexico": "District of New Mexico", NewMexico, Mountain),
    court!("new_york_eastern": "Eastern District of New York", NewYork, Eastern),
    court!("new_york_northern": "Northern District of New York", NewYork, Eastern),
    court!("new_york_southern": "Southern District of New York", NewYork, Eastern),
    court!("new_york_western": "Western District of New York", NewYork, Eastern),
    court!("north_carolina_eastern": "Eastern District of North Carolina", NorthCarolina, Eastern),
    court!("north_carolina_middle": "Middle District of North Carolina", NorthCarolina, Eastern),
    court!("north_carolina_western": "Western District of North Carolina", NorthCarolina, Eastern),
    court!("north_dakota": "District of North Dakota", NorthDakota, Central, Counties "counties in the southwest" Mountain),
    court!("northern_mariana_islands": "District of the Northern Mariana Islands", NorthernMarianaIslands, Chamorro),
    court!("ohio_northern": "Northern District of Ohio", Ohio, Eastern),
    court!("ohio_southern": "Southern District of Ohio", Ohio, Eastern),
    court!("oklahoma_eastern": "Eastern District of Oklahoma", Oklahoma, Central),
    court!("oklahoma_northern": "Northern District of Oklahoma", Oklahoma, Central),
    court!("oklahoma_western": "Western District of Oklahoma", Oklahoma, Central),
    court!("oregon": "District of Oregon", Oregon, Pacific, Counties "most of Malheur County" Mountain),
    court!("pennsylvania_eastern": "Eastern District of Pennsylvania", Pennsylvania, Eastern),
    court!("pennsylvania_middle": "Middle District of Pennsylvania", Pennsylvania, Eastern),
    court!("pennsylvania_western": "Western District of Pennsylvania", Pennsylvania, Eastern),
    court!("puerto_rico": "District of Puerto Rico", PuertoRico, Atlantic),
    court!("rhode_island": "District of Rhode Island", RhodeIsland, Eastern),
    court!("south_carolina": "District of South Carolina", SouthCarolina, Eastern),
    court!("south_dakota": "District of South Dakota", SouthDakota, Central, Sits "Rapid City" Mountain),
    court!("tennessee_eastern": "Eastern District of Tennessee", Tennessee, Eastern, Sits "Winchester" Central),
    court!("tennessee_middle": "Middle District of Tennessee", Tennessee, Central),
    court!("tennessee_western": "Western District of Tennessee", Tennessee, Central),
    court!("texas_eastern": "Eastern District of Texas", Texas, Central),
    court!("texas_northern": "Northern District of Texas", Texas, Central),
    court!("texas_southern": "Southern District of Texas", Texas, Central),
    court!("texas_western": "Western District of Texas", Texas, Central, Sits "El Paso" Mountain),
    court!("utah": "District of Utah", Utah, Mountain),
    court!("vermont": "District of Vermont", Vermont, Eastern),
    court!("virgin_islands": "District of the Virgin Islands", VirginIslands, Atlantic),
    court!("virginia_eastern": "Eastern District of Virginia", Virginia, Eastern),
    court!("virginia_western": "Western District of Virginia", Virginia, Eastern),
    court!("washington_eastern": "Eastern District of Washington", Washington, Pacific),
    court!("washington_western": "Western District of Washington", Washington, Pacific),
    court!("west_virginia_northern": "Northern District of West Virginia", WestVirginia, Eastern),
    court!("west_virginia_southern": "Southern District of West Virginia", WestVirginia, Eastern),
    court!("wisconsin_eastern": "Eastern District of Wisconsin", Wisconsin, Central),
    court!("wisconsin_western": "Western District of Wisconsin", Wisconsin, Central),
    court!("wyoming": "District of Wyoming", Wyoming, Mountain),
];

impl CourtName {
    /// The courts whose files can be written, in the order of their codes.
    #[tactic(auto, unfolding(crate::specs::Courts::districts))]
    pub fn all() -> &'static [CourtName]
        ensures { map (λ c. of_district c.code.now c.state (zone_text c.zone)) result.now ≡ districts }
    {
        &COURTS[..]
    }

    /// The court with the code. None where there is none.
    pub fn named(code: &str) -> Option<CourtName>
        ensures { option_map (λ c. of_district c.code.now c.state (zone_text c.zone)) result ≡ district_named code.now }
    {
        CourtName::coded(code.as_bytes())
    }

    /// The same, by the bytes of the code.
    pub(crate) fn coded(code: &[u8]) -> Option<CourtName>
        ensures { option_map (λ c. of_district c.code.now c.state (zone_text c.zone)) result ≡ district_named code.now }
    {
        first_named(CourtName::all(), code)
    }
}

/// The first of the courts that has the code.
fn first_named(courts: &[CourtName], code: &[u8]) -> Option<CourtName>
    ensures { result ≡ find (λ c. bytes_eq c.code.now code.now) courts.now }
{
    courts.iter().copied().find(|court| has_code(court, code))
}

/// Whether it is the court with the code.
fn has_code(court: &CourtName, code: &[u8]) -> bool
    ensures { result ≡ bytes_eq court.now.code.now code.now }
{
    court.code.as_bytes() == code
}
