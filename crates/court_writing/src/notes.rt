//! What is said of the lists of holidays after their sources, as lines of comments.

mod alabama_to_kentucky;
mod louisiana_to_new_york;
mod north_carolina_to_wyoming;

use court_days::HolidayList;
use court_holidays::State;

/// What is said of the list.
pub(crate) fn list_note(state: State, list: HolidayList) -> &'static str {
    match list {
        HolidayList::Federal => FEDERAL_NOTE,
        HolidayList::State => state_note(state),
    }
}

/// What is said of the federal list.
const FEDERAL_NOTE: &str = ", each on the day when it is
# observed: the Friday before, where it falls on a Saturday (5 U.S.C. 6103(b)(1)); the Monday after, where it falls on
# a Sunday (Executive Order 11582). A Saturday or a Sunday isn't listed, because a holiday changes nothing on it.
# Juneteenth is a holiday from 2021 on.
# For the court to say: days that the President or Congress declares holidays, Rule 6(a)(6)(B), aren't listed. The
# President closed the executive departments on 2018-12-05, 2018-12-24, 2019-12-24, 2020-12-24, 2024-12-24, 2025-01-09,
# 2025-12-24 and 2025-12-26; look up what came later. A court that holds such an order to declare a holiday adds the
# day here. If its clerk's office alone was closed, it enters an outage: `1,inaccessible,2025-01-09,00:00,24:00`
# extends what was to be filed on that day to the first accessible day after it, Rule 6(a)(3)(A).
";

/// What is said of the state's list.
fn state_note(state: State) -> &'static str {
    match state {
        State::Alabama => alabama_to_kentucky::ALABAMA,
        State::Alaska => alabama_to_kentucky::ALASKA,
        State::Arizona => alabama_to_kentucky::ARIZONA,
        State::Arkansas => alabama_to_kentucky::ARKANSAS,
        State::California => alabama_to_kentucky::CALIFORNIA,
        State::Colorado => alabama_to_kentucky::COLORADO,
        State::Connecticut => alabama_to_kentucky::CONNECTICUT,
        State::Delaware => alabama_to_kentucky::DELAWARE,
        State::DistrictOfColumbia => alabama_to_kentucky::DISTRICT_OF_COLUMBIA,
        State::Florida => alabama_to_kentucky::FLORIDA,
        State::Georgia => alabama_to_kentucky::GEORGIA,
        State::Guam => alabama_to_kentucky::GUAM,
        State::Hawaii => alabama_to_kentucky::HAWAII,
        State::Idaho => alabama_to_kentucky::IDAHO,
        State::Illinois => alabama_to_kentucky::ILLINOIS,
        State::Indiana => alabama_to_kentucky::INDIANA,
        State::Iowa => alabama_to_kentucky::IOWA,
        State::Kansas => alabama_to_kentucky::KANSAS,
        State::Kentucky => alabama_to_kentucky::KENTUCKY,
        State::Louisiana => louisiana_to_new_york::LOUISIANA,
        State::Maine => louisiana_to_new_york::MAINE,
        State::Maryland => louisiana_to_new_york::MARYLAND,
        State::Massachusetts => louisiana_to_new_york::MASSACHUSETTS,
        State::Michigan => louisiana_to_new_york::MICHIGAN,
        State::Minnesota => louisiana_to_new_york::MINNESOTA,
        State::Mississippi => louisiana_to_new_york::MISSISSIPPI,
        State::Missouri => louisiana_to_new_york::MISSOURI,
        State::Montana => louisiana_to_new_york::MONTANA,
        State::Nebraska => louisiana_to_new_york::NEBRASKA,
        State::Nevada => louisiana_to_new_york::NEVADA,
        State::NewHampshire => louisiana_to_new_york::NEW_HAMPSHIRE,
        State::NewJersey => louisiana_to_new_york::NEW_JERSEY,
        State::NewMexico => louisiana_to_new_york::NEW_MEXICO,
        State::NewYork => louisiana_to_new_york::NEW_YORK,
        State::NorthCarolina => north_carolina_to_wyoming::NORTH_CAROLINA,
        State::NorthDakota => north_carolina_to_wyoming::NORTH_DAKOTA,
        State::NorthernMarianaIslands => north_carolina_to_wyoming::NORTHERN_MARIANA_ISLANDS,
        State::Ohio => north_carolina_to_wyoming::OHIO,
        State::Oklahoma => north_carolina_to_wyoming::OKLAHOMA,
        State::Oregon => north_carolina_to_wyoming::OREGON,
        State::Pennsylvania => north_carolina_to_wyoming::PENNSYLVANIA,
        State::PuertoRico => north_carolina_to_wyoming::PUERTO_RICO,
        State::RhodeIsland => north_carolina_to_wyoming::RHODE_ISLAND,
        State::SouthCarolina => north_carolina_to_wyoming::SOUTH_CAROLINA,
        State::SouthDakota => north_carolina_to_wyoming::SOUTH_DAKOTA,
        State::Tennessee => north_carolina_to_wyoming::TENNESSEE,
        State::Texas => north_carolina_to_wyoming::TEXAS,
        State::Utah => north_carolina_to_wyoming::UTAH,
        State::Vermont => north_carolina_to_wyoming::VERMONT,
        State::VirginIslands => north_carolina_to_wyoming::VIRGIN_ISLANDS,
        State::Virginia => north_carolina_to_wyoming::VIRGINIA,
        State::Washington => north_carolina_to_wyoming::WASHINGTON,
        State::WestVirginia => north_carolina_to_wyoming::WEST_VIRGINIA,
        State::Wisconsin => north_carolina_to_wyoming::WISCONSIN,
        State::Wyoming => north_carolina_to_wyoming::WYOMING,
    }
}
