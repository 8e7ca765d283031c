//! The day on which a holiday is observed that is on a Saturday or a Sunday.

ghost use Rattle.std.specs.Prelude.{◌≡◌};
ghost use Rattle.court_holidays.specs.Federal.Observed.{beside_weekend, law_in_place, observed_for, observed_on};

use crate::dates::{earlier, later};
use crate::federal::calendar::{holiday_on, is_kept};
use crate::federal::statute::FederalHoliday;
use court_clock::Day;

/// The day on which the holiday of the day is observed in its place: the Friday before a Saturday, and the Monday after
/// a Sunday. None for any other day, on which the holiday is observed itself, and none for Inauguration Day.
#[tactic(auto, unfolding(crate::specs::Federal::Observed::observed_for))]
pub fn observed_for(holiday: FederalHoliday, day: Day) -> Option<Day>
    ensures { result ≡ observed_for holiday day }
{
    if !is_kept(false, holiday) {
        return None;
    }
    beside_weekend(day)
}

/// The holiday that is observed on the day in the place of the day set by law, which is the Saturday after it or the
/// Sunday before. None for any other day.
#[tactic(auto, using(crate::proofs::FederalLemmas::ObservedLemmas::saturday_is_day, crate::proofs::FederalLemmas::ObservedLemmas::sunday_is_day), unfolding(crate::specs::Federal::Observed::observed_on))]
pub fn observed_on(day: Day) -> Option<FederalHoliday>
    ensures { result ≡ observed_on day }
{
    // The number's range says that the day beside the weekend is a day.
    let _number = day.number();
    match day.weekday() {
        4 => holiday_on(later(day, 1), false),
        0 => holiday_on(earlier(day, 1), false),
        _ => None,
    }
}

/// The law that has a holiday observed on the day in place of a Saturday, if it is a Friday, or else of a Sunday.
pub fn law_in_place(day: Day) -> &'static str
    ensures { result.now ≡ law_in_place day }
{
    match day.weekday() {
        4 => "5 U.S.C. 6103(b)(1)",
        _ => "Executive Order 11582",
    }
}

/// The Friday before a Saturday, and the Monday after a Sunday.
#[tactic(auto, using(crate::proofs::FederalLemmas::ObservedLemmas::friday_is_day, crate::proofs::FederalLemmas::ObservedLemmas::monday_is_day))]
fn beside_weekend(day: Day) -> Option<Day>
    ensures { result ≡ beside_weekend day }
{
    // The number's range says that the day beside the weekend is a day.
    let _number = day.number();
    match day.weekday() {
        5 => Some(earlier(day, 1)),
        6 => Some(later(day, 1)),
        _ => None,
    }
}
