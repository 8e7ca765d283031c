//! Days that are passed over.

ghost use Rattle.std.specs.Prelude.{◌≡◌, true, false, if◌then◌else◌, IfSome, IfNone};
ghost use Rattle.court_days.specs.Words.{is_covered, is_open, is_holiday, is_among};
ghost use Rattle.deadline_reasons.specs.declared.reason.Cause.TheVariants.{FederalHoliday, StateHoliday};
ghost use Rattle.deadline_reasons.specs.Passing.{IsCause, IsFirstCause};

use crate::look::Look;
use crate::reason::Cause;
use court_clock::{Day, Direction};
use court_days::{Days, HolidayList};

/// A cause to pass over the covered day, if there is one: that it is a Saturday or a Sunday, else that it is a holiday,
/// else that the clerk's office was inaccessible.
#[tactic(auto, unfolding(court_days::specs::Words::is_permitted))]
pub(crate) fn cause_of(days: &Days, day: Day, look: Look) -> Option<Cause>
    requires { is_covered days.now day ≡ true }
    ensures some { IfSome result (λ cause. IsFirstCause days.now look day cause) }
    ensures none { IfNone result (is_open days.now look.holidays look.accessible day ≡ true) }
{
    match day.weekday() {
        5 => return Some(Cause::Saturday),
        6 => return Some(Cause::Sunday),
        _ => {}
    }
    if let Some(cause) = holiday_cause(days, day, look) {
        return Some(cause);
    }
    if look.accessible && days.has_outage(day) {
        return Some(Cause::Inaccessible);
    }
    None
}

/// The holiday that the day is, if it is one.
fn holiday_cause(days: &Days, day: Day, look: Look) -> Option<Cause>
    ensures some { IfSome result (λ cause. IsCause days.now look day cause) }
    ensures first { IfSome result (λ cause. (if is_among days.now.federal day then FederalHoliday else StateHoliday) ≡ cause) }
    ensures holiday { IfSome result (λ _. is_holiday days.now look.holidays day ≡ true) }
    ensures none { IfNone result (is_holiday days.now look.holidays day ≡ false) }
{
    if days.in_list(HolidayList::Federal, day) {
        return Some(Cause::FederalHoliday);
    }
    match look.holidays {
        Direction::After if days.in_list(HolidayList::State, day) => Some(Cause::StateHoliday),
        _ => None,
    }
}
