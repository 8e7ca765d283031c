//! When the time of a deadline ends with its extensions.

ghost use Rattle.std.specs.Prelude.{◌≡◌, true};
ghost use Rattle.std.specs.List.{list_all};
ghost use Rattle.rule_periods.specs.Extended.{extended_of, granted_if_it_fits, by_days, by_hours};
ghost use Rattle.rule_periods.specs.Grant.{is_grant_length};
ghost use Rattle.rule_periods.specs.Period.{is_in_hours};

use crate::base::base;
use crate::deadline::DeadlineRow;
use crate::expiry::Expiry;
use crate::grant::{Grant, grant_fits};
use court_clock::{Clock, Day, Direction};
use court_days::Days;
use rule6::{end_of_hours, last_day};

/// The end with every extension in turn.
#[tactic(auto, unfolding(crate::specs::Extended::extended_of))]
pub(crate) fn extended(days: &Days, clock: &Clock, row: &DeadlineRow) -> Option<Expiry>
    ensures { result ≡ extended_of days.now clock.now row.now }
{
    let hours = row.period().is_in_hours();
    let mut end = base(days, clock, row);
    for grant in row.grants() {
        end = granted(days, clock, hours, end, *grant);
    }
    end
}

/// The end after one more extension. None where the extension isn't of the period's kind, or no covered day
/// qualifies.
pub(crate) fn granted(
    days: &Days,
    clock: &Clock,
    hours: bool,
    end: Option<Expiry>,
    grant: Grant,
) -> Option<Expiry>
    requires { is_grant_length grant ≡ true }
    ensures { result ≡ granted_if_it_fits days.now clock.now hours end grant }
{
    if !grant_fits(hours, grant) {
        return None;
    }
    match grant {
        Grant::ByDays(n) => by_days(days, end?, n),
        Grant::ByHours(h) => by_hours(days, clock, end?, h),
        Grant::Until(day) => Some(Expiry::OnDay(day)),
        Grant::Reset(day) => Some(Expiry::OnDay(day)),
        Grant::ResetAt(at) => {
            let end = clock.instant_of(at.day(), 60 * u32::from(at.minute()));
            Some(Expiry::AtInstant(end))
        }
    }
}

/// The end of an extension by days, counted from a last day and rolled forward.
#[tactic(auto, unfolding(rule6::specs::Days::last_day_of))]
fn by_days(days: &Days, end: Expiry, n: u32) -> Option<Expiry>
    requires { is_grant_length (Grant.ByDays n) ≡ true }
    ensures { result ≡ by_days days.now n end }
{
    match end {
        Expiry::OnDay(last) => {
            let rolled = last_day(days, last, n, Direction::After, false)?;
            Some(Expiry::OnDay(rolled))
        }
        Expiry::AtInstant(_) => None,
    }
}

/// The end of an extension by hours, counted from an instant.
fn by_hours(days: &Days, clock: &Clock, end: Expiry, h: u32) -> Option<Expiry>
    requires { is_grant_length (Grant.ByHours h) ≡ true }
    ensures { result ≡ by_hours days.now clock.now h end }
{
    match end {
        Expiry::OnDay(_) => None,
        Expiry::AtInstant(instant) => {
            let later = end_of_hours(days, clock, instant, h, Direction::After)?;
            Some(Expiry::AtInstant(later))
        }
    }
}
