//! Whether a period can start.

ghost use Rattle.std.specs.Prelude.{◌≡◌, true, OnOk};
ghost use Rattle.std.specs.Result.{result_err};
ghost use Rattle.rule_periods.specs.Period.{suits, has_length, is_kind_for, is_kind_for_entered};
ghost use Rattle.rule_periods.specs.Start.{start_refusal, is_covered_if_given};

use crate::event::Event;
use crate::period::{Entered, Length, Period};
use crate::refusal::PeriodRefusal;
use crate::rule::ServiceRule;
use court_clock::{Day, Direction};
use court_days::Days;
use rule6::ServiceKind;

/// Whether a deadline of that period can start with the event. The first refusal that applies: `BadDay` where the
/// event's day or the second day isn't covered, `WrongService` where the kind of service or the second day doesn't
/// suit the period, and `BadLength` where an entered length is out of its range: 1 to 3,650 days or 1 to 8,760 hours.
#[tactic(auto, unfolding(crate::specs::Start::start_refusal))]
pub fn check_start(
    days: &Days,
    period: &Period,
    event: Event,
    second: Option<Day>,
    service: Option<ServiceKind>,
) -> Result<(), PeriodRefusal>
    ensures refusal { result_err result ≡ start_refusal days.now period.now event second service }
    // A deadline of this period requires these.
    ensures suits { OnOk result (suits period.now second service ≡ true) }
    ensures length { OnOk result (has_length period.now ≡ true) }
{
    if !(days.covered(event.day()) && is_covered_if_given(days, second)) {
        return Err(PeriodRefusal::BadDay);
    }
    if !suits(period, second, service) {
        return Err(PeriodRefusal::WrongService);
    }
    if !has_length(period) {
        return Err(PeriodRefusal::BadLength);
    }
    Ok(())
}

fn is_covered_if_given(days: &Days, day: Option<Day>) -> bool
    ensures { result ≡ is_covered_if_given days.now day }
{
    match day {
        Some(day) => days.covered(day),
        None => true,
    }
}

/// Whether the kind of service and the second day suit the period.
fn suits(period: &Period, second: Option<Day>, service: Option<ServiceKind>) -> bool
    ensures { result ≡ suits period.now second service }
{
    match *period {
        Period::Rule(rule) => {
            is_kind_for(rule.service_rule(), service) && second.is_some() == rule.takes_second_day()
        }
        Period::Entered(entered) => is_kind_for_entered(entered, service) && second.is_none(),
    }
}

fn is_kind_for(rule: ServiceRule, service: Option<ServiceKind>) -> bool
    ensures { result ≡ is_kind_for rule service }
{
    match rule {
        ServiceRule::None => service.is_none(),
        ServiceRule::Required => service.is_some(),
        ServiceRule::MayBeNoted => true,
    }
}

fn is_kind_for_entered(entered: Entered, service: Option<ServiceKind>) -> bool
    ensures { result ≡ is_kind_for_entered entered service }
{
    if !entered.served {
        return service.is_none();
    }
    service.is_some()
        && matches!(entered.direction, Direction::After)
        && matches!(entered.length, Length::Days(_))
}

/// Whether the period's length lies in its range.
fn has_length(period: &Period) -> bool
    ensures { result ≡ has_length period.now }
{
    match *period {
        Period::Rule(_) => true,
        Period::Entered(entered) => match entered.length {
            Length::Days(n) => 1 <= n && n <= 3_650,
            Length::Hours(h) => 1 <= h && h <= 8_760,
            Length::ToDay | Length::ToTime => true,
        },
    }
}
