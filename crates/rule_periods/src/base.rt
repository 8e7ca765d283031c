//! When the time of a deadline ends before any extension.

ghost use Rattle.std.specs.Prelude.{◌≡◌, true, IsTrue};
ghost use Rattle.rule_periods.specs.Base.{base_of, end_of_rule, end_of_length, later_event, kind_adds, runs_from_service};
ghost use Rattle.rule_periods.specs.Period.{is_length};

use crate::deadline::DeadlineRow;
use crate::event::Event;
use crate::expiry::Expiry;
use crate::period::{Length, Period};
use crate::rule::{RulePeriod, ServiceRule};
use court_clock::{Clock, Day, Direction};
use court_days::Days;
use rule6::{ServiceKind, adds_three, end_of_hours, last_day};

/// The end of the row's period, before any extension. None where no covered day qualifies.
#[tactic(auto, unfolding(crate::specs::Base::base_of_period))]
pub(crate) fn base(days: &Days, clock: &Clock, row: &DeadlineRow) -> Option<Expiry>
    ensures { result ≡ base_of days.now clock.now row.now }
{
    match row.period() {
        Period::Rule(rule) => end_of_rule(days, row, rule),
        Period::Entered(entered) => {
            let added = entered.served && kind_adds(row.service(), row.event().day());
            end_of_length(
                days,
                clock,
                row.event(),
                entered.length,
                entered.direction,
                added,
            )
        }
    }
}

/// The end of a period that the Rules set.
#[tactic(auto, unfolding(crate::specs::Base::end_of_rule))]
fn end_of_rule(days: &Days, row: &DeadlineRow, rule: RulePeriod) -> Option<Expiry>
    ensures { result ≡ end_of_rule days.now row.now rule }
{
    let served = row.event().day();
    let event = later_event(served, row.second());
    let added = runs_from_service(rule.service_rule()) && kind_adds(row.service(), served);
    let last = last_day(days, event, rule.days(event), Direction::After, added)?;
    Some(Expiry::OnDay(last))
}

/// The end of an entered length.
#[tactic(auto, unfolding(crate::specs::Base::end_of_length))]
fn end_of_length(
    days: &Days,
    clock: &Clock,
    event: Event,
    length: Length,
    direction: Direction,
    added: bool,
) -> Option<Expiry>
    requires length { is_length length ≡ true }
    requires added_after { IsTrue added → direction ≡ Direction.After }
    ensures { result ≡ end_of_length days.now clock.now event length direction added }
{
    match length {
        Length::Days(n) => {
            let last = last_day(days, event.day(), n, direction, added)?;
            Some(Expiry::OnDay(last))
        }
        Length::Hours(h) => {
            let begins = clock.instant_of(event.day(), 60 * u32::from(event.minute()));
            let end = end_of_hours(days, clock, begins, h, direction)?;
            Some(Expiry::AtInstant(end))
        }
        // A date certain, which an order sets, isn't rolled.
        Length::ToDay => Some(Expiry::OnDay(event.day())),
        Length::ToTime => {
            let end = clock.instant_of(event.day(), 60 * u32::from(event.minute()));
            Some(Expiry::AtInstant(end))
        }
    }
}

/// The event of a period that may take a second day: the later of the two.
pub fn later_event(event: Day, second: Option<Day>) -> Day
    ensures { result ≡ later_event event second }
{
    match second {
        Some(second) if event.number() <= second.number() => second,
        _ => event,
    }
}

/// Whether the kind of service that was given adds three days (Fed. R. Civ. P. 6(d)).
pub fn kind_adds(service: Option<ServiceKind>, served: Day) -> bool
    ensures { result ≡ kind_adds service served }
{
    match service {
        Some(kind) => adds_three(kind, served),
        None => false,
    }
}

/// Whether a period of the table runs from service under Rule 5(b)(2).
pub fn runs_from_service(rule: ServiceRule) -> bool
    ensures { result ≡ runs_from_service rule }
{
    matches!(rule, ServiceRule::Required)
}
