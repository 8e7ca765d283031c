//! What a deadline says of its own counting.

ghost use Rattle.std.specs.Prelude.{◌≡◌, true, false, Some, IfSome, IfNone};
ghost use Rattle.rule_periods.specs.Words.{is_in_hours, is_length};
ghost use Rattle.deadline_reasons.specs.Row.{length_of, event_day, adds_three, needs_access, access_holidays};

use court_clock::{Day, Direction};
use rule_periods::{
    DeadlineRow, Length, Period, access_direction, act_due, certain_by, is_moved_by_access,
    kind_adds, runs_from, runs_from_service,
};
use rule6::ServiceKind;

/// How long the deadline's period is.
pub(crate) fn length(row: &DeadlineRow) -> Length
    ensures value { result ≡ length_of row.now row.now.period }
    ensures in_range { is_length result ≡ true }
{
    match row.period() {
        Period::Rule(rule) => Length::Days(rule.days(runs_from(row))),
        Period::Entered(entered) => entered.length,
    }
}

/// The day of the event, or the later of two.
pub(crate) fn event_day(row: &DeadlineRow) -> Day
    ensures { result ≡ event_day row.now row.now.period }
{
    match row.period() {
        Period::Rule(_) => runs_from(row),
        Period::Entered(_) => row.event().day(),
    }
}

/// Whether the period is in hours, so that its time is extended by hours.
pub(crate) fn in_hours(row: &DeadlineRow) -> bool
    ensures { result ≡ is_in_hours row.now.period }
{
    row.period().is_in_hours()
}

/// The kind of service that adds three days, if one does (Fed. R. Civ. P. 6(d)).
pub(crate) fn adding_kind(row: &DeadlineRow) -> Option<ServiceKind>
    ensures some { IfSome result (λ kind. (row.now.service ≡ Some kind) × (adds_three row.now row.now.period ≡ true)) }
    ensures none { IfNone result (adds_three row.now row.now.period ≡ false) }
{
    if !adds_three(row) {
        return None;
    }
    row.service()
}

/// Whether three days are added.
fn adds_three(row: &DeadlineRow) -> bool
    ensures value { result ≡ adds_three row.now row.now.period }
    ensures kind { IfNone row.now.service (result ≡ false) }
{
    let served = match row.period() {
        Period::Rule(rule) => runs_from_service(rule.service_rule()),
        Period::Entered(entered) => entered.served,
    };
    served && kind_adds(row.service(), row.event().day())
}

/// Whether it matters for the deadline that the clerk's office is accessible (Fed. R. Civ. P. 6(a)(3)).
pub(crate) fn needs_access(row: &DeadlineRow) -> bool
    ensures { result ≡ needs_access row.now }
{
    is_moved_by_access(act_due(row), certain_by(row.period(), row.grants()))
}

/// Whose holidays are passed over where an accessible day is looked for.
pub(crate) fn access_holidays(row: &DeadlineRow) -> Direction
    ensures { result ≡ access_holidays row.now }
{
    access_direction(row.period().direction(), row.grants())
}
