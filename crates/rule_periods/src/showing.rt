//! What is shown of a deadline.

ghost use Rattle.std.specs.Prelude.{◌≡◌, Some};
ghost use Rattle.rule_periods.specs.Showing.{certain_by, access_direction, accessed, is_moved_by_access, shown_end, shown_after, shown_of};

use crate::deadline::DeadlineRow;
use crate::due::act_due;
use crate::expiry::Expiry;
use crate::extended::extended;
use crate::grant::{Grant, is_certain};
use crate::period::Period;
use court_clock::{Clock, Direction};
use court_days::Days;
use rule6::{Act, Shown, extended_for_access, extended_for_access_hours};

/// What is shown of a deadline (Fed. R. Civ. P. 6): the end of its period from its event, with the days that service
/// adds (6(d)), with its extensions in order (6(b)), and, where the act is a filing and the end is no date certain, moved
/// where the clerk's office was inaccessible (6(a)(3)). `Beyond` where no covered day qualifies.
#[tactic(auto, unfolding(crate::specs::Showing::shown_of))]
pub fn shown(days: &Days, clock: &Clock, row: &DeadlineRow) -> Shown
    ensures { result ≡ shown_of days.now clock.now row.now }
{
    let act = act_due(row);
    let certain = certain_by(row.period(), row.grants());
    let direction = access_direction(row.period().direction(), row.grants());
    let end = extended(days, clock, row);
    shown_after(days, clock, act, certain, direction, end)
}

/// What is shown of an end after extensions, which may be a date certain. `direction` says whose holidays count where the
/// clerk's office was inaccessible.
#[tactic(auto, unfolding(crate::specs::Showing::shown_after))]
pub(crate) fn shown_after(
    days: &Days,
    clock: &Clock,
    act: Act,
    certain: bool,
    direction: Direction,
    end: Option<Expiry>,
) -> Shown
    ensures { result ≡ shown_after days.now clock.now act certain direction end }
{
    let end = match end {
        Some(end) => end,
        None => return Shown::Beyond,
    };
    if is_moved_by_access(act, certain) {
        shown_end(act, accessed(days, clock, direction, end))
    } else {
        shown_end(act, Some(end))
    }
}

fn shown_end(act: Act, end: Option<Expiry>) -> Shown
    ensures { result ≡ shown_end act end }
{
    match end {
        None => Shown::Beyond,
        Some(end) => end_as_shown(act, end),
    }
}

fn end_as_shown(act: Act, end: Expiry) -> Shown
    ensures { result ≡ shown_end act (Some end) }
{
    match end {
        Expiry::OnDay(day) => Shown::Last { day, act },
        Expiry::AtInstant(instant) => Shown::Until(instant),
    }
}

/// The end, moved where the clerk's office was inaccessible.
fn accessed(days: &Days, clock: &Clock, direction: Direction, end: Expiry) -> Option<Expiry>
    ensures { result ≡ accessed days.now clock.now direction end }
{
    match end {
        Expiry::OnDay(last) => {
            let day = extended_for_access(days, last, direction)?;
            Some(Expiry::OnDay(day))
        }
        Expiry::AtInstant(end) => {
            let instant = extended_for_access_hours(days, clock, end, direction)?;
            Some(Expiry::AtInstant(instant))
        }
    }
}

/// Whether inaccessibility moves the end: of the time for filing, unless it is a date certain.
pub fn is_moved_by_access(act: Act, certain: bool) -> bool
    ensures { result ≡ is_moved_by_access act certain }
{
    match act {
        Act::Filing => !certain,
        Act::Service => false,
    }
}

/// Whether the end is a date certain: the last extension is to one, or there is none and an order set the end.
pub fn certain_by(period: Period, grants: &[Grant]) -> bool
    ensures { result ≡ certain_by period grants.now }
{
    match grants.last() {
        Some(grant) => is_certain(grant),
        None => period.is_set(),
    }
}

/// Whose holidays count for access: the period's, or, once an extension was granted, those of a period after an event.
pub fn access_direction(direction: Direction, grants: &[Grant]) -> Direction
    ensures { result ≡ access_direction direction grants.now }
{
    if grants.is_empty() {
        direction
    } else {
        Direction::After
    }
}
