//! Looking for a day that there is no cause to pass over.

ghost use Rattle.std.specs.Prelude.{◌≡◌, ◌≤ℤ◌, pos, neg_ℤ, true, false, IfSome, IfNone, IfOk};
ghost use Rattle.court_clock.specs.Words.{ClockView, IsDayNumber};
ghost use Rattle.court_days.specs.Words.{DaysView, is_covered, is_open};
ghost use Rattle.rule6.specs.Words.{next_day};
ghost use Rattle.rule_periods.specs.Words.{DeadlineRowView};
ghost use Rattle.deadline_reasons.specs.Passing.{away_from_event, for_access, day_later};
ghost use Rattle.deadline_reasons.specs.Standing.{Aim, Looking};
ghost use Rattle.deadline_reasons.specs.Inside.Leading.{LeadsOn, sought};

use crate::cause::cause_of;
use crate::reason::{Reason, push};
use court_clock::{Day, Direction};
use court_days::Days;
use std::alloc::AllocError;

/// How a day is looked for.
#[derive(Clone, Copy, Debug, PartialEq, Eq)]
pub(crate) struct Look {
    /// Whether later days or earlier ones are looked at.
    pub(crate) going: Direction,
    /// The side of the event on which the period lies whose holidays are passed over.
    pub(crate) holidays: Direction,
    /// Whether days on which the clerk's office was inaccessible are passed over too.
    pub(crate) accessible: bool,
}

/// For the last day of a period: away from its event, with the holidays of its direction.
pub(crate) fn away_from_event(direction: Direction) -> Look
    ensures { result ≡ away_from_event direction }
{
    Look {
        going: direction,
        holidays: direction,
        accessible: false,
    }
}

/// For an accessible day: among later days.
pub(crate) fn for_access(holidays: Direction) -> Look
    ensures { result ≡ for_access holidays }
{
    Look {
        going: Direction::After,
        holidays,
        accessible: true,
    }
}

/// Looks at one day after another from that number on, and adds why each is passed over. The first that isn't, or None
/// where the days that are covered end first.
pub(crate) fn look_for(
    days: &Days,
    reasons: &mut Vec<Reason>,
    start: i32,
    look: Look,
) -> Result<Option<Day>, AllocError>
    ensures found { IfOk result (λ day. IfSome day (λ d. is_open days.now look.holidays look.accessible d ≡ true)) }
    ensures leads { (clock : ClockView) (row : DeadlineRowView) (aim : Aim) → IfOk result (λ day. LeadsOn days.now clock row reasons.old.items reasons.new.items (Looking start look aim) (sought look aim day)) }
{
    let mut number = start;
    'days: while let Some(day) = covered_day(days, number) {
        let Some(cause) = cause_of(days, day, look) else {
            return Ok(Some(day));
        };
        push(reasons, Reason::PassedOver(day, cause))?;
        number = next_day(day, look.going);
    }
    push(reasons, Reason::NotCovered)?;
    Ok(None)
}

/// The day of that number, if it is covered.
pub(crate) fn covered_day(days: &Days, number: i32) -> Option<Day>
    ensures some { IfSome result (λ day. (day ≡ number) × (is_covered days.now number ≡ true)) }
    ensures none { IfNone result (is_covered days.now number ≡ false) }
{
    if number < days.from().number() || days.to().number() < number {
        return None;
    }
    Day::new(number)
}

/// The number of the day that comes next.
fn next_day(day: Day, going: Direction) -> i32
    ensures { result ≡ next_day going day }
{
    match going {
        Direction::After => day.number() + 1,
        Direction::Before => day.number() - 1,
    }
}

/// The number of the first covered day later than this one, or of one after the span where there is none.
pub(crate) fn day_later(days: &Days, day: Day) -> i32
    ensures { result ≡ day_later days.now day }
{
    let next = day.number() + 1;
    let first = days.from().number();
    if next <= first { first } else { next }
}
