//! The day and the slots of a hearing.

ghost use Rattle.std.specs.Prelude.{◌≡◌};
ghost use Rattle.docket_rows.specs.Words.{fits_day, is_court_day, is_within_hours};

use court_clock::{Clock, Day, Direction};
use court_days::Days;

/// Whether the hearing takes a slot, and none past the last of its day.
pub(crate) fn fits_day(first: u8, count: u32) -> bool
    ensures { result ≡ fits_day first count }
{
    1 <= count && u64::from(first) + u64::from(count) <= 96
}

/// Whether the court hears motions on the day.
pub fn is_court_day(days: &Days, day: Day) -> bool
    ensures { result ≡ is_court_day days.now day }
{
    days.is_permitted(day, Direction::After) && !days.has_outage(day)
}

/// Whether the hearing begins when the clerk's office is open, and ends before it closes.
pub(crate) fn is_within_hours(clock: &Clock, first: u8, count: u32) -> bool
    ensures { result ≡ is_within_hours clock.now first count }
{
    let begins = 15 * u64::from(first);
    let ends = 15 * (u64::from(first) + u64::from(count));
    u64::from(clock.opens()) <= begins && ends <= u64::from(clock.closes())
}
