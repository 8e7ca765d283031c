//! Whether an act was done in time.

ghost use Rattle.std.specs.Prelude.{◌≡◌, ◌<◌, IfSome};
ghost use Rattle.rule6.specs.Timeliness.{day_end, is_by, is_within_the_day, is_in_time};

use court_clock::{Clock, Day, Instant};

/// What has to be done within a period.
#[derive(Clone, Copy, Debug, PartialEq, Eq)]
pub enum Act {
    /// A paper is filed with the clerk. The closing hour and access to the clerk's office count.
    Filing,
    /// A paper is served on a party. Neither counts.
    Service,
}

/// How a paper reached the clerk.
#[derive(Clone, Copy, Debug, PartialEq, Eq)]
pub enum Means {
    /// By the court's electronic filing system.
    Electronic,
    /// On paper.
    Paper,
}

/// When and how an act was done.
#[derive(Clone, Copy, Debug, PartialEq, Eq)]
pub struct Filing {
    /// The day in the court's zone.
    pub day: Day,
    /// The minute of that day, counted from midnight.
    pub minute: u16,
    /// How it was done, which counts for a filing alone.
    pub means: Means,
}

/// The end of a period.
#[derive(Clone, Copy, Debug, PartialEq, Eq)]
pub enum Shown {
    /// The last day, and the act that has to be done on it at the latest.
    Last {
        /// The last day.
        day: Day,
        /// What has to be done.
        act: Act,
    },
    /// The instant at which a period in hours ends.
    Until(Instant),
    /// The end needs a day beyond those that the court's file covers.
    Beyond,
}

/// Whether the act was done in time (Fed. R. Civ. P. 6(a)(4)): on an earlier day than the last, or on the last
/// day by the minute at which it ends, or at any minute where it ends at midnight. For a period in hours
/// the act counts at the first second of its minute, and is in time at or before the end, by either means. Nothing
/// is in time for `Beyond`.
#[tactic(auto, unfolding(crate::specs::Timeliness::is_in_time))]
pub fn is_timely(clock: &Clock, shown: &Shown, filing: Filing) -> bool
    requires { filing.minute < 1440 }
    ensures { result ≡ is_in_time clock.now shown.now filing }
{
    match *shown {
        Shown::Last { day, act } => {
            filing.day.number() < day.number()
                || (filing.day == day && is_within_the_day(clock, act, filing))
        }
        Shown::Until(end) => {
            let done = clock.instant_of(filing.day, 60 * u32::from(filing.minute));
            done.seconds() <= end.seconds()
        }
        Shown::Beyond => false,
    }
}

/// Whether an act on the last day was done in time.
fn is_within_the_day(clock: &Clock, act: Act, filing: Filing) -> bool
    ensures { result ≡ is_within_the_day clock.now act filing.means filing.minute }
{
    is_by(day_end(clock, act, filing.means), filing.minute)
}

/// Whether a minute of a day is in time where the day ends at this one, or at midnight if there is none.
fn is_by(end: Option<u16>, minute: u16) -> bool
    ensures { result ≡ is_by end minute }
{
    match end {
        Some(end) => minute <= end,
        None => true,
    }
}

/// The minute at which the last day ends for an act that is done by these means, counted from midnight; it is in time. For
/// electronic filing it is the one that a local rule sets, and for other filing the one at which the clerk's office is
/// scheduled to close (Fed. R. Civ. P. 6(a)(4)). None where the day ends at midnight.
pub fn day_end(clock: &Clock, act: Act, means: Means) -> Option<u16>
    ensures value { result ≡ day_end clock.now act means }
    ensures within_the_day { IfSome result (λ minute. minute < 1440) }
{
    match act {
        Act::Service => None,
        Act::Filing => match means {
            Means::Electronic => clock.efiling_until(),
            Means::Paper => Some(clock.closes()),
        },
    }
}
