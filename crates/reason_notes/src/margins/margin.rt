//! By how much an act was in time or late.

ghost use Rattle.std.specs.Prelude.{◌≡◌, ◌<◌, ◌-ℤ◌, int_le, unsigned_abs, if◌then◌else◌};
ghost use Rattle.reason_notes.specs.Margins.Margin.{margin_of, on_last_day};

use court_clock::{Clock, Day, Instant};
use rule6::{Act, Filing, Shown, day_end};

/// By how much an act was in time or late.
#[derive(Clone, Copy, Debug, PartialEq, Eq)]
pub enum Margin {
    /// In time: this number of days before the last day.
    DaysEarly(u32),
    /// In time, on the last day.
    OnLastDay,
    /// Late: on the last day, this number of minutes after the minute at which it ended for the means of the act.
    AfterDayEnd(u16),
    /// Late: this number of days after the last day.
    DaysLate(u32),
    /// In time: this number of seconds before the instant at which the time ended.
    SecondsEarly(u64),
    /// Late: this number of seconds after that instant.
    SecondsLate(u64),
    /// Undecided: no covered day ends the time.
    Undecided,
}

/// By how much the act was in time or late for a deadline of which this is shown.
#[tactic(auto, unfolding(crate::specs::Margins::Margin::margin_of))]
pub fn margin_of(clock: &Clock, shown: &Shown, filing: Filing) -> Margin
    requires { filing.minute < 1440 }
    ensures { result ≡ margin_of clock.now shown.now filing }
{
    match *shown {
        Shown::Last { day, act } => by_day(clock, day, act, filing),
        Shown::Until(end) => {
            let done = clock.instant_of(filing.day, 60 * u32::from(filing.minute));
            by_seconds(done, end)
        }
        Shown::Beyond => Margin::Undecided,
    }
}

/// The margin to a last day.
#[tactic(auto, unfolding(crate::specs::Margins::Margin::margin_of))]
fn by_day(clock: &Clock, day: Day, act: Act, filing: Filing) -> Margin
    ensures { result ≡ margin_of clock.now (Shown.Last day act) filing }
{
    let (last, done) = (day.number(), filing.day.number());
    if done < last {
        return Margin::DaysEarly((last - done).unsigned_abs());
    }
    if last < done {
        return Margin::DaysLate((done - last).unsigned_abs());
    }
    on_last_day(day_end(clock, act, filing.means), filing.minute)
}

/// The margin on the last day, which ends at this minute, or at midnight where there is none.
fn on_last_day(end: Option<u16>, minute: u16) -> Margin
    ensures { result ≡ on_last_day end minute }
{
    match end {
        Some(end) if end < minute => Margin::AfterDayEnd(minute - end),
        _ => Margin::OnLastDay,
    }
}

/// The margin to an instant.
fn by_seconds(done: Instant, end: Instant) -> Margin
    ensures { result ≡ (if int_le done end then Margin.SecondsEarly (unsigned_abs (end -ℤ done)) else Margin.SecondsLate (unsigned_abs (done -ℤ end))) }
{
    let (act, last) = (done.seconds(), end.seconds());
    if act <= last {
        return Margin::SecondsEarly((last - act).unsigned_abs());
    }
    Margin::SecondsLate((act - last).unsigned_abs())
}
