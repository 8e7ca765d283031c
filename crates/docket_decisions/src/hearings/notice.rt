//! The notice of a hearing (Fed. R. Civ. P. 6(c)(1)).

ghost use Rattle.std.specs.Prelude.{◌≡◌};
ghost use Rattle.court_clock.specs.Words.{later_day};
ghost use Rattle.docket_rows.specs.Words.{last_service, lacks_last_service, missed_service, lacks_notice};

use crate::motions::is_notice_length;
use court_clock::Day;
use court_days::Days;
use hearing_slots::{Booking, Need};
use rule_periods::notice_day;

/// The later of two days.
pub fn later(a: Day, b: Day) -> Day
    ensures { result ≡ later_day a b }
{
    if a.number() <= b.number() { b } else { a }
}

/// The last day on which a motion that needs n days, and the notice of its hearing, can be served.
fn last_service(days: &Days, hearing: Day, n: u32) -> Option<Day>
    ensures { result ≡ last_service days.now hearing n }
{
    if is_notice_length(n) {
        notice_day(days, hearing, n)
    } else {
        None
    }
}

/// Whether the days of the court's file have no day on which a motion for that hearing could be served with its notice at the
/// latest, where it needs notice (Fed. R. Civ. P. 6(c)(1)).
pub fn lacks_last_service(days: &Days, hearing: Day, need: Need) -> bool
    ensures { result ≡ lacks_last_service days.now hearing need }
{
    match need {
        Need::ExParte => false,
        Need::Days(n) => last_service(days, hearing, n).is_none(),
    }
}

/// The last day to serve a motion and the notice of its hearing, where the later of the two was served after that day; else
/// nothing (Fed. R. Civ. P. 6(c)(1)).
pub fn missed_service(days: &Days, hearing: Day, need: Need, served: Day) -> Option<Day>
    ensures { result ≡ missed_service days.now hearing need served }
{
    let Need::Days(n) = need else {
        return None;
    };
    let latest = last_service(days, hearing, n)?;
    if latest.number() < served.number() {
        Some(latest)
    } else {
        None
    }
}

/// Whether a booked hearing lacks its notice by these days.
pub(crate) fn lacks_notice(days: &Days, booking: &Booking) -> bool
    ensures { result ≡ lacks_notice days.now booking.now }
{
    if lacks_last_service(days, booking.day, booking.need) {
        return true;
    }
    match missed_service(days, booking.day, booking.need, booking.served) {
        Some(_) => true,
        None => false,
    }
}
