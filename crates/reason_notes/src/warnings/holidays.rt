//! Whether the court's file goes on to list holidays of the United States.

ghost use Rattle.std.specs.Prelude.{◌≡◌, ◌+ℤ◌, ◌≤ℤ◌, pos, true, is_none, IfNone, IfSome};
ghost use Rattle.court_days.specs.Words.{earliest_day, is_among, is_covered};
ghost use Rattle.reason_notes.specs.Warnings.Holidays.{lists_no_more};

use court_clock::Day;
use court_days::{Days, HolidayList};

/// Whether the day is covered, and no covered day of the federal list is at it or after it.
#[tactic(auto, unfolding(crate::specs::Warnings::Holidays::lists_no_more))]
pub(crate) fn lists_no_more(days: &Days, day: Day) -> bool
    ensures { result ≡ lists_no_more days.now day }
{
    days.covered(day) && lists_none_from(days, day)
}

/// Whether no covered day of the federal list is at that covered day or after it.
#[tactic(auto, using(court_days::proofs::CallerLemmas::earliest_skips, court_days::proofs::CallerLemmas::earliest_finds, crate::proofs::WarningsLemmas::HolidayLemmas::earliest_stops))]
fn lists_none_from(days: &Days, start: Day) -> bool
    requires { is_covered days.now start ≡ true }
    ensures { result ≡ is_none (earliest_day days.now (is_among days.now.federal) start) }
{
    let mut current = start;
    'days: while !days.in_list(HolidayList::Federal, current) {
        match day_after(days, current) {
            Some(next) => current = next,
            None => return true,
        }
    }
    false
}

/// The covered day after a covered day, if there is one.
fn day_after(days: &Days, day: Day) -> Option<Day>
    ensures some { IfSome result (λ d. (d ≡ day +ℤ pos 1) × (d ≤ℤ days.now.to)) }
    ensures none { IfNone result (days.now.to ≤ℤ day) }
{
    if day.number() >= days.to().number() {
        return None;
    }
    Day::new(day.number() + 1)
}
