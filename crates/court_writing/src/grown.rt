//! Whether a text is a court's file that goes on after another's last day, with the days of the court's lists.

ghost use Rattle.std.specs.Prelude.{◌≡◌, ◌≤◌, ℤ, ◌≤ℤ◌, pos, true, None, IfOk, Ok};
ghost use Rattle.court_days.specs.Words.{CourtFile, desk_court_in, dates_of};
ghost use Rattle.court_holidays.specs.States.Words.{on};
ghost use Rattle.court_writing.specs.Update.{IsGrown, IsKept, IsLate, was_in};

use crate::listed::{federal_on, state_on};
use crate::update::UpdateFault;
use crate::writing::last_day;
use court_clock::Day;
use court_days::{Court, Days, HolidayList};
use court_file_text::CourtFault;
use court_holidays::{State, count_through, day_at};
use std::alloc::Global;

/// Whether the text is the file with those days, up to the end of the year. `Beyond` has a day that it lists and that the court's
/// lists don't have, and `NotReadBack` says that it isn't for another reason.
pub(crate) fn check_grown(
    alloc: Global,
    state: State,
    before: &Days,
    to: u16,
    text: &[u8],
) -> Result<(), UpdateFault>
    requires first { 2016 ≤ to }
    requires last { to ≤ 2199 }
    ensures grown { IfOk result (λ _. (file : CourtFile) × (desk_court_in text.now ≡ Ok file) × IsGrown state before.now (on 12 31 (pos to)) file.days) }
    ensures late { IsLate result }
{
    let court = match Court::from_desk_bytes(alloc, text) {
        Ok(court) => court,
        Err(CourtFault::OutOfMemory) => return Err(UpdateFault::OutOfMemory),
        Err(_) => return Err(UpdateFault::NotReadBack),
    };
    let days = court.days();
    if !is_span(before, days, to) {
        return Err(UpdateFault::NotReadBack);
    }
    match first_other(state, before, days) {
        None => Ok(()),
        Some(day) if before.covered(day) => Err(UpdateFault::NotReadBack),
        Some(day) => Err(UpdateFault::Beyond(day)),
    }
}

/// Whether the days begin as the old ones did and go on to the end of the year.
fn is_span(before: &Days, days: &Days, to: u16) -> bool
    requires first { 2016 ≤ to }
    requires last { to ≤ 2199 }
    ensures from { result ≡ true → days.now.from ≡ before.now.from }
    ensures to { result ≡ true → days.now.to ≡ on 12 31 (pos to) }
{
    days.from() == before.from() && days.to() == last_day(to)
}

/// The first covered day that isn't in the lists as it has to be.
fn first_other(state: State, before: &Days, days: &Days) -> Option<Day>
    ensures { result ≡ None → (d : ℤ) → days.now.from ≤ℤ d → d ≤ℤ days.now.to → IsKept state before.now days.now d }
{
    let (first, last) = (days.from(), days.to());
    for place in 0..count_through(first, last) {
        let day = day_at(first, last, place);
        if !is_kept(state, before, days, day) {
            return Some(day);
        }
    }
    None
}

/// Whether the day is in each list as it has to be.
fn is_kept(state: State, before: &Days, days: &Days, day: Day) -> bool
    ensures { result ≡ true → IsKept state before.now days.now day }
{
    days.in_list(HolidayList::Federal, day)
        == was_in(
            before,
            HolidayList::Federal,
            day,
            federal_on(state, day).is_some(),
        )
        && days.in_list(HolidayList::State, day)
            == was_in(
                before,
                HolidayList::State,
                day,
                state_on(state, day).is_some(),
            )
}

/// Whether the list has to have a day: where the file covered it, if the list had it, and else if it's listed for the court.
fn was_in(before: &Days, list: HolidayList, day: Day, is_listed: bool) -> bool
    ensures { result ≡ was_in before.now (dates_of before.now list) day is_listed }
{
    if before.covered(day) {
        before.in_list(list, day)
    } else {
        is_listed
    }
}
