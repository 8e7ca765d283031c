//! Entering a holiday.

ghost use Rattle.std.specs.Prelude.{◌≡◌, true, Some, filter, IfOk, IfErr};
ghost use Rattle.std.specs.Option.{option_map_or};
ghost use Rattle.hearing_slots.specs.Words.{all_in, bookings_seen};
ghost use Rattle.docket_rows.specs.Words.{lesser, comes_first, least, lacks_notice, all_booked, hearing_that_day, notice_lost, holiday_refusal};
ghost use Rattle.docket_decisions.specs.Inside.Holidays.{least_before, sought_test};
ghost use Rattle.docket_decisions.specs.Memory.{takes_memory};
ghost use Rattle.docket_rows.specs.declared.command.Command.TheVariants as command;

use crate::hearings::lacks_notice;
use crate::rules::DocketRules;
use crate::sight::Sight;
use court_clock::Day;
use court_days::{Days, HolidayList};
use docket_rows::{MOST_DATES, Refusal};
use hearing_slots::{Block, Booking, CalendarRef, SharedCalendar};
use std::alloc::{AllocError, Global};

/// What hearings a holiday looks for.
#[derive(Clone, Copy, Debug, PartialEq, Eq)]
pub enum Sought {
    /// Those on the day.
    OnDay(Day),
    /// Those that lack their notice.
    Unnoticed,
}

/// Whether the hearing is one of those, by these days.
fn is_sought(sought: &Sought, days: &Days, booking: &Booking) -> bool
    ensures { result ≡ sought_test sought.now days.now booking.now }
{
    match *sought {
        Sought::OnDay(day) => booking.day == day,
        Sought::Unnoticed => lacks_notice(days, booking),
    }
}

/// Whether the first is of the lesser case, or of the same case and no greater motion.
fn comes_first(a: &Booking, b: &Booking) -> bool
    ensures { result ≡ comes_first a.now b.now }
{
    a.case < b.case || (a.case == b.case && a.motion <= b.motion)
}

/// The booking, or another that comes before it.
fn lesser_of(booking: &Booking, other: Option<Booking>) -> Option<Booking>
    ensures { result ≡ Some (option_map_or (lesser booking.now) other booking.now) }
{
    match other {
        None => Some(*booking),
        Some(other) => {
            if comes_first(booking, &other) {
                Some(*booking)
            } else {
                Some(other)
            }
        }
    }
}

/// The first by case and motion of the sought bookings of a list and another booking.
fn least_in(
    bookings: &[Booking],
    sought: &Sought,
    days: &Days,
    other: Option<Booking>,
) -> Option<Booking>
    ensures { result ≡ least_before (filter (sought_test sought.now days.now) bookings.now) other }
{
    let mut least = other;
    let mut place = bookings.len();
    while place > 0 {
        place -= 1;
        let booking = &bookings[place];
        if is_sought(sought, days, booking) {
            least = lesser_of(booking, least);
        }
    }
    least
}

/// The same of the bookings of some blocks.
fn least_in_blocks(
    blocks: &[Block],
    sought: &Sought,
    days: &Days,
    other: Option<Booking>,
) -> Option<Booking>
    ensures { result ≡ least_before (filter (sought_test sought.now days.now) (all_in blocks.now)) other }
{
    match blocks {
        [] => other,
        [block, rest @ ..] => {
            let least = least_in_blocks(rest, sought, days, other);
            least_in(block.bookings(), sought, days, least)
        }
    }
}

/// The same of the bookings of a shared calendar.
fn least_in_shared(
    calendar: &SharedCalendar,
    sought: &Sought,
    days: &Days,
    other: Option<Booking>,
) -> Option<Booking>
    ensures { result ≡ least_before (filter (sought_test sought.now days.now) calendar.now) other }
{
    let (blocks, others) = calendar.parts();
    let least = least_in(others, sought, days, other);
    least_in_blocks(blocks, sought, days, least)
}

/// The same of the bookings of a calendar.
fn least_in_calendar(
    calendar: &CalendarRef<'_>,
    sought: &Sought,
    days: &Days,
    other: Option<Booking>,
) -> Option<Booking>
    ensures { result ≡ least_before (filter (sought_test sought.now days.now) (bookings_seen calendar.now)) other }
{
    match calendar {
        CalendarRef::Absent => other,
        CalendarRef::InPlace(calendar) => least_in(calendar.all(), sought, days, other),
        CalendarRef::Shared(calendar) => least_in_shared(calendar, sought, days, other),
    }
}

/// The first by case and motion of the sought hearings of all judges.
fn least_booked<S: Sight>(
    rules: &DocketRules,
    sight: &S,
    sought: &Sought,
    days: &Days,
) -> Option<Booking>
    ensures { result ≡ least (filter (sought_test sought.now days.now) (all_booked rules.now (S.parts sight.now))) }
{
    let mut least = None;
    let mut judge = rules.judges();
    while judge > 0 {
        judge -= 1;
        let calendar = sight.judge(judge);
        least = least_in_calendar(&calendar, sought, days, least);
    }
    least
}

/// The first hearing on the day, by case and motion.
fn hearing_that_day<S: Sight>(rules: &DocketRules, sight: &S, day: Day) -> Option<Booking>
    ensures { result ≡ hearing_that_day rules.now (S.parts sight.now) day }
{
    least_booked(rules, sight, &Sought::OnDay(day), sight.days())
}

/// The first hearing, by case and motion, that would lose its notice by the holiday. `Err` says that memory ran out.
fn notice_lost<S: Sight>(
    alloc: Global,
    rules: &DocketRules,
    sight: &S,
    list: HolidayList,
    day: Day,
) -> Result<Option<Booking>, AllocError>
    ensures { IfOk result (λ b. b ≡ notice_lost rules.now (S.parts sight.now) list day) }
{
    match list {
        HolidayList::State => Ok(None),
        HolidayList::Federal => {
            let days = sight.days().with_holiday(alloc, HolidayList::Federal, day)?;
            Ok(least_booked(rules, sight, &Sought::Unnoticed, &days))
        }
    }
}

/// Why the holiday can't be entered, if it can't. `Err` says that memory ran out.
#[tactic(auto, unfolding(docket_rows::specs::Words::holiday_refusal))]
pub(crate) fn holiday_refusal<S: Sight>(
    alloc: Global,
    rules: &DocketRules,
    sight: &S,
    day: Day,
    list: HolidayList,
) -> Result<Option<Refusal>, AllocError>
    ensures value { IfOk result (λ r. r ≡ holiday_refusal rules.now (S.parts sight.now) day list) }
    ensures memory { IfErr result (λ e. takes_memory (holiday_refusal rules.now (S.parts sight.now) day list) (command.Holiday day list) ≡ true) }
{
    if !sight.days().covered(day) {
        return Ok(Some(Refusal::BadDay));
    }
    if sight.days().in_list(list, day) {
        return Ok(Some(Refusal::AlreadyHoliday));
    }
    if sight.days().dates(list) >= MOST_DATES {
        return Ok(Some(Refusal::Full));
    }
    if let Some(booking) = hearing_that_day(rules, sight, day) {
        return Ok(Some(Refusal::HearingThatDay(booking.case, booking.motion)));
    }
    match notice_lost(alloc, rules, sight, list, day)? {
        Some(booking) => Ok(Some(Refusal::NoticeLost(booking.case, booking.motion))),
        None => Ok(None),
    }
}
