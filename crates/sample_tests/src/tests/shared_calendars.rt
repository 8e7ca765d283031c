//! Calendars whose copies share their bookings, beside calendars that are changed in place.

use super::day;
use court_clock::Day;
use hearing_slots::{Booking, Calendar, CalendarRef, Need, SharedCalendar};
use std::alloc::{AllocError, Global};
use std::process::Abort;
use std::test::Fail;

/// How many bookings the larger calendar has: more than are held without blocks.
const MANY: u32 = 200;

/// The booking of a case, of which there are few, on a day of some three years.
fn booking(rt: &impl Abort, case: u32) -> Booking {
    let first = day(rt, "2023-01-02").number();
    assert!(rt; case < 1000);
    let on = Day::new(first + (case * 37 % 1000) as i32).expect(rt, "a day");
    Booking {
        case,
        motion: 1,
        other: 0,
        day: on,
        first: (case % 48 * 2) as u8,
        count: 2,
        need: Need::ExParte,
        served: on,
    }
}

/// Bookings, each with its case and day.
fn push_told(alloc: Global, text: &mut String, bookings: &[Booking]) -> Result<(), AllocError> {
    for b in bookings {
        let line = format!(in alloc; "{}@{} ", b.case, b.day.number())?;
        text.push_str(line.as_str())?;
    }
    Ok(())
}

/// All bookings of a shared calendar, in order.
fn told(alloc: Global, calendar: &SharedCalendar) -> Result<String, AllocError> {
    let mut text = String::new(alloc);
    let (blocks, others) = calendar.parts();
    for block in blocks {
        push_told(alloc, &mut text, block.bookings())?;
    }
    push_told(alloc, &mut text, others)?;
    Ok(text)
}

/// Fails unless both calendars hold the same.
fn same(
    rt: &impl Abort,
    alloc: Global,
    shared: &SharedCalendar,
    calendar: &Calendar,
) -> Result<(), Fail> {
    let text = told(alloc, shared)?;
    let mut want = String::new(alloc);
    push_told(alloc, &mut want, calendar.all())?;
    assert!(rt; text.as_str() == want.as_str(), "{text} and {want}");
    Ok(())
}

/// Both calendars with the booking.
fn put_in(
    rt: &impl Abort,
    alloc: Global,
    shared: &SharedCalendar,
    calendar: &Calendar,
    b: Booking,
) -> Result<(SharedCalendar, Calendar), Fail> {
    assert!(rt; b.count >= 1 && b.count <= 96 && b.first <= 96 - b.count);
    let except = Some((b.case, b.motion));
    let found = shared.conflict(b.day, b.first, b.count, except);
    assert!(rt; found == calendar.conflict(b.day, b.first, b.count, except));
    match (found, calendar.conflict(b.day, b.first, b.count, except)) {
        (None, None) => match shared.conflict(b.day, b.first, b.count, except) {
            None => Ok((shared.with(alloc, b)?, calendar.with(alloc, b)?)),
            Some(_) => Err(Fail::new("a clash")),
        },
        _ => Err(Fail::new("a clash")),
    }
}

/// Both calendars with this many bookings.
fn of_bookings(
    rt: &impl Abort,
    alloc: Global,
    count: u32,
) -> Result<(SharedCalendar, Calendar), Fail> {
    let mut both = (SharedCalendar::empty(), Calendar::empty());
    for case in 0..count {
        both = put_in(rt, alloc, &both.0, &both.1, booking(rt, case))?;
    }
    Ok(both)
}

/// Bookings that are put in, moved and taken out, in a small calendar and in a large one.
#[test]
fn a_shared_calendar_is_changed_like_another(rt: HostRuntime) -> Result<(), Fail> {
    let alloc = rt.alloc();
    for count in [20, MANY] {
        let (shared, calendar) = of_bookings(&rt, alloc, count)?;
        same(&rt, alloc, &shared, &calendar)?;
        let copy = shared.copy()?;
        // to a day of another block, and within its own
        let mut far = booking(&rt, 3);
        far.day = day(&rt, "2026-06-01");
        let (shared, calendar) = put_in(&rt, alloc, &shared, &calendar, far)?;
        let mut near = booking(&rt, 5);
        near.first = 94;
        let (shared, calendar) = put_in(&rt, alloc, &shared, &calendar, near)?;
        same(&rt, alloc, &shared, &calendar)?;
        let shared = shared.without(alloc, 7, 1)?.without(alloc, 7, 2)?;
        let calendar = calendar.without(alloc, 7, 1)?;
        same(&rt, alloc, &shared, &calendar)?;
        let (_, before) = of_bookings(&rt, alloc, count)?;
        same(&rt, alloc, &copy, &before)?;
    }
    Ok(())
}

/// A judge's day, seen in a calendar of either kind and where there is none.
#[test]
fn a_day_is_seen_in_either_calendar(rt: HostRuntime) -> Result<(), Fail> {
    let alloc = rt.alloc();
    let (shared, calendar) = of_bookings(&rt, alloc, MANY)?;
    let on = booking(&rt, 11).day;
    let one = CalendarRef::shared(Some(&shared)).on_day(alloc, on)?;
    let other = CalendarRef::in_place(Some(&calendar)).on_day(alloc, on)?;
    let none = CalendarRef::shared(None).on_day(alloc, on)?;
    assert!(&rt; one.as_slice() == other.as_slice() && one.as_slice().len() == 1);
    assert!(&rt; none.as_slice().is_empty());
    Ok(())
}
