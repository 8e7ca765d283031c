//! Calendars that are live side by side, and changes in place for which there is no memory.

use super::day;
use court_clock::Day;
use hearing_slots::{Booking, Calendar, Need, Panel};
use std::alloc::{AllocError, Global};
use std::process::Abort;
use std::test::Fail;

/// A booking of the case's first motion.
fn booking(case: u32, day: Day, first: u8, count: u8) -> Booking {
    Booking {
        case,
        motion: 1,
        other: 0,
        day,
        first,
        count,
        need: Need::Days(14),
        served: day,
    }
}

/// The cases, each with the first slot of its hearing.
fn told(alloc: Global, bookings: &[Booking]) -> Result<String, AllocError> {
    let mut text = String::new(alloc);
    for b in bookings {
        text.push_str(format!(in alloc; "{}@{} ", b.case, b.first)?.as_str())?;
    }
    Ok(text)
}

/// Fails unless the calendar holds just these.
fn holds(rt: &impl Abort, alloc: Global, calendar: &Calendar, want: &str) -> Result<(), Fail> {
    let text = told(alloc, calendar.all())?;
    assert!(rt; text.as_str() == want, "{text}");
    Ok(())
}

/// The calendar with the booking, which is put in place. It held what `held` says, and where there is no memory it
/// holds that still.
fn put_in(
    rt: &impl Abort,
    alloc: Global,
    calendar: Calendar,
    held: &str,
    b: Booking,
) -> Result<Calendar, Fail> {
    assert!(rt; b.count >= 1 && b.count <= 96 && b.first <= 96 - b.count);
    match calendar.conflict(b.day, b.first, b.count, Some((b.case, b.motion))) {
        Some(_) => Err(Fail::new("a clash")),
        None => match calendar.open(alloc) {
            Ok(opened) => Ok(opened.put(b)),
            Err(same) => {
                holds(rt, alloc, &same, held)?;
                Err(Fail::from(AllocError))
            }
        },
    }
}

/// A new calendar with the booking, beside the old one.
fn beside(rt: &impl Abort, alloc: Global, old: &Calendar, b: Booking) -> Result<Calendar, Fail> {
    assert!(rt; b.count >= 1 && b.count <= 96 && b.first <= 96 - b.count);
    match old.conflict(b.day, b.first, b.count, Some((b.case, b.motion))) {
        Some(_) => Err(Fail::new("a clash")),
        None => Ok(old.with(alloc, b)?),
    }
}

/// The calendar without the hearing of the case, which is taken out in place.
fn take_out(
    rt: &impl Abort,
    alloc: Global,
    calendar: Calendar,
    held: &str,
    case: u32,
) -> Result<Calendar, Fail> {
    match calendar.open(alloc) {
        Ok(opened) => Ok(opened.take_out(case, 1)),
        Err(same) => {
            holds(rt, alloc, &same, held)?;
            Err(Fail::from(AllocError))
        }
    }
}

const ONE: &str = "1@40 ";

const TWO: &str = "1@40 2@48 ";

const MOVED: &str = "2@48 1@8 ";

const THREE: &str = "3@8 1@40 2@48 ";

/// A calendar of two hearings on Monday, 2025-09-15, the later of which was put in first.
fn of_two(rt: &impl Abort, alloc: Global) -> Result<Calendar, Fail> {
    let monday = day(rt, "2025-09-15");
    let noon = put_in(rt, alloc, Calendar::empty(), "", booking(2, monday, 48, 2))?;
    let held = "2@48 ";
    put_in(rt, alloc, noon, held, booking(1, monday, 40, 4))
}

/// A copy that is changed in place leaves the calendar and its other copies as they were.
#[test]
fn a_copy_is_changed_alone(rt: HostRuntime) -> Result<(), Fail> {
    let alloc = rt.alloc();
    let shared = of_two(&rt, alloc)?.without(alloc, 7, 1)?;
    let moved = booking(1, day(&rt, "2025-09-16"), 8, 2);
    let put = put_in(&rt, alloc, shared.copy(alloc)?, TWO, moved)?;
    let taken = take_out(&rt, alloc, shared.copy(alloc)?, TWO, 2)?;
    holds(&rt, alloc, &shared, TWO)?;
    holds(&rt, alloc, &put, MOVED)?;
    holds(&rt, alloc, &taken, ONE)
}

#[test]
fn a_new_calendar_leaves_the_old_one(rt: HostRuntime) -> Result<(), Fail> {
    let alloc = rt.alloc();
    let old = of_two(&rt, alloc)?;
    let early = booking(3, day(&rt, "2025-09-15"), 8, 2);
    let new = beside(&rt, alloc, &old, early)?;
    holds(&rt, alloc, &old, TWO)?;
    holds(&rt, alloc, &new, THREE)
}

#[test]
fn an_opened_calendar_is_closed_as_it_was(rt: HostRuntime) -> Result<(), Fail> {
    let alloc = rt.alloc();
    match of_two(&rt, alloc)?.open(alloc) {
        Ok(opened) => holds(&rt, alloc, &opened.close(), TWO),
        Err(same) => holds(&rt, alloc, &same, TWO),
    }
}

#[test]
fn a_day_lists_its_bookings(rt: HostRuntime) -> Result<(), Fail> {
    let alloc = rt.alloc();
    let tuesday = booking(3, day(&rt, "2025-09-16"), 0, 96);
    let calendar = put_in(&rt, alloc, of_two(&rt, alloc)?, TWO, tuesday)?;
    let monday = calendar.on_day(alloc, day(&rt, "2025-09-15"))?;
    assert!(rt; told(alloc, monday.as_slice())?.as_str() == TWO);
    assert!(rt; monday.into_vec().len() == 2);
    Ok(())
}

#[test]
fn a_panel_has_one_to_three_judges(rt: HostRuntime) {
    for most in 0..5usize {
        let numbers = [7, 3, 7, 1];
        let panel = Panel::new(numbers.split_at(most.min(4)).0);
        assert!(rt; panel.is_some() == (1 <= most && most <= 3), "{most}");
    }
}
