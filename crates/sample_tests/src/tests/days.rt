//! Days whose lists grow.

use super::{court, day};
use court_clock::{Day, Direction};
use court_days::{Days, HolidayList, Outage};
use std::alloc::Global;
use std::process::Abort;
use std::test::Fail;

/// The days without access to the office on Friday, 2025-03-07.
fn shut(rt: &impl Abort, alloc: Global, days: &Days) -> Result<Days, Fail> {
    let outage = Outage::new(day(rt, "2025-03-07"), 540, 600).expect(rt, "an outage");
    Ok(days.with_outage(alloc, outage)?)
}

/// The days with Monday, 2025-03-10, in the list of the state, where it is put twice.
fn closed(rt: &impl Abort, alloc: Global, days: &Days) -> Result<Days, Fail> {
    let monday = day(rt, "2025-03-10");
    let once = days.with_holiday(alloc, HolidayList::State, monday)?;
    Ok(once.with_holiday(alloc, HolidayList::State, monday)?)
}

/// The next accessible day after Thursday, 2025-03-06, and how many outages and holidays of the state there are.
fn are(rt: &impl Abort, days: &Days, next: &str, outages: usize, dates: usize) {
    let found = days.first_accessible(day(rt, "2025-03-06"), Direction::After);
    assert!(rt; found == Some(day(rt, next)), "{next}");
    assert!(rt; days.outages().len() == outages, "{next}");
    assert!(rt; days.dates(HolidayList::State) == dates, "{next}");
}

/// What is added leaves the days and a copy of them as they were.
fn leave(rt: &impl Abort, alloc: Global, days: &Days) -> Result<(), Fail> {
    let copy = days.copy()?;
    let shut = shut(rt, alloc, days)?;
    let closed = closed(rt, alloc, &shut)?;
    are(rt, &copy, "2025-03-07", 0, 1);
    are(rt, &shut, "2025-03-10", 1, 1);
    are(rt, &closed, "2025-03-11", 1, 2);
    Ok(())
}

#[test]
fn a_change_leaves_the_older_days(rt: HostRuntime) -> Result<(), Fail> {
    let court = court(rt.alloc())?;
    leave(&rt, rt.alloc(), court.days())?;
    are(&rt, court.days(), "2025-03-07", 0, 1);
    Ok(())
}

/// The day that is that number of days after the first that is covered.
fn day_from_first(rt: &impl Abort, days: &Days, n: u16) -> Day {
    Day::new(days.from().number() + i32::from(n)).expect(rt, "a day")
}

/// The days with each of the first 4,096 in the list of the state.
fn with_many_dates(rt: &impl Abort, alloc: Global, days: &Days) -> Result<Days, Fail> {
    let mut filled = days.copy()?;
    for n in 0..4096u16 {
        let date = day_from_first(rt, days, n);
        filled = filled.with_holiday(alloc, HolidayList::State, date)?;
    }
    Ok(filled)
}

/// The days with an outage on each of the first 512.
fn with_many_outages(rt: &impl Abort, alloc: Global, days: &Days) -> Result<Days, Fail> {
    let mut filled = days.copy()?;
    for n in 0..512u16 {
        let outage = Outage::new(day_from_first(rt, days, n), 0, 1).expect(rt, "an outage");
        filled = filled.with_outage(alloc, outage)?;
    }
    Ok(filled)
}

/// The 4,097th day from Monday, 2007-01-01, on is Tuesday, 2018-03-20. The list has a date of its own.
fn fills_with_dates(rt: &impl Abort, alloc: Global, days: &Days) -> Result<(), Fail> {
    let closed = with_many_dates(rt, alloc, days)?;
    let first = days.from();
    assert!(rt; closed.dates(HolidayList::State) == 4097);
    assert!(rt; closed.roll(first, Direction::After) == Some(day(rt, "2018-03-20")));
    assert!(rt; closed.roll(first, Direction::Before) == Some(first));
    Ok(())
}

/// The 513th day from that one on is Tuesday, 2008-05-27.
fn fills_with_outages(rt: &impl Abort, alloc: Global, days: &Days) -> Result<(), Fail> {
    let shut = with_many_outages(rt, alloc, days)?;
    let found = shut.first_accessible(days.from(), Direction::Before);
    assert!(rt; found == Some(day(rt, "2008-05-27")));
    Ok(())
}

#[test]
fn lists_are_filled_one_by_one(rt: HostRuntime) -> Result<(), Fail> {
    let court = court(rt.alloc())?;
    fills_with_dates(&rt, rt.alloc(), court.days())?;
    fills_with_outages(&rt, rt.alloc(), court.days())
}
