//! Deadlines, the instants at which they end, and notice of hearings on any day.

use super::{court, day};
use court_clock::{Clock, Day, Direction, Instant};
use court_days::{Court, Days, Outage};
use rule_periods::{
    DeadlineRow, DocketRow, Event, Grant, Period, PeriodRefusal, Request, RulePeriod, check_start,
    may_extend, notice_day, reset_ends_stay, shown,
};
use rule6::{
    Act, Filing, Means, ServiceKind, Shown, adds_three, end_of_hours, extended_for_access,
    extended_for_access_hours, is_timely, last_day,
};
use std::alloc::{AllocError, Global};
use std::process::Abort;
use std::test::Fail;

/// The days without access to the office in some minutes of a day.
fn shut(
    rt: &impl Abort,
    alloc: Global,
    days: &Days,
    on: &str,
    minutes: (u16, u16),
) -> Result<Days, Fail> {
    let outage = Outage::new(day(rt, on), minutes.0, minutes.1).expect(rt, "an outage");
    Ok(days.with_outage(alloc, outage)?)
}

/// The 28th day is Labor Day.
fn rolls_a_last_day(rt: &impl Abort, days: &Days) {
    let last = last_day(days, day(rt, "2025-08-04"), 28, Direction::After, false);
    assert!(rt; last == Some(day(rt, "2025-09-02")));
}

/// The last day is the Friday before Labor Day, and the next accessible one the Tuesday after it.
fn extends_a_last_day(rt: &impl Abort, alloc: Global, days: &Days) -> Result<(), Fail> {
    let shut = shut(rt, alloc, days, "2007-08-31", (540, 600))?;
    let extended = extended_for_access(&shut, day(rt, "2007-08-31"), Direction::Before);
    assert!(rt; extended == Some(day(rt, "2007-09-04")));
    Ok(())
}

#[test]
fn days_of_rule_6(rt: HostRuntime) -> Result<(), Fail> {
    let court = court(rt.alloc())?;
    rolls_a_last_day(&rt, court.days());
    extends_a_last_day(&rt, rt.alloc(), court.days())
}

#[test]
fn mail_adds_three_days(rt: HostRuntime) {
    let served = day(&rt, "2025-06-10");
    assert!(rt; adds_three(ServiceKind::MailC, served));
    assert!(rt; !adds_three(ServiceKind::ElectronicE, served));
}

/// The example of the Committee Note of 2009 to Rule 6(a)(2): 72 hours from Friday, 2007-11-02, at 10:23 end on Monday
/// at 09:23, since an hour came twice on Sunday.
fn counts_hours(rt: &impl Abort, days: &Days, clock: &Clock) {
    let event = clock.instant_of(day(rt, "2007-11-02"), 37_380);
    let end = end_of_hours(days, clock, event, 72, Direction::After);
    assert!(rt; end == Instant::new(1_194_272_580));
}

/// The end is 15:00 on Wednesday, 2025-03-12, and the office was inaccessible in the minute before.
fn extends_hours(rt: &impl Abort, alloc: Global, days: &Days, clock: &Clock) -> Result<(), Fail> {
    let shut = shut(rt, alloc, days, "2025-03-12", (899, 900))?;
    let end = Instant::new(1_741_806_000).expect(rt, "an instant");
    let extended = extended_for_access_hours(&shut, clock, end, Direction::After);
    assert!(rt; extended == Instant::new(1_741_892_400));
    Ok(())
}

/// Whether a paper filing at that minute of the last day is in time.
fn is_paper_timely(rt: &impl Abort, clock: &Clock, day: Day, minute: u16) -> bool {
    assert!(rt; minute < 1440);
    let shown = Shown::Last {
        day,
        act: Act::Filing,
    };
    let means = Means::Paper;
    is_timely(clock, &shown, Filing { day, minute, means })
}

#[test]
fn hours_of_rule_6(rt: HostRuntime) -> Result<(), Fail> {
    let court = court(rt.alloc())?;
    counts_hours(&rt, court.days(), court.clock());
    extends_hours(&rt, rt.alloc(), court.days(), court.clock())?;
    let last = day(&rt, "2025-09-02");
    assert!(rt; is_paper_timely(&rt, court.clock(), last, 1020));
    assert!(rt; !is_paper_timely(&rt, court.clock(), last, 1021));
    Ok(())
}

/// A deadline of 21 days from Friday, 2025-08-01, as it starts.
fn started(rt: &impl Abort, alloc: Global, days: &Days) -> Result<DocketRow, PeriodRefusal> {
    let period = Period::Rule(RulePeriod::Rule12a1Ai);
    let event = Event::new(day(rt, "2025-08-01"), 0);
    check_start(days, &period, event, None, None)?;
    Ok(DocketRow::start(alloc, period, event, None, None))
}

/// Two weeks more, which are asked for in time.
fn two_weeks(rt: &impl Abort) -> Request {
    Request {
        grant: Grant::ByDays(14),
        asked: Event::new(day(rt, "2025-08-20"), 0),
        motion: false,
        cause: true,
        neglect: false,
    }
}

/// The deadline with two weeks more.
fn extended(rt: &impl Abort, alloc: Global, court: &Court) -> Result<DocketRow, Fail> {
    let mut row = started(rt, alloc, court.days())?;
    let request = two_weeks(rt);
    may_extend(court.days(), court.clock(), row.row(), &request)?;
    row.add_grant(request.grant)?;
    Ok(row)
}

/// The deadline, which an order sets to a Saturday before its end.
fn reset(rt: &impl Abort, alloc: Global, court: &Court) -> Result<DocketRow, Fail> {
    let mut row = started(rt, alloc, court.days())?;
    let order = Request {
        grant: Grant::Reset(day(rt, "2025-08-16")),
        asked: Event::new(day(rt, "2025-08-11"), 0),
        motion: false,
        cause: false,
        neglect: false,
    };
    may_extend(court.days(), court.clock(), row.row(), &order)?;
    row.add_grant(order.grant)?;
    Ok(row)
}

#[test]
fn a_saturday_that_an_order_sets_in_place_of_the_end_stays(rt: HostRuntime) -> Result<(), Fail> {
    reset_ends_stay();
    let court = court(rt.alloc())?;
    let row = reset(&rt, rt.alloc(), &court)?;
    let day = day(&rt, "2025-08-16");
    let act = Act::Service;
    assert!(rt; shown(court.days(), court.clock(), row.row()) == Shown::Last { day, act });
    Ok(())
}

/// An act at a minute that no day has, which no row of the program's input names.
fn late_filing(rt: &impl Abort) -> Filing {
    Filing {
        day: day(rt, "2025-08-29"),
        minute: 1500,
        means: Means::Electronic,
    }
}

/// The minute of the act that was recorded.
fn minute_of(row: &DeadlineRow) -> Option<u16> {
    match row.filed() {
        Some(filing) => Some(filing.minute),
        None => None,
    }
}

/// The act is kept at the last minute of its day.
fn keeps_an_act(rt: &impl Abort, alloc: Global, court: &Court) -> Result<(), Fail> {
    let mut row = extended(rt, alloc, court)?;
    row.set_filed(late_filing(rt));
    assert!(rt; minute_of(row.row()) == Some(1439));
    Ok(())
}

/// A copy shows what the deadline does, and has its extension.
fn is_copied(rt: &impl Abort, alloc: Global, court: &Court) -> Result<(), Fail> {
    let copy = extended(rt, alloc, court)?.copy(alloc)?.into_row();
    let day = day(rt, "2025-09-05");
    let act = Act::Service;
    assert!(rt; shown(court.days(), court.clock(), &copy) == Shown::Last { day, act });
    assert!(rt; copy.into_grants().len() == 1);
    Ok(())
}

#[test]
fn rows_are_changed_in_place_and_copied(rt: HostRuntime) -> Result<(), Fail> {
    let court = court(rt.alloc())?;
    keeps_an_act(&rt, rt.alloc(), &court)?;
    is_copied(&rt, rt.alloc(), &court)
}

// A hearing, and the last day for notice of 14 days: on court days, on a Saturday and a Sunday, at the beginning of the
// calendar and after its end.
const HEARINGS: &str = "\
2025-09-15 2025-08-29
2025-09-16 2025-09-02
2025-09-20 2025-09-05
2025-09-21 2025-09-05
2025-07-03 2025-06-18
2025-04-11 2025-03-28
2007-01-15 2007-01-01
2007-01-14 none
2027-02-15 2026-12-31
";

/// No clause says these lines, so that no proof reads through them.
fn hearings() -> &'static str {
    HEARINGS
}

/// The last day for notice of 14 days, as a text.
fn noticed(alloc: Global, days: &Days, hearing: Day) -> Result<String, AllocError> {
    match notice_day(days, hearing, 14) {
        Some(last) => format!(in alloc; "{last}"),
        None => String::from_str(alloc, "none"),
    }
}

#[test]
fn notice_is_counted_back(rt: HostRuntime) -> Result<(), Fail> {
    let court = court(rt.alloc())?;
    for line in hearings().lines() {
        let (hearing, last) = line.split_once(' ').expect(&rt, "two days");
        let found = noticed(rt.alloc(), court.days(), day(&rt, hearing))?;
        assert!(rt; found.as_str() == last, "{line}");
    }
    Ok(())
}
