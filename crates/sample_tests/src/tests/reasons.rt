//! Reasons worked by hand over the calendars of their years, and from the Committee Note of 2009 to Rule 6(a).

use super::{court, day};
use court_clock::{Direction, Instant};
use court_days::{Court, Days, Outage};
use deadline_reasons::{Cause, Reason, derivations_end_in_what_is_shown, reasons_of};
use rule_periods::{
    DeadlineRow, Entered, Event, Grant, Length, Mark, Period, RulePeriod, check_start,
    set_ends_stay,
};
use rule6::{Act, ServiceKind};
use std::alloc::Global;
use std::process::Abort;
use std::test::Fail;

/// A period that is entered for filing, with no mark.
fn entered(length: Length, direction: Direction) -> Period {
    Period::Entered(Entered {
        length,
        direction,
        act: Act::Filing,
        served: false,
        mark: Mark::Plain,
    })
}

/// The reasons of a deadline without extensions are these.
fn has_reasons(
    rt: &impl Abort,
    alloc: Global,
    court: &Court,
    days: &Days,
    period: Period,
    event: Event,
    service: Option<ServiceKind>,
    wanted: &[Reason],
) -> Result<(), Fail> {
    check_start(days, &period, event, None, service)?;
    let grants: Vec<Grant> = Vec::new(alloc);
    let row = DeadlineRow::new(period, event, None, service, grants, None);
    let reasons = reasons_of(alloc, days, court.clock(), &row)?;
    assert!(rt; reasons.as_slice() == wanted);
    Ok(())
}

#[test]
fn three_days_for_mail_are_added_after_a_weekend(rt: HostRuntime) -> Result<(), Fail> {
    derivations_end_in_what_is_shown();
    let court = court(rt.alloc())?;
    has_reasons(
        &rt,
        rt.alloc(),
        &court,
        court.days(),
        Period::Rule(RulePeriod::Rule12a1B),
        Event::new(day(&rt, "2025-06-07"), 0),
        Some(ServiceKind::MailC),
        &[
            Reason::Excluded(day(&rt, "2025-06-07")),
            Reason::Counted(21, day(&rt, "2025-06-28")),
            Reason::PassedOver(day(&rt, "2025-06-28"), Cause::Saturday),
            Reason::PassedOver(day(&rt, "2025-06-29"), Cause::Sunday),
            Reason::RunsTo(day(&rt, "2025-06-30")),
            Reason::ThreeAdded(ServiceKind::MailC),
            Reason::Counted(3, day(&rt, "2025-07-03")),
            Reason::RunsTo(day(&rt, "2025-07-03")),
            Reason::UntilMidnight(day(&rt, "2025-07-03")),
        ],
    )
}

#[test]
fn an_outage_moves_a_backward_period_forward(rt: HostRuntime) -> Result<(), Fail> {
    let court = court(rt.alloc())?;
    let outage = Outage::new(day(&rt, "2007-08-31"), 540, 600).expect(&rt, "an outage");
    let days = court.days().with_outage(rt.alloc(), outage)?;
    has_reasons(
        &rt,
        rt.alloc(),
        &court,
        &days,
        entered(Length::Days(14), Direction::Before),
        Event::new(day(&rt, "2007-09-15"), 0),
        None,
        &[
            Reason::Excluded(day(&rt, "2007-09-15")),
            Reason::Counted(14, day(&rt, "2007-09-01")),
            Reason::PassedOver(day(&rt, "2007-09-01"), Cause::Saturday),
            Reason::RunsTo(day(&rt, "2007-08-31")),
            Reason::Inaccessible(outage),
            Reason::PassedOver(day(&rt, "2007-09-01"), Cause::Saturday),
            Reason::PassedOver(day(&rt, "2007-09-02"), Cause::Sunday),
            Reason::PassedOver(day(&rt, "2007-09-03"), Cause::FederalHoliday),
            Reason::RunsTo(day(&rt, "2007-09-04")),
            Reason::UntilClosing(day(&rt, "2007-09-04"), 1020, None),
        ],
    )
}

#[test]
fn hours_are_counted_over_a_change_of_the_clocks(rt: HostRuntime) -> Result<(), Fail> {
    let court = court(rt.alloc())?;
    let begins = instant(&rt, &court, "2007-11-02", 623);
    let ends = instant(&rt, &court, "2007-11-05", 563);
    has_reasons(
        &rt,
        rt.alloc(),
        &court,
        court.days(),
        entered(Length::Hours(72), Direction::After),
        Event::new(day(&rt, "2007-11-02"), 623),
        None,
        &[
            Reason::HoursFrom(begins),
            Reason::HoursCounted(72, ends, -3_600),
            Reason::EndsOn(day(&rt, "2007-11-05")),
            Reason::UntilInstant(ends),
        ],
    )
}

#[test]
fn a_saturday_that_an_order_sets_stays(rt: HostRuntime) -> Result<(), Fail> {
    set_ends_stay();
    let court = court(rt.alloc())?;
    let set = day(&rt, "2007-09-01");
    let outage = Outage::new(set, 540, 600).expect(&rt, "an outage");
    let days = court.days().with_outage(rt.alloc(), outage)?;
    has_reasons(
        &rt,
        rt.alloc(),
        &court,
        &days,
        entered(Length::ToDay, Direction::After),
        Event::new(set, 0),
        None,
        &[Reason::Set(set), Reason::UntilClosing(set, 1020, None)],
    )
}

#[test]
fn a_time_that_an_order_sets_stays(rt: HostRuntime) -> Result<(), Fail> {
    let court = court(rt.alloc())?;
    let set = day(&rt, "2007-11-04");
    let outage = Outage::new(set, 0, 1440).expect(&rt, "an outage");
    let days = court.days().with_outage(rt.alloc(), outage)?;
    // The clock shows 01:30 twice on that Sunday: the first is the time.
    let end = instant(&rt, &court, "2007-11-04", 90);
    has_reasons(
        &rt,
        rt.alloc(),
        &court,
        &days,
        entered(Length::ToTime, Direction::After),
        Event::new(set, 90),
        None,
        &[Reason::SetAt(end), Reason::UntilInstant(end)],
    )
}

/// The instant of a minute of a day.
fn instant(rt: &impl Abort, court: &Court, text: &str, minute: u32) -> Instant {
    assert!(rt; minute < 1440);
    court.clock().instant_of(day(rt, text), 60 * minute)
}
