//! Deadlines, their extensions, and those that were ended.

ghost use Rattle.std.specs.Prelude.{◌≡◌, ◌<◌, ◌++◌, [], ◌∷◌, IfSome, OnOk};
ghost use Rattle.court_clock.specs.Words.{civil_of};
ghost use Rattle.report_sql.specs.Deadlines.{civil_values, deadline_row, deadline_rows, deadline_values, ending_row, ending_row_if_any, ends_values, event_time, filed_values, grant_row, grant_table, grant_values, is_paper, service_letter, service_value, started_values, suspender_value, timely_value};
ghost use Rattle.report_sql.specs.Rows.{AddsValues, null, numbered, or_null};
ghost use Rattle.report_sql.specs.Times.{day_value, instant_value};

use crate::script::Script;
use court_clock::{Clock, Day, Instant};
use docket_rows::{Ending, SheetDeadline, State};
use rule_periods::{DeadlineRow, Event, Grant};
use rule6::{Filing, Means, ServiceKind, Shown};
use std::alloc::AllocError;

/// Adds a deadline of the case, its extensions, and why it is due no more, if it was ended. `Err` says that memory ran out.
#[tactic(auto, unfolding(crate::specs::Deadlines::deadline_rows))]
pub(crate) fn push_deadline(
    out: &mut Script,
    clock: &Clock,
    case: u32,
    deadline: &SheetDeadline,
) -> Result<(), AllocError>
    ensures { OnOk result (out.new ≡ out.old ++ deadline_rows clock.now case deadline.now) }
{
    push_row(out, clock, case, deadline)?;
    push_grants(out, case, deadline.number, deadline.row.grants())?;
    push_ending_if_any(out, case, deadline.number, deadline.ended)
}

/// Adds the row of a deadline.
#[tactic(auto, unfolding(crate::specs::Deadlines::deadline_row))]
fn push_row(
    out: &mut Script,
    clock: &Clock,
    case: u32,
    deadline: &SheetDeadline,
) -> Result<(), AllocError>
    ensures { OnOk result (out.new ≡ out.old ++ deadline_row clock.now case deadline.now) }
{
    out.begin_row("deadlines", u64::from(case))?;
    push_values(out, clock, deadline)?;
    out.end_row()
}

/// Adds what is docketed of a deadline, when it ends, and whether it was met.
#[tactic(auto, using(crate::proofs::RowLemmas::more_values))]
fn push_values(out: &mut Script, clock: &Clock, deadline: &SheetDeadline) -> Result<(), AllocError>
    ensures { OnOk result (AddsValues out.old out.new (deadline_values clock.now deadline.now)) }
{
    out.number(u64::from(deadline.number))?;
    push_started(out, &deadline.row)?;
    push_ends(out, clock, &deadline.shown)?;
    push_filed(out, deadline.row.filed())?;
    push_timely(out, deadline.state)
}

/// Adds the period, from what it runs, and the kind of service.
#[tactic(auto, unfolding(crate::specs::Deadlines::started_values))]
fn push_started(out: &mut Script, row: &DeadlineRow) -> Result<(), AllocError>
    ensures { OnOk result (AddsValues out.old out.new (started_values row.now)) }
{
    let event = row.event();
    out.period(&row.period())?;
    out.day(event.day())?;
    push_event_time(out, event)?;
    out.day_if_any(row.second())?;
    push_service(out, row.service())
}

/// Adds the time of day of an event, unless it is 00:00.
fn push_event_time(out: &mut Script, event: Event) -> Result<(), AllocError>
    ensures { OnOk result (AddsValues out.old out.new (event_time event.minute ∷ [])) }
{
    match event.minute() {
        0 => out.null(),
        minute => out.minute(u32::from(minute)),
    }
}

/// Adds the kind of service, if there is one.
fn push_service(out: &mut Script, service: Option<ServiceKind>) -> Result<(), AllocError>
    ensures { OnOk result (AddsValues out.old out.new (or_null service_value service ∷ [])) }
{
    match service {
        Some(kind) => out.text(service_letter(kind)),
        None => out.null(),
    }
}

fn service_letter(kind: ServiceKind) -> &'static str
    ensures { result.now ≡ service_letter kind }
{
    match kind {
        ServiceKind::HandA => "A",
        ServiceKind::LeftB => "B",
        ServiceKind::MailC => "C",
        ServiceKind::ClerkD => "D",
        ServiceKind::ElectronicE => "E",
        ServiceKind::OtherF => "F",
    }
}

/// Adds when a deadline ends.
#[tactic(auto, unfolding(crate::specs::Deadlines::ends_values))]
fn push_ends(out: &mut Script, clock: &Clock, shown: &Shown) -> Result<(), AllocError>
    ensures { OnOk result (AddsValues out.old out.new (ends_values clock.now shown.now)) }
{
    match *shown {
        Shown::Last { day, act: _ } => push_last(out, day),
        Shown::Until(end) => push_until(out, clock, end),
        Shown::Beyond => {
            push_nulls(out)?;
            push_nulls(out)
        }
    }
}

/// Adds that there are no two values.
fn push_nulls(out: &mut Script) -> Result<(), AllocError>
    ensures { OnOk result (AddsValues out.old out.new (null ∷ null ∷ [])) }
{
    out.null()?;
    out.null()
}

/// Adds a last day.
fn push_last(out: &mut Script, day: Day) -> Result<(), AllocError>
    ensures { OnOk result (AddsValues out.old out.new (day_value day ∷ null ∷ day_value day ∷ null ∷ [])) }
{
    out.day(day)?;
    out.null()?;
    out.day(day)?;
    out.null()
}

/// Adds when hours end.
fn push_until(out: &mut Script, clock: &Clock, end: Instant) -> Result<(), AllocError>
    ensures { OnOk result (AddsValues out.old out.new (null ∷ instant_value end ∷ civil_values (civil_of clock.now.zone end))) }
{
    out.null()?;
    out.instant(end)?;
    match clock.civil_of(end) {
        Some((day, second)) => {
            out.day(day)?;
            out.second(second)
        }
        None => push_nulls(out),
    }
}

/// Adds the act that was recorded, if one was.
#[tactic(auto, unfolding(crate::specs::Deadlines::filed_values))]
fn push_filed(out: &mut Script, filed: Option<Filing>) -> Result<(), AllocError>
    requires { IfSome filed (λ f. f.minute < 1440) }
    ensures { OnOk result (AddsValues out.old out.new (filed_values filed)) }
{
    match filed {
        Some(filing) => {
            out.day(filing.day)?;
            out.minute(u32::from(filing.minute))?;
            out.truth(is_paper(filing.means))
        }
        None => {
            push_nulls(out)?;
            out.null()
        }
    }
}

fn is_paper(means: Means) -> bool
    ensures { result ≡ is_paper means }
{
    match means {
        Means::Electronic => false,
        Means::Paper => true,
    }
}

/// Adds whether the act that was recorded was in time.
fn push_timely(out: &mut Script, state: State) -> Result<(), AllocError>
    ensures { OnOk result (AddsValues out.old out.new (timely_value state ∷ [])) }
{
    match state {
        State::Timely => out.truth(true),
        State::Late => out.truth(false),
        State::Pending | State::Undecided => out.null(),
    }
}

/// Adds the extensions of a deadline, and the orders that set another end, each with its number.
fn push_grants(
    out: &mut Script,
    case: u32,
    deadline: u32,
    grants: &[Grant],
) -> Result<(), AllocError>
    ensures { OnOk result (out.new ≡ out.old ++ numbered (grant_row case deadline) 1 grants.now) }
{
    let mut place = 1u64;
    for grant in grants {
        push_grant(out, case, deadline, place, grant)?;
        place += 1;
    }
    Ok(())
}

/// Adds an extension, or an order that sets another end.
#[tactic(auto, unfolding(crate::specs::Deadlines::grant_row))]
fn push_grant(
    out: &mut Script,
    case: u32,
    deadline: u32,
    place: u64,
    grant: &Grant,
) -> Result<(), AllocError>
    ensures { OnOk result (out.new ≡ out.old ++ grant_row case deadline place grant.now) }
{
    out.begin_row(grant_table(*grant), u64::from(case))?;
    out.number(u64::from(deadline))?;
    out.number(place)?;
    push_grant_values(out, *grant)?;
    out.end_row()
}

/// The table of extensions, or that of the orders that set another end.
fn grant_table(grant: Grant) -> &'static str
    ensures { result.now ≡ grant_table grant }
{
    match grant {
        Grant::ByDays(_) | Grant::ByHours(_) | Grant::Until(_) => "grants",
        Grant::Reset(_) | Grant::ResetAt(_) => "resets",
    }
}

/// Adds how long an extension is, or which end an order sets.
fn push_grant_values(out: &mut Script, grant: Grant) -> Result<(), AllocError>
    ensures { OnOk result (AddsValues out.old out.new (grant_values grant)) }
{
    match grant {
        Grant::ByDays(days) => {
            out.number(u64::from(days))?;
            push_nulls(out)
        }
        Grant::ByHours(hours) => {
            out.null()?;
            out.number(u64::from(hours))?;
            out.null()
        }
        Grant::Until(day) => {
            push_nulls(out)?;
            out.day(day)
        }
        Grant::Reset(day) => {
            out.day(day)?;
            out.null()
        }
        Grant::ResetAt(at) => {
            out.day(at.day())?;
            out.minute(u32::from(at.minute()))
        }
    }
}

/// Adds why a deadline is due no more, if it was ended.
fn push_ending_if_any(
    out: &mut Script,
    case: u32,
    deadline: u32,
    ended: Option<Ending>,
) -> Result<(), AllocError>
    ensures { OnOk result (out.new ≡ out.old ++ ending_row_if_any case deadline ended) }
{
    match ended {
        Some(why) => push_ending(out, case, deadline, why),
        None => Ok(()),
    }
}

/// Adds why a deadline is due no more.
#[tactic(auto, unfolding(crate::specs::Deadlines::ending_row))]
fn push_ending(out: &mut Script, case: u32, deadline: u32, why: Ending) -> Result<(), AllocError>
    ensures { OnOk result (out.new ≡ out.old ++ ending_row case deadline why) }
{
    out.begin_row("endings", u64::from(case))?;
    out.number(u64::from(deadline))?;
    out.text(why.word())?;
    push_suspender(out, why.suspended_by())?;
    out.end_row()
}

/// Adds which motion suspends a deadline, where its number is known.
fn push_suspender(out: &mut Script, motion: Option<u32>) -> Result<(), AllocError>
    ensures { OnOk result (AddsValues out.old out.new (suspender_value motion ∷ [])) }
{
    match motion {
        Some(motion) => out.number(u64::from(motion)),
        None => out.null(),
    }
}
