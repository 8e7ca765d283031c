//! A deadline with one thing changed.

ghost use Rattle.std.specs.Prelude.{◌≡◌, None, true, false, IfOk};
ghost use Rattle.rule_periods.specs.Words.{is_days, is_length, runs_from, suits};
ghost use Rattle.rule_periods.specs.declared.period.Period.TheVariants.{Entered as EnteredPeriod};
ghost use Rattle.reason_notes.specs.Readings.Changed.{adds_days, as_entered, before_last, counted_again, day_after, kind_kept, last_grant, started_on, with_terms, without_added};

use court_clock::{Day, Direction};
use rule_periods::{
    DeadlineRow, Entered, Event, Grant, Length, Mark, Period, act_due, kind_adds, runs_from,
    runs_from_service,
};
use rule6::{Act, ServiceKind};
use std::alloc::{AllocError, Global};

/// The period as one that is entered.
fn as_entered(row: &DeadlineRow) -> Entered
    ensures value { result ≡ as_entered row.now row.now.period }
    ensures suits { suits (EnteredPeriod result) None (kind_kept result.served row.now.service) ≡ true }
    ensures length { is_length result.length ≡ true }
{
    match row.period() {
        Period::Rule(rule) => Entered {
            length: Length::Days(rule.days(runs_from(row))),
            direction: Direction::After,
            act: act_due(row),
            served: runs_from_service(rule.service_rule()),
            mark: Mark::Plain,
        },
        Period::Entered(entered) => entered,
    }
}

/// Whether the kind of service adds days.
pub(crate) fn adds_days(row: &DeadlineRow) -> bool
    ensures { result ≡ adds_days row.now }
{
    as_entered(row).served && kind_adds(row.service(), row.event().day())
}

/// The same deadline with another act.
pub(crate) fn with_act(
    alloc: Global,
    row: &DeadlineRow,
    act: Act,
) -> Result<DeadlineRow, AllocError>
    ensures { IfOk result (λ other. other ≡ with_terms act (as_entered row.now row.now.period).served row.now) }
{
    let entered = as_entered(row);
    let kind = kind_kept(entered.served, row.service());
    remade(alloc, row, Entered { act, ..entered }, kind)
}

/// The same deadline, to file, without the days of Rule 6(d).
pub(crate) fn without_added(alloc: Global, row: &DeadlineRow) -> Result<DeadlineRow, AllocError>
    ensures { IfOk result (λ other. other ≡ without_added row.now) }
{
    let entered = Entered {
        act: Act::Filing,
        served: false,
        ..as_entered(row)
    };
    remade(alloc, row, entered, None)
}

/// A kind of service, where the period runs from service.
fn kind_kept(served: bool, kind: Option<ServiceKind>) -> Option<ServiceKind>
    ensures { result ≡ kind_kept served kind }
{
    if served { kind } else { None }
}

/// The deadline with that period, from the day from which it runs.
fn remade(
    alloc: Global,
    row: &DeadlineRow,
    entered: Entered,
    kind: Option<ServiceKind>,
) -> Result<DeadlineRow, AllocError>
    requires suits { suits (EnteredPeriod entered) None kind ≡ true }
    requires length { is_length entered.length ≡ true }
    ensures { IfOk result (λ other. other ≡ record { period = EnteredPeriod entered; event = record { day = runs_from row.now; minute = row.now.event.minute }; second = None; service = kind; grants = row.now.grants; filed = None }) }
{
    let event = Event::new(runs_from(row), row.event().minute());
    let grants = Vec::from_slice(alloc, row.grants())?;
    Ok(DeadlineRow::new(Period::Entered(entered), event, None, kind, grants, None))
}

/// This number of days after a day, to file.
pub(crate) fn counted_again(alloc: Global, day: Day, days: u32) -> DeadlineRow
    requires { is_days days ≡ true }
    ensures { result ≡ counted_again day days }
{
    let entered = Entered {
        length: Length::Days(days),
        direction: Direction::After,
        act: Act::Filing,
        served: false,
        mark: Mark::Plain,
    };
    let grants = Vec::new(alloc);
    DeadlineRow::new(
        Period::Entered(entered),
        Event::new(day, 0),
        None,
        None,
        grants,
        None,
    )
}

/// The deadline before its last extension.
#[tactic(auto, using(crate::proofs::ReadingsLemmas::GrantLemmas::all_take))]
pub(crate) fn before_last(alloc: Global, row: &DeadlineRow) -> Result<DeadlineRow, AllocError>
    ensures { IfOk result (λ other. other ≡ before_last row.now) }
{
    let mut grants = Vec::from_slice(alloc, row.grants())?;
    grants.truncate(grants.len().saturating_sub(1));
    Ok(DeadlineRow::new(
        row.period(),
        row.event(),
        row.second(),
        row.service(),
        grants,
        row.filed(),
    ))
}

/// The last extension, if there is one.
pub(crate) fn last_grant(row: &DeadlineRow) -> Option<Grant>
    ensures { result ≡ last_grant row.now }
{
    row.grants().last().copied()
}

/// The same deadline from the first minute of a day.
pub(crate) fn started_on(
    alloc: Global,
    row: &DeadlineRow,
    day: Day,
) -> Result<DeadlineRow, AllocError>
    ensures { IfOk result (λ other. other ≡ started_on day row.now) }
{
    let grants = Vec::from_slice(alloc, row.grants())?;
    Ok(DeadlineRow::new(
        row.period(),
        Event::new(day, 0),
        row.second(),
        row.service(),
        grants,
        row.filed(),
    ))
}

/// The day after a day, if it is one.
pub(crate) fn day_after(day: Day) -> Option<Day>
    ensures { result ≡ day_after day }
{
    Day::new(day.number() + 1)
}
