//! The notes on the end of a deadline and on its act.

ghost use Rattle.std.specs.Prelude.{◌≡◌, ◌++◌, OnOk, string_bytes};
ghost use Rattle.reason_notes.specs.Warnings.Notes.{act_notes, after_event, appeal_begins, before_start, early_act, end_notes, is_of_judgment, marks_judgment, moves_appeal, notes_of_act};

use crate::margins::end_day;
use court_clock::{Clock, Day, Direction};
use reason_texts::push_note;
use rule_periods::{DeadlineRow, Mark, Period, RulePeriod, runs_from};
use rule6::{Filing, Shown};
use std::alloc::AllocError;

/// Adds the note on an end that lies after the event from which the period is counted back. `Err` says that memory ran out.
pub(crate) fn push_end_notes(
    text: &mut String,
    clock: &Clock,
    row: &DeadlineRow,
    shown: &Shown,
) -> Result<(), AllocError>
    ensures { OnOk result (string_bytes text.new ≡ string_bytes text.old ++ end_notes clock.now row.now shown.now) }
{
    let (direction, event) = (row.period().direction(), row.event().day());
    push_after_event(text, direction, event, end_day(clock, shown))
}

/// Adds the note where the period is counted back from the event, and the end lies on a later day.
fn push_after_event(
    text: &mut String,
    direction: Direction,
    event: Day,
    last: Option<Day>,
) -> Result<(), AllocError>
    ensures { OnOk result (string_bytes text.new ≡ string_bytes text.old ++ after_event direction event last) }
{
    match (direction, last) {
        (Direction::Before, Some(last)) if event.number() < last.number() => push_note(
            text,
            Some(last),
            "the end lies after the event it counts back from",
            "note",
        ),
        _ => Ok(()),
    }
}

/// Adds the notes on the act of a deadline, if one is recorded.
pub(crate) fn push_act_notes(text: &mut String, row: &DeadlineRow) -> Result<(), AllocError>
    ensures { OnOk result (string_bytes text.new ≡ string_bytes text.old ++ act_notes row.now) }
{
    push_notes_of_act(text, row.period(), runs_from(row), row.filed())
}

/// Adds the notes on an act, if there is one: that it was done before the day from which its period runs, where that is counted after
/// its event, which an act by a day that an order sets never is; and that it is a motion that gives the time for an appeal another
/// beginning (Fed. R. App. P. 4(a)(4)). `Err` says that memory ran out.
pub fn push_notes_of_act(
    text: &mut String,
    period: Period,
    start: Day,
    done: Option<Filing>,
) -> Result<(), AllocError>
    ensures { OnOk result (string_bytes text.new ≡ string_bytes text.old ++ notes_of_act period start done) }
{
    push_both(text, &period, start, &done)
}

/// Adds the two notes, where they are due.
fn push_both(
    text: &mut String,
    period: &Period,
    start: Day,
    done: &Option<Filing>,
) -> Result<(), AllocError>
    ensures { OnOk result (string_bytes text.new ≡ string_bytes text.old ++ notes_of_act period.now start done.now) }
{
    push_early_act(text, *period, start, *done)?;
    push_appeal_begins(text, *period, *done)
}

/// Adds that an act is a motion that gives the time for an appeal another beginning.
fn push_appeal_begins(
    text: &mut String,
    period: Period,
    done: Option<Filing>,
) -> Result<(), AllocError>
    ensures { OnOk result (string_bytes text.new ≡ string_bytes text.old ++ appeal_begins period done) }
{
    match done {
        Some(filing) if moves_appeal(period) => push_note(
            text,
            Some(filing.day),
            "if timely, the time to appeal moves: FRAP 4(a)(4)",
            "note",
        ),
        _ => Ok(()),
    }
}

/// Whether a motion within this period gives the time for an appeal another beginning.
pub(crate) fn moves_appeal(period: Period) -> bool
    ensures { result ≡ moves_appeal period }
{
    match period {
        Period::Rule(rule) => is_of_judgment(rule),
        Period::Entered(entered) => marks_judgment(entered.mark),
    }
}

/// Whether a period of the Rules is that of such a motion.
fn is_of_judgment(rule: RulePeriod) -> bool
    ensures { result ≡ is_of_judgment rule }
{
    matches!(rule, RulePeriod::Rule59b | RulePeriod::Rule59e)
}

/// Whether the mark of an entered period is that of such a motion.
fn marks_judgment(mark: Mark) -> bool
    ensures { result ≡ marks_judgment mark }
{
    matches!(
        mark,
        Mark::Rule50b | Mark::Rule50d | Mark::Rule52b | Mark::Rule59b | Mark::Rule59e
    )
}

/// Adds the note on an act, if there is one, that was done before the day from which its period runs, where that is counted after
/// its event. An act by a day that an order sets has none.
fn push_early_act(
    text: &mut String,
    period: Period,
    start: Day,
    done: Option<Filing>,
) -> Result<(), AllocError>
    ensures { OnOk result (string_bytes text.new ≡ string_bytes text.old ++ early_act period start done) }
{
    if period.is_set() {
        return Ok(());
    }
    push_before_start(text, period.direction(), start, done)
}

/// Adds the note on an act before the day from which a period runs that is counted after its event.
fn push_before_start(
    text: &mut String,
    direction: Direction,
    start: Day,
    done: Option<Filing>,
) -> Result<(), AllocError>
    ensures { OnOk result (string_bytes text.new ≡ string_bytes text.old ++ before_start direction start done) }
{
    match (direction, done) {
        (Direction::After, Some(filing)) if filing.day.number() < start.number() => push_note(
            text,
            Some(filing.day),
            "the act was done before its event",
            "note",
        ),
        _ => Ok(()),
    }
}
