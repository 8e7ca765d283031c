//! The notes on a deadline.

ghost use Rattle.std.specs.Prelude.{◌≡◌, ◌++◌, OnOk, string_bytes};
ghost use Rattle.reason_texts.specs.Words.{course_of};
ghost use Rattle.reason_notes.specs.Warnings.Notes.{deadline_notes, event_notes, start_notes, without_holidays, without_time};

use crate::margins::end_day;
use crate::warnings::end::{push_act_notes, push_end_notes};
use crate::warnings::event::{
    push_before_filing, push_before_rule, push_far_if_open, push_second_before_filing,
};
use crate::warnings::holidays::lists_no_more;
use crate::warnings::set::push_set_notes;
use court_clock::{Clock, Day};
use court_days::Days;
use reason_texts::{Course, push_note};
use rule_periods::{DeadlineRow, runs_from};
use rule6::Shown;
use std::alloc::{AllocError, Global};

/// Adds the notes on a deadline, of which this is shown, in a case that was filed on that day, where that day counts as
/// today if one is given: those on its start, on its end and on its act. `Err` says that memory ran out.
#[tactic(auto, unfolding(crate::specs::Warnings::Notes::deadline_notes))]
pub fn push_deadline_notes(
    alloc: Global,
    text: &mut String,
    days: &Days,
    clock: &Clock,
    filed: Day,
    today: Option<Day>,
    row: &DeadlineRow,
    shown: &Shown,
) -> Result<(), AllocError>
    ensures { OnOk result (string_bytes text.new ≡ string_bytes text.old ++ deadline_notes days.now clock.now filed today row.now shown.now) }
{
    push_start_notes(alloc, text, days, clock, filed, today, row, shown)?;
    push_end_notes(text, clock, row, shown)?;
    push_act_notes(text, row)
}

/// Adds the notes on a deadline as it was started. `Err` says that memory ran out.
#[tactic(auto, unfolding(crate::specs::Warnings::Notes::start_notes))]
pub fn push_start_notes(
    alloc: Global,
    text: &mut String,
    days: &Days,
    clock: &Clock,
    filed: Day,
    today: Option<Day>,
    row: &DeadlineRow,
    shown: &Shown,
) -> Result<(), AllocError>
    ensures { OnOk result (string_bytes text.new ≡ string_bytes text.old ++ start_notes days.now clock.now filed today row.now shown.now) }
{
    if row.period().is_set() {
        push_set_notes(text, days, filed, row.event().day())
    } else {
        push_event_notes(alloc, text, days, clock, filed, today, row, shown)
    }
}

/// Adds the notes on a period as it was started: on its events, its rule and its hours, and where the court's file lists no
/// federal holiday from its end on.
#[tactic(auto, unfolding(crate::specs::Warnings::Notes::event_notes))]
fn push_event_notes(
    alloc: Global,
    text: &mut String,
    days: &Days,
    clock: &Clock,
    filed: Day,
    today: Option<Day>,
    row: &DeadlineRow,
    shown: &Shown,
) -> Result<(), AllocError>
    ensures { OnOk result (string_bytes text.new ≡ string_bytes text.old ++ event_notes days.now clock.now filed today row.now shown.now) }
{
    push_before_filing(text, filed, row.event().day())?;
    push_second_before_filing(text, filed, row.second())?;
    push_far_if_open(alloc, text, today, row)?;
    push_before_rule(text, runs_from(row), right_from(row))?;
    push_without_time(text, row)?;
    push_without_holidays(text, days, end_day(clock, shown))
}

/// The day from which the deadline's period is right as it is applied.
fn right_from(row: &DeadlineRow) -> Day
    ensures { result ≡ (course_of row.now.period).right_from }
{
    let period = row.period();
    Course::of(&period).right_from
}

/// Adds the note on hours whose event has no time of day.
fn push_without_time(text: &mut String, row: &DeadlineRow) -> Result<(), AllocError>
    ensures { OnOk result (string_bytes text.new ≡ string_bytes text.old ++ without_time row.now) }
{
    if row.period().is_in_hours() && row.event().minute() == 0 {
        push_note(
            text,
            Some(row.event().day()),
            "event at 00:00, or its time of day is missing",
            "note",
        )
    } else {
        Ok(())
    }
}

/// Adds the note on an end after the last federal holiday that is listed.
fn push_without_holidays(
    text: &mut String,
    days: &Days,
    last: Option<Day>,
) -> Result<(), AllocError>
    ensures { OnOk result (string_bytes text.new ≡ string_bytes text.old ++ without_holidays days.now last) }
{
    match last {
        Some(last) if lists_no_more(days, last) => push_note(
            text,
            Some(last),
            "no federal holiday is listed from this day on",
            "note",
        ),
        _ => Ok(()),
    }
}
