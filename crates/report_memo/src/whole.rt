//! What the whole sheet of a case says beside the reasons of its deadlines.

ghost use Rattle.std.specs.Prelude.{◌≡◌, ◌++◌, OnOk, string_bytes};
ghost use Rattle.std.specs.List.{flat_map};
ghost use Rattle.report_memo.specs.Sheets.{ahead_if_pending, more_lines, motions_text, moved_on_sheet, notes_if_set, whole_lines, whole_motion};

use crate::detail::Detail;
use court_clock::{Clock, Day};
use court_days::{Court, Days};
use docket_rows::{Ending, Sheet, SheetDeadline, SheetHearing, SheetMotion, State};
use office_texts::push_motions;
use reason_notes::{
    push_ahead, push_deadline_notes, push_hearing_notes, push_moved_note, push_recorded,
};
use report_texts::{Labels, push_labelled_motion};
use rule_periods::DeadlineRow;
use rule6::Shown;
use std::alloc::{AllocError, Global};

/// Adds what comes after the reasons of a deadline, where the whole sheet is asked for. `Err` says that memory ran out.
pub(crate) fn push_more(
    alloc: Global,
    text: &mut String,
    court: &Court,
    days: &Days,
    sheet: &Sheet,
    detail: &Detail,
    deadline: &SheetDeadline,
) -> Result<(), AllocError>
    ensures { OnOk result (string_bytes text.new ≡ string_bytes text.old ++ more_lines court.now days.now sheet.now detail.now deadline.now) }
{
    match detail {
        Detail::Reasons => Ok(()),
        Detail::Whole { today, .. } => {
            push_whole(alloc, text, court, days, sheet, today, deadline)
        }
    }
}

/// Adds the act of a deadline, how far its end lies from a day, and what a reader is warned of, also for the acts of the sheet's
/// deadlines.
fn push_whole(
    alloc: Global,
    text: &mut String,
    court: &Court,
    days: &Days,
    sheet: &Sheet,
    today: &Option<Day>,
    deadline: &SheetDeadline,
) -> Result<(), AllocError>
    ensures { OnOk result (string_bytes text.new ≡ string_bytes text.old ++ whole_lines court.now days.now sheet.now today.now deadline.now) }
{
    let (clock, row) = (court.clock(), &deadline.row);
    push_recorded(alloc, text, days, clock, Some(row))?;
    push_if_pending(
        alloc,
        text,
        clock,
        *today,
        deadline.state,
        deadline.ended,
        &deadline.shown,
    )?;
    push_deadline_notes(
        alloc,
        text,
        days,
        clock,
        sheet.filed,
        *today,
        row,
        &deadline.shown,
    )?;
    push_moved_notes(text, row, sheet.deadlines.as_slice())
}

/// Adds what a reader is warned of a deadline for the acts of these deadlines.
fn push_moved_notes(
    text: &mut String,
    row: &DeadlineRow,
    others: &[SheetDeadline],
) -> Result<(), AllocError>
    ensures { OnOk result (string_bytes text.new ≡ string_bytes text.old ++ flat_map (moved_on_sheet row.now) others.now) }
{
    for other in others {
        push_moved_note(text, row, &other.row, other.row.filed())?;
    }
    Ok(())
}

/// Adds how far the end of a deadline lies from a day, where one is given, no act is recorded, and it wasn't ended.
fn push_if_pending(
    alloc: Global,
    text: &mut String,
    clock: &Clock,
    today: Option<Day>,
    state: State,
    ended: Option<Ending>,
    shown: &Shown,
) -> Result<(), AllocError>
    ensures { OnOk result (string_bytes text.new ≡ string_bytes text.old ++ ahead_if_pending clock.now today state ended shown.now) }
{
    match (today, state, ended) {
        (Some(today), State::Pending, None) => push_ahead(alloc, text, clock, today, shown),
        _ => Ok(()),
    }
}

/// Adds the lines of all motions, and where the whole sheet is asked for those of their labels and the notes on their hearings.
pub(crate) fn push_all_motions(
    text: &mut String,
    court: &Court,
    labels: &Labels<'_>,
    case: u32,
    days: &Days,
    detail: &Detail,
    motions: &[SheetMotion],
) -> Result<(), AllocError>
    ensures { OnOk result (string_bytes text.new ≡ string_bytes text.old ++ motions_text court.now labels.now case days.now detail.now motions.now) }
{
    match detail {
        Detail::Reasons => push_motions(text, court, motions),
        Detail::Whole { .. } => push_whole_motions(text, court, labels, case, days, motions),
    }
}

/// Adds the lines of each motion and of its label, and the notes on its hearing.
fn push_whole_motions(
    text: &mut String,
    court: &Court,
    labels: &Labels<'_>,
    case: u32,
    days: &Days,
    motions: &[SheetMotion],
) -> Result<(), AllocError>
    ensures { OnOk result (string_bytes text.new ≡ string_bytes text.old ++ flat_map (whole_motion court.now labels.now case days.now) motions.now) }
{
    for motion in motions {
        push_whole_motion(text, court, labels, case, days, motion)?;
    }
    Ok(())
}

/// Adds the lines of a motion and of its label, and the notes on its hearing.
fn push_whole_motion(
    text: &mut String,
    court: &Court,
    labels: &Labels<'_>,
    case: u32,
    days: &Days,
    motion: &SheetMotion,
) -> Result<(), AllocError>
    ensures { OnOk result (string_bytes text.new ≡ string_bytes text.old ++ whole_motion court.now labels.now case days.now motion.now) }
{
    push_labelled_motion(text, court, labels, case, motion)?;
    push_notes_if_set(text, days, motion.hearing)
}

/// Adds the notes on a hearing, where one is set.
fn push_notes_if_set(
    text: &mut String,
    days: &Days,
    hearing: Option<SheetHearing>,
) -> Result<(), AllocError>
    ensures { OnOk result (string_bytes text.new ≡ string_bytes text.old ++ notes_if_set days.now hearing) }
{
    match hearing {
        Some(hearing) => push_hearing_notes(text, days, hearing.hearing.day),
        None => Ok(()),
    }
}
