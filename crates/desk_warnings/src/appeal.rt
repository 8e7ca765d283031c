//! What a clerk is warned of a time for an appeal and the motions that move it, among the deadlines of a case.

ghost use Rattle.std.specs.Prelude.{◌≡◌, ◌++◌, Some, IfOk, OnOk, string_bytes};
ghost use Rattle.docket_core.specs.Words.{parts_held};
ghost use Rattle.reason_notes.specs.Warnings.Words.{moved_note};
ghost use Rattle.desk_warnings.specs.Appeal.{moved_notes, moves, moves_if_said, moves_notes, moves_words};
ghost use Rattle.desk_warnings.specs.Sheet.{deadlines_seen, sheet_deadlines};

use court_clock::Day;
use desk_numbers::MovedNumbers;
use docket_core::Docket;
use docket_rows::{Counted, Query, SheetDeadline, View};
use reason_notes::push_moved_note;
use reason_texts::push_note;
use rule_periods::DeadlineRow;
use rule6::Filing;
use std::alloc::{AllocError, Global};

/// Adds the notes on a deadline that would start in a case, for the acts of these deadlines of it.
pub(crate) fn push_moved_notes(
    text: &mut String,
    row: &DeadlineRow,
    others: &[SheetDeadline],
) -> Result<(), AllocError>
    ensures { OnOk result (string_bytes text.new ≡ string_bytes text.old ++ moved_notes row.now others.now) }
{
    for other in others {
        push_moved_note(text, row, &other.row, other.row.filed())?;
    }
    Ok(())
}

/// Adds the notes on an act of a deadline, for each deadline of the case whose time it moves.
pub(crate) fn push_moves(
    alloc: Global,
    text: &mut String,
    moved: &MovedNumbers,
    docket: &Docket,
    case: u32,
    row: &DeadlineRow,
    filing: &Filing,
) -> Result<(), AllocError>
    ensures { OnOk result (string_bytes text.new ≡ string_bytes text.old ++ moves_notes moved.now case row.now filing.now (sheet_deadlines docket.now.setup (parts_held docket.now) case)) }
{
    let view = docket.show(alloc, &Query::Sheet(case))?;
    push_moves_seen(alloc, text, moved, case, row, filing, &view)
}

/// Adds the same for the deadlines that are seen.
fn push_moves_seen(
    alloc: Global,
    text: &mut String,
    moved: &MovedNumbers,
    case: u32,
    row: &DeadlineRow,
    filing: &Filing,
    view: &View,
) -> Result<(), AllocError>
    ensures { OnOk result (string_bytes text.new ≡ string_bytes text.old ++ moves_notes moved.now case row.now filing.now (deadlines_seen view.now)) }
{
    match view {
        View::Sheet(sheet) => push_moves_notes(
            alloc,
            text,
            moved,
            case,
            row,
            filing,
            sheet.deadlines.as_slice(),
        ),
        _ => Ok(()),
    }
}

/// Adds the same for each of these deadlines.
fn push_moves_notes(
    alloc: Global,
    text: &mut String,
    moved: &MovedNumbers,
    case: u32,
    row: &DeadlineRow,
    filing: &Filing,
    others: &[SheetDeadline],
) -> Result<(), AllocError>
    ensures { OnOk result (string_bytes text.new ≡ string_bytes text.old ++ moves_notes moved.now case row.now filing.now others.now) }
{
    for other in others {
        push_moves_note(alloc, text, moved, case, row, filing, other)?;
    }
    Ok(())
}

/// Adds the same for one of them.
fn push_moves_note(
    alloc: Global,
    text: &mut String,
    moved: &MovedNumbers,
    case: u32,
    row: &DeadlineRow,
    filing: &Filing,
    other: &SheetDeadline,
) -> Result<(), AllocError>
    ensures { OnOk result (string_bytes text.new ≡ string_bytes text.old ++ moves moved.now case row.now filing.now other.now) }
{
    let said = said_there(alloc, row, filing, &other.row)?;
    let number = moved.number_at(case, Counted::Deadline, other.number);
    push_if_said(alloc, text, said.as_str(), filing.day, number)
}

/// What the memo would say of another deadline for the act.
fn said_there(
    alloc: Global,
    row: &DeadlineRow,
    filing: &Filing,
    other: &DeadlineRow,
) -> Result<String, AllocError>
    ensures { IfOk result (λ said. string_bytes said ≡ moved_note other.now row.now (Some filing.now)) }
{
    let mut said = String::new(alloc);
    push_moved_note(&mut said, other, row, Some(*filing))?;
    Ok(said)
}

/// Adds that the act moves the deadline of that number, where the memo would say so.
fn push_if_said(
    alloc: Global,
    text: &mut String,
    said: &str,
    day: Day,
    number: u32,
) -> Result<(), AllocError>
    ensures { OnOk result (string_bytes text.new ≡ string_bytes text.old ++ moves_if_said said.now day number) }
{
    if said.is_empty() {
        return Ok(());
    }
    let what = moves_words(alloc, number)?;
    push_note(text, Some(day), what.as_str(), "note")
}

/// What is said of a deadline that an act moves.
fn moves_words(alloc: Global, number: u32) -> Result<String, AllocError>
    ensures { IfOk result (λ what. string_bytes what ≡ moves_words number) }
{
    format!(in alloc; "if timely, it moves deadline {number}: FRAP 4(a)(4)")
}
