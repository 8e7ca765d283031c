//! The line of a case that is assigned in one docket alone, or is assigned otherwise.
ghost use Rattle.std.specs.Prelude.{OnOk};
ghost use Rattle.office_texts.specs.Words.{AddsText};
ghost use Rattle.docket_shifts.specs.Assignments.{assigned_told, assignment_shift};
ghost use Rattle.docket_shifts.specs.Closings.{told_line};

use crate::closings::push_told_line;
use case_numbers::Cases;
use court_days::Court;
use docket_rows::{Assignment, View};
use office_texts::push_assigned_text;
use std::alloc::{AllocError, Global};
use std::fmt::Write;

// Adds who has a case, or that nobody has.
fn push_told(
    text: &mut String,
    court: &Court,
    assigned: Option<Assignment>,
) -> Result<(), AllocError>
    ensures { OnOk result (AddsText text.old text.new (assigned_told court.now.judges assigned)) }
{
    match assigned {
        None => text.push_str("not assigned"),
        Some(assignment) => {
            let dated = assignment.dated;
            write!(text, "assigned {dated} to ")?;
            push_assigned_text(text, court, assignment)
        }
    }
}

// Adds the line of a case that was assigned so and now is assigned so.
fn push_both(
    alloc: Global,
    text: &mut String,
    before: &Court,
    after: &Court,
    cases: &Cases,
    case: u32,
    was: Option<Assignment>,
    is: Option<Assignment>,
) -> Result<(), AllocError>
    ensures { OnOk result (AddsText text.old text.new (told_line cases.now.named case (assigned_told before.now.judges was) (assigned_told after.now.judges is))) }
{
    let mut had = String::new(alloc);
    push_told(&mut had, before, was)?;
    let mut has = String::new(alloc);
    push_told(&mut has, after, is)?;
    push_told_line(text, cases, case, had.as_str(), has.as_str())
}

/// Adds the line of a case that is assigned otherwise by the second of two sheets, in the court as it is after, than by the first, in
/// the court as it was before, where it is open by both. `Err` says that memory ran out.
pub(crate) fn push_assignment(
    alloc: Global,
    text: &mut String,
    before: &Court,
    after: &Court,
    cases: &Cases,
    case: u32,
    was: &View,
    is: &View,
) -> Result<(), AllocError>
    ensures { OnOk result (AddsText text.old text.new (assignment_shift before.now after.now cases.now.named case was.now is.now)) }
{
    match (was, is) {
        (View::Sheet(was), View::Sheet(is)) => push_both(
            alloc,
            text,
            before,
            after,
            cases,
            case,
            was.assigned,
            is.assigned,
        ),
        _ => Ok(()),
    }
}
