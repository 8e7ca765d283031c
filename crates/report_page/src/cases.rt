//! The sheet of each case.

ghost use Rattle.std.specs.Prelude.{◌≡◌, ◌++◌, OnOk, string_bytes};
ghost use Rattle.std.specs.List.{flat_map};
ghost use Rattle.office_texts.specs.Words.{AddsText};
ghost use Rattle.report_page.specs.Cases.{assigned_words, case_part, case_parts, case_title, cases_part, closed_words, filed_words};

use crate::deadlines::push_deadlines;
use crate::motions::push_motions;
use case_numbers::push_case_text;
use court_clock::Day;
use court_days::{Court, Days};
use docket_rows::{Assignment, Closure};
use docket_selection::ExplainedSheet;
use office_texts::push_assigned_text;
use page_markup::{Page, Tag};
use reason_notes::DaysByReading;
use report_texts::{Labels, push_title_after, push_whole_day};
use std::alloc::{AllocError, Global};

/// Adds the sheets of the cases.
#[tactic(auto, unfolding(crate::specs::Cases::cases_part))]
pub(crate) fn push_cases(
    alloc: Global,
    page: &mut Page,
    line: &mut String,
    court: &Court,
    days: &Days,
    labels: &Labels<'_>,
    sheets: &[ExplainedSheet],
) -> Result<(), AllocError>
    ensures { OnOk result (page.new ≡ page.old ++ cases_part court.now days.now labels.now sheets.now) }
{
    page.open(Tag::Section)?;
    page.text_in(Tag::Heading2, "Cases")?;
    let days = DaysByReading::new(alloc, days, labels.doubtful)?;
    push_parts(alloc, page, line, court, &days, labels, sheets)?;
    page.close(Tag::Section)
}

/// Adds a part for each case, or that there is none.
fn push_parts(
    alloc: Global,
    page: &mut Page,
    line: &mut String,
    court: &Court,
    days: &DaysByReading,
    labels: &Labels<'_>,
    sheets: &[ExplainedSheet],
) -> Result<(), AllocError>
    ensures { OnOk result (page.new ≡ page.old ++ case_parts court.now days.now labels.now sheets.now) }
{
    if sheets.is_empty() {
        return page.text_in(Tag::Paragraph, "No case is open.");
    }
    push_sheets(alloc, page, line, court, days, labels, sheets)
}

/// Adds a part for each case.
fn push_sheets(
    alloc: Global,
    page: &mut Page,
    line: &mut String,
    court: &Court,
    days: &DaysByReading,
    labels: &Labels<'_>,
    sheets: &[ExplainedSheet],
) -> Result<(), AllocError>
    ensures { OnOk result (page.new ≡ page.old ++ flat_map (case_part court.now days.now labels.now) sheets.now) }
{
    for sheet in sheets {
        push_case(alloc, page, line, court, days, labels, sheet)?;
    }
    Ok(())
}

/// Adds the sheet of a case.
#[tactic(auto, unfolding(crate::specs::Cases::case_part))]
fn push_case(
    alloc: Global,
    page: &mut Page,
    line: &mut String,
    court: &Court,
    days: &DaysByReading,
    labels: &Labels<'_>,
    sheet: &ExplainedSheet,
) -> Result<(), AllocError>
    ensures { OnOk result (page.new ≡ page.old ++ case_part court.now days.now labels.now sheet.now) }
{
    page.open(Tag::CaseSection(sheet.case))?;
    set_title(line, labels, sheet.case)?;
    page.text_in(Tag::Heading3, line)?;
    set_filed(line, court, sheet.filed, sheet.assigned, sheet.closed)?;
    page.text_in(Tag::Paragraph, line)?;
    push_deadlines(
        alloc,
        page,
        line,
        days,
        court.clock(),
        labels,
        sheet.case,
        &sheet.deadlines,
    )?;
    push_motions(
        page,
        line,
        court,
        labels,
        sheet.case,
        sheet.motions.as_slice(),
    )?;
    page.close(Tag::CaseSection(sheet.case))
}

/// Makes the line the title of a case's part.
#[tactic(auto, unfolding(crate::specs::Cases::case_title))]
fn set_title(line: &mut String, labels: &Labels<'_>, case: u32) -> Result<(), AllocError>
    ensures { OnOk result (string_bytes line.new ≡ case_title labels.now case) }
{
    line.clear();
    line.push_str("Case ")?;
    push_case_text(line, labels.cases, case)?;
    push_title_after(line, labels, case)
}

/// Makes the line when a case was filed, who has it, if it was assigned, and how it was closed, if it was.
#[tactic(auto, unfolding(crate::specs::Cases::filed_words))]
fn set_filed(
    line: &mut String,
    court: &Court,
    filed: Day,
    assigned: Option<Assignment>,
    closed: Option<Closure>,
) -> Result<(), AllocError>
    ensures { OnOk result (string_bytes line.new ≡ filed_words court.now.judges filed assigned closed) }
{
    line.clear();
    line.push_str("Filed ")?;
    push_whole_day(line, filed)?;
    push_assigned(line, court, assigned)?;
    push_closed(line, closed)
}

/// Adds who has a case, if it was assigned.
fn push_assigned(
    line: &mut String,
    court: &Court,
    assigned: Option<Assignment>,
) -> Result<(), AllocError>
    ensures { OnOk result (AddsText line.old line.new (assigned_words court.now.judges assigned)) }
{
    match assigned {
        None => Ok(()),
        Some(assignment) => {
            line.push_str(", assigned ")?;
            push_whole_day(line, assignment.dated)?;
            line.push_str(" to ")?;
            push_assigned_text(line, court, assignment)
        }
    }
}

/// Adds how a case was closed, if it was.
fn push_closed(line: &mut String, closed: Option<Closure>) -> Result<(), AllocError>
    ensures { OnOk result (AddsText line.old line.new (closed_words closed)) }
{
    match closed {
        None => Ok(()),
        Some(Closure { why, dated }) => {
            line.push_str(", closed ")?;
            push_whole_day(line, dated)?;
            line.push_str(" ")?;
            line.push_str(why.word())
        }
    }
}
