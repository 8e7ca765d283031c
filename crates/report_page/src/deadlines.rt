//! The deadlines of a case.

ghost use Rattle.std.specs.Prelude.{◌≡◌, ◌++◌, OnOk, string_bytes};
ghost use Rattle.std.specs.List.{flat_map};
ghost use Rattle.report_page.specs.Cases.{deadline_caption, deadline_heads, deadline_row, deadline_rows, deadline_table, end_cell, period_cell};

use crate::due::state_cell;
use crate::phrases::{set_end, set_number, set_state};
use crate::reasons::push_reasons_cell;
use crate::tables::push_four_heads;
use case_numbers::push_case_text;
use court_clock::Clock;
use docket_rows::{Counted, SheetDeadline};
use docket_selection::ExplainedDeadline;
use page_markup::{Page, Tag};
use reason_notes::DaysByReading;
use reason_texts::push_heading;
use report_texts::{Labels, push_label_after, push_period, push_reading};
use rule_periods::DeadlineRow;
use rule6::Shown;
use std::alloc::{AllocError, Global};

/// Adds the table of a case's deadlines, or that there are none.
#[tactic(auto, unfolding(crate::specs::Cases::deadline_table))]
pub(crate) fn push_deadlines(
    alloc: Global,
    page: &mut Page,
    line: &mut String,
    days: &DaysByReading,
    clock: &Clock,
    labels: &Labels<'_>,
    case: u32,
    deadlines: &[ExplainedDeadline],
) -> Result<(), AllocError>
    ensures { OnOk result (page.new ≡ page.old ++ deadline_table days.now clock.now labels.now case deadlines.now) }
{
    if deadlines.is_empty() {
        return page.text_in(Tag::Paragraph, "No deadline is entered.");
    }
    page.open(Tag::Table)?;
    set_caption(line, labels, case)?;
    page.text_in(Tag::Caption, line)?;
    push_heads(page)?;
    page.open(Tag::TableBody)?;
    push_rows(alloc, page, line, days, clock, labels, case, deadlines)?;
    page.close(Tag::TableBody)?;
    page.close(Tag::Table)
}

/// Makes the line what the table of a case's deadlines has.
#[tactic(auto, unfolding(crate::specs::Cases::deadline_caption))]
fn set_caption(line: &mut String, labels: &Labels<'_>, case: u32) -> Result<(), AllocError>
    ensures { OnOk result (string_bytes line.new ≡ deadline_caption labels.now.cases case) }
{
    line.clear();
    line.push_str("Deadlines of case ")?;
    push_case_text(line, labels.cases, case)
}

#[tactic(auto, unfolding(crate::specs::Cases::deadline_heads))]
fn push_heads(page: &mut Page) -> Result<(), AllocError>
    ensures { OnOk result (page.new ≡ page.old ++ deadline_heads) }
{
    push_four_heads(page, "No.", "Period", "Time ends", "State")
}

/// Adds the rows of each deadline.
fn push_rows(
    alloc: Global,
    page: &mut Page,
    line: &mut String,
    days: &DaysByReading,
    clock: &Clock,
    labels: &Labels<'_>,
    case: u32,
    deadlines: &[ExplainedDeadline],
) -> Result<(), AllocError>
    ensures { OnOk result (page.new ≡ page.old ++ flat_map (deadline_rows days.now clock.now labels.now case) deadlines.now) }
{
    for explained in deadlines {
        push_explained(alloc, page, line, days, clock, labels, case, explained)?;
    }
    Ok(())
}

/// Adds the row of a deadline, and the row of its reasons.
#[tactic(auto, unfolding(crate::specs::Cases::deadline_rows))]
fn push_explained(
    alloc: Global,
    page: &mut Page,
    line: &mut String,
    days: &DaysByReading,
    clock: &Clock,
    labels: &Labels<'_>,
    case: u32,
    explained: &ExplainedDeadline,
) -> Result<(), AllocError>
    ensures { OnOk result (page.new ≡ page.old ++ deadline_rows days.now clock.now labels.now case explained.now) }
{
    push_row(
        alloc,
        page,
        line,
        clock,
        labels,
        case,
        &explained.deadline,
        explained.other,
    )?;
    page.open(Tag::Row)?;
    push_reasons_cell(alloc, page, line, days, clock, explained)?;
    page.close(Tag::Row)
}

/// Adds the row of a deadline, with the end by another reading, if there is one.
#[tactic(auto, unfolding(crate::specs::Cases::deadline_row))]
fn push_row(
    alloc: Global,
    page: &mut Page,
    line: &mut String,
    clock: &Clock,
    labels: &Labels<'_>,
    case: u32,
    deadline: &SheetDeadline,
    other: Option<Shown>,
) -> Result<(), AllocError>
    ensures { OnOk result (page.new ≡ page.old ++ deadline_row clock.now labels.now case deadline.now other) }
{
    page.open(Tag::Row)?;
    set_number(line, deadline.number)?;
    push_label_after(line, labels, case, Counted::Deadline, deadline.number)?;
    page.text_in(Tag::RowHead, line)?;
    push_period_cell(alloc, page, line, &deadline.row)?;
    push_end_cell(page, line, clock, &deadline.shown, other)?;
    set_state(line, deadline.state, deadline.row.filed(), deadline.ended)?;
    page.text_in(state_cell(deadline.state), line)?;
    page.close(Tag::Row)
}

/// Adds the cell of when a deadline's time ends, with the end by another reading, if there is one.
#[tactic(auto, unfolding(crate::specs::Cases::end_cell))]
fn push_end_cell(
    page: &mut Page,
    line: &mut String,
    clock: &Clock,
    shown: &Shown,
    other: Option<Shown>,
) -> Result<(), AllocError>
    ensures { OnOk result (page.new ≡ page.old ++ end_cell clock.now shown.now other) }
{
    set_end(line, clock, shown)?;
    match other {
        None => page.text_in(Tag::Cell, line),
        Some(other) => {
            page.open(Tag::Cell)?;
            page.text_in(Tag::Line, line)?;
            line.clear();
            push_reading(line, clock, &other)?;
            page.text_in(Tag::Note, line)?;
            page.close(Tag::Cell)
        }
    }
}

/// Adds the cell of a deadline's period, with what it is for, which section sets it, and from which day it runs.
#[tactic(auto, unfolding(crate::specs::Cases::period_cell))]
fn push_period_cell(
    alloc: Global,
    page: &mut Page,
    line: &mut String,
    row: &DeadlineRow,
) -> Result<(), AllocError>
    ensures { OnOk result (page.new ≡ page.old ++ period_cell row.now) }
{
    page.open(Tag::Cell)?;
    line.clear();
    let period = row.period();
    push_period(line, &period)?;
    page.text_in(Tag::Line, line)?;
    line.clear();
    push_heading(alloc, line, row)?;
    page.text_in(Tag::Note, line)?;
    page.close(Tag::Cell)
}
