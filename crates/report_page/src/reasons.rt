//! The reasons of a deadline, folded.

ghost use Rattle.std.specs.Prelude.{◌≡◌, ◌++◌, OnOk, string_bytes};
ghost use Rattle.report_page.specs.Cases.{reasons_cell, reasons_text, reasons_title};

use court_clock::Clock;
use deadline_reasons::Reason;
use docket_selection::ExplainedDeadline;
use office_texts::push_number;
use page_markup::{Page, Tag};
use reason_notes::{DaysByReading, push_readings};
use reason_texts::{Course, push_reasons};
use rule_periods::DeadlineRow;
use std::alloc::{AllocError, Global};

/// Adds a cell over the whole table, with the reasons of a deadline folded in it.
#[tactic(auto, unfolding(crate::specs::Cases::reasons_cell))]
pub(crate) fn push_reasons_cell(
    alloc: Global,
    page: &mut Page,
    line: &mut String,
    days: &DaysByReading,
    clock: &Clock,
    explained: &ExplainedDeadline,
) -> Result<(), AllocError>
    ensures { OnOk result (page.new ≡ page.old ++ reasons_cell days.now clock.now explained.now) }
{
    page.open(Tag::WideCell)?;
    page.open(Tag::Details)?;
    set_title(line, explained.deadline.number)?;
    page.text_in(Tag::Summary, line)?;
    set_reasons(
        alloc,
        line,
        days,
        clock,
        &explained.deadline.row,
        &explained.reasons,
    )?;
    page.text_in(Tag::Reasons, line)?;
    page.close(Tag::Details)?;
    page.close(Tag::WideCell)
}

/// Makes the line what is seen of folded reasons.
#[tactic(auto, unfolding(crate::specs::Cases::reasons_title))]
fn set_title(line: &mut String, number: u32) -> Result<(), AllocError>
    ensures { OnOk result (string_bytes line.new ≡ reasons_title number) }
{
    line.clear();
    line.push_str("Reasons of deadline ")?;
    push_number(line, u64::from(number))
}

/// Makes the line the lines of the reasons, and of other readings that give another end.
#[tactic(auto, unfolding(crate::specs::Cases::reasons_text))]
fn set_reasons(
    alloc: Global,
    line: &mut String,
    days: &DaysByReading,
    clock: &Clock,
    row: &DeadlineRow,
    reasons: &[Reason],
) -> Result<(), AllocError>
    ensures { OnOk result (string_bytes line.new ≡ reasons_text days.now clock.now row.now reasons.now) }
{
    line.clear();
    let course = Course::of(&row.period());
    push_reasons(line, clock, &[], course, reasons)?;
    push_readings(alloc, line, days, clock, row)
}
