//! What is due, by day.

ghost use Rattle.std.specs.Prelude.{◌≡◌, ◌++◌, None, OnOk};
ghost use Rattle.page_markup.specs.declared.tag.Tag.TheVariants as tag;
ghost use Rattle.page_markup.specs.Words.{text_in};
ghost use Rattle.report_page.specs.Due.{day_row_if_new, due_caption, due_heads, due_part, due_row, due_rows, due_table, matter_cell, state_cell};

use crate::phrases::set_day;
use crate::tables::{push_case_cell, push_three_heads};
use court_clock::Day;
use court_days::Court;
use docket_rows::State;
use docket_selection::{DueItem, DueTypes, Matter};
use page_markup::{Page, Tag};
use report_texts::{
    Labels, counted_in, is_day_of, push_called_after, push_closing, push_matter, push_time,
};
use std::alloc::AllocError;

/// Adds what is due.
#[tactic(auto, unfolding(crate::specs::Due::due_part))]
pub(crate) fn push_due(
    page: &mut Page,
    line: &mut String,
    court: &Court,
    labels: &Labels<'_>,
    items: &[DueItem],
) -> Result<(), AllocError>
    ensures { OnOk result (page.new ≡ page.old ++ due_part court.now labels.now items.now) }
{
    let _types: DueTypes = None;
    page.open(Tag::Section)?;
    page.text_in(Tag::Heading2, "What is due")?;
    line.clear();
    push_closing(line, court)?;
    page.text_in(Tag::Paragraph, line)?;
    push_table(page, line, court, labels, items)?;
    page.close(Tag::Section)
}

/// Adds the table of the items, or that there are none.
#[tactic(auto, unfolding(crate::specs::Due::due_table))]
fn push_table(
    page: &mut Page,
    line: &mut String,
    court: &Court,
    labels: &Labels<'_>,
    items: &[DueItem],
) -> Result<(), AllocError>
    ensures { OnOk result (page.new ≡ page.old ++ due_table court.now labels.now items.now) }
{
    let _types: DueTypes = None;
    if items.is_empty() {
        return page.text_in(Tag::Paragraph, "Nothing is due.");
    }
    page.open(Tag::Table)?;
    push_caption(page)?;
    push_heads(page)?;
    page.open(Tag::TableBody)?;
    push_rows(page, line, court, labels, items)?;
    page.close(Tag::TableBody)?;
    page.close(Tag::Table)
}

#[tactic(auto, unfolding(crate::specs::Due::due_caption))]
fn push_caption(page: &mut Page) -> Result<(), AllocError>
    ensures { OnOk result (page.new ≡ page.old ++ text_in tag.Caption due_caption) }
{
    page.text_in(
        Tag::Caption,
        "Deadlines with no timely act, and hearings, by day",
    )
}

#[tactic(auto, unfolding(crate::specs::Due::due_heads))]
fn push_heads(page: &mut Page) -> Result<(), AllocError>
    ensures { OnOk result (page.new ≡ page.old ++ due_heads) }
{
    push_three_heads(page, "Time", "Case", "Deadline or hearing")
}

/// Adds a row for each item, with the day before the first of each day.
fn push_rows(
    page: &mut Page,
    line: &mut String,
    court: &Court,
    labels: &Labels<'_>,
    items: &[DueItem],
) -> Result<(), AllocError>
    ensures { OnOk result (page.new ≡ page.old ++ due_rows court.now labels.now None items.now) }
{
    let _types: DueTypes = None;
    let mut before = None;
    for item in items {
        push_day_if_new(page, line, before, item.day)?;
        push_row(page, line, court, labels, item)?;
        before = Some(item.day);
    }
    Ok(())
}

/// Adds a row for the day, unless it is the day before.
fn push_day_if_new(
    page: &mut Page,
    line: &mut String,
    before: Option<Day>,
    day: Day,
) -> Result<(), AllocError>
    ensures { OnOk result (page.new ≡ page.old ++ day_row_if_new before day) }
{
    if is_day_of(before, day) {
        return Ok(());
    }
    page.open(Tag::Row)?;
    set_day(line, day)?;
    page.text_in(Tag::DayHead, line)?;
    page.close(Tag::Row)
}

/// Adds the row of an item.
#[tactic(auto, unfolding(crate::specs::Due::due_row))]
fn push_row(
    page: &mut Page,
    line: &mut String,
    court: &Court,
    labels: &Labels<'_>,
    item: &DueItem,
) -> Result<(), AllocError>
    ensures { OnOk result (page.new ≡ page.old ++ due_row court.now labels.now item.now) }
{
    page.open(Tag::Row)?;
    line.clear();
    push_time(line, court.clock(), item.second, &item.matter)?;
    page.text_in(Tag::RowHead, line)?;
    push_case_cell(page, line, labels, item.case)?;
    line.clear();
    push_matter(line, court, item.number, &item.matter)?;
    push_called_after(
        line,
        labels,
        item.case,
        counted_in(&item.matter),
        item.number,
    )?;
    page.text_in(matter_cell(&item.matter), line)?;
    page.close(Tag::Row)
}

/// The cell of a deadline or of a hearing.
fn matter_cell(matter: &Matter) -> Tag
    ensures { result ≡ matter_cell matter.now }
{
    match matter {
        Matter::Deadline(due) => state_cell(due.state),
        Matter::Hearing(_) => Tag::Cell,
    }
}

/// The cell of what is late, or another.
pub(crate) fn state_cell(state: State) -> Tag
    ensures { result ≡ state_cell state }
{
    match state {
        State::Late => Tag::LateCell,
        _ => Tag::Cell,
    }
}
