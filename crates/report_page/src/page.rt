//! The whole page.

ghost use Rattle.std.specs.Prelude.{◌≡◌, ◌++◌, OnOk, string_bytes};
ghost use Rattle.report_page.specs.Page.{content, page_text, title};

use crate::cases::push_cases;
use crate::due::push_due;
use crate::judges::push_judges;
use court_days::{Court, Days};
use docket_selection::{Choice, DueItem, DueTypes, ExplainedSheet, JudgeCalendar};
use page_markup::{Page, Tag, begin_page, end_page};
use report_texts::{Labels, push_chosen};
use std::alloc::{AllocError, Global};

/// Adds the page of what is due, of the judges' hearings and of the cases, as they were chosen. The days are
/// those of the docket. `Err` says that memory ran out.
#[tactic(auto, unfolding(crate::specs::Page::page_text))]
pub fn push_page(
    alloc: Global,
    page: &mut Page,
    court: &Court,
    days: &Days,
    labels: &Labels<'_>,
    choice: &Choice,
    items: &[DueItem],
    calendars: &[JudgeCalendar],
    sheets: &[ExplainedSheet],
) -> Result<(), AllocError>
    ensures { OnOk result (page.new ≡ page.old ++ page_text court.now days.now labels.now choice.now items.now calendars.now sheets.now) }
{
    let _types: DueTypes = None;
    let mut line = String::new(alloc);
    set_title(&mut line, court, labels, choice)?;
    begin_page(page, &line)?;
    push_content(
        alloc, page, &mut line, court, days, labels, choice, items, calendars, sheets,
    )?;
    end_page(page)
}

/// Adds what the page shows.
#[tactic(auto, unfolding(crate::specs::Page::content))]
fn push_content(
    alloc: Global,
    page: &mut Page,
    line: &mut String,
    court: &Court,
    days: &Days,
    labels: &Labels<'_>,
    choice: &Choice,
    items: &[DueItem],
    calendars: &[JudgeCalendar],
    sheets: &[ExplainedSheet],
) -> Result<(), AllocError>
    ensures { OnOk result (page.new ≡ page.old ++ content court.now days.now labels.now choice.now items.now calendars.now sheets.now) }
{
    let _types: DueTypes = None;
    page.text_in(Tag::Heading1, "Court calendar")?;
    line.clear();
    push_chosen(line, court, labels, choice)?;
    page.text_in(Tag::Paragraph, line)?;
    push_due(page, line, court, labels, items)?;
    push_judges(alloc, page, line, court, labels, calendars)?;
    push_cases(alloc, page, line, court, days, labels, sheets)
}

/// Makes the line the page's title.
#[tactic(auto, unfolding(crate::specs::Page::title))]
fn set_title(
    line: &mut String,
    court: &Court,
    labels: &Labels<'_>,
    choice: &Choice,
) -> Result<(), AllocError>
    ensures { OnOk result (string_bytes line.new ≡ title court.now labels.now.cases choice.now) }
{
    line.clear();
    line.push_str("Court calendar, ")?;
    push_chosen(line, court, labels, choice)
}
