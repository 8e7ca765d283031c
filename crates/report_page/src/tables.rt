//! The parts of tables.

ghost use Rattle.std.specs.Prelude.{◌≡◌, ◌++◌, OnOk};
ghost use Rattle.report_page.specs.Tables.{case_cell, case_link, four_heads, motion_cell, three_heads};

use crate::phrases::{set_case, set_motion};
use docket_rows::Counted;
use page_markup::{Page, Tag};
use report_texts::{Labels, push_called_after};
use std::alloc::AllocError;

/// Adds the heads of three columns.
#[tactic(auto, unfolding(crate::specs::Tables::three_heads))]
pub(crate) fn push_three_heads(
    page: &mut Page,
    first: &str,
    second: &str,
    third: &str,
) -> Result<(), AllocError>
    ensures { OnOk result (page.new ≡ page.old ++ three_heads first.now second.now third.now) }
{
    page.open(Tag::TableHead)?;
    page.open(Tag::Row)?;
    page.text_in(Tag::ColumnHead, first)?;
    page.text_in(Tag::ColumnHead, second)?;
    page.text_in(Tag::ColumnHead, third)?;
    page.close(Tag::Row)?;
    page.close(Tag::TableHead)
}

/// Adds the heads of four columns.
#[tactic(auto, unfolding(crate::specs::Tables::four_heads))]
pub(crate) fn push_four_heads(
    page: &mut Page,
    first: &str,
    second: &str,
    third: &str,
    fourth: &str,
) -> Result<(), AllocError>
    ensures { OnOk result (page.new ≡ page.old ++ four_heads first.now second.now third.now fourth.now) }
{
    page.open(Tag::TableHead)?;
    page.open(Tag::Row)?;
    page.text_in(Tag::ColumnHead, first)?;
    page.text_in(Tag::ColumnHead, second)?;
    page.text_in(Tag::ColumnHead, third)?;
    page.text_in(Tag::ColumnHead, fourth)?;
    page.close(Tag::Row)?;
    page.close(Tag::TableHead)
}

/// Adds a link to the part of a case, with its name where it has one.
#[tactic(auto, unfolding(crate::specs::Tables::case_link))]
pub(crate) fn push_case_link(
    page: &mut Page,
    line: &mut String,
    labels: &Labels<'_>,
    case: u32,
) -> Result<(), AllocError>
    ensures { OnOk result (page.new ≡ page.old ++ case_link labels.now.cases case) }
{
    set_case(line, labels, case)?;
    page.text_in(Tag::CaseLink(case), line)
}

/// Adds a cell that names a case.
#[tactic(auto, unfolding(crate::specs::Tables::case_cell))]
pub(crate) fn push_case_cell(
    page: &mut Page,
    line: &mut String,
    labels: &Labels<'_>,
    case: u32,
) -> Result<(), AllocError>
    ensures { OnOk result (page.new ≡ page.old ++ case_cell labels.now.cases case) }
{
    page.open(Tag::Cell)?;
    push_case_link(page, line, labels, case)?;
    page.close(Tag::Cell)
}

/// Adds a cell that names a case and one of its motions.
#[tactic(auto, unfolding(crate::specs::Tables::motion_cell))]
pub(crate) fn push_motion_cell(
    page: &mut Page,
    line: &mut String,
    labels: &Labels<'_>,
    case: u32,
    motion: u32,
) -> Result<(), AllocError>
    ensures { OnOk result (page.new ≡ page.old ++ motion_cell labels.now case motion) }
{
    page.open(Tag::Cell)?;
    push_case_link(page, line, labels, case)?;
    set_motion(line, motion)?;
    push_called_after(line, labels, case, Counted::Motion, motion)?;
    page.text(line)?;
    page.close(Tag::Cell)
}
