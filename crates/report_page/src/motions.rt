//! The motions of a case.

ghost use Rattle.std.specs.Prelude.{◌≡◌, ◌++◌, OnOk, string_bytes};
ghost use Rattle.std.specs.List.{flat_map};
ghost use Rattle.report_page.specs.Cases.{hearing_cell, motion_caption, motion_heads, motion_row, motion_table, served_cell};

use crate::phrases::{
    set_affidavits, set_day, set_hearing_place, set_hearing_time, set_need, set_notice, set_number,
    set_ruling,
};
use crate::tables::push_four_heads;
use case_numbers::push_case_text;
use court_clock::Day;
use court_days::Court;
use docket_rows::{Counted, DatedRuling, SheetHearing, SheetMotion};
use page_markup::{Page, Tag};
use report_texts::{Labels, push_label_after};
use std::alloc::AllocError;

/// Adds the table of a case's motions, or that there are none.
#[tactic(auto, unfolding(crate::specs::Cases::motion_table))]
pub(crate) fn push_motions(
    page: &mut Page,
    line: &mut String,
    court: &Court,
    labels: &Labels<'_>,
    case: u32,
    motions: &[SheetMotion],
) -> Result<(), AllocError>
    ensures { OnOk result (page.new ≡ page.old ++ motion_table court.now labels.now case motions.now) }
{
    if motions.is_empty() {
        return page.text_in(Tag::Paragraph, "No motion is entered.");
    }
    page.open(Tag::Table)?;
    set_caption(line, labels, case)?;
    page.text_in(Tag::Caption, line)?;
    push_heads(page)?;
    page.open(Tag::TableBody)?;
    push_rows(page, line, court, labels, case, motions)?;
    page.close(Tag::TableBody)?;
    page.close(Tag::Table)
}

/// Makes the line what the table of a case's motions has.
#[tactic(auto, unfolding(crate::specs::Cases::motion_caption))]
fn set_caption(line: &mut String, labels: &Labels<'_>, case: u32) -> Result<(), AllocError>
    ensures { OnOk result (string_bytes line.new ≡ motion_caption labels.now.cases case) }
{
    line.clear();
    line.push_str("Motions of case ")?;
    push_case_text(line, labels.cases, case)
}

#[tactic(auto, unfolding(crate::specs::Cases::motion_heads))]
fn push_heads(page: &mut Page) -> Result<(), AllocError>
    ensures { OnOk result (page.new ≡ page.old ++ motion_heads) }
{
    push_four_heads(page, "No.", "Served", "Notice", "Hearing")
}

/// Adds a row for each motion.
fn push_rows(
    page: &mut Page,
    line: &mut String,
    court: &Court,
    labels: &Labels<'_>,
    case: u32,
    motions: &[SheetMotion],
) -> Result<(), AllocError>
    ensures { OnOk result (page.new ≡ page.old ++ flat_map (motion_row court.now labels.now case) motions.now) }
{
    for motion in motions {
        push_row(page, line, court, labels, case, motion)?;
    }
    Ok(())
}

/// Adds the row of a motion.
#[tactic(auto, unfolding(crate::specs::Cases::motion_row))]
fn push_row(
    page: &mut Page,
    line: &mut String,
    court: &Court,
    labels: &Labels<'_>,
    case: u32,
    motion: &SheetMotion,
) -> Result<(), AllocError>
    ensures { OnOk result (page.new ≡ page.old ++ motion_row court.now labels.now case motion.now) }
{
    page.open(Tag::Row)?;
    set_number(line, motion.number)?;
    push_label_after(line, labels, case, Counted::Motion, motion.number)?;
    page.text_in(Tag::RowHead, line)?;
    push_served(page, line, motion.served, motion.ruling)?;
    set_need(line, motion.need)?;
    page.text_in(Tag::Cell, line)?;
    push_hearing(page, line, court, &motion.hearing)?;
    page.close(Tag::Row)
}

/// Adds the cell of when a motion was served, with how it was ruled on, if it was.
#[tactic(auto, unfolding(crate::specs::Cases::served_cell))]
fn push_served(
    page: &mut Page,
    line: &mut String,
    served: Day,
    ruling: Option<DatedRuling>,
) -> Result<(), AllocError>
    ensures { OnOk result (page.new ≡ page.old ++ served_cell served ruling) }
{
    set_day(line, served)?;
    match ruling {
        None => page.text_in(Tag::Cell, line),
        Some(ruled) => {
            page.open(Tag::Cell)?;
            page.text_in(Tag::Line, line)?;
            set_ruling(line, ruled)?;
            page.text_in(Tag::Line, line)?;
            page.close(Tag::Cell)
        }
    }
}

/// Adds the cell of a motion's hearing, or that none is set.
#[tactic(auto, unfolding(crate::specs::Cases::hearing_cell))]
fn push_hearing(
    page: &mut Page,
    line: &mut String,
    court: &Court,
    hearing: &Option<SheetHearing>,
) -> Result<(), AllocError>
    ensures { OnOk result (page.new ≡ page.old ++ hearing_cell court.now hearing.now) }
{
    match hearing {
        None => page.text_in(Tag::Cell, "not set"),
        Some(set) => {
            page.open(Tag::Cell)?;
            set_hearing_time(line, &set.hearing)?;
            page.text_in(Tag::Line, line)?;
            set_hearing_place(line, court, &set.hearing)?;
            page.text_in(Tag::Line, line)?;
            set_notice(line, set.hearing.notice)?;
            page.text_in(Tag::Line, line)?;
            set_affidavits(line, set.affidavits)?;
            page.text_in(Tag::Line, line)?;
            page.close(Tag::Cell)
        }
    }
}
