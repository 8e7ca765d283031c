//! What the head of a memo says of the case that is asked for.

ghost use Rattle.std.specs.Prelude.{◌≡◌, ◌++◌, IfOk, OnOk, string_bytes};
ghost use Rattle.report_memo.specs.AboutCase.{about_case, about_case_if_any, assigned_after, assigned_on, judge_line, number_line, title_line};

use crate::sources::docket_after;
use case_numbers::{Cases, push_case_text};
use court_days::Court;
use desk_numbers::CalledTexts;
use docket_rows::{Assignment, Query, View};
use office_texts::push_assigned_text;
use row_forms::NumberedRow;
use std::alloc::{AllocError, Global};

/// Adds the lines of the case, if there is one: its number, what rows call it, and who has it after all rows. `Err` says that memory ran
/// out.
pub(crate) fn push_about_case(
    alloc: Global,
    text: &mut String,
    court: &Court,
    cases: &Cases,
    called: &CalledTexts,
    rows: &[NumberedRow],
    case: Option<u32>,
) -> Result<(), AllocError>
    ensures { OnOk result (string_bytes text.new ≡ string_bytes text.old ++ about_case_if_any court.now cases.now.named called.now rows.now case) }
{
    match case {
        Some(case) => push_lines(alloc, text, court, cases, called, rows, case),
        None => Ok(()),
    }
}

/// Adds the lines of a case.
#[tactic(auto, unfolding(crate::specs::AboutCase::about_case))]
fn push_lines(
    alloc: Global,
    text: &mut String,
    court: &Court,
    cases: &Cases,
    called: &CalledTexts,
    rows: &[NumberedRow],
    case: u32,
) -> Result<(), AllocError>
    ensures { OnOk result (string_bytes text.new ≡ string_bytes text.old ++ about_case court.now cases.now.named called.now rows.now case) }
{
    let assigned = assigned_after(alloc, court, rows, case)?;
    push_number(text, cases, case)?;
    push_title(text, called.title_of(case))?;
    push_judge(text, court, assigned)
}

/// Adds the line of the case's number.
fn push_number(text: &mut String, cases: &Cases, case: u32) -> Result<(), AllocError>
    ensures { OnOk result (string_bytes text.new ≡ string_bytes text.old ++ number_line cases.now.named case) }
{
    text.push_str("Case     ")?;
    push_case_text(text, cases, case)?;
    text.push_str("\n")
}

/// Adds the line of what the case is called, if rows call it so.
fn push_title(text: &mut String, title: &str) -> Result<(), AllocError>
    ensures { OnOk result (string_bytes text.new ≡ string_bytes text.old ++ title_line title.now) }
{
    if title.is_empty() {
        return Ok(());
    }
    text.push_str("Title    ")?;
    text.push_str(title)?;
    text.push_str("\n")
}

/// Adds the line of who has the case, if it is assigned.
fn push_judge(
    text: &mut String,
    court: &Court,
    assigned: Option<Assignment>,
) -> Result<(), AllocError>
    ensures { OnOk result (string_bytes text.new ≡ string_bytes text.old ++ judge_line court.now.judges assigned) }
{
    match assigned {
        Some(assignment) => {
            text.push_str("Judge    ")?;
            push_assigned_text(text, court, assignment)?;
            text.push_str("\n")
        }
        None => Ok(()),
    }
}

/// Who has the case after all rows, which are carried out for it once more, if it is assigned.
fn assigned_after(
    alloc: Global,
    court: &Court,
    rows: &[NumberedRow],
    case: u32,
) -> Result<Option<Assignment>, AllocError>
    ensures { IfOk result (λ assigned. assigned ≡ assigned_after court.now rows.now case) }
{
    let mut made = Vec::new(alloc);
    let docket = docket_after(alloc, court, rows, case, &mut made)?;
    let view = docket.show(alloc, &Query::Sheet(case))?;
    Ok(assigned_on(&view))
}

/// Who has the case of a sheet, if it is assigned.
fn assigned_on(view: &View) -> Option<Assignment>
    ensures { result ≡ assigned_on view.now }
{
    match view {
        View::Sheet(sheet) => sheet.assigned,
        _ => None,
    }
}
