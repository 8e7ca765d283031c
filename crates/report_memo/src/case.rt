//! The memo of one case.

ghost use Rattle.std.specs.Prelude.{◌≡◌, IfOk, string_bytes};
ghost use Rattle.report_memo.specs.Case.{IsCaseClosed, IsCaseMemo, IsCaseShown, IsClosed, closed_line};
ghost use Rattle.program_runs.specs.Words.{IsFinding};

use crate::detail::Detail;
use crate::sheets::push_sheet;
use crate::sources::{Sources, docket_after};
use case_numbers::{Cases, push_case_text};
use court_clock::Day;
use court_days::Court;
use docket_rows::{Query, View};
use program_runs::Finding;
use reason_notes::DaysByReading;
use report_texts::Labels;
use row_forms::NumberedRow;
use std::alloc::{AllocError, Global};

/// The whole sheet of a case as it is after all rows, with the numbers of its deadlines and motions, or the line of a case that
/// isn't open. `Err` says that memory ran out.
pub(crate) fn case_text(
    alloc: Global,
    court: &Court,
    labels: &Labels<'_>,
    rows: &[NumberedRow],
    case: u32,
    today: Option<Day>,
) -> Result<Finding<String>, AllocError>
    ensures { IfOk result (IsFinding string_bytes (IsCaseMemo court.now labels.now rows.now case today) (IsCaseClosed court.now labels.now rows.now case)) }
{
    let mut made = Vec::new(alloc);
    let docket = docket_after(alloc, court, rows, case, &mut made)?;
    let sources = Sources::numbered(labels.moved, case, made);
    let detail = Detail::Whole { today, sources };
    let view = docket.show(alloc, &Query::Sheet(case))?;
    let numbered = labels.moved.number_view(view);
    let days = DaysByReading::new(alloc, docket.days(), labels.doubtful)?;
    case_shown(alloc, court, labels, &days, &detail, case, &numbered)
}

/// The sheet of a case with that much detail, where the view is one, and else the line of a case that isn't open.
fn case_shown(
    alloc: Global,
    court: &Court,
    labels: &Labels<'_>,
    days: &DaysByReading,
    detail: &Detail,
    case: u32,
    view: &View,
) -> Result<Finding<String>, AllocError>
    ensures { IfOk result (IsFinding string_bytes (IsCaseShown court.now labels.now days.now detail.now view.now) (IsClosed labels.now.cases case view.now)) }
{
    match view {
        View::Sheet(sheet) => {
            let mut text = String::new(alloc);
            push_sheet(alloc, &mut text, court, labels, days, detail, sheet)?;
            Ok(Finding::Text(text))
        }
        _ => Ok(Finding::Missing(closed_line(alloc, labels.cases, case)?)),
    }
}

/// The line of a case that isn't open.
fn closed_line(alloc: Global, cases: &Cases, case: u32) -> Result<String, AllocError>
    ensures { IfOk result (λ line. string_bytes line ≡ closed_line cases.now.named case) }
{
    let mut line = String::new(alloc);
    line.push_str("docket: case ")?;
    push_case_text(&mut line, cases, case)?;
    line.push_str(" isn't open: no row has opened it\n")?;
    Ok(line)
}
