//! What rows call cases, deadlines and motions.

ghost use Rattle.std.specs.Prelude.{◌≡◌, ◌++◌, OnOk};
ghost use Rattle.std.specs.List.{flat_map};
ghost use Rattle.report_sql.specs.Called.{called_rows, deadline_label, label_of_deadline, label_of_motion, motion_label, title_row};

use crate::script::Script;
use docket_rows::{Counted, Sheet, SheetDeadline, SheetMotion};
use report_texts::Labels;
use std::alloc::AllocError;

/// Adds what rows call a case, its deadlines and its motions. `Err` says that memory ran out.
#[tactic(auto, unfolding(crate::specs::Called::called_rows))]
pub(crate) fn push_called(
    out: &mut Script,
    labels: &Labels<'_>,
    sheet: &Sheet,
) -> Result<(), AllocError>
    ensures { OnOk result (out.new ≡ out.old ++ called_rows labels.now sheet.now) }
{
    let case = sheet.case;
    push_title(out, case, labels.called.title_of(case))?;
    push_deadlines(out, labels, case, sheet.deadlines.as_slice())?;
    push_motions(out, labels, case, sheet.motions.as_slice())
}

/// Adds what rows call a case, if they do.
fn push_title(out: &mut Script, case: u32, title: &str) -> Result<(), AllocError>
    ensures { OnOk result (out.new ≡ out.old ++ title_row case title.now) }
{
    if title.is_empty() {
        return Ok(());
    }
    out.begin_row("titles", u64::from(case))?;
    out.text(title)?;
    out.end_row()
}

/// Adds what rows call each deadline of a case.
fn push_deadlines(
    out: &mut Script,
    labels: &Labels<'_>,
    case: u32,
    deadlines: &[SheetDeadline],
) -> Result<(), AllocError>
    ensures { OnOk result (out.new ≡ out.old ++ flat_map (label_of_deadline labels.now case) deadlines.now) }
{
    for deadline in deadlines {
        push_of_deadline(out, labels, case, deadline)?;
    }
    Ok(())
}

/// Adds what rows call a deadline.
fn push_of_deadline(
    out: &mut Script,
    labels: &Labels<'_>,
    case: u32,
    deadline: &SheetDeadline,
) -> Result<(), AllocError>
    ensures { OnOk result (out.new ≡ out.old ++ label_of_deadline labels.now case deadline.now) }
{
    let number = deadline.number;
    let label = labels.called.label_of(case, Counted::Deadline, number);
    push_deadline(out, case, number, label)
}

/// Adds what rows call the deadline of that number, if they do.
fn push_deadline(out: &mut Script, case: u32, deadline: u32, label: &str) -> Result<(), AllocError>
    ensures { OnOk result (out.new ≡ out.old ++ deadline_label case deadline label.now) }
{
    if label.is_empty() {
        return Ok(());
    }
    out.begin_row("labels", u64::from(case))?;
    out.number(u64::from(deadline))?;
    out.null()?;
    out.text(label)?;
    out.end_row()
}

/// Adds what rows call each motion of a case.
fn push_motions(
    out: &mut Script,
    labels: &Labels<'_>,
    case: u32,
    motions: &[SheetMotion],
) -> Result<(), AllocError>
    ensures { OnOk result (out.new ≡ out.old ++ flat_map (label_of_motion labels.now case) motions.now) }
{
    for motion in motions {
        push_of_motion(out, labels, case, motion)?;
    }
    Ok(())
}

/// Adds what rows call a motion.
fn push_of_motion(
    out: &mut Script,
    labels: &Labels<'_>,
    case: u32,
    motion: &SheetMotion,
) -> Result<(), AllocError>
    ensures { OnOk result (out.new ≡ out.old ++ label_of_motion labels.now case motion.now) }
{
    let number = motion.number;
    let label = labels.called.label_of(case, Counted::Motion, number);
    push_motion(out, case, number, label)
}

/// Adds what rows call the motion of that number, if they do.
fn push_motion(out: &mut Script, case: u32, motion: u32, label: &str) -> Result<(), AllocError>
    ensures { OnOk result (out.new ≡ out.old ++ motion_label case motion label.now) }
{
    if label.is_empty() {
        return Ok(());
    }
    out.begin_row("labels", u64::from(case))?;
    out.null()?;
    out.number(u64::from(motion))?;
    out.text(label)?;
    out.end_row()
}
