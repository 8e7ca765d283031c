//! What of sheets is compared: the day on which a case was filed, the ends of its deadlines and which of them were ended, and the
//! hearings of its motions and how they were ruled on.
ghost use Rattle.std.specs.Prelude.{◌≡◌, ◌++◌, map, IfOk, OnOk};
ghost use Rattle.std.specs.List.{flat_map};
ghost use Rattle.docket_shifts.specs.Sheets.{end_of, ends_in, filed_in, hearing_of, hearings_in, ruling_under};

use crate::texts::NumberedText;
use court_clock::Day;
use court_days::Court;
use docket_rows::{DatedRuling, SheetDeadline, SheetMotion, View};
use office_texts::{push_and_ended, push_and_ruled, push_hearing, push_ruled, push_shown};
use std::alloc::{AllocError, Global};

// The day on which the case of a sheet was filed, where the view is one.
pub(crate) fn filed_in(view: &View) -> Option<Day>
    ensures { result ≡ filed_in view.now }
{
    match view {
        View::Sheet(sheet) => Some(sheet.filed),
        _ => None,
    }
}

// The end of a deadline, as answers show it, and why it is due no more, if it was ended.
fn end_of(
    alloc: Global,
    court: &Court,
    deadline: &SheetDeadline,
) -> Result<NumberedText, AllocError>
    ensures { IfOk result (λ end. end ≡ end_of court.now.clock deadline.now) }
{
    let mut text = String::new(alloc);
    push_shown(&mut text, court.clock(), &deadline.shown)?;
    push_and_ended(&mut text, deadline.ended)?;
    Ok(NumberedText {
        number: deadline.number,
        text,
    })
}

// The ends of deadlines.
fn ends_of(
    alloc: Global,
    court: &Court,
    deadlines: &[SheetDeadline],
) -> Result<Vec<NumberedText>, AllocError>
    ensures { IfOk result (λ ends. ends.items ≡ map (end_of court.now.clock) deadlines.now) }
{
    let mut ends = Vec::new(alloc);
    for deadline in deadlines {
        ends.push(end_of(alloc, court, deadline)?)?;
    }
    Ok(ends)
}

// The ends of the deadlines of a sheet, where the view is one.
pub(crate) fn ends_in(
    alloc: Global,
    court: &Court,
    view: &View,
) -> Result<Vec<NumberedText>, AllocError>
    ensures { IfOk result (λ ends. ends.items ≡ ends_in court.now view.now) }
{
    match view {
        View::Sheet(sheet) => ends_of(alloc, court, sheet.deadlines.as_slice()),
        _ => Ok(Vec::new(alloc)),
    }
}

// Adds how the motion of that number was ruled on, as sheets show it, if it was.
fn push_ruling_under(
    alloc: Global,
    number: u32,
    ruled: Option<DatedRuling>,
    hearings: &mut Vec<NumberedText>,
) -> Result<(), AllocError>
    ensures { OnOk result (hearings.new.items ≡ hearings.old.items ++ ruling_under number ruled) }
{
    let Some(ruled) = ruled else {
        return Ok(());
    };
    let mut text = String::new(alloc);
    push_ruled(&mut text, ruled)?;
    hearings.push(NumberedText { number, text })?;
    Ok(())
}

// Adds the hearing of a motion, as sheets show it, if it has one, and how it was ruled on, if it was.
fn push_hearing_of(
    alloc: Global,
    court: &Court,
    motion: &SheetMotion,
    hearings: &mut Vec<NumberedText>,
) -> Result<(), AllocError>
    ensures { OnOk result (hearings.new.items ≡ hearings.old.items ++ hearing_of court.now motion.now) }
{
    let Some(hearing) = motion.hearing else {
        return push_ruling_under(alloc, motion.number, motion.ruling, hearings);
    };
    let mut text = String::new(alloc);
    push_hearing(&mut text, court, &hearing)?;
    push_and_ruled(&mut text, motion.ruling)?;
    hearings.push(NumberedText {
        number: motion.number,
        text,
    })?;
    Ok(())
}

// The hearings of motions, and how they were ruled on.
fn hearings_of(
    alloc: Global,
    court: &Court,
    motions: &[SheetMotion],
) -> Result<Vec<NumberedText>, AllocError>
    ensures { IfOk result (λ hearings. hearings.items ≡ flat_map (hearing_of court.now) motions.now) }
{
    let mut hearings = Vec::new(alloc);
    for motion in motions {
        push_hearing_of(alloc, court, motion, &mut hearings)?;
    }
    Ok(hearings)
}

// Those of a sheet, where the view is one.
pub(crate) fn hearings_in(
    alloc: Global,
    court: &Court,
    view: &View,
) -> Result<Vec<NumberedText>, AllocError>
    ensures { IfOk result (λ hearings. hearings.items ≡ hearings_in court.now view.now) }
{
    match view {
        View::Sheet(sheet) => hearings_of(alloc, court, sheet.motions.as_slice()),
        _ => Ok(Vec::new(alloc)),
    }
}
