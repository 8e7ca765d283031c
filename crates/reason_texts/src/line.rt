//! The lines of reasons.

ghost use Rattle.std.specs.Prelude.{◌≡◌, ◌++◌, [], ◌∷◌, OnOk, codes, string_bytes};
ghost use Rattle.reason_texts.specs.Day.{day_column, day_shown};
ghost use Rattle.reason_texts.specs.Line.{lines_of, reason_line, reason_lines};
ghost use Rattle.reason_texts.specs.Section.{section_text};
ghost use Rattle.reason_texts.specs.Spaces.{padded};
ghost use Rattle.reason_texts.specs.What.{what_text};

use crate::course::Course;
use crate::day::{day_shown, push_day};
use crate::names::HolidayName;
use crate::older_event::push_line_before;
use crate::section::push_section;
use crate::spaces::{WIDTH, push_spaces};
use crate::what::push_what;
use court_clock::{Clock, Direction};
use deadline_reasons::Reason;
use std::alloc::AllocError;

/// Adds a line for each reason, in their order, from the course before the first of them on, and one more where the event
/// is an older one. A holiday is called by the first of these names that its day has, if it has one. `Err` says that
/// memory ran out.
pub fn push_reasons(
    text: &mut String,
    clock: &Clock,
    names: &[HolidayName],
    course: Course,
    reasons: &[Reason],
) -> Result<(), AllocError>
    ensures { OnOk result (string_bytes text.new ≡ string_bytes text.old ++ reason_lines clock.now names.now course reasons.now) }
{
    let mut here = course;
    for reason in reasons {
        push_lines(text, clock, names, &here, reason)?;
        here = here.after(reason);
    }
    Ok(())
}

/// Adds the line of a reason, after that of an older event where there is one.
fn push_lines(
    text: &mut String,
    clock: &Clock,
    names: &[HolidayName],
    course: &Course,
    reason: &Reason,
) -> Result<(), AllocError>
    ensures { OnOk result (string_bytes text.new ≡ string_bytes text.old ++ lines_of clock.now names.now course.now reason.now) }
{
    push_line_before(text, course.right_from, reason)?;
    push_reason(text, clock, names, course, reason)
}

/// Adds the line of a reason: two spaces, the weekday and the date, what happened, and the section of the Federal Rules
/// of Civil Procedure by which it goes, or `ours` where they leave it open. Times are those of the court's clock. `Err`
/// says that memory ran out.
#[tactic(auto, unfolding(crate::specs::Line::reason_line))]
pub fn push_reason(
    text: &mut String,
    clock: &Clock,
    names: &[HolidayName],
    course: &Course,
    reason: &Reason,
) -> Result<(), AllocError>
    ensures { OnOk result (string_bytes text.new ≡ string_bytes text.old ++ reason_line clock.now names.now course.now reason.now) }
{
    text.push_str("  ")?;
    push_day(text, day_shown(clock, reason))?;
    text.push_str("  ")?;
    push_padded(text, clock, names, course.direction, reason)?;
    push_end(text, course, reason)
}

/// Adds what happened, and spaces up to the next column.
#[tactic(auto, using(crate::proofs::SpacesLemmas::length_behind))]
fn push_padded(
    text: &mut String,
    clock: &Clock,
    names: &[HolidayName],
    direction: Direction,
    reason: &Reason,
) -> Result<(), AllocError>
    ensures { OnOk result (string_bytes text.new ≡ string_bytes text.old ++ padded (what_text clock.now names.now direction reason.now)) }
{
    let before = text.len();
    push_what(text, clock, names, direction, reason)?;
    let wide = text.len() - before;
    push_spaces(text, WIDTH.saturating_sub(wide))
}

/// Adds the section, and the end of the line.
fn push_end(text: &mut String, course: &Course, reason: &Reason) -> Result<(), AllocError>
    ensures { OnOk result (string_bytes text.new ≡ string_bytes text.old ++ codes "  " ++ section_text course.now reason.now ++ 10 ∷ []) }
{
    text.push_str("  ")?;
    push_section(text, course, reason)?;
    text.push_str("\n")
}
