//! The sheets of cases, with the reasons of each deadline, and with what rows call cases, deadlines and motions.

ghost use Rattle.std.specs.Prelude.{◌≡◌, [], ◌∷◌, OnOk};
ghost use Rattle.std.specs.List.{flat_map};
ghost use Rattle.json.specs.Tree.{json_tokens};
ghost use Rattle.report_json.specs.Motions.{labelled_motion};
ghost use Rattle.report_json.specs.Reasons.{explained_sheet_fields, instant_shown, labelled_fields, labelled_value, reason_values, reasons_field, why_fields};
ghost use Rattle.report_json.specs.Sheets.{lists_docketed, sheet_docketed};
ghost use Rattle.report_json.specs.Values.{Adds, AddsFields};

use crate::called::ToCalled;
use crate::sheets::push_standing;
use crate::to_json::{ToFields, ToJson};
use crate::writer::JsonWriter;
use court_clock::{Day, Instant};
use court_days::Court;
use deadline_reasons::Reason;
use docket_rows::{Assignment, Closure, Counted, SheetMotion};
use docket_selection::{ExplainedDeadline, ExplainedSheet};
use reason_texts::{Course, day_shown};
use report_texts::Labels;
use std::alloc::AllocError;

/// A reason, in the course of those before it.
#[derive(Clone, Copy, Debug)]
struct Step {
    course: Course,
    reason: Reason,
}

impl ToFields for Step {
    ghost use Rattle.report_json.specs.Reasons.{reason_fields};

    ghost fields = { λ court named step. reason_fields court.clock step.course step.reason };

    fn write_fields(
        &self,
        out: &mut JsonWriter,
        court: &Court,
        labels: &Labels<'_>,
    ) -> Result<(), AllocError> {
        let clock = court.clock();
        out.field(court, labels, "day", &day_shown(clock, &self.reason))?;
        out.field(court, labels, "at", &instant_shown(&self.reason))?;
        out.what_field(clock, &self.course, &self.reason)?;
        out.section_field(&self.course, &self.reason)
    }
}

impl ToJson for Step {
    ghost use Rattle.report_json.specs.Reasons.{reason_value};

    ghost value = { λ court named step. reason_value court.clock step.course step.reason };

    #[tactic(auto, unfolding(crate::specs::Reasons::reason_value))]
    fn write(
        &self,
        out: &mut JsonWriter,
        court: &Court,
        labels: &Labels<'_>,
    ) -> Result<(), AllocError> {
        out.object(court, labels, self)
    }
}

/// The instant that a reason is about, where it is about one.
fn instant_shown(reason: &Reason) -> Option<Instant>
    ensures { result ≡ instant_shown reason.now }
{
    match *reason {
        Reason::SetAt(instant)
        | Reason::HoursFrom(instant)
        | Reason::HoursCounted(_, instant, _)
        | Reason::SameTime(_, instant)
        | Reason::UntilInstant(instant) => Some(instant),
        _ => None,
    }
}

/// Writes the end by another reading, if there is one, and the reasons of a deadline.
fn push_why(
    out: &mut JsonWriter,
    court: &Court,
    labels: &Labels<'_>,
    explained: &ExplainedDeadline,
) -> Result<(), AllocError>
    ensures { OnOk result (AddsFields out.old out.new (why_fields court.now.clock explained.now)) }
{
    out.field(court, labels, "other_reading", &explained.other)?;
    push_reasons(out, court, labels, explained)
}

/// Writes the reasons of a deadline.
fn push_reasons(
    out: &mut JsonWriter,
    court: &Court,
    labels: &Labels<'_>,
    explained: &ExplainedDeadline,
) -> Result<(), AllocError>
    ensures { OnOk result (AddsFields out.old out.new (reasons_field court.now.clock explained.now ∷ [])) }
{
    let course = Course::of(&explained.deadline.row.period());
    out.key("reasons")?;
    out.begin_array()?;
    push_steps(out, court, labels, course, &explained.reasons)?;
    out.end_array()
}

/// Writes each reason, without the brackets.
fn push_steps(
    out: &mut JsonWriter,
    court: &Court,
    labels: &Labels<'_>,
    course: Course,
    reasons: &[Reason],
) -> Result<(), AllocError>
    ensures { OnOk result (Adds out.old out.new (flat_map json_tokens (reason_values court.now.clock course reasons.now))) }
{
    let mut here = course;
    for reason in reasons {
        let step = Step {
            course: here,
            reason: *reason,
        };
        step.write(out, court, labels)?;
        here = here.after(reason);
    }
    Ok(())
}

impl ToFields for ExplainedDeadline {
    ghost use Rattle.report_json.specs.Reasons.{explained_fields};

    ghost fields = { λ court named e. explained_fields court.clock e };

    #[tactic(auto, using(crate::proofs::TokenLemmas::more_fields))]
    fn write_fields(
        &self,
        out: &mut JsonWriter,
        court: &Court,
        labels: &Labels<'_>,
    ) -> Result<(), AllocError> {
        self.deadline.write_fields(out, court, labels)?;
        push_why(out, court, labels, self)
    }
}

/// Writes a deadline of a case, with its reasons, and what rows call it.
#[tactic(auto, using(crate::proofs::TokenLemmas::more_fields))]
fn push_labelled(
    out: &mut JsonWriter,
    court: &Court,
    labels: &Labels<'_>,
    case: u32,
    explained: &ExplainedDeadline,
) -> Result<(), AllocError>
    ensures { OnOk result (AddsFields out.old out.new (labelled_fields court.now.clock labels.now case explained.now)) }
{
    explained.write_fields(out, court, labels)?;
    let number = explained.deadline.number;
    out.label_if_any(labels.called.label_of(case, Counted::Deadline, number))
}

impl ToCalled for ExplainedDeadline {
    ghost use Rattle.report_json.specs.Reasons.{labelled_value};

    ghost value = { λ court labels case e. labelled_value court.clock labels case e };

    #[tactic(auto, unfolding(crate::specs::Reasons::labelled_value), using(crate::proofs::TokenLemmas::object_is))]
    fn write_called(
        &self,
        out: &mut JsonWriter,
        court: &Court,
        labels: &Labels<'_>,
        case: u32,
    ) -> Result<(), AllocError> {
        out.begin_object()?;
        push_labelled(out, court, labels, case, self)?;
        out.end_object()
    }
}

/// Writes when a case was filed, how it stands, its deadlines and its motions.
#[tactic(auto, unfolding(crate::specs::Sheets::sheet_docketed), using(crate::proofs::TokenLemmas::more_fields))]
fn push_docketed(
    out: &mut JsonWriter,
    court: &Court,
    labels: &Labels<'_>,
    case: u32,
    filed: Day,
    closed: Option<Closure>,
    assigned: Option<Assignment>,
    deadlines: &[ExplainedDeadline],
    motions: &[SheetMotion],
) -> Result<(), AllocError>
    ensures { OnOk result (AddsFields out.old out.new (sheet_docketed (labelled_value court.now.clock labels.now case) (labelled_motion court.now labels.now case) court.now filed closed assigned deadlines.now motions.now)) }
{
    out.field(court, labels, "filed", &filed)?;
    push_standing(out, court, labels, closed, assigned)?;
    push_lists(out, court, labels, case, deadlines, motions)
}

/// Writes the deadlines of a case and its motions.
#[tactic(auto, unfolding(crate::specs::Sheets::lists_docketed))]
fn push_lists(
    out: &mut JsonWriter,
    court: &Court,
    labels: &Labels<'_>,
    case: u32,
    deadlines: &[ExplainedDeadline],
    motions: &[SheetMotion],
) -> Result<(), AllocError>
    ensures { OnOk result (AddsFields out.old out.new (lists_docketed (labelled_value court.now.clock labels.now case) (labelled_motion court.now labels.now case) deadlines.now motions.now)) }
{
    out.called_field(court, labels, case, "deadlines", deadlines)?;
    out.called_field(court, labels, case, "motions", motions)
}

/// Writes a case, with its deadlines and its motions.
#[tactic(auto, using(crate::proofs::TokenLemmas::more_fields))]
fn push_sheet(
    out: &mut JsonWriter,
    court: &Court,
    labels: &Labels<'_>,
    sheet: &ExplainedSheet,
) -> Result<(), AllocError>
    ensures { OnOk result (AddsFields out.old out.new (explained_sheet_fields court.now labels.now sheet.now)) }
{
    out.called_case_fields(court, labels, sheet.case)?;
    push_docketed(
        out,
        court,
        labels,
        sheet.case,
        sheet.filed,
        sheet.closed,
        sheet.assigned,
        sheet.deadlines.as_slice(),
        sheet.motions.as_slice(),
    )
}

impl ToCalled for ExplainedSheet {
    ghost use Rattle.report_json.specs.Reasons.{case_value};

    ghost value = { λ court labels case sheet. case_value court labels sheet };

    #[tactic(auto, unfolding(crate::specs::Reasons::case_value), using(crate::proofs::TokenLemmas::object_is))]
    fn write_called(
        &self,
        out: &mut JsonWriter,
        court: &Court,
        labels: &Labels<'_>,
        _case: u32,
    ) -> Result<(), AllocError> {
        out.begin_object()?;
        push_sheet(out, court, labels, self)?;
        out.end_object()
    }
}
