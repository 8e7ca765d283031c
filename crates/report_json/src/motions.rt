//! Motions, with their hearings.

ghost use Rattle.std.specs.Prelude.{[], ◌∷◌, OnOk, codes};
ghost use Rattle.report_json.specs.Motions.{heard_fields, hearing_value, labelled_motion_fields, notice_days_of, ruling_fields};
ghost use Rattle.report_json.specs.Values.{AddsFields, amount, field, or_null};

use crate::called::ToCalled;
use crate::names::push_panel;
use crate::spans::push_span;
use crate::to_json::{ToFields, ToJson};
use crate::writer::JsonWriter;
use court_days::Court;
use docket_rows::{Counted, DatedRuling, SheetHearing, SheetMotion};
use hearing_slots::Need;
use report_texts::Labels;
use std::alloc::AllocError;

impl ToFields for SheetMotion {
    ghost use Rattle.report_json.specs.Motions.{motion_fields};

    ghost fields = { λ court named motion. motion_fields court motion };

    #[tactic(auto, using(crate::proofs::TokenLemmas::more_fields))]
    fn write_fields(
        &self,
        out: &mut JsonWriter,
        court: &Court,
        labels: &Labels<'_>,
    ) -> Result<(), AllocError> {
        push_heard(out, court, labels, self)?;
        push_ruling(out, court, labels, self.ruling)
    }
}

/// Writes what is docketed of a motion: its number, when it was served, the notice that it needs, and its hearing.
#[tactic(auto, unfolding(crate::specs::Motions::heard_fields))]
fn push_heard(
    out: &mut JsonWriter,
    court: &Court,
    labels: &Labels<'_>,
    motion: &SheetMotion,
) -> Result<(), AllocError>
    ensures { OnOk result (AddsFields out.old out.new (heard_fields court.now motion.now)) }
{
    out.field(court, labels, "number", &motion.number)?;
    out.field(court, labels, "served", &motion.served)?;
    out.field(court, labels, "notice_days", &motion.need)?;
    push_hearing_if_set(out, court, labels, &motion.hearing)
}

/// Writes how a motion was ruled on, and when, if it was.
fn push_ruling(
    out: &mut JsonWriter,
    court: &Court,
    labels: &Labels<'_>,
    ruling: Option<DatedRuling>,
) -> Result<(), AllocError>
    ensures { OnOk result (AddsFields out.old out.new (ruling_fields ruling)) }
{
    match ruling {
        Some(DatedRuling { ruling, dated }) => {
            out.text_field("ruling", ruling.word())?;
            out.field(court, labels, "ruled", &dated)
        }
        None => Ok(()),
    }
}

/// Writes the hearing of a motion, if one is set.
#[tactic(auto, unfolding(crate::specs::Values::field_tokens))]
fn push_hearing_if_set(
    out: &mut JsonWriter,
    court: &Court,
    labels: &Labels<'_>,
    hearing: &Option<SheetHearing>,
) -> Result<(), AllocError>
    ensures { OnOk result (AddsFields out.old out.new (field (codes "hearing") (or_null (hearing_value court.now) hearing.now) ∷ [])) }
{
    out.key("hearing")?;
    match hearing {
        Some(hearing) => hearing.write(out, court, labels),
        None => out.null(),
    }
}

impl ToJson for SheetMotion {
    ghost use Rattle.report_json.specs.Motions.{motion_value};

    ghost value = { λ court named motion. motion_value court motion };

    #[tactic(auto, unfolding(crate::specs::Motions::motion_value))]
    fn write(
        &self,
        out: &mut JsonWriter,
        court: &Court,
        labels: &Labels<'_>,
    ) -> Result<(), AllocError> {
        out.object(court, labels, self)
    }
}

/// Writes a motion of a case, and what rows call it.
#[tactic(auto, using(crate::proofs::TokenLemmas::more_fields))]
fn push_labelled(
    out: &mut JsonWriter,
    court: &Court,
    labels: &Labels<'_>,
    case: u32,
    motion: &SheetMotion,
) -> Result<(), AllocError>
    ensures { OnOk result (AddsFields out.old out.new (labelled_motion_fields court.now labels.now case motion.now)) }
{
    motion.write_fields(out, court, labels)?;
    out.label_if_any(labels.called.label_of(case, Counted::Motion, motion.number))
}

impl ToCalled for SheetMotion {
    ghost use Rattle.report_json.specs.Motions.{labelled_motion};

    ghost value = { λ court labels case motion. labelled_motion court labels case motion };

    #[tactic(auto, unfolding(crate::specs::Motions::labelled_motion), using(crate::proofs::TokenLemmas::object_is))]
    fn write_called(
        &self,
        out: &mut JsonWriter,
        court: &Court,
        labels: &Labels<'_>,
        case: u32,
    ) -> Result<(), AllocError> {
        out.begin_object()?;
        push_labelled(out, court, labels, case, self)?;
        out.end_object()
    }
}

/// The days of notice that a motion needs; none if it may be heard without notice.
impl ToJson for Need {
    ghost value = { λ court named need. or_null amount (notice_days_of need) };

    fn write(
        &self,
        out: &mut JsonWriter,
        _court: &Court,
        _labels: &Labels<'_>,
    ) -> Result<(), AllocError> {
        match self {
            Need::ExParte => out.null(),
            Need::Days(days) => out.number(u64::from(*days)),
        }
    }
}

impl ToFields for SheetHearing {
    ghost use Rattle.report_json.specs.Motions.{hearing_fields};

    ghost fields = { λ court named hearing. hearing_fields court hearing };

    fn write_fields(
        &self,
        out: &mut JsonWriter,
        court: &Court,
        labels: &Labels<'_>,
    ) -> Result<(), AllocError> {
        let hearing = &self.hearing;
        push_panel(out, court, hearing.judges.judges())?;
        out.text_if_any("room", court.room_name(hearing.room))?;
        out.field(court, labels, "notice", &hearing.notice)?;
        out.field(court, labels, "affidavits", &self.affidavits)?;
        push_span(
            out,
            court,
            labels,
            hearing.day,
            hearing.first,
            hearing.count,
        )
    }
}

impl ToJson for SheetHearing {
    ghost use Rattle.report_json.specs.Motions.{hearing_value};

    ghost value = { λ court named hearing. hearing_value court hearing };

    #[tactic(auto, unfolding(crate::specs::Motions::hearing_value))]
    fn write(
        &self,
        out: &mut JsonWriter,
        court: &Court,
        labels: &Labels<'_>,
    ) -> Result<(), AllocError> {
        out.object(court, labels, self)
    }
}
