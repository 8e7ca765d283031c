//! The calendars of judges.

ghost use Rattle.std.specs.Prelude.{OnOk};
ghost use Rattle.report_json.specs.Bookings.{booked_fields, calendar_fields, called_booking_fields, labelled_booked};
ghost use Rattle.report_json.specs.Values.{AddsFields};

use crate::called::ToCalled;
use crate::spans::push_span;
use crate::to_json::{ToFields, ToJson};
use crate::writer::JsonWriter;
use court_days::Court;
use docket_rows::Counted;
use docket_selection::JudgeCalendar;
use hearing_slots::Booking;
use report_texts::Labels;
use std::alloc::AllocError;

impl ToFields for Booking {
    ghost use Rattle.report_json.specs.Bookings.{booking_fields};

    ghost fields = { booking_fields };

    #[tactic(auto, using(crate::proofs::TokenLemmas::more_fields))]
    fn write_fields(
        &self,
        out: &mut JsonWriter,
        court: &Court,
        labels: &Labels<'_>,
    ) -> Result<(), AllocError> {
        out.case_fields(court, labels, self.case)?;
        push_hearing(out, court, labels, self)
    }
}

/// Writes the motion of a booking, its room and its span.
#[tactic(auto, unfolding(crate::specs::Bookings::booked_fields))]
fn push_hearing(
    out: &mut JsonWriter,
    court: &Court,
    labels: &Labels<'_>,
    booking: &Booking,
) -> Result<(), AllocError>
    ensures { OnOk result (AddsFields out.old out.new (booked_fields court.now booking.now)) }
{
    out.field(court, labels, "motion", &booking.motion)?;
    out.text_if_any("room", court.room_name(booking.other))?;
    push_span(
        out,
        court,
        labels,
        booking.day,
        booking.first,
        booking.count,
    )
}

impl ToJson for Booking {
    ghost use Rattle.report_json.specs.Bookings.{booking_value};

    ghost value = { booking_value };

    #[tactic(auto, unfolding(crate::specs::Bookings::booking_value))]
    fn write(
        &self,
        out: &mut JsonWriter,
        court: &Court,
        labels: &Labels<'_>,
    ) -> Result<(), AllocError> {
        out.object(court, labels, self)
    }
}

/// Writes what is booked, and what rows call the motion.
#[tactic(auto, using(crate::proofs::TokenLemmas::more_fields))]
fn push_labelled(
    out: &mut JsonWriter,
    court: &Court,
    labels: &Labels<'_>,
    booking: &Booking,
) -> Result<(), AllocError>
    ensures { OnOk result (AddsFields out.old out.new (labelled_booked court.now labels.now booking.now)) }
{
    push_hearing(out, court, labels, booking)?;
    let (case, motion) = (booking.case, booking.motion);
    out.label_if_any(labels.called.label_of(case, Counted::Motion, motion))
}

/// Writes the case of a booking and what is booked, with what rows call the case and the motion.
#[tactic(auto, using(crate::proofs::TokenLemmas::more_fields))]
fn push_called(
    out: &mut JsonWriter,
    court: &Court,
    labels: &Labels<'_>,
    booking: &Booking,
) -> Result<(), AllocError>
    ensures { OnOk result (AddsFields out.old out.new (called_booking_fields court.now labels.now booking.now)) }
{
    out.called_case_fields(court, labels, booking.case)?;
    push_labelled(out, court, labels, booking)
}

impl ToCalled for Booking {
    ghost use Rattle.report_json.specs.Bookings.{called_booking};

    ghost value = { λ court labels case booking. called_booking court labels booking };

    #[tactic(auto, unfolding(crate::specs::Bookings::called_booking), using(crate::proofs::TokenLemmas::object_is))]
    fn write_called(
        &self,
        out: &mut JsonWriter,
        court: &Court,
        labels: &Labels<'_>,
        _case: u32,
    ) -> Result<(), AllocError> {
        out.begin_object()?;
        push_called(out, court, labels, self)?;
        out.end_object()
    }
}

/// Writes a judge, with each of the bookings.
fn push_calendar(
    out: &mut JsonWriter,
    court: &Court,
    labels: &Labels<'_>,
    calendar: &JudgeCalendar,
) -> Result<(), AllocError>
    ensures { OnOk result (AddsFields out.old out.new (calendar_fields court.now labels.now calendar.now)) }
{
    out.text_if_any("judge", court.judge_name(calendar.judge))?;
    out.called_field(court, labels, 0, "bookings", calendar.bookings.as_slice())
}

impl ToCalled for JudgeCalendar {
    ghost use Rattle.report_json.specs.Bookings.{calendar_value};

    ghost value = { λ court labels case calendar. calendar_value court labels calendar };

    #[tactic(auto, unfolding(crate::specs::Bookings::calendar_value), using(crate::proofs::TokenLemmas::object_is))]
    fn write_called(
        &self,
        out: &mut JsonWriter,
        court: &Court,
        labels: &Labels<'_>,
        _case: u32,
    ) -> Result<(), AllocError> {
        out.begin_object()?;
        push_calendar(out, court, labels, self)?;
        out.end_object()
    }
}
