//! Deadlines, with their ends.

ghost use Rattle.std.specs.Prelude.{◌≡◌, ◌<◌, [], ◌∷◌, IfSome, OnOk, codes};
ghost use Rattle.json.specs.Json.{string};
ghost use Rattle.office_texts.specs.Words.{means_text, state_word};
ghost use Rattle.report_json.specs.Deadlines.{docketed_fields, end_of, ended_fields, filed_value, last_day_of, outcome_fields, started_fields, suspended_fields, why_fields};
ghost use Rattle.report_json.specs.Times.{happened_fields, instant_value};
ghost use Rattle.report_json.specs.Values.{AddsFields, field, or_null};

use crate::periods::{code_of, entered_of};
use crate::to_json::{ToFields, ToJson};
use crate::writer::JsonWriter;
use court_clock::{Day, Instant};
use court_days::Court;
use docket_rows::{Ending, SheetDeadline, State};
use report_texts::Labels;
use rule_periods::{DeadlineRow, Event};
use rule6::{Filing, Means, Shown};
use std::alloc::AllocError;

impl ToFields for SheetDeadline {
    ghost use Rattle.report_json.specs.Deadlines.{deadline_fields};

    ghost fields = { λ court named deadline. deadline_fields court.clock.zone deadline };

    #[tactic(auto, using(crate::proofs::TokenLemmas::more_fields))]
    fn write_fields(
        &self,
        out: &mut JsonWriter,
        court: &Court,
        labels: &Labels<'_>,
    ) -> Result<(), AllocError> {
        push_docketed(out, court, labels, self)?;
        push_outcome(out, court, labels, self)
    }
}

/// Writes what is docketed of a deadline.
#[tactic(auto, unfolding(crate::specs::Deadlines::docketed_fields))]
fn push_docketed(
    out: &mut JsonWriter,
    court: &Court,
    labels: &Labels<'_>,
    deadline: &SheetDeadline,
) -> Result<(), AllocError>
    ensures { OnOk result (AddsFields out.old out.new (docketed_fields court.now.clock.zone deadline.now)) }
{
    let row = &deadline.row;
    let period = row.period();
    out.field(court, labels, "number", &deadline.number)?;
    out.text_if_any("period", code_of(&period))?;
    out.field(court, labels, "entered", &entered_of(&period))?;
    push_started(out, court, labels, row)
}

/// Writes from what a deadline runs, and its extensions.
#[tactic(auto, unfolding(crate::specs::Deadlines::started_fields))]
fn push_started(
    out: &mut JsonWriter,
    court: &Court,
    labels: &Labels<'_>,
    row: &DeadlineRow,
) -> Result<(), AllocError>
    ensures { OnOk result (AddsFields out.old out.new (started_fields court.now.clock.zone row.now)) }
{
    out.field(court, labels, "event", &row.event())?;
    out.field(court, labels, "second_day", &row.second())?;
    out.field(court, labels, "service", &row.service())?;
    out.list_field(court, labels, "grants", row.grants())
}

/// Writes when a deadline's time ends, whether it was met, and why it is due no more, if it was ended.
#[tactic(auto, unfolding(crate::specs::Deadlines::outcome_fields))]
fn push_outcome(
    out: &mut JsonWriter,
    court: &Court,
    labels: &Labels<'_>,
    deadline: &SheetDeadline,
) -> Result<(), AllocError>
    ensures { OnOk result (AddsFields out.old out.new (outcome_fields court.now.clock.zone deadline.now)) }
{
    deadline.shown.write_fields(out, court, labels)?;
    out.field(court, labels, "state", &deadline.state)?;
    push_filed(out, court, labels, deadline.row.filed())?;
    push_ended(out, court, labels, deadline.ended)
}

/// Writes why a deadline is due no more, if it was ended.
fn push_ended(
    out: &mut JsonWriter,
    court: &Court,
    labels: &Labels<'_>,
    ended: Option<Ending>,
) -> Result<(), AllocError>
    ensures { OnOk result (AddsFields out.old out.new (ended_fields ended)) }
{
    match ended {
        Some(why) => push_why(out, court, labels, why),
        None => Ok(()),
    }
}

/// Writes why a deadline is due no more.
fn push_why(
    out: &mut JsonWriter,
    court: &Court,
    labels: &Labels<'_>,
    why: Ending,
) -> Result<(), AllocError>
    ensures { OnOk result (AddsFields out.old out.new (why_fields why)) }
{
    out.text_field("ended", why.word())?;
    push_suspender(out, court, labels, why.suspended_by())
}

/// Writes which motion suspends a deadline, where its number is known.
fn push_suspender(
    out: &mut JsonWriter,
    court: &Court,
    labels: &Labels<'_>,
    motion: Option<u32>,
) -> Result<(), AllocError>
    ensures { OnOk result (AddsFields out.old out.new (suspended_fields motion)) }
{
    match motion {
        Some(motion) => out.field(court, labels, "suspended_by", &motion),
        None => Ok(()),
    }
}

impl ToJson for SheetDeadline {
    ghost use Rattle.report_json.specs.Deadlines.{deadline_value};

    ghost value = { λ court named deadline. deadline_value court.clock.zone deadline };

    #[tactic(auto, unfolding(crate::specs::Deadlines::deadline_value))]
    fn write(
        &self,
        out: &mut JsonWriter,
        court: &Court,
        labels: &Labels<'_>,
    ) -> Result<(), AllocError> {
        out.object(court, labels, self)
    }
}

/// When a time ends: its last day, or the instant at which its hours end.
impl ToFields for Shown {
    ghost use Rattle.report_json.specs.Deadlines.{shown_fields};

    ghost fields = { λ court named shown. shown_fields court.clock.zone shown };

    fn write_fields(
        &self,
        out: &mut JsonWriter,
        court: &Court,
        labels: &Labels<'_>,
    ) -> Result<(), AllocError> {
        out.field(court, labels, "last_day", &last_day_of(self))?;
        out.field(court, labels, "end", &end_of(self))
    }
}

/// The end by another reading, as an object.
impl ToJson for Shown {
    ghost use Rattle.report_json.specs.Deadlines.{shown_value};

    ghost value = { λ court named shown. shown_value court.clock.zone shown };

    #[tactic(auto, unfolding(crate::specs::Deadlines::shown_value))]
    fn write(
        &self,
        out: &mut JsonWriter,
        court: &Court,
        labels: &Labels<'_>,
    ) -> Result<(), AllocError> {
        out.object(court, labels, self)
    }
}

fn last_day_of(shown: &Shown) -> Option<Day>
    ensures { result ≡ last_day_of shown.now }
{
    match *shown {
        Shown::Last { day, act: _ } => Some(day),
        Shown::Until(_) | Shown::Beyond => None,
    }
}

fn end_of(shown: &Shown) -> Option<Instant>
    ensures { result ≡ end_of shown.now }
{
    match *shown {
        Shown::Until(end) => Some(end),
        Shown::Last { .. } | Shown::Beyond => None,
    }
}

impl ToJson for Instant {
    ghost value = { λ court named instant. instant_value court.clock.zone instant };

    fn write(
        &self,
        out: &mut JsonWriter,
        court: &Court,
        labels: &Labels<'_>,
    ) -> Result<(), AllocError> {
        out.instant(court.clock(), *self)
    }
}

impl ToFields for Event {
    ghost fields = { λ court named event. happened_fields court.clock.zone event.day event.minute };

    fn write_fields(
        &self,
        out: &mut JsonWriter,
        court: &Court,
        labels: &Labels<'_>,
    ) -> Result<(), AllocError> {
        push_happened(out, court, labels, self.day(), self.minute())
    }
}

impl ToJson for Event {
    ghost use Rattle.report_json.specs.Deadlines.{event_value};

    ghost value = { λ court named event. event_value court.clock.zone event };

    #[tactic(auto, unfolding(crate::specs::Deadlines::event_value))]
    fn write(
        &self,
        out: &mut JsonWriter,
        court: &Court,
        labels: &Labels<'_>,
    ) -> Result<(), AllocError> {
        out.object(court, labels, self)
    }
}

/// Writes when something happened.
fn push_happened(
    out: &mut JsonWriter,
    court: &Court,
    labels: &Labels<'_>,
    day: Day,
    minute: u16,
) -> Result<(), AllocError>
    requires { minute < 1440 }
    ensures { OnOk result (AddsFields out.old out.new (happened_fields court.now.clock.zone day minute)) }
{
    out.field(court, labels, "day", &day)?;
    out.minute_field("time", minute)?;
    out.moment_field(court, "at", day, 60 * u32::from(minute))
}

/// An act that is recorded.
#[derive(Drop)]
struct Done {
    filing: Filing,
    ghost in_the_day: { filing.minute < 1440 },
}

/// Writes the act that was recorded, if one was.
#[tactic(auto, unfolding(crate::specs::Values::field_tokens))]
fn push_filed(
    out: &mut JsonWriter,
    court: &Court,
    labels: &Labels<'_>,
    filed: Option<Filing>,
) -> Result<(), AllocError>
    requires { IfSome filed (λ f. f.minute < 1440) }
    ensures { OnOk result (AddsFields out.old out.new (field (codes "filed") (or_null (filed_value court.now.clock.zone) filed) ∷ [])) }
{
    out.key("filed")?;
    match filed {
        Some(filing) => Done { filing }.write(out, court, labels),
        None => out.null(),
    }
}

impl ToFields for Done {
    ghost use Rattle.report_json.specs.Deadlines.{filed_fields};

    ghost fields = { λ court named done. filed_fields court.clock.zone done.filing };

    fn write_fields(
        &self,
        out: &mut JsonWriter,
        court: &Court,
        labels: &Labels<'_>,
    ) -> Result<(), AllocError> {
        push_happened(out, court, labels, self.filing.day, self.filing.minute)?;
        out.text_field("means", means_word(self.filing.means))
    }
}

impl ToJson for Done {
    ghost use Rattle.report_json.specs.Deadlines.{filed_value};

    ghost value = { λ court named done. filed_value court.clock.zone done.filing };

    #[tactic(auto, unfolding(crate::specs::Deadlines::filed_value))]
    fn write(
        &self,
        out: &mut JsonWriter,
        court: &Court,
        labels: &Labels<'_>,
    ) -> Result<(), AllocError> {
        out.object(court, labels, self)
    }
}

fn means_word(means: Means) -> &'static str
    ensures { result.now ≡ means_text means }
{
    match means {
        Means::Electronic => "electronic",
        Means::Paper => "paper",
    }
}

impl ToJson for State {
    ghost value = { λ court named state. string (state_word state) };

    fn write(
        &self,
        out: &mut JsonWriter,
        _court: &Court,
        _labels: &Labels<'_>,
    ) -> Result<(), AllocError> {
        out.text(state_word(*self))
    }
}

fn state_word(state: State) -> &'static str
    ensures { result.now ≡ state_word state }
{
    match state {
        State::Pending => "pending",
        State::Timely => "timely",
        State::Late => "late",
        State::Undecided => "undecided",
    }
}
