//! The period of a deadline, and its extensions.

ghost use Rattle.std.specs.Prelude.{◌≡◌, OnOk, option_copied};
ghost use Rattle.office_texts.specs.Words.{act_text, direction_text, start_text};
ghost use Rattle.report_json.specs.Values.{AddsFields};
ghost use Rattle.report_json.specs.Periods.{code_of, day_of_grant, days_of_grant, days_of_length, entered_of, extension_fields, hours_of_grant, hours_of_length, order_fields, service_letter};

use crate::to_json::{ToFields, ToJson};
use crate::writer::JsonWriter;
use court_clock::{Day, Direction};
use court_days::Court;
use report_texts::Labels;
use rule_periods::{Entered, Grant, Length, Period};
use rule6::{Act, ServiceKind};
use std::alloc::AllocError;

/// The code of a period that the Rules set, or `set` where an order sets its end.
pub(crate) fn code_of(period: &Period) -> Option<&'static str>
    ensures { option_copied result ≡ code_of period.now }
{
    match period {
        Period::Rule(rule) => Some(rule.code()),
        Period::Entered(entered) if entered.length.is_set() => Some("set"),
        Period::Entered(_) => None,
    }
}

/// What a court entered.
pub(crate) fn entered_of(period: &Period) -> Option<Entered>
    ensures { result ≡ entered_of period.now }
{
    match period {
        Period::Rule(_) => None,
        Period::Entered(entered) => Some(*entered),
    }
}

impl ToFields for Entered {
    ghost use Rattle.report_json.specs.Periods.{entered_fields};

    ghost fields = { λ court named entered. entered_fields entered };

    fn write_fields(
        &self,
        out: &mut JsonWriter,
        court: &Court,
        labels: &Labels<'_>,
    ) -> Result<(), AllocError> {
        out.field(court, labels, "days", &days_of_length(self.length))?;
        out.field(court, labels, "hours", &hours_of_length(self.length))?;
        out.text_field("direction", direction_word(self.direction))?;
        out.text_field("act", act_word(self.act))?;
        out.text_field("from", start_word(self.served))?;
        out.text_field("mark", self.mark.code())
    }
}

impl ToJson for Entered {
    ghost use Rattle.report_json.specs.Periods.{entered_value};

    ghost value = { λ court named entered. entered_value entered };

    #[tactic(auto, unfolding(crate::specs::Periods::entered_value))]
    fn write(
        &self,
        out: &mut JsonWriter,
        court: &Court,
        labels: &Labels<'_>,
    ) -> Result<(), AllocError> {
        out.object(court, labels, self)
    }
}

fn days_of_length(length: Length) -> Option<u32>
    ensures { result ≡ days_of_length length }
{
    match length {
        Length::Days(days) => Some(days),
        Length::Hours(_) | Length::ToDay | Length::ToTime => None,
    }
}

fn hours_of_length(length: Length) -> Option<u32>
    ensures { result ≡ hours_of_length length }
{
    match length {
        Length::Days(_) | Length::ToDay | Length::ToTime => None,
        Length::Hours(hours) => Some(hours),
    }
}

fn direction_word(direction: Direction) -> &'static str
    ensures { result.now ≡ direction_text direction }
{
    match direction {
        Direction::After => "after",
        Direction::Before => "before",
    }
}

fn act_word(act: Act) -> &'static str
    ensures { result.now ≡ act_text act }
{
    match act {
        Act::Filing => "filing",
        Act::Service => "service",
    }
}

fn start_word(served: bool) -> &'static str
    ensures { result.now ≡ start_text served }
{
    if served { "served" } else { "event" }
}

impl ToJson for ServiceKind {
    ghost use Rattle.report_json.specs.Periods.{service_value};

    ghost value = { λ court named kind. service_value kind };

    fn write(
        &self,
        out: &mut JsonWriter,
        _court: &Court,
        _labels: &Labels<'_>,
    ) -> Result<(), AllocError> {
        out.text(service_letter(*self))
    }
}

fn service_letter(kind: ServiceKind) -> &'static str
    ensures { result.now ≡ service_letter kind }
{
    match kind {
        ServiceKind::HandA => "A",
        ServiceKind::LeftB => "B",
        ServiceKind::MailC => "C",
        ServiceKind::ClerkD => "D",
        ServiceKind::ElectronicE => "E",
        ServiceKind::OtherF => "F",
    }
}

impl ToFields for Grant {
    ghost use Rattle.report_json.specs.Periods.{grant_fields};

    ghost fields = { λ court named grant. grant_fields grant };

    #[tactic(auto, using(crate::proofs::TokenLemmas::more_fields))]
    fn write_fields(
        &self,
        out: &mut JsonWriter,
        court: &Court,
        labels: &Labels<'_>,
    ) -> Result<(), AllocError> {
        push_extension(out, court, labels, self)?;
        push_order(out, court, labels, *self)
    }
}

/// Writes an extension: by days, by hours, or until a day.
fn push_extension(
    out: &mut JsonWriter,
    court: &Court,
    labels: &Labels<'_>,
    grant: &Grant,
) -> Result<(), AllocError>
    ensures { OnOk result (AddsFields out.old out.new (extension_fields grant.now)) }
{
    out.field(court, labels, "days", &days_of_grant(*grant))?;
    out.field(court, labels, "hours", &hours_of_grant(*grant))?;
    out.field(court, labels, "until", &day_of_grant(*grant))
}

/// Writes that an order set the end, if one did, and where it set one the time of day.
fn push_order(
    out: &mut JsonWriter,
    court: &Court,
    labels: &Labels<'_>,
    grant: Grant,
) -> Result<(), AllocError>
    ensures { OnOk result (AddsFields out.old out.new (order_fields grant)) }
{
    match grant {
        Grant::ByDays(_) | Grant::ByHours(_) | Grant::Until(_) => Ok(()),
        Grant::Reset(_) => out.field(court, labels, "order", &true),
        Grant::ResetAt(at) => {
            out.field(court, labels, "order", &true)?;
            out.minute_field("time", at.minute())
        }
    }
}

impl ToJson for Grant {
    ghost use Rattle.report_json.specs.Periods.{grant_value};

    ghost value = { λ court named grant. grant_value grant };

    #[tactic(auto, unfolding(crate::specs::Periods::grant_value))]
    fn write(
        &self,
        out: &mut JsonWriter,
        court: &Court,
        labels: &Labels<'_>,
    ) -> Result<(), AllocError> {
        out.object(court, labels, self)
    }
}

fn days_of_grant(grant: Grant) -> Option<u32>
    ensures { result ≡ days_of_grant grant }
{
    match grant {
        Grant::ByDays(days) => Some(days),
        Grant::ByHours(_) | Grant::Until(_) | Grant::Reset(_) | Grant::ResetAt(_) => None,
    }
}

fn hours_of_grant(grant: Grant) -> Option<u32>
    ensures { result ≡ hours_of_grant grant }
{
    match grant {
        Grant::ByHours(hours) => Some(hours),
        Grant::ByDays(_) | Grant::Until(_) | Grant::Reset(_) | Grant::ResetAt(_) => None,
    }
}

fn day_of_grant(grant: Grant) -> Option<Day>
    ensures { result ≡ day_of_grant grant }
{
    match grant {
        Grant::Until(day) | Grant::Reset(day) => Some(day),
        Grant::ResetAt(at) => Some(at.day()),
        Grant::ByDays(_) | Grant::ByHours(_) => None,
    }
}
