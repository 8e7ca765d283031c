//! Periods, as rows name them.

ghost use Rattle.std.specs.Prelude.{◌≡◌, OnOk};
ghost use Rattle.office_texts.specs.Added.{AddsText};
ghost use Rattle.office_texts.specs.Periods.{act_text, direction_text, entered_text, length_text, measured_text, period_text, set_text, start_text};

use crate::numbers::push_number;
use court_clock::Direction;
use rule_periods::{Entered, Length, Period};
use rule6::Act;
use std::alloc::AllocError;

/// Adds the code of a period that the Rules set, the five words of one that a court enters, or the two of an end that an order sets.
#[tactic(auto, unfolding(crate::specs::Periods::period_text))]
pub(crate) fn push_period(text: &mut String, period: &Period) -> Result<(), AllocError>
    ensures { OnOk result (AddsText text.old text.new (period_text period.now)) }
{
    match period {
        Period::Rule(rule) => text.push_str(rule.code()),
        Period::Entered(entered) => push_entered(text, entered),
    }
}

/// Adds the five words of a period that a court enters, or the two of an end that an order sets, as rows name it. `Err` says that
/// memory ran out.
pub fn push_entered(text: &mut String, entered: &Entered) -> Result<(), AllocError>
    ensures { OnOk result (AddsText text.old text.new (entered_text entered.now)) }
{
    if entered.length.is_set() {
        push_set(text, entered)
    } else {
        push_measured(text, entered)
    }
}

/// Adds the two words of an end that an order sets.
fn push_set(text: &mut String, entered: &Entered) -> Result<(), AllocError>
    ensures { OnOk result (AddsText text.old text.new (set_text entered.now)) }
{
    push_length(text, entered.length)?;
    text.push_str("/")?;
    text.push_str(act_word(entered.act))
}

/// Adds the five words of a period that a court enters.
fn push_measured(text: &mut String, entered: &Entered) -> Result<(), AllocError>
    ensures { OnOk result (AddsText text.old text.new (measured_text entered.now)) }
{
    push_length(text, entered.length)?;
    text.push_str("/")?;
    text.push_str(direction_word(entered.direction))?;
    text.push_str("/")?;
    text.push_str(act_word(entered.act))?;
    text.push_str("/")?;
    text.push_str(start_word(entered.served))?;
    text.push_str("/")?;
    text.push_str(entered.mark.code())
}

fn push_length(text: &mut String, length: Length) -> Result<(), AllocError>
    ensures { OnOk result (AddsText text.old text.new (length_text length)) }
{
    match length {
        Length::Days(days) => {
            push_number(text, u64::from(days))?;
            text.push_str("d")
        }
        Length::Hours(hours) => {
            push_number(text, u64::from(hours))?;
            text.push_str("h")
        }
        Length::ToDay | Length::ToTime => text.push_str("set"),
    }
}

fn direction_word(direction: Direction) -> &'static str
    ensures { result.now ≡ direction_text direction }
{
    match direction {
        Direction::After => "after",
        Direction::Before => "before",
    }
}

fn act_word(act: Act) -> &'static str
    ensures { result.now ≡ act_text act }
{
    match act {
        Act::Filing => "filing",
        Act::Service => "service",
    }
}

fn start_word(served: bool) -> &'static str
    ensures { result.now ≡ start_text served }
{
    if served { "served" } else { "event" }
}
