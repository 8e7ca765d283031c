//! The period of a deadline, in words.

ghost use Rattle.std.specs.Prelude.{◌≡◌, OnOk};
ghost use Rattle.office_texts.specs.Words.{AddsText};
ghost use Rattle.report_texts.specs.Periods.{act_words, entered_words, from_words, length_words, mark_words, period_words, start_words, unit_words};

use court_clock::Direction;
use office_texts::push_number;
use rule_periods::{Entered, Length, Mark, Period};
use rule6::Act;
use std::alloc::AllocError;

/// Adds the code of a period that the Rules set, or what a court entered. `Err` says that memory ran out.
#[tactic(auto, unfolding(crate::specs::Periods::period_words))]
pub fn push_period(text: &mut String, period: &Period) -> Result<(), AllocError>
    ensures { OnOk result (AddsText text.old text.new (period_words period.now)) }
{
    match period {
        Period::Rule(rule) => text.push_str(rule.code()),
        Period::Entered(entered) => push_entered(text, entered),
    }
}

/// Adds what a court entered.
fn push_entered(text: &mut String, entered: &Entered) -> Result<(), AllocError>
    ensures { OnOk result (AddsText text.old text.new (entered_words entered.now)) }
{
    push_length(text, entered.length)?;
    text.push_str(from_words(entered))?;
    text.push_str(act_words(entered.act))?;
    push_mark(text, entered.mark)
}

fn push_length(text: &mut String, length: Length) -> Result<(), AllocError>
    ensures { OnOk result (AddsText text.old text.new (length_words length)) }
{
    match length {
        Length::Days(days) => {
            push_number(text, u64::from(days))?;
            text.push_str(unit_words(days, " day", " days"))
        }
        Length::Hours(hours) => {
            push_number(text, u64::from(hours))?;
            text.push_str(unit_words(hours, " hour", " hours"))
        }
        Length::ToDay | Length::ToTime => text.push_str("set by an order"),
    }
}

/// The word for one, or that for any other number.
pub fn unit_words<'a>(count: u32, one: &'a str, more: &'a str) -> &'a str
    ensures { result.now ≡ unit_words count one.now more.now }
{
    if count == 1 { one } else { more }
}

/// From where an entered period is measured; nothing where an order sets its end.
fn from_words(entered: &Entered) -> &'static str
    ensures { result.now ≡ from_words entered.now }
{
    if entered.length.is_set() {
        ""
    } else {
        start_words(entered.direction, entered.served)
    }
}

/// On which side of what it runs from a period lies.
fn start_words(direction: Direction, served: bool) -> &'static str
    ensures { result.now ≡ start_words direction served }
{
    match (direction, served) {
        (Direction::After, false) => " after the event",
        (Direction::After, true) => " after service",
        (Direction::Before, false) => " before the event",
        (Direction::Before, true) => " before service",
    }
}

fn act_words(act: Act) -> &'static str
    ensures { result.now ≡ act_words act }
{
    match act {
        Act::Filing => ", to file",
        Act::Service => ", to serve",
    }
}

/// Adds the rule under which a period runs, if it is a special one.
fn push_mark(text: &mut String, mark: Mark) -> Result<(), AllocError>
    ensures { OnOk result (AddsText text.old text.new (mark_words mark)) }
{
    if mark == Mark::Plain {
        return Ok(());
    }
    text.push_str(" (")?;
    text.push_str(mark.code())?;
    text.push_str(")")
}
