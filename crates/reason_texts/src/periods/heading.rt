//! The lines that come before the reasons of a deadline.

ghost use Rattle.std.specs.Prelude.{◌≡◌, ◌++◌, OnOk, codes, string_bytes};
ghost use Rattle.reason_texts.specs.Words.{note_line};
ghost use Rattle.reason_texts.specs.Periods.Heading.{counted_text, entered_text, from_words, heading_lines, heading_of, length_text, mark_line, rule_text};

use crate::periods::words::{
    act_words, event_words, mark_section, mark_words, rule_section, rule_words, side_words,
    start_words,
};
use crate::push_note;
use rule_periods::{DeadlineRow, Entered, Length, Mark, Period, RulePeriod, runs_from};
use std::alloc::{AllocError, Global};
use std::fmt::Write;

/// Adds the lines that come before the reasons of a deadline: how long its period is, what is to be done, by which section,
/// and from which event it runs. `Err` says that memory ran out.
#[tactic(auto, unfolding(crate::specs::Periods::Heading::heading_lines))]
pub fn push_heading(alloc: Global, text: &mut String, row: &DeadlineRow) -> Result<(), AllocError>
    ensures { OnOk result (string_bytes text.new ≡ string_bytes text.old ++ heading_lines row.now) }
{
    match row.period() {
        Period::Rule(rule) => push_rule(alloc, text, row, rule),
        Period::Entered(entered) => push_entered(alloc, text, &entered),
    }
}

/// Adds the lines of a period of the Rules.
fn push_rule(
    alloc: Global,
    text: &mut String,
    row: &DeadlineRow,
    rule: RulePeriod,
) -> Result<(), AllocError>
    ensures { OnOk result (string_bytes text.new ≡ string_bytes text.old ++ heading_of row.now (Period.Rule rule)) }
{
    let mut what = String::new(alloc);
    push_rule_text(&mut what, row, rule)?;
    push_note(text, None, what.as_str(), rule_section(rule))?;
    push_note(
        text,
        Some(runs_from(row)),
        event_words(rule),
        rule_section(rule),
    )
}

/// Adds the lines of an entered period.
fn push_entered(alloc: Global, text: &mut String, entered: &Entered) -> Result<(), AllocError>
    ensures { OnOk result (string_bytes text.new ≡ string_bytes text.old ++ note_line None (entered_text entered.now) (codes "entered") ++ mark_line entered.now.mark) }
{
    let mut what = String::new(alloc);
    push_entered_text(&mut what, entered)?;
    push_note(text, None, what.as_str(), "entered")?;
    push_mark(text, entered.mark)
}

/// Adds the line of a mark that names a section.
pub(crate) fn push_mark(text: &mut String, mark: Mark) -> Result<(), AllocError>
    ensures { OnOk result (string_bytes text.new ≡ string_bytes text.old ++ mark_line mark) }
{
    match mark {
        Mark::Plain => Ok(()),
        _ => push_note(text, None, mark_words(mark), mark_section(mark)),
    }
}

/// Adds how long a period of the Rules is, and what is to be done within it.
#[tactic(auto, unfolding(crate::specs::Periods::Heading::rule_text))]
fn push_rule_text(text: &mut String, row: &DeadlineRow, rule: RulePeriod) -> Result<(), AllocError>
    ensures { OnOk result (string_bytes text.new ≡ string_bytes text.old ++ rule_text row.now rule) }
{
    push_length(text, Length::Days(rule.days(runs_from(row))))?;
    text.push_str(", ")?;
    text.push_str(rule_words(rule))
}

/// Adds how an entered period is entered.
#[tactic(auto, unfolding(crate::specs::Periods::Heading::entered_text))]
pub(crate) fn push_entered_text(text: &mut String, entered: &Entered) -> Result<(), AllocError>
    ensures { OnOk result (string_bytes text.new ≡ string_bytes text.old ++ entered_text entered.now) }
{
    push_length(text, entered.length)?;
    push_from(text, entered)?;
    text.push_str(act_words(entered.act))
}

/// Adds from where an entered period is measured, unless an order sets its end.
fn push_from(text: &mut String, entered: &Entered) -> Result<(), AllocError>
    ensures { OnOk result (string_bytes text.new ≡ string_bytes text.old ++ from_words entered.now) }
{
    if entered.length.is_set() {
        return Ok(());
    }
    text.push_str(side_words(entered.direction))?;
    text.push_str(start_words(entered.served))
}

/// Adds how long a period is.
pub(crate) fn push_length(text: &mut String, length: Length) -> Result<(), AllocError>
    ensures { OnOk result (string_bytes text.new ≡ string_bytes text.old ++ length_text length) }
{
    match length {
        Length::Days(n) => push_counted(text, n, "day"),
        Length::Hours(h) => push_counted(text, h, "hour"),
        Length::ToDay | Length::ToTime => text.push_str("set by an order"),
    }
}

/// Adds a number of units.
fn push_counted(text: &mut String, number: u32, unit: &str) -> Result<(), AllocError>
    ensures { OnOk result (string_bytes text.new ≡ string_bytes text.old ++ counted_text number unit.now) }
{
    write!(text, "{number} {unit}")?;
    if number == 1 {
        return Ok(());
    }
    text.push_str("s")
}
