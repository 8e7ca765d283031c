//! The lines that come before the reasons of a deadline, with its period called by its Rule and its name.

ghost use Rattle.std.specs.Prelude.{◌≡◌, [], ◌++◌, OnOk, codes, string_bytes};
ghost use Rattle.reason_texts.specs.Words.{note_line};
ghost use Rattle.reason_texts.specs.Periods.Heading.{entered_text, mark_line};
ghost use Rattle.reason_texts.specs.Periods.Called.{called_lines, called_of, rule_called};

use crate::periods::heading::{push_entered_text, push_length, push_mark};
use crate::periods::words::{event_words, rule_section, rule_words};
use crate::push_note;
use rule_periods::{DeadlineRow, Entered, Length, Period, RulePeriod, runs_from};
use std::alloc::{AllocError, Global};

/// Adds the lines that come before the reasons of a deadline, with its period called by its Rule: the section, what is to be
/// done, how long the period is, and from which event it runs. `back` comes after how an entered period is entered. `Err` says
/// that memory ran out.
#[tactic(auto, unfolding(crate::specs::Periods::Called::called_lines))]
pub fn push_period_called(
    alloc: Global,
    text: &mut String,
    row: &DeadlineRow,
    back: &str,
) -> Result<(), AllocError>
    ensures { OnOk result (string_bytes text.new ≡ string_bytes text.old ++ called_lines back.now row.now) }
{
    match row.period() {
        Period::Rule(rule) => push_rule(alloc, text, row, rule),
        Period::Entered(entered) => push_entered(alloc, text, &entered, back),
    }
}

/// Adds the lines of a period of the Rules.
fn push_rule(
    alloc: Global,
    text: &mut String,
    row: &DeadlineRow,
    rule: RulePeriod,
) -> Result<(), AllocError>
    ensures { OnOk result (string_bytes text.new ≡ string_bytes text.old ++ called_of [] row.now (Period.Rule rule)) }
{
    let mut what = String::new(alloc);
    push_rule_called(&mut what, row, rule)?;
    push_note(text, None, what.as_str(), rule_section(rule))?;
    push_note(
        text,
        Some(runs_from(row)),
        event_words(rule),
        rule_section(rule),
    )
}

/// Adds the lines of an entered period.
fn push_entered(
    alloc: Global,
    text: &mut String,
    entered: &Entered,
    back: &str,
) -> Result<(), AllocError>
    ensures { OnOk result (string_bytes text.new ≡ string_bytes text.old ++ note_line None (entered_text entered.now ++ back.now) (codes "entered") ++ mark_line entered.now.mark) }
{
    let mut what = String::new(alloc);
    push_entered_text(&mut what, entered)?;
    what.push_str(back)?;
    push_note(text, None, what.as_str(), "entered")?;
    push_mark(text, entered.mark)
}

/// Adds the section that sets a period of the Rules, what is to be done within it, and how long it is.
#[tactic(auto, unfolding(crate::specs::Periods::Called::rule_called))]
fn push_rule_called(
    text: &mut String,
    row: &DeadlineRow,
    rule: RulePeriod,
) -> Result<(), AllocError>
    ensures { OnOk result (string_bytes text.new ≡ string_bytes text.old ++ rule_called row.now rule) }
{
    text.push_str("Rule ")?;
    text.push_str(rule_section(rule))?;
    text.push_str(": ")?;
    text.push_str(rule_words(rule))?;
    text.push_str(", ")?;
    push_length(text, Length::Days(rule.days(runs_from(row))))
}
