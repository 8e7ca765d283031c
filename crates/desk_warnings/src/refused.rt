//! What a clerk is warned of a command that would be refused.

ghost use Rattle.std.specs.Prelude.{◌≡◌, ◌++◌, IfOk, OnOk, string_bytes};
ghost use Rattle.docket_rows.specs.Words.{setup_of};
ghost use Rattle.docket_core.specs.Words.{parts_held};
ghost use Rattle.desk_warnings.specs.Warnings.{called_in, if_refused, refused_line};

use crate::hearings::push_kept;
use crate::instead::push_instead;
use case_numbers::Cases;
use court_clock::Clock;
use court_days::Court;
use desk_numbers::MovedNumbers;
use docket_core::Docket;
use docket_rows::{Answer, Command, Refusal};
use office_texts::{push_motion_called, push_named_answer};
use reason_refusals::{motion_of_refusal, push_why_refused};
use std::alloc::{AllocError, Global};

/// Adds that a command would be refused, why, and what would do instead.
#[tactic(auto, unfolding(crate::specs::Warnings::if_refused))]
pub(crate) fn push_refused(
    alloc: Global,
    text: &mut String,
    court: &Court,
    moved: &MovedNumbers,
    cases: &Cases,
    docket: &Docket,
    asked: &Command,
    command: &Command,
    refusal: &Refusal,
) -> Result<(), AllocError>
    ensures { docket.now.setup ≡ setup_of court.now → OnOk result (string_bytes text.new ≡ string_bytes text.old ++ if_refused court.now moved.now cases.now.named (parts_held docket.now) asked.now command.now refusal.now) }
{
    let numbered = moved.number_refusal(*refusal);
    let called = called_in(alloc, cases, asked, &numbered)?;
    push_refused_line(text, court.clock(), cases, &numbered)?;
    push_why_refused(
        alloc,
        text,
        court,
        docket,
        command,
        called.as_str(),
        refusal,
    )?;
    push_kept(alloc, text, court, moved, cases, docket, command, refusal)?;
    push_instead(alloc, text, docket, command, refusal)
}

/// Adds the refusal, in the words that it would be answered.
fn push_refused_line(
    text: &mut String,
    clock: &Clock,
    cases: &Cases,
    refusal: &Refusal,
) -> Result<(), AllocError>
    ensures { OnOk result (string_bytes text.new ≡ string_bytes text.old ++ refused_line clock.now cases.now.named refusal.now) }
{
    text.push_str("  would be ")?;
    push_named_answer(text, clock, cases, &Answer::Refused(*refusal))?;
    text.push_str("\n")
}

/// What the motion is called on which a refusal of what was asked rests.
fn called_in(
    alloc: Global,
    cases: &Cases,
    asked: &Command,
    numbered: &Refusal,
) -> Result<String, AllocError>
    ensures { IfOk result (λ called. string_bytes called ≡ called_in cases.now.named asked.now numbered.now) }
{
    let mut called = String::new(alloc);
    push_motion_called(&mut called, cases, motion_of_refusal(asked, numbered))?;
    Ok(called)
}
