//! The text of what the steps of a schedule were answered.

ghost use Rattle.std.specs.Prelude.{◌≡◌, ◌++◌, OnOk, string_bytes};
ghost use Rattle.stored_steps.specs.Told.{AddsRun, outcome_text, part_at, part_text, told};

use court_clock::Clock;
use court_days::Court;
use docket_rows::{Answer, Command, PartId};
use office_texts::{push_answer, push_number};
use shared_docket::docket_steps;
use std::alloc::{AllocError, Global};
use versioned_steps::{Outcome, Step};

/// Makes these steps of the clerks who share the docket of this court, from the empty history on, and adds a line for
/// each, with its outcome. `Err` says that memory ran out.
pub fn push_run(
    alloc: Global,
    text: &mut String,
    court: &Court,
    clerks: u32,
    steps: &[Step<Command>],
) -> Result<(), AllocError>
    ensures { OnOk result (AddsRun court.now clerks steps.now (string_bytes text.old) (string_bytes text.new)) }
{
    let world = docket_steps(alloc, court, clerks, steps)?;
    push_outcomes(text, court.clock(), world.outcomes.as_slice())
}

/// Adds a line for each outcome.
fn push_outcomes(
    text: &mut String,
    clock: &Clock,
    outcomes: &[Outcome<PartId, Answer>],
) -> Result<(), AllocError>
    ensures { OnOk result (string_bytes text.new ≡ string_bytes text.old ++ told clock.now outcomes.now) }
{
    for outcome in outcomes {
        push_outcome(text, clock, outcome)?;
        text.push_str("\n")?;
    }
    Ok(())
}

/// Adds what became of a step, without the end of its line.
#[tactic(auto, unfolding(crate::specs::Told::outcome_text))]
fn push_outcome(
    text: &mut String,
    clock: &Clock,
    outcome: &Outcome<PartId, Answer>,
) -> Result<(), AllocError>
    ensures { OnOk result (string_bytes text.new ≡ string_bytes text.old ++ outcome_text clock.now outcome.now) }
{
    match outcome {
        Outcome::Began => text.push_str("began"),
        Outcome::Busy => text.push_str("busy"),
        Outcome::Idle => text.push_str("idle"),
        Outcome::NoClerk => text.push_str("no clerk"),
        Outcome::ReadPart(part, version) => {
            text.push_str("read ")?;
            push_part_at(text, *part, *version)
        }
        Outcome::Ready => text.push_str("ready"),
        Outcome::NotRead => text.push_str("not read"),
        Outcome::Finished(place, answer) => {
            text.push_str("finished ")?;
            push_number(text, *place)?;
            text.push_str(" ")?;
            push_answer(text, clock, answer)
        }
        Outcome::WasStale(part, version) => {
            text.push_str("stale ")?;
            push_part_at(text, *part, *version)
        }
        Outcome::Discarded => text.push_str("discarded"),
        Outcome::NoMemory => text.push_str("no memory"),
    }
}

/// Adds the name of a part, and its version.
fn push_part_at(text: &mut String, part: PartId, version: u64) -> Result<(), AllocError>
    ensures { OnOk result (string_bytes text.new ≡ string_bytes text.old ++ part_at part version) }
{
    push_part(text, part)?;
    text.push_str(" at ")?;
    push_number(text, version)
}

/// Adds the name of a part.
fn push_part(text: &mut String, part: PartId) -> Result<(), AllocError>
    ensures { OnOk result (string_bytes text.new ≡ string_bytes text.old ++ part_text part) }
{
    match part {
        PartId::Court => text.push_str("court"),
        PartId::Judge(judge) => {
            text.push_str("judge ")?;
            push_number(text, u64::from(judge))
        }
        PartId::Room(room) => {
            text.push_str("room ")?;
            push_number(text, u64::from(room))
        }
        PartId::Case(case) => {
            text.push_str("case ")?;
            push_number(text, u64::from(case))
        }
    }
}
