//! What a clerk is warned of a row before it is kept.

ghost use Rattle.std.specs.Prelude.{◌≡◌, ◌++◌, None, IfOk, OnOk, string_bytes};
ghost use Rattle.docket_rows.specs.Words.{Rows, parts_of, refusal, setup_of};
ghost use Rattle.docket_core.specs.Words.{parts_held};
ghost use Rattle.office_texts.specs.Run.Words.{Holds};
ghost use Rattle.desk_warnings.specs.Warnings.{as_said, if_kept, if_made, if_taken, warnings_of, warnings_on};

use crate::dated::push_dated;
use crate::deadline::{push_act, push_request};
use crate::hearings::push_outage;
use crate::long::push_long;
use crate::office::push_office;
use crate::refused::push_refused;
use crate::register::HeldBack;
use crate::start::push_start;
use case_numbers::{CaseName, Cases};
use court_clock::Day;
use court_days::Court;
use desk_numbers::MovedNumbers;
use docket_core::Docket;
use docket_rows::Command;
use row_forms::Work;
use std::alloc::{AllocError, Global};

/// Adds what a clerk is warned of what was asked, by the docket as it is, which is asked for the command.
#[tactic(auto, unfolding(crate::specs::Warnings::warnings_of))]
fn push_warnings(
    alloc: Global,
    text: &mut String,
    court: &Court,
    moved: &MovedNumbers,
    cases: &Cases,
    docket: &Docket,
    held_back: &HeldBack,
    name: &Option<CaseName>,
    asked: &Command,
    command: &Command,
) -> Result<(), AllocError>
    ensures { docket.now.setup ≡ setup_of court.now → OnOk result (string_bytes text.new ≡ string_bytes text.old ++ warnings_of court.now moved.now cases.now.named (parts_held docket.now) held_back.now name.now asked.now command.now) }
{
    let refused = docket.refusal(alloc, command)?;
    match refused {
        Some(refusal) => {
            push_refused(
                alloc, text, court, moved, cases, docket, asked, command, &refusal,
            )
        }
        None => push_if_taken(
            alloc, text, court, moved, cases, docket, held_back, name, command,
        ),
    }
}

/// Adds what a clerk is warned of a command that isn't refused, where rows that draw a warning are held back.
fn push_if_taken(
    alloc: Global,
    text: &mut String,
    court: &Court,
    moved: &MovedNumbers,
    cases: &Cases,
    docket: &Docket,
    held_back: &HeldBack,
    name: &Option<CaseName>,
    command: &Command,
) -> Result<(), AllocError>
    ensures { docket.now.setup ≡ setup_of court.now → refusal (setup_of court.now) (parts_held docket.now) command.now ≡ None → OnOk result (string_bytes text.new ≡ string_bytes text.old ++ if_taken court.now moved.now cases.now.named (parts_held docket.now) held_back.now name.now command.now) }
{
    match held_back {
        HeldBack::Nothing => Ok(()),
        HeldBack::Warned(today) => push_if_kept(
            alloc, text, court, moved, cases, docket, today, name, command,
        ),
    }
}

/// Adds what a clerk is warned of a command that isn't refused, by the docket and by the row itself.
fn push_if_kept(
    alloc: Global,
    text: &mut String,
    court: &Court,
    moved: &MovedNumbers,
    cases: &Cases,
    docket: &Docket,
    today: &Option<Day>,
    name: &Option<CaseName>,
    command: &Command,
) -> Result<(), AllocError>
    ensures { docket.now.setup ≡ setup_of court.now → refusal (setup_of court.now) (parts_held docket.now) command.now ≡ None → OnOk result (string_bytes text.new ≡ string_bytes text.old ++ if_kept court.now moved.now cases.now.named (parts_held docket.now) today.now name.now command.now) }
{
    push_if_made(alloc, text, court, moved, cases, docket, *today, command)?;
    push_as_said(alloc, text, cases, *today, name, command)
}

/// Adds what a clerk is warned of what the row itself says.
fn push_as_said(
    alloc: Global,
    text: &mut String,
    cases: &Cases,
    today: Option<Day>,
    name: &Option<CaseName>,
    command: &Command,
) -> Result<(), AllocError>
    ensures { OnOk result (string_bytes text.new ≡ string_bytes text.old ++ as_said cases.now.named today name.now command.now) }
{
    push_dated(alloc, text, today, command)?;
    push_long(alloc, text, command)?;
    push_office(alloc, text, cases, name)
}

/// Adds what a clerk is warned of a command that isn't refused, by the docket.
fn push_if_made(
    alloc: Global,
    text: &mut String,
    court: &Court,
    moved: &MovedNumbers,
    cases: &Cases,
    docket: &Docket,
    today: Option<Day>,
    command: &Command,
) -> Result<(), AllocError>
    ensures { docket.now.setup ≡ setup_of court.now → refusal (setup_of court.now) (parts_held docket.now) command.now ≡ None → OnOk result (string_bytes text.new ≡ string_bytes text.old ++ if_made court.now moved.now cases.now.named (parts_held docket.now) today command.now) }
{
    match command {
        Command::Start {
            case,
            period,
            event,
            second,
            service,
        } => push_start(
            alloc, text, court, moved, docket, today, *case, period, event, second, service,
        ),
        Command::FileAct {
            case,
            deadline,
            filing,
        } => push_act(alloc, text, moved, docket, *case, *deadline, filing),
        Command::Extend {
            case,
            deadline,
            request,
        } => push_request(text, court, docket, *case, *deadline, request),
        Command::Inaccessible { day, .. } => push_outage(
            alloc, text, court, moved, cases, docket, *day,
        ),
        _ => Ok(()),
    }
}

/// Adds what a clerk is warned of a row: nothing where it asks a question.
fn push_warnings_on(
    alloc: Global,
    text: &mut String,
    court: &Court,
    moved: &MovedNumbers,
    cases: &Cases,
    docket: &Docket,
    held_back: &HeldBack,
    name: &Option<CaseName>,
    work: &Work,
) -> Result<(), AllocError>
    ensures { docket.now.setup ≡ setup_of court.now → OnOk result (string_bytes text.new ≡ string_bytes text.old ++ warnings_on court.now moved.now cases.now.named (parts_held docket.now) held_back.now name.now work.now) }
{
    match work {
        Work::Command(asked) => {
            let command = moved.place_command(asked);
            push_warnings(
                alloc, text, court, moved, cases, docket, held_back, name, asked, &command,
            )
        }
        Work::Query(_) => Ok(()),
    }
}

/// What a clerk is warned of a row, a line each, by what is docketed, with the names of cases that have one: nothing where it
/// asks a question, and of a command its refusal alone where nothing is held back. The name is the one that the row gives to a case,
/// if it gives one. `Err` says that memory ran out.
pub fn warnings_on(
    alloc: Global,
    court: &Court,
    moved: &MovedNumbers,
    cases: &Cases,
    docket: &Docket,
    held_back: &HeldBack,
    name: &Option<CaseName>,
    work: &Work,
) -> Result<String, AllocError>
    ensures { (docketed : Rows) → Holds (setup_of court.now) docket.now docketed → IfOk result (λ text. string_bytes text ≡ warnings_on court.now moved.now cases.now.named (parts_of docketed) held_back.now name.now work.now) }
{
    let mut text = String::new(alloc);
    push_warnings_on(
        alloc, &mut text, court, moved, cases, docket, held_back, name, work,
    )?;
    Ok(text)
}
