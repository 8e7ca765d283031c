//! A deadline of a sheet.

ghost use Rattle.std.specs.Prelude.{◌≡◌, ◌<◌, ◌++◌, OnOk, IfSome};
ghost use Rattle.office_texts.specs.Added.{AddsText};
ghost use Rattle.office_texts.specs.Sheets.{act_done_text, and_ended_text, deadline_line, ended_text, means_text, state_text, state_word, suspended_text};

use crate::numbers::push_minute;
use crate::periods::push_period;
use crate::shown::push_shown;
use court_clock::Clock;
use docket_rows::{Ending, SheetDeadline, State};
use rule6::{Filing, Means};
use std::alloc::AllocError;
use std::fmt::Write;

/// Adds the line of a deadline: its number, its period, when its time ends, and whether it was met. `Err` says that
/// memory ran out.
#[tactic(auto, unfolding(crate::specs::Sheets::deadline_line))]
pub fn push_deadline(
    text: &mut String,
    clock: &Clock,
    deadline: &SheetDeadline,
) -> Result<(), AllocError>
    ensures { OnOk result (AddsText text.old text.new (deadline_line clock.now deadline.now)) }
{
    let number = deadline.number;
    let period = deadline.row.period();
    write!(text, "deadline {number} ")?;
    push_period(text, &period)?;
    text.push_str(" ")?;
    push_shown(text, clock, &deadline.shown)?;
    text.push_str(" ")?;
    push_state(text, deadline.state, deadline.row.filed(), deadline.ended)?;
    text.push_str("\n")
}

/// Adds whether the deadline was met, and by which act, and why it is due no more.
fn push_state(
    text: &mut String,
    state: State,
    filed: Option<Filing>,
    ended: Option<Ending>,
) -> Result<(), AllocError>
    requires { IfSome filed (λ f. f.minute < 1440) }
    ensures { OnOk result (AddsText text.old text.new (state_text state filed ended)) }
{
    match (state, ended) {
        (State::Pending, Some(why)) => push_ended(text, why),
        _ => push_act(text, state, filed, ended),
    }
}

/// Adds whether the deadline was met, by which act, and why it is due no more after that.
fn push_act(
    text: &mut String,
    state: State,
    filed: Option<Filing>,
    ended: Option<Ending>,
) -> Result<(), AllocError>
    requires { IfSome filed (λ f. f.minute < 1440) }
    ensures { OnOk result (AddsText text.old text.new (state_word state ++ act_done_text filed ++ and_ended_text ended)) }
{
    text.push_str(state_word(state))?;
    push_act_done(text, filed)?;
    push_and_ended(text, ended)
}

/// Adds why a deadline is due no more. `Err` says that memory ran out.
pub fn push_ended(text: &mut String, why: Ending) -> Result<(), AllocError>
    ensures { OnOk result (AddsText text.old text.new (ended_text why)) }
{
    text.push_str("ended ")?;
    text.push_str(why.word())?;
    push_suspended(text, why.suspended_by())
}

/// Adds by which motion a deadline is suspended, where that is known.
fn push_suspended(text: &mut String, motion: Option<u32>) -> Result<(), AllocError>
    ensures { OnOk result (AddsText text.old text.new (suspended_text motion)) }
{
    match motion {
        None => Ok(()),
        Some(motion) => write!(text, " by motion {motion}"),
    }
}

/// Adds why a deadline is due no more after what is said of it, if it was ended. `Err` says that memory ran out.
pub fn push_and_ended(text: &mut String, ended: Option<Ending>) -> Result<(), AllocError>
    ensures { OnOk result (AddsText text.old text.new (and_ended_text ended)) }
{
    match ended {
        None => Ok(()),
        Some(why) => {
            text.push_str(", ")?;
            push_ended(text, why)
        }
    }
}

/// Whether the deadline was met.
fn state_word(state: State) -> &'static str
    ensures { result.now ≡ state_word state }
{
    match state {
        State::Pending => "pending",
        State::Timely => "timely",
        State::Late => "late",
        State::Undecided => "undecided",
    }
}

/// Adds when and how the act was done, if one is recorded.
fn push_act_done(text: &mut String, filed: Option<Filing>) -> Result<(), AllocError>
    requires { IfSome filed (λ f. f.minute < 1440) }
    ensures { OnOk result (AddsText text.old text.new (act_done_text filed)) }
{
    match filed {
        None => Ok(()),
        Some(Filing { day, minute, means }) => {
            write!(text, " {day} ")?;
            push_minute(text, minute)?;
            text.push_str(" ")?;
            text.push_str(means_word(means))
        }
    }
}

fn means_word(means: Means) -> &'static str
    ensures { result.now ≡ means_text means }
{
    match means {
        Means::Electronic => "electronic",
        Means::Paper => "paper",
    }
}
