//! What is said of a deadline and of a motion, in words. Each function makes a line that, where memory runs out, has any
//! text.

ghost use Rattle.std.specs.Prelude.{◌≡◌, ◌<◌, ◌++◌, IfSome, OnOk, string_bytes};
ghost use Rattle.std.specs.Fmt.{decimal};
ghost use Rattle.office_texts.specs.Words.{AddsText, and_ended_text};
ghost use Rattle.court_clock.specs.Words.{civil_of};
ghost use Rattle.report_texts.specs.Words.{whole_day};
ghost use Rattle.report_page.specs.Phrases.{affidavits_words, beyond_words, case_name, done_words, ends_words, hearing_place, hearing_time, means_words, motion_name, need_words, notice_words, ruling_words, state_word, state_words, until_words};

use case_numbers::push_case_text;
use court_clock::{Clock, Day, Instant};
use court_days::Court;
use docket_rows::{DatedRuling, Ending, Hearing, State};
use hearing_slots::Need;
use office_texts::{push_and_ended, push_ended, push_number};
use reason_texts::{push_minute, push_second};
use report_texts::{Labels, push_panel, push_room, push_span, push_whole_day, unit_words};
use rule6::{Filing, Means, Shown};
use std::alloc::AllocError;

/// Makes the line a number.
pub(crate) fn set_number(line: &mut String, number: u32) -> Result<(), AllocError>
    ensures { OnOk result (string_bytes line.new ≡ decimal number) }
{
    line.clear();
    push_number(line, u64::from(number))
}

/// Makes the line a day.
pub(crate) fn set_day(line: &mut String, day: Day) -> Result<(), AllocError>
    ensures { OnOk result (string_bytes line.new ≡ whole_day day) }
{
    line.clear();
    push_whole_day(line, day)
}

/// Makes the line the name of a case.
pub(crate) fn set_case(line: &mut String, labels: &Labels<'_>, case: u32) -> Result<(), AllocError>
    ensures { OnOk result (string_bytes line.new ≡ case_name labels.now.cases case) }
{
    line.clear();
    push_case_name(line, labels, case)
}

/// Adds the name of a case.
#[tactic(auto, unfolding(crate::specs::Phrases::case_name))]
pub(crate) fn push_case_name(
    line: &mut String,
    labels: &Labels<'_>,
    case: u32,
) -> Result<(), AllocError>
    ensures { OnOk result (AddsText line.old line.new (case_name labels.now.cases case)) }
{
    line.push_str("case ")?;
    push_case_text(line, labels.cases, case)
}

/// Makes the line the name of a motion after that of its case.
pub(crate) fn set_motion(line: &mut String, motion: u32) -> Result<(), AllocError>
    ensures { OnOk result (string_bytes line.new ≡ motion_name motion) }
{
    line.clear();
    push_motion_name(line, motion)
}

/// Adds the name of a motion after that of its case.
#[tactic(auto, unfolding(crate::specs::Phrases::motion_name))]
pub(crate) fn push_motion_name(line: &mut String, motion: u32) -> Result<(), AllocError>
    ensures { OnOk result (AddsText line.old line.new (motion_name motion)) }
{
    line.push_str(", motion ")?;
    push_number(line, u64::from(motion))
}

/// Makes the line when the time of a deadline ends.
#[tactic(auto, unfolding(crate::specs::Phrases::ends_words))]
pub(crate) fn set_end(line: &mut String, clock: &Clock, shown: &Shown) -> Result<(), AllocError>
    ensures { OnOk result (string_bytes line.new ≡ ends_words clock.now shown.now) }
{
    line.clear();
    match *shown {
        Shown::Last { day, act: _ } => {
            line.push_str("last day ")?;
            push_whole_day(line, day)
        }
        Shown::Until(end) => push_until(line, clock, end),
        Shown::Beyond => push_beyond(line),
    }
}

/// Adds the end of hours, as the court's clock shows it.
fn push_until(line: &mut String, clock: &Clock, end: Instant) -> Result<(), AllocError>
    ensures { OnOk result (AddsText line.old line.new (until_words (civil_of clock.now.zone end))) }
{
    match clock.civil_of(end) {
        Some((day, second)) => {
            line.push_str("until ")?;
            push_whole_day(line, day)?;
            line.push_str(" ")?;
            push_second(line, second)
        }
        None => push_beyond(line),
    }
}

#[tactic(auto, unfolding(crate::specs::Phrases::beyond_words))]
fn push_beyond(line: &mut String) -> Result<(), AllocError>
    ensures { OnOk result (AddsText line.old line.new beyond_words) }
{
    line.push_str("beyond the days of the court's file")
}

/// Makes the line whether a deadline was met, and by which act, and why it is due no more, if it was ended.
#[tactic(auto, unfolding(crate::specs::Phrases::state_words))]
pub(crate) fn set_state(
    line: &mut String,
    state: State,
    filed: Option<Filing>,
    ended: Option<Ending>,
) -> Result<(), AllocError>
    ensures { OnOk result (string_bytes line.new ≡ state_words state filed ended) }
{
    line.clear();
    match (state, ended) {
        (State::Pending, Some(why)) => push_ended(line, why),
        _ => push_act(line, state, filed, ended),
    }
}

/// Adds whether a deadline was met, by which act, and why it is due no more after that.
fn push_act(
    line: &mut String,
    state: State,
    filed: Option<Filing>,
    ended: Option<Ending>,
) -> Result<(), AllocError>
    ensures { OnOk result (AddsText line.old line.new (state_word state ++ done_words filed ++ and_ended_text ended)) }
{
    line.push_str(state_word(state))?;
    push_done(line, filed)?;
    push_and_ended(line, ended)
}

/// Whether a deadline was met.
fn state_word(state: State) -> &'static str
    ensures { result.now ≡ state_word state }
{
    match state {
        State::Pending => "pending",
        State::Timely => "timely",
        State::Late => "late",
        State::Undecided => "undecided",
    }
}

/// Adds when and how an act was done, if one is recorded.
fn push_done(line: &mut String, filed: Option<Filing>) -> Result<(), AllocError>
    ensures { OnOk result (AddsText line.old line.new (done_words filed)) }
{
    match filed {
        None => Ok(()),
        Some(Filing { day, minute, means }) => {
            line.push_str(": ")?;
            push_whole_day(line, day)?;
            line.push_str(" ")?;
            push_minute(line, minute)?;
            line.push_str(means_words(means))
        }
    }
}

fn means_words(means: Means) -> &'static str
    ensures { result.now ≡ means_words means }
{
    match means {
        Means::Electronic => ", electronic",
        Means::Paper => ", paper",
    }
}

/// Makes the line how a motion was ruled on, and when.
#[tactic(auto, unfolding(crate::specs::Phrases::ruling_words))]
pub(crate) fn set_ruling(line: &mut String, ruled: DatedRuling) -> Result<(), AllocError>
    ensures { OnOk result (string_bytes line.new ≡ ruling_words ruled) }
{
    line.clear();
    line.push_str(ruled.ruling.word())?;
    line.push_str(" ")?;
    push_whole_day(line, ruled.dated)
}

/// Makes the line the notice that a motion needs.
pub(crate) fn set_need(line: &mut String, need: Need) -> Result<(), AllocError>
    ensures { OnOk result (string_bytes line.new ≡ need_words need) }
{
    line.clear();
    match need {
        Need::ExParte => line.push_str("ex parte"),
        Need::Days(days) => {
            push_number(line, u64::from(days))?;
            line.push_str(unit_words(days, " day", " days"))
        }
    }
}

/// Makes the line the day of a hearing, and when it begins and ends.
#[tactic(auto, unfolding(crate::specs::Phrases::hearing_time))]
pub(crate) fn set_hearing_time(line: &mut String, hearing: &Hearing) -> Result<(), AllocError>
    ensures { OnOk result (string_bytes line.new ≡ hearing_time hearing.now) }
{
    line.clear();
    push_whole_day(line, hearing.day)?;
    line.push_str(" ")?;
    push_span(line, hearing.first, hearing.count)
}

/// Makes the line the judges and the room of a hearing.
#[tactic(auto, unfolding(crate::specs::Phrases::hearing_place))]
pub(crate) fn set_hearing_place(
    line: &mut String,
    court: &Court,
    hearing: &Hearing,
) -> Result<(), AllocError>
    ensures { OnOk result (string_bytes line.new ≡ hearing_place court.now hearing.now) }
{
    line.clear();
    line.push_str("before ")?;
    push_panel(line, court, &hearing.judges)?;
    push_room(line, court, hearing.room)
}

/// Makes the line when the notice of a hearing was served.
#[tactic(auto, unfolding(crate::specs::Phrases::notice_words))]
pub(crate) fn set_notice(line: &mut String, notice: Day) -> Result<(), AllocError>
    ensures { OnOk result (string_bytes line.new ≡ notice_words notice) }
{
    line.clear();
    line.push_str("notice served ")?;
    push_whole_day(line, notice)
}

/// Makes the line by when opposing affidavits can be served (Fed. R. Civ. P. 6(c)(2)).
#[tactic(auto, unfolding(crate::specs::Phrases::affidavits_words))]
pub(crate) fn set_affidavits(line: &mut String, day: Option<Day>) -> Result<(), AllocError>
    ensures { OnOk result (string_bytes line.new ≡ affidavits_words day) }
{
    line.clear();
    match day {
        Some(day) => {
            line.push_str("opposing affidavits by ")?;
            push_whole_day(line, day)
        }
        None => line.push_str("opposing affidavits: none"),
    }
}
