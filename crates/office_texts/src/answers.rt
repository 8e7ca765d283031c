//! What commands are answered.

ghost use Rattle.std.specs.Prelude.{OnOk};
ghost use Rattle.office_texts.specs.Added.{AddsText};
ghost use Rattle.office_texts.specs.Answers.{answer_text, off_text};

use crate::numbers::push_number;
use crate::refusals::push_refusal;
use crate::shown::push_shown;
use court_clock::{Clock, Day};
use docket_rows::Answer;
use std::alloc::AllocError;
use std::fmt::Write;

/// Adds what a command is answered, without the end of its line. `Err` says that memory ran out.
#[tactic(auto, unfolding(crate::specs::Answers::answer_text))]
pub fn push_answer(text: &mut String, clock: &Clock, answer: &Answer) -> Result<(), AllocError>
    ensures { OnOk result (AddsText text.old text.new (answer_text clock.now answer.now)) }
{
    match answer {
        Answer::Opened => text.push_str("opened"),
        Answer::Started(number, shown) => {
            text.push_str("deadline ")?;
            push_number(text, u64::from(*number))?;
            text.push_str(" ")?;
            push_shown(text, clock, shown)
        }
        Answer::Filed(true) => text.push_str("filed timely"),
        Answer::Filed(false) => text.push_str("filed late"),
        Answer::Extended(shown) => {
            text.push_str("extended ")?;
            push_shown(text, clock, shown)
        }
        Answer::Reset(shown) => {
            text.push_str("reset ")?;
            push_shown(text, clock, shown)
        }
        Answer::MotionEntered(number) => {
            text.push_str("motion ")?;
            push_number(text, u64::from(*number))
        }
        Answer::Booked => text.push_str("booked"),
        Answer::Moved => text.push_str("moved"),
        Answer::Cancelled => text.push_str("cancelled"),
        Answer::HolidayEntered => text.push_str("holiday entered"),
        Answer::OutageEntered => text.push_str("outage entered"),
        Answer::Ended => text.push_str("ended"),
        Answer::Closed => text.push_str("closed"),
        Answer::Reopened => text.push_str("reopened"),
        Answer::Ruled(day) => {
            text.push_str("ruled")?;
            push_off(text, *day)
        }
        Answer::Assigned => text.push_str("assigned"),
        Answer::Titled => text.push_str("titled"),
        Answer::Labelled => text.push_str("labelled"),
        Answer::Resumed(shown) => {
            text.push_str("resumed ")?;
            push_shown(text, clock, shown)
        }
        Answer::Refused(refusal) => {
            text.push_str("refused ")?;
            push_refusal(text, refusal)
        }
    }
}

/// Adds the hearing that a ruling took off the calendar, if it took one off.
fn push_off(text: &mut String, day: Option<Day>) -> Result<(), AllocError>
    ensures { OnOk result (AddsText text.old text.new (off_text day)) }
{
    match day {
        None => Ok(()),
        Some(day) => write!(text, ", hearing of {day} cancelled"),
    }
}
