//! The lines of an act.

ghost use Rattle.std.specs.Prelude.{◌≡◌, ◌<◌, ◌++◌, OnOk, option_copied, string_bytes};
ghost use Rattle.std.specs.Fmt.{decimal};
ghost use Rattle.reason_texts.specs.Words.{day_end_time};
ghost use Rattle.reason_notes.specs.Margins.Lines.{act_lines, after_words, days_text, detail_text, done_text, early_line, end_by, event_after, event_of, first_words, last_words, margin_lines, margin_section, margin_text, means_text, recorded_lines, seconds_text};

use crate::margins::ends::end_day;
use crate::margins::margin::{Margin, margin_of};
use court_clock::{Clock, Day, Direction};
use court_days::Days;
use reason_texts::{push_day_end, push_minute, push_note};
use rule_periods::{DeadlineRow, Period, runs_from, shown};
use rule6::{Act, Filing, Means, Shown, day_end};
use std::alloc::{AllocError, Global};
use std::fmt::Write;

/// Adds the act that was done for a deadline, and by how much it was in time or late, a line each, and one more where it was
/// done before the event. `Err` says that memory ran out.
#[tactic(auto, unfolding(crate::specs::Margins::Lines::act_lines))]
pub fn push_act(
    alloc: Global,
    text: &mut String,
    days: &Days,
    clock: &Clock,
    row: &DeadlineRow,
    filing: Filing,
) -> Result<(), AllocError>
    requires { filing.minute < 1440 }
    ensures { OnOk result (string_bytes text.new ≡ string_bytes text.old ++ act_lines days.now clock.now row.now filing) }
{
    let done = filing.day;
    push_margin_lines(alloc, text, clock, &shown(days, clock, row), filing)?;
    push_early(text, event_of(row.period(), runs_from(row)), done)
}

/// Adds the lines of the act that is recorded for a deadline, where there is one. `Err` says that memory ran out.
pub fn push_recorded(
    alloc: Global,
    text: &mut String,
    days: &Days,
    clock: &Clock,
    row: Option<&DeadlineRow>,
) -> Result<(), AllocError>
    ensures { OnOk result (string_bytes text.new ≡ string_bytes text.old ++ recorded_lines days.now clock.now (option_copied row.entry)) }
{
    match row {
        Some(row) => match row.filed() {
            Some(filing) => push_act(alloc, text, days, clock, row, filing),
            None => Ok(()),
        },
        None => Ok(()),
    }
}

/// The day before which an act comes before its event, where the period is measured after one.
fn event_after(direction: Direction, event: Day) -> Option<Day>
    ensures { result ≡ event_after direction event }
{
    match direction {
        Direction::After => Some(event),
        Direction::Before => None,
    }
}

/// The same of any period: an act by a day that an order sets comes before no event.
fn event_of(period: Period, event: Day) -> Option<Day>
    ensures { result ≡ event_of period event }
{
    if period.is_set() {
        None
    } else {
        event_after(period.direction(), event)
    }
}

/// Adds the line of an act that was done before its event.
fn push_early(text: &mut String, event: Option<Day>, done: Day) -> Result<(), AllocError>
    ensures { OnOk result (string_bytes text.new ≡ string_bytes text.old ++ early_line event done) }
{
    match event {
        Some(event) if done.number() < event.number() => push_note(
            text,
            Some(event),
            "other reading: no act, done before its event",
            "ours",
        ),
        _ => Ok(()),
    }
}

/// Adds the act, and by how much it was in time or late for a deadline of which this is shown.
#[tactic(auto, unfolding(crate::specs::Margins::Lines::margin_lines))]
fn push_margin_lines(
    alloc: Global,
    text: &mut String,
    clock: &Clock,
    shown: &Shown,
    filing: Filing,
) -> Result<(), AllocError>
    requires { filing.minute < 1440 }
    ensures { OnOk result (string_bytes text.new ≡ string_bytes text.old ++ margin_lines clock.now shown.now filing) }
{
    let (day, means) = (filing.day, filing.means);
    let mut done = String::new(alloc);
    push_done(&mut done, filing.minute, means)?;
    push_note(text, Some(day), done.as_str(), "docketed")?;
    let margin = margin_of(clock, shown, filing);
    let mut what = String::new(alloc);
    push_margin(&mut what, end_by(clock, shown, means), means, &margin)?;
    push_note(
        text,
        end_day(clock, shown),
        what.as_str(),
        margin_section(shown),
    )
}

/// Adds when and how the act was done.
fn push_done(text: &mut String, minute: u16, means: Means) -> Result<(), AllocError>
    ensures { OnOk result (string_bytes text.new ≡ string_bytes text.old ++ done_text minute means) }
{
    text.push_str("done at ")?;
    push_minute(text, minute)?;
    text.push_str(means_text(means))
}

/// By which means it was done.
fn means_text(means: Means) -> &'static str
    ensures { result.now ≡ means_text means }
{
    match means {
        Means::Electronic => ", electronically",
        Means::Paper => ", on paper",
    }
}

/// Adds by how much it was in time or late.
#[tactic(auto, unfolding(crate::specs::Margins::Lines::margin_text))]
fn push_margin(
    text: &mut String,
    end: Option<u16>,
    means: Means,
    margin: &Margin,
) -> Result<(), AllocError>
    ensures { OnOk result (string_bytes text.new ≡ string_bytes text.old ++ margin_text end means margin.now) }
{
    text.push_str(first_words(margin))?;
    push_detail(text, end, means, margin)?;
    text.push_str(last_words(margin))
}

/// The words that a margin begins with.
fn first_words(margin: &Margin) -> &'static str
    ensures { result.now ≡ first_words margin.now }
{
    match *margin {
        Margin::DaysEarly(_) | Margin::SecondsEarly(_) => "timely, ",
        Margin::OnLastDay => "timely, on the last day, which ends at ",
        Margin::AfterDayEnd(_) | Margin::DaysLate(_) | Margin::SecondsLate(_) => "late, ",
        Margin::Undecided => "undecided: the end is beyond the days covered",
    }
}

/// Adds how much it is, and on the last day when that ends.
fn push_detail(
    text: &mut String,
    end: Option<u16>,
    means: Means,
    margin: &Margin,
) -> Result<(), AllocError>
    ensures { OnOk result (string_bytes text.new ≡ string_bytes text.old ++ detail_text end means margin.now) }
{
    match *margin {
        Margin::DaysEarly(days) | Margin::DaysLate(days) => push_days(text, days),
        Margin::OnLastDay => push_day_end(text, end),
        Margin::AfterDayEnd(minutes) => push_after_end(text, end, means, minutes),
        Margin::SecondsEarly(seconds) | Margin::SecondsLate(seconds) => {
            push_seconds(text, seconds)
        }
        Margin::Undecided => Ok(()),
    }
}

/// The words that it ends with.
fn last_words(margin: &Margin) -> &'static str
    ensures { result.now ≡ last_words margin.now }
{
    match *margin {
        Margin::DaysEarly(_) => " before this last day",
        Margin::DaysLate(_) => " after this last day",
        Margin::SecondsEarly(_) => " before the end",
        Margin::SecondsLate(_) => " after the end",
        _ => "",
    }
}

/// Adds how many minutes after the end of the last day the act came.
fn push_after_end(
    text: &mut String,
    end: Option<u16>,
    means: Means,
    minutes: u16,
) -> Result<(), AllocError>
    ensures { OnOk result (string_bytes text.new ≡ string_bytes text.old ++ decimal minutes ++ after_words means ++ day_end_time end) }
{
    write!(text, "{minutes}")?;
    text.push_str(after_words(means))?;
    push_day_end(text, end)
}

/// What ends with the last day for these means.
fn after_words(means: Means) -> &'static str
    ensures { result.now ≡ after_words means }
{
    match means {
        Means::Paper => " min after closing at ",
        Means::Electronic => " min after e-filing ended at ",
    }
}

/// The minute at which a last day ends for an act by these means, if it ends before midnight.
fn end_by(clock: &Clock, shown: &Shown, means: Means) -> Option<u16>
    ensures { result ≡ end_by clock.now shown.now means }
{
    match *shown {
        Shown::Last { act, .. } => day_end(clock, act, means),
        _ => None,
    }
}

/// Adds a number of days.
pub(crate) fn push_days(text: &mut String, days: u32) -> Result<(), AllocError>
    ensures { OnOk result (string_bytes text.new ≡ string_bytes text.old ++ days_text days) }
{
    if days == 1 {
        write!(text, "{days} day")
    } else {
        write!(text, "{days} days")
    }
}

/// Adds a number of seconds as hours, minutes and seconds.
fn push_seconds(text: &mut String, seconds: u64) -> Result<(), AllocError>
    ensures { OnOk result (string_bytes text.new ≡ string_bytes text.old ++ seconds_text seconds) }
{
    let (hours, minutes, rest) = (seconds / 3600, seconds / 60 % 60, seconds % 60);
    write!(text, "{hours} h {minutes} min {rest} s")
}

/// The section that decides.
fn margin_section(shown: &Shown) -> &'static str
    ensures { result.now ≡ margin_section shown.now }
{
    match *shown {
        Shown::Last {
            act: Act::Filing,
            ..
        } => "6(a)(4)",
        Shown::Until(_) => "6(a)(2)",
        _ => "ours",
    }
}
