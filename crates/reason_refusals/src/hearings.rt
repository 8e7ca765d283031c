//! Why a hearing is refused, or a holiday because of one.

ghost use Rattle.std.specs.Prelude.{◌≡◌, ◌≤◌, ◌++◌, OnOk, string_bytes};
ghost use Rattle.court_clock.specs.Words.{later_day};
ghost use Rattle.reason_refusals.specs.Hearings.{closed_lines, closed_text, counted_text, day_before, hours_text, lost_by, lost_line, notice_lines, other_closed_line, short_lines, short_lines_by, slot_time, taken_by, taken_line, taken_text};

use court_clock::{Clock, Day};
use court_days::{Days, HolidayList};
use docket_rows::{Hearing, Setting, SheetHearing, SheetMotion};
use hearing_slots::Need;
use reason_texts::{push_legal, push_minute, push_note};
use std::alloc::{AllocError, Global};
use std::fmt::Write;

/// Adds why the court doesn't sit on the day of a hearing that was asked for.
pub(crate) fn push_closed(
    alloc: Global,
    text: &mut String,
    days: &Days,
    setting: Option<Setting>,
) -> Result<(), AllocError>
    ensures { OnOk result (string_bytes text.new ≡ string_bytes text.old ++ closed_lines days.now setting) }
{
    match setting {
        Some(setting) => {
            let day = setting.day;
            let mut what = String::new(alloc);
            push_closed_text(&mut what, days, day)?;
            push_note(text, Some(day), what.as_str(), "ours")?;
            push_other_closed(text, days, day)
        }
        None => Ok(()),
    }
}

/// Adds the first cause for which the court doesn't sit on a day.
fn push_closed_text(text: &mut String, days: &Days, day: Day) -> Result<(), AllocError>
    ensures { OnOk result (string_bytes text.new ≡ string_bytes text.old ++ closed_text days.now day) }
{
    match day.weekday() {
        5 => text.push_str("Saturday"),
        6 => text.push_str("Sunday"),
        _ if days.in_list(HolidayList::Federal, day) => push_legal(text, day),
        _ if days.in_list(HolidayList::State, day) => text.push_str("legal holiday of the state"),
        _ => text.push_str("clerk's office inaccessible"),
    }
}

/// Adds that by another reading the court may sit on a holiday of the state.
fn push_other_closed(text: &mut String, days: &Days, day: Day) -> Result<(), AllocError>
    ensures { OnOk result (string_bytes text.new ≡ string_bytes text.old ++ other_closed_line days.now day) }
{
    match day.weekday() {
        5 | 6 => Ok(()),
        _ if days.in_list(HolidayList::Federal, day) => Ok(()),
        _ if days.in_list(HolidayList::State, day) => push_note(
            text,
            Some(day),
            "other reading: the court may sit on it",
            "ours",
        ),
        _ => Ok(()),
    }
}

/// Adds when the clerk's office is open.
pub(crate) fn push_hours(text: &mut String, clock: &Clock) -> Result<(), AllocError>
    ensures { OnOk result (string_bytes text.new ≡ string_bytes text.old ++ hours_text clock.now) }
{
    text.push_str("the office is open from ")?;
    push_minute(text, clock.opens())?;
    text.push_str(" to ")?;
    push_minute(text, clock.closes())
}

/// Adds by which day the motion and the notice of its hearing had to be served, and when they were.
pub(crate) fn push_short(
    alloc: Global,
    text: &mut String,
    setting: Option<Setting>,
    latest: Day,
    motion: Option<SheetMotion>,
) -> Result<(), AllocError>
    ensures { OnOk result (string_bytes text.new ≡ string_bytes text.old ++ short_lines setting latest motion) }
{
    match (setting, motion) {
        (Some(setting), Some(motion)) => push_short_by(alloc, text, &setting, latest, &motion),
        _ => Ok(()),
    }
}

/// Adds the same of a motion that is there.
fn push_short_by(
    alloc: Global,
    text: &mut String,
    setting: &Setting,
    latest: Day,
    motion: &SheetMotion,
) -> Result<(), AllocError>
    ensures { OnOk result (string_bytes text.new ≡ string_bytes text.old ++ short_lines_by setting.now latest motion.now motion.now.need) }
{
    match motion.need {
        Need::Days(n) => push_notice(alloc, text, setting, latest, motion, n),
        Need::ExParte => Ok(()),
    }
}

/// Adds the day that is counted backward, the last day to serve, and the day of the service that was too late.
#[tactic(auto, unfolding(crate::specs::Hearings::notice_lines))]
fn push_notice(
    alloc: Global,
    text: &mut String,
    setting: &Setting,
    latest: Day,
    motion: &SheetMotion,
    number: u32,
) -> Result<(), AllocError>
    ensures { OnOk result (string_bytes text.new ≡ string_bytes text.old ++ notice_lines setting.now latest motion.now number) }
{
    let mut what = String::new(alloc);
    write!(
        &mut what,
        "day {number} before the hearing, every day counted"
    )?;
    push_note(
        text,
        day_before(setting.day, number),
        what.as_str(),
        "6(c)(1), 6(a)(1)(B)",
    )?;
    push_note(
        text,
        Some(latest),
        "the last day to serve motion and notice",
        "6(a)(1)(C), 6(a)(5)",
    )?;
    let served = later(motion.served, setting.notice);
    push_note(
        text,
        Some(served),
        "served on this day, too late",
        "6(c)(1)",
    )
}

/// A day before a day, if it is one.
fn day_before(day: Day, number: u32) -> Option<Day>
    ensures { result ≡ day_before day number }
{
    let before = i64::from(day.number()) - i64::from(number);
    match i32::try_from(before) {
        Ok(before) => Day::new(before),
        Err(_) => None,
    }
}

/// The later of two days.
fn later(day: Day, other: Day) -> Day
    ensures { result ≡ later_day day other }
{
    if day.number() <= other.number() {
        other
    } else {
        day
    }
}

/// Adds the hearing that is set for a motion which is called so.
pub(crate) fn push_taken(
    alloc: Global,
    text: &mut String,
    called: &str,
    words: &str,
    motion: Option<SheetMotion>,
) -> Result<(), AllocError>
    ensures { OnOk result (string_bytes text.new ≡ string_bytes text.old ++ taken_line called.now words.now motion) }
{
    match motion {
        Some(motion) => push_taken_by(alloc, text, called, words, motion.hearing),
        None => Ok(()),
    }
}

/// Adds a hearing, where there is one.
fn push_taken_by(
    alloc: Global,
    text: &mut String,
    called: &str,
    words: &str,
    hearing: Option<SheetHearing>,
) -> Result<(), AllocError>
    ensures { OnOk result (string_bytes text.new ≡ string_bytes text.old ++ taken_by called.now words.now hearing) }
{
    match hearing {
        Some(hearing) => {
            let mut what = String::new(alloc);
            push_taken_text(&mut what, called, words, &hearing.hearing)?;
            push_note(text, Some(hearing.hearing.day), what.as_str(), "ours")
        }
        None => Ok(()),
    }
}

/// Adds what a motion is called, what is said of its hearing, and the hearing's time.
#[tactic(auto, unfolding(crate::specs::Hearings::taken_text))]
fn push_taken_text(
    text: &mut String,
    called: &str,
    words: &str,
    hearing: &Hearing,
) -> Result<(), AllocError>
    ensures { OnOk result (string_bytes text.new ≡ string_bytes text.old ++ taken_text called.now words.now hearing.now) }
{
    text.push_str(called)?;
    text.push_str(words)?;
    push_slot(text, u16::from(hearing.first))?;
    text.push_str(" to ")?;
    push_slot(text, u16::from(hearing.first) + u16::from(hearing.count))
}

/// Adds the time at which a slot begins.
fn push_slot(text: &mut String, slot: u16) -> Result<(), AllocError>
    requires { slot ≤ 510 }
    ensures { OnOk result (string_bytes text.new ≡ string_bytes text.old ++ slot_time slot) }
{
    push_minute(text, 15 * slot)
}

/// Adds when the notice of the hearing of a motion was served.
pub(crate) fn push_lost(text: &mut String, motion: Option<SheetMotion>) -> Result<(), AllocError>
    ensures { OnOk result (string_bytes text.new ≡ string_bytes text.old ++ lost_line motion) }
{
    match motion {
        Some(motion) => push_lost_by(text, &motion, motion.hearing),
        None => Ok(()),
    }
}

/// Adds the same, where there is a hearing.
fn push_lost_by(
    text: &mut String,
    motion: &SheetMotion,
    hearing: Option<SheetHearing>,
) -> Result<(), AllocError>
    ensures { OnOk result (string_bytes text.new ≡ string_bytes text.old ++ lost_by motion.now hearing) }
{
    match hearing {
        Some(hearing) => push_note(
            text,
            Some(later(motion.served, hearing.hearing.notice)),
            "its notice was served then, too late with it",
            "6(c)(1), 6(a)(5)",
        ),
        None => Ok(()),
    }
}
