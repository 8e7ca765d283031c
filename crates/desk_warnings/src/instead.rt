//! What would do instead of a hearing that is refused.

ghost use Rattle.std.specs.Prelude.{◌≡◌, ◌++◌, ◌+ℤ◌, pos, Some, IfNone, IfOk, IfSome, OnOk, codes, string_bytes};
ghost use Rattle.court_clock.specs.Words.{IsDayNumber};
ghost use Rattle.court_days.specs.Words.{earliest_day};
ghost use Rattle.docket_core.specs.Words.{parts_held};
ghost use Rattle.reason_refusals.specs.Commands.Words.{motion_at};
ghost use Rattle.desk_warnings.specs.Instead.{at_slot, can_be_heard, day_line, first_heard, free_line, free_slot, free_text, heard_line, instead, instead_of, next_sitting};

use court_clock::{Day, Direction};
use court_days::Days;
use docket_core::Docket;
use docket_decisions::{is_court_day, lacks_last_service, later, missed_service};
use docket_rows::{
    Command, DatedRuling, Hearing, Refusal, Ruling, Setting, SheetHearing, SheetMotion,
};
use hearing_slots::{Need, Panel};
use reason_refusals::motion_at;
use reason_texts::{push_minute, push_note};
use std::alloc::{AllocError, Global};

/// The types that a motion is made of, which a function that hands one on has to name.
type MotionTypes = Option<(Day, Need, Hearing, SheetHearing, Panel, DatedRuling, Ruling)>;

/// Adds what would do instead of the hearing for which a refused command asks, if it asks for one.
#[tactic(auto, unfolding(crate::specs::Instead::instead))]
pub(crate) fn push_instead(
    alloc: Global,
    text: &mut String,
    docket: &Docket,
    command: &Command,
    refusal: &Refusal,
) -> Result<(), AllocError>
    ensures { OnOk result (string_bytes text.new ≡ string_bytes text.old ++ instead docket.now.setup (parts_held docket.now) command.now refusal.now) }
{
    match command {
        Command::Book(setting) => push_instead_of(alloc, text, docket, command, setting, refusal),
        Command::MoveHearing(setting) => {
            push_instead_of(alloc, text, docket, command, setting, refusal)
        }
        _ => Ok(()),
    }
}

/// Adds what would do instead of this hearing.
fn push_instead_of(
    alloc: Global,
    text: &mut String,
    docket: &Docket,
    command: &Command,
    setting: &Setting,
    refusal: &Refusal,
) -> Result<(), AllocError>
    ensures { OnOk result (string_bytes text.new ≡ string_bytes text.old ++ instead_of docket.now.setup (parts_held docket.now) command.now setting.now refusal.now) }
{
    match refusal {
        Refusal::NotACourtDay => push_sitting(text, docket.days(), setting),
        Refusal::ShortNotice(_) => push_heard_of(alloc, text, docket, setting),
        Refusal::JudgeBusy(_, _) => push_free_of(alloc, text, docket, command, setting),
        Refusal::RoomBusy(_, _) => push_free_of(alloc, text, docket, command, setting),
        _ => Ok(()),
    }
}

/// Adds the next day on which the court sits, if there is one.
fn push_sitting(text: &mut String, days: &Days, setting: &Setting) -> Result<(), AllocError>
    ensures { OnOk result (string_bytes text.new ≡ string_bytes text.old ++ day_line (codes "next day on which the court sits") (codes "ours") (next_sitting days.now setting.now)) }
{
    push_day(
        text,
        next_sitting(days, setting),
        "next day on which the court sits",
        "ours",
    )
}

/// The next day on which the court sits.
#[tactic(auto, unfolding(court_days::specs::Words::next_accessible))]
fn next_sitting(days: &Days, setting: &Setting) -> Option<Day>
    ensures { result ≡ next_sitting days.now setting.now }
{
    days.first_accessible(setting.day, Direction::After)
}

/// Adds a line of a day, if there is one.
fn push_day(
    text: &mut String,
    day: Option<Day>,
    what: &str,
    section: &str,
) -> Result<(), AllocError>
    ensures { OnOk result (string_bytes text.new ≡ string_bytes text.old ++ day_line what.now section.now day) }
{
    match day {
        Some(day) => push_note(text, Some(day), what, section),
        None => Ok(()),
    }
}

/// Adds the first day on which the motion of a hearing can be heard, if there is one.
fn push_heard_of(
    alloc: Global,
    text: &mut String,
    docket: &Docket,
    setting: &Setting,
) -> Result<(), AllocError>
    ensures { OnOk result (string_bytes text.new ≡ string_bytes text.old ++ heard_line (parts_held docket.now).days setting.now (motion_at docket.now.setup (parts_held docket.now) (Some (setting.now.case, setting.now.motion)))) }
{
    let _types: MotionTypes = None;
    let motion = motion_at(alloc, docket, Some((setting.case, setting.motion)))?;
    push_heard(text, docket.days(), setting, &motion)
}

/// Adds the same of a motion, if there is one.
fn push_heard(
    text: &mut String,
    days: &Days,
    setting: &Setting,
    motion: &Option<SheetMotion>,
) -> Result<(), AllocError>
    ensures { OnOk result (string_bytes text.new ≡ string_bytes text.old ++ heard_line days.now setting.now motion.now) }
{
    match motion {
        Some(motion) => push_day(
            text,
            first_heard(days, setting, motion),
            "first hearing that can be noticed",
            "6(c)(1)",
        ),
        None => Ok(()),
    }
}

/// The first day on which the motion can be heard, from the asked day on.
fn first_heard(days: &Days, setting: &Setting, motion: &SheetMotion) -> Option<Day>
    ensures { result ≡ first_heard days.now setting.now motion.now }
{
    let served = later(motion.served, setting.notice);
    heard_from(days, motion.need, served, setting.day)
}

/// The first day, from a day on, on which a motion can be heard that needs such a notice and was served then with it.
#[tactic(auto, using(court_days::proofs::CallerLemmas::earliest_skips, court_days::proofs::CallerLemmas::earliest_finds, crate::proofs::InsteadLemmas::days_begin, crate::proofs::InsteadLemmas::days_end, crate::proofs::InsteadLemmas::days_stop))]
fn heard_from(days: &Days, need: Need, served: Day, day: Day) -> Option<Day>
    ensures { result ≡ earliest_day days.now (can_be_heard days.now need served) day }
{
    let mut current = later(day, days.from());
    'search: while days.covered(current) {
        if can_be_heard(days, need, served, current) {
            return Some(current);
        }
        current = day_after(current)?;
    }
    None
}

/// The day after a day, if it is one.
fn day_after(day: Day) -> Option<Day>
    ensures some { IfSome result (λ d. d ≡ day +ℤ pos 1) }
    ensures none { IfNone result (IsDayNumber (day +ℤ pos 1) → ⊥) }
{
    Day::new(day.number() + 1)
}

/// Whether the court sits on a day, and a motion that needs such a notice and was served then has it.
fn can_be_heard(days: &Days, need: Need, served: Day, day: Day) -> bool
    ensures { result ≡ can_be_heard days.now need served day }
{
    if !is_court_day(days, day) || lacks_last_service(days, day, need) {
        return false;
    }
    missed_service(days, day, need, served).is_none()
}

/// Adds the first later time of the day at which the command isn't refused, if there is one.
fn push_free_of(
    alloc: Global,
    text: &mut String,
    docket: &Docket,
    command: &Command,
    setting: &Setting,
) -> Result<(), AllocError>
    ensures { OnOk result (string_bytes text.new ≡ string_bytes text.old ++ free_line setting.now.day (free_slot docket.now.setup (parts_held docket.now) command.now setting.now.first)) }
{
    let slot = free_slot(alloc, docket, command, setting.first)?;
    push_free(alloc, text, setting.day, slot)
}

/// Adds a slot from which the judges and the room are free, if there is one.
fn push_free(alloc: Global, text: &mut String, day: Day, slot: Option<u8>) -> Result<(), AllocError>
    ensures { OnOk result (string_bytes text.new ≡ string_bytes text.old ++ free_line day slot) }
{
    match slot {
        Some(slot) => {
            let mut what = String::new(alloc);
            push_free_text(&mut what, slot)?;
            push_note(text, Some(day), what.as_str(), "ours")
        }
        None => Ok(()),
    }
}

/// Adds the time at which a slot begins, after what that time is.
fn push_free_text(text: &mut String, slot: u8) -> Result<(), AllocError>
    ensures { OnOk result (string_bytes text.new ≡ string_bytes text.old ++ free_text slot) }
{
    text.push_str("judges and room are free from ")?;
    push_minute(text, 15 * u16::from(slot))
}

/// The first slot of the day later than `first` for which the command isn't refused.
#[tactic(auto, unfolding(crate::specs::Instead::free_slot), using(crate::proofs::InsteadLemmas::slot_passed, crate::proofs::InsteadLemmas::slot_found, crate::proofs::InsteadLemmas::slots_end))]
fn free_slot(
    alloc: Global,
    docket: &Docket,
    command: &Command,
    first: u8,
) -> Result<Option<u8>, AllocError>
    ensures { IfOk result (λ slot. slot ≡ free_slot docket.now.setup (parts_held docket.now) command.now first) }
{
    if first >= 95 {
        return Ok(None);
    }
    for slot in first + 1..96 {
        let asked = at_slot(command, slot);
        let refused = docket.refusal(alloc, &asked)?;
        if refused.is_none() {
            return Ok(Some(slot));
        }
    }
    Ok(None)
}

/// The same command for another slot of its day.
fn at_slot(command: &Command, slot: u8) -> Command
    ensures { result ≡ at_slot command.now slot }
{
    match *command {
        Command::Book(setting) => Command::Book(Setting {
            first: slot,
            ..setting
        }),
        Command::MoveHearing(setting) => Command::MoveHearing(Setting {
            first: slot,
            ..setting
        }),
        other => other,
    }
}
