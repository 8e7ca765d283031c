//! Periods, as rows write them: the code of a period of the Rules, or `LENGTH/DIRECTION/ACT/FROM/MARK`; or, at the desk, the code of
//! a section that sets a period which is entered, or the name that the court's file gives to one.

ghost use Rattle.std.specs.Prelude.{◌≡◌, option_map};
ghost use Rattle.row_forms.specs.Fields.Period.{length_of, direction_of, act_of, is_served, entered_of, period_coded, period_entered, period_in, period_of, text_meant};
ghost use Rattle.row_forms.specs.CourtNames.{names_if, names_of};

use crate::fields::cut::cut_at;
use crate::fields::numbers::count_of;
use court_clock::Direction;
use court_days::Court;
use row_fields::text_coded;
use rule_periods::{Entered, Length, Mark, Period, RulePeriod};
use rule6::Act;

/// The period that a text writes.
#[tactic(auto, unfolding(crate::specs::Fields::Period::period_of))]
pub fn period_of(text: &str) -> Option<Period>
    ensures { result ≡ period_of text.now }
{
    match RulePeriod::from_code(text) {
        Some(rule) => Some(Period::Rule(rule)),
        None => Some(Period::Entered(entered_of(text)?)),
    }
}

/// The period that a text writes in a row of that court, which may be the code of a section, or the court's name for a period, where
/// these are taken.
#[tactic(auto, unfolding(crate::specs::Fields::Period::period_in))]
pub fn period_in(court: &Court, coded: bool, text: &str) -> Option<Period>
    ensures { result ≡ period_in (names_if coded (names_of court.now)) text.now }
{
    match period_of(text) {
        Some(period) => Some(period),
        None => period_coded(court, coded, text),
    }
}

// The period with this code or name, if codes and names are taken.
#[tactic(auto, unfolding(crate::specs::Fields::Period::period_coded))]
fn period_coded(court: &Court, coded: bool, text: &str) -> Option<Period>
    ensures { result ≡ period_coded coded court.now.periods.texts text.now }
{
    if coded {
        period_entered(text_meant(court, text))
    } else {
        None
    }
}

// The text of the period that a section's code names, or else that the court's own name does.
fn text_meant<'a>(court: &'a Court, text: &str) -> Option<&'a str>
    ensures { option_map (λ entered. entered.now) result ≡ text_meant court.now.periods.texts text.now }
{
    match text_coded(text) {
        Some(entered) => Some(entered),
        None => court.period_text(text),
    }
}

// The period that this text enters, if there is one.
fn period_entered(text: Option<&str>) -> Option<Period>
    ensures { result ≡ period_entered (option_map (λ entered. entered.now) text.entry) }
{
    match text {
        Some(text) => Some(Period::Entered(entered_of(text)?)),
        None => None,
    }
}

// A period that a court enters.
#[tactic(auto, unfolding(crate::specs::Fields::Period::entered_of))]
fn entered_of(text: &str) -> Option<Entered>
    ensures { result ≡ entered_of text.now }
{
    let (length, text) = cut_at(text, '/')?;
    let (direction, text) = cut_at(text, '/')?;
    let (act, text) = cut_at(text, '/')?;
    let (from, mark) = cut_at(text, '/')?;
    Some(Entered {
        length: length_of(length)?,
        direction: direction_of(direction)?,
        act: act_of(act)?,
        served: is_served(from)?,
        mark: Mark::from_code(mark)?,
    })
}

// A number of days followed by `d`, or of hours followed by `h`.
#[tactic(auto, unfolding(crate::specs::Fields::Period::length_of))]
fn length_of(text: &str) -> Option<Length>
    ensures { result ≡ length_of text.now }
{
    match count_of(text, 'd') {
        Some(days) => Some(Length::Days(days)),
        None => Some(Length::Hours(count_of(text, 'h')?)),
    }
}

#[tactic(auto, unfolding(crate::specs::Fields::Period::direction_of))]
fn direction_of(text: &str) -> Option<Direction>
    ensures { result ≡ direction_of text.now }
{
    match text {
        "after" => Some(Direction::After),
        "before" => Some(Direction::Before),
        _ => None,
    }
}

/// What has to be done in time: `filing` or `service`.
#[tactic(auto, unfolding(crate::specs::Fields::Period::act_of))]
pub fn act_of(text: &str) -> Option<Act>
    ensures { result ≡ act_of text.now }
{
    match text {
        "filing" => Some(Act::Filing),
        "service" => Some(Act::Service),
        _ => None,
    }
}

// Whether the period runs from service.
#[tactic(auto, unfolding(crate::specs::Fields::Period::is_served))]
fn is_served(text: &str) -> Option<bool>
    ensures { result ≡ is_served text.now }
{
    match text {
        "event" => Some(false),
        "served" => Some(true),
        _ => None,
    }
}
