//! Fields that say one of a few words.

ghost use Rattle.std.specs.Prelude.{◌≡◌};
ghost use Rattle.row_forms.specs.Fields.Choices.{closing_of, counted_of, ending_of, is_so, kind_if_given, kind_of, list_of, means_of, ruling_of, suspension_of};

use crate::fields::cut::cut_at;
use crate::fields::numbers::number_of;
use court_days::HolidayList;
use docket_rows::{Closing, Counted, Ending, Ruling};
use rule6::{Means, ServiceKind};

/// The kind of service that a field says; an empty field says none.
#[tactic(auto, unfolding(crate::specs::Fields::Choices::kind_if_given))]
pub fn kind_if_given(field: &str) -> Option<Option<ServiceKind>>
    ensures { result ≡ kind_if_given field.now }
{
    if field.is_empty() {
        return Some(None);
    }
    Some(Some(kind_of(field)?))
}

// The kind of service, by its letter in Rule 5(b)(2).
#[tactic(auto, unfolding(crate::specs::Fields::Choices::kind_of))]
fn kind_of(letter: &str) -> Option<ServiceKind>
    ensures { result ≡ kind_of letter.now }
{
    match letter {
        "A" => Some(ServiceKind::HandA),
        "B" => Some(ServiceKind::LeftB),
        "C" => Some(ServiceKind::MailC),
        "D" => Some(ServiceKind::ClerkD),
        "E" => Some(ServiceKind::ElectronicE),
        "F" => Some(ServiceKind::OtherF),
        _ => None,
    }
}

/// How a paper reached the clerk.
#[tactic(auto, unfolding(crate::specs::Fields::Choices::means_of))]
pub fn means_of(text: &str) -> Option<Means>
    ensures { result ≡ means_of text.now }
{
    match text {
        "electronic" => Some(Means::Electronic),
        "paper" => Some(Means::Paper),
        _ => None,
    }
}

/// The list of holidays.
#[tactic(auto, unfolding(crate::specs::Fields::Choices::list_of))]
pub fn list_of(text: &str) -> Option<HolidayList>
    ensures { result ≡ list_of text.now }
{
    match text {
        "federal" => Some(HolidayList::Federal),
        "state" => Some(HolidayList::State),
        _ => None,
    }
}

/// How a case was closed.
#[tactic(auto, unfolding(crate::specs::Fields::Choices::closing_of))]
pub fn closing_of(text: &str) -> Option<Closing>
    ensures { result ≡ closing_of text.now }
{
    match text {
        "dismissed" => Some(Closing::Dismissed),
        "judgment" => Some(Closing::Judgment),
        "settled" => Some(Closing::Settled),
        "transferred" => Some(Closing::Transferred),
        "remanded" => Some(Closing::Remanded),
        "otherwise" => Some(Closing::Otherwise),
        _ => None,
    }
}

/// How a motion was ruled on.
#[tactic(auto, unfolding(crate::specs::Fields::Choices::ruling_of))]
pub fn ruling_of(text: &str) -> Option<Ruling>
    ensures { result ≡ ruling_of text.now }
{
    match text {
        "granted" => Some(Ruling::Granted),
        "denied" => Some(Ruling::Denied),
        "in part" => Some(Ruling::InPart),
        "moot" => Some(Ruling::Moot),
        "withdrawn" => Some(Ruling::Withdrawn),
        "reserved" => Some(Ruling::Reserved),
        _ => None,
    }
}

/// Why a deadline is due no more: a word, and for what a motion suspends the motion's number may follow, as `suspended:3`.
#[tactic(auto, unfolding(crate::specs::Fields::Choices::ending_of))]
pub fn ending_of(text: &str) -> Option<Ending>
    ensures { result ≡ ending_of text.now }
{
    match text {
        "moot" => Some(Ending::Moot),
        "vacated" => Some(Ending::Vacated),
        "stayed" => Some(Ending::Stayed),
        "suspended" => Some(Ending::Suspended),
        "withdrawn" => Some(Ending::Withdrawn),
        _ => suspension_of(text),
    }
}

// That the motion of a number suspends it.
#[tactic(auto, unfolding(crate::specs::Fields::Choices::suspension_of))]
fn suspension_of(text: &str) -> Option<Ending>
    ensures { result ≡ suspension_of text.now }
{
    let (word, number) = cut_at(text, ':')?;
    if word == "suspended" {
        return Some(Ending::SuspendedBy(number_of(number)?));
    }
    None
}

/// Whether a deadline or a motion is meant.
#[tactic(auto, unfolding(crate::specs::Fields::Choices::counted_of))]
pub fn counted_of(text: &str) -> Option<Counted>
    ensures { result ≡ counted_of text.now }
{
    match text {
        "deadline" => Some(Counted::Deadline),
        "motion" => Some(Counted::Motion),
        _ => None,
    }
}

/// Whether something is so: `yes` or `no`.
#[tactic(auto, unfolding(crate::specs::Fields::Choices::is_so))]
pub fn is_so(text: &str) -> Option<bool>
    ensures { result ≡ is_so text.now }
{
    match text {
        "yes" => Some(true),
        "no" => Some(false),
        _ => None,
    }
}
