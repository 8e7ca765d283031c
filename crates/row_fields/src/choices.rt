//! Fields that say one of a few words. Each word is folded: in small letters, with its letters and digits alone.

ghost use Rattle.std.specs.Prelude.{◌≡◌};
ghost use Rattle.row_fields.specs.Choices.{act_said, answer_said, closing_said, counted_said, list_said, means_said, one_rule_said, rule_said, ruling_said, service_said, why_said};
ghost use Rattle.row_fields.specs.Said.{said_map};

use crate::said::Said;

/// The kind of service: its letter in Rule 5(b)(2), or a word for it.
#[tactic(auto, unfolding(crate::specs::Choices::service_said))]
pub fn service_said(word: &str) -> Said<&'static str>
    ensures { said_map (λ plain. plain.now) result ≡ service_said word.now }
{
    match word {
        "a" | "hand" | "byhand" | "handdelivery" | "personal" | "personally" => Said::Clear("A"),
        "b" | "left" | "office" | "dwelling" => Said::Clear("B"),
        "c" | "mail" | "bymail" | "mailed" | "usmail" => Said::Clear("C"),
        "d" | "clerk" | "withclerk" => Said::Clear("D"),
        "e" | "ecf" | "cmecf" | "efiling" | "electronic" | "email" => Said::Clear("E"),
        "f" | "other" | "consent" => Said::Clear("F"),
        _ => Said::Unknown,
    }
}

/// How a paper reached the clerk.
#[tactic(auto, unfolding(crate::specs::Choices::means_said))]
pub fn means_said(word: &str) -> Said<&'static str>
    ensures { said_map (λ plain. plain.now) result ≡ means_said word.now }
{
    match word {
        "electronic" | "electronically" | "e" | "ecf" | "cmecf" => Said::Clear("electronic"),
        "paper" | "onpaper" | "p" => Said::Clear("paper"),
        _ => Said::Unknown,
    }
}

/// Whether something is so.
#[tactic(auto, unfolding(crate::specs::Choices::answer_said))]
pub fn answer_said(word: &str) -> Said<&'static str>
    ensures { said_map (λ plain. plain.now) result ≡ answer_said word.now }
{
    match word {
        "yes" | "y" | "true" => Said::Clear("yes"),
        "no" | "n" | "false" => Said::Clear("no"),
        _ => Said::Unknown,
    }
}

/// The list of holidays.
#[tactic(auto, unfolding(crate::specs::Choices::list_said))]
pub fn list_said(word: &str) -> Said<&'static str>
    ensures { said_map (λ plain. plain.now) result ≡ list_said word.now }
{
    match word {
        "federal" | "fed" => Said::Clear("federal"),
        "state" => Said::Clear("state"),
        _ => Said::Unknown,
    }
}

/// What has to be done in time.
#[tactic(auto, unfolding(crate::specs::Choices::act_said))]
pub fn act_said(word: &str) -> Said<&'static str>
    ensures { said_map (λ plain. plain.now) result ≡ act_said word.now }
{
    match word {
        "filing" | "file" | "tofile" => Said::Clear("filing"),
        "service" | "serve" | "toserve" => Said::Clear("service"),
        _ => Said::Unknown,
    }
}

/// How a case was closed.
#[tactic(auto, unfolding(crate::specs::Choices::closing_said))]
pub fn closing_said(word: &str) -> Said<&'static str>
    ensures { said_map (λ plain. plain.now) result ≡ closing_said word.now }
{
    match word {
        "dismissed" | "dismissal" | "dismiss" => Said::Clear("dismissed"),
        "judgment" | "judgement" => Said::Clear("judgment"),
        "settled" | "settlement" | "settle" => Said::Clear("settled"),
        "transferred" | "transfer" => Said::Clear("transferred"),
        "remanded" | "remand" => Said::Clear("remanded"),
        "otherwise" | "other" => Said::Clear("otherwise"),
        _ => Said::Unknown,
    }
}

/// How a motion was ruled on.
#[tactic(auto, unfolding(crate::specs::Choices::ruling_said))]
pub fn ruling_said(word: &str) -> Said<&'static str>
    ensures { said_map (λ plain. plain.now) result ≡ ruling_said word.now }
{
    match word {
        "granted" | "grant" => Said::Clear("granted"),
        "denied" | "deny" | "denial" => Said::Clear("denied"),
        "inpart" | "grantedinpart" | "grantedinpartanddeniedinpart" => Said::Clear("in part"),
        "moot" | "mooted" | "deniedasmoot" => Said::Clear("moot"),
        "withdrawn" | "withdrew" => Said::Clear("withdrawn"),
        "reserved" | "reserve" | "underadvisement" => Said::Clear("reserved"),
        _ => Said::Unknown,
    }
}

/// Whether a deadline or a motion is meant.
#[tactic(auto, unfolding(crate::specs::Choices::counted_said))]
pub fn counted_said(word: &str) -> Said<&'static str>
    ensures { said_map (λ plain. plain.now) result ≡ counted_said word.now }
{
    match word {
        "deadline" | "deadlines" => Said::Clear("deadline"),
        "motion" | "motions" => Said::Clear("motion"),
        _ => Said::Unknown,
    }
}

/// Why a deadline is due no more.
#[tactic(auto, unfolding(crate::specs::Choices::why_said))]
pub fn why_said(word: &str) -> Said<&'static str>
    ensures { said_map (λ plain. plain.now) result ≡ why_said word.now }
{
    match word {
        "moot" | "mooted" => Said::Clear("moot"),
        "vacated" | "vacate" => Said::Clear("vacated"),
        "stayed" | "stay" => Said::Clear("stayed"),
        "suspended" | "suspend" => Said::Clear("suspended"),
        "withdrawn" | "withdrew" => Said::Clear("withdrawn"),
        _ => Said::Unknown,
    }
}

// The code of the period that a Rule's number sets alone.
#[tactic(auto, unfolding(crate::specs::Choices::one_rule_said))]
fn one_rule_said(number: &str) -> Said<&'static str>
    ensures { said_map (λ plain. plain.now) result ≡ one_rule_said number.now }
{
    match number {
        "4m" | "rule4m" | "frcp4m" | "fedrcivp4m" => Said::Clear("4m"),
        "12a1ai" | "rule12a1ai" | "frcp12a1ai" | "fedrcivp12a1ai" => Said::Clear("12a1Ai"),
        "12a1aiius" | "rule12a1aiius" | "frcp12a1aiius" | "fedrcivp12a1aiius" => Said::Clear(
            "12a1Aii-us",
        ),
        "12a1aiiabroad" | "rule12a1aiiabroad" | "frcp12a1aiiabroad" | "fedrcivp12a1aiiabroad" =>
            Said::Clear("12a1Aii-abroad"),
        "12a1b" | "rule12a1b" | "frcp12a1b" | "fedrcivp12a1b" => Said::Clear("12a1B"),
        "12a1c" | "rule12a1c" | "frcp12a1c" | "fedrcivp12a1c" => Said::Clear("12a1C"),
        "12a2" | "rule12a2" | "frcp12a2" | "fedrcivp12a2" => Said::Clear("12a2"),
        "12a3" | "rule12a3" | "frcp12a3" | "fedrcivp12a3" => Said::Clear("12a3"),
        "59b" | "rule59b" | "frcp59b" | "fedrcivp59b" => Said::Clear("59b"),
        "59e" | "rule59e" | "frcp59e" | "fedrcivp59e" => Said::Clear("59e"),
        _ => Said::Unknown,
    }
}

/// The code of a period of the Rules, from the Rule's number. `12(a)(1)(A)(ii)` is that of two.
#[tactic(auto, unfolding(crate::specs::Choices::rule_said))]
pub fn rule_said(number: &str) -> Said<&'static str>
    ensures { said_map (λ plain. plain.now) result ≡ rule_said number.now }
{
    match number {
        "12a1aii" | "rule12a1aii" | "frcp12a1aii" | "fedrcivp12a1aii" => Said::Unclear(
            "12a1Aii-us",
            "12a1Aii-abroad",
        ),
        _ => one_rule_said(number),
    }
}
