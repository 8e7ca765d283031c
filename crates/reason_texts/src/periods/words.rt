//! The words for what is to be done, for events, and the sections of the Rules.

ghost use Rattle.std.specs.Prelude.{◌≡◌};
ghost use Rattle.reason_texts.specs.Periods.Heading.{act_words, event_words, mark_section, mark_words, rule_section, rule_words, side_words, start_words};

use court_clock::Direction;
use rule_periods::{Mark, RulePeriod};
use rule6::Act;

/// The section that sets a period of the Rules.
pub fn rule_section(rule: RulePeriod) -> &'static str
    ensures { result.now ≡ rule_section rule }
{
    match rule {
        RulePeriod::Rule4m => "4(m)",
        RulePeriod::Rule12a1Ai => "12(a)(1)(A)(i)",
        RulePeriod::Rule12a1AiiUs => "12(a)(1)(A)(ii)",
        RulePeriod::Rule12a1AiiAbroad => "12(a)(1)(A)(ii)",
        RulePeriod::Rule12a1B => "12(a)(1)(B)",
        RulePeriod::Rule12a1C => "12(a)(1)(C)",
        RulePeriod::Rule12a2 => "12(a)(2)",
        RulePeriod::Rule12a3 => "12(a)(3)",
        RulePeriod::Rule59b => "59(b)",
        RulePeriod::Rule59e => "59(e)",
    }
}

/// What is to be done within a period of the Rules.
pub fn rule_words(rule: RulePeriod) -> &'static str
    ensures { result.now ≡ rule_words rule }
{
    match rule {
        RulePeriod::Rule4m => "to serve the summons and complaint",
        RulePeriod::Rule12a1Ai => "an answer to the complaint",
        RulePeriod::Rule12a1AiiUs => "an answer, service waived",
        RulePeriod::Rule12a1AiiAbroad => "an answer, service waived abroad",
        RulePeriod::Rule12a1B => "an answer to a counterclaim or crossclaim",
        RulePeriod::Rule12a1C => "a reply to an answer",
        RulePeriod::Rule12a2 => "an answer of the United States",
        RulePeriod::Rule12a3 => "an answer of an officer sued individually",
        RulePeriod::Rule59b => "a motion for a new trial",
        RulePeriod::Rule59e => "a motion to alter or amend a judgment",
    }
}

/// The event from which a period of the Rules runs.
pub fn event_words(rule: RulePeriod) -> &'static str
    ensures { result.now ≡ event_words rule }
{
    match rule {
        RulePeriod::Rule4m => "from the filing of the complaint",
        RulePeriod::Rule12a1Ai => "from service of the summons and complaint",
        RulePeriod::Rule12a1AiiUs => "from when the request for a waiver was sent",
        RulePeriod::Rule12a1AiiAbroad => "from when the request for a waiver was sent",
        RulePeriod::Rule12a1B => "from service of the pleading that states it",
        RulePeriod::Rule12a1C => "from service of the order to reply",
        RulePeriod::Rule12a2 => "from service on the United States attorney",
        RulePeriod::Rule12a3 => "from service on officer and US attorney, the later",
        RulePeriod::Rule59b => "from the entry of judgment",
        RulePeriod::Rule59e => "from the entry of judgment",
    }
}

/// The section that a mark names, or for 60b, which stands on periods of other sections, that by which a court must not extend them.
pub(crate) fn mark_section(mark: Mark) -> &'static str
    ensures { result.now ≡ mark_section mark }
{
    match mark {
        Mark::Plain => "entered",
        Mark::Rule50b => "50(b)",
        Mark::Rule50d => "50(d)",
        Mark::Rule52b => "52(b)",
        Mark::Rule59b => "59(b)",
        Mark::Rule59d => "59(d)",
        Mark::Rule59e => "59(e)",
        Mark::Rule60b => "6(b)(2)",
    }
}

/// What is to be done within the time of that section, or that it isn't extended.
pub(crate) fn mark_words(mark: Mark) -> &'static str
    ensures { result.now ≡ mark_words mark }
{
    match mark {
        Mark::Plain => "",
        Mark::Rule50b => "a renewed motion for judgment as a matter of law",
        Mark::Rule50d => "a motion for a new trial by the losing party",
        Mark::Rule52b => "a motion to amend or add findings",
        Mark::Rule59b => "a motion for a new trial",
        Mark::Rule59d => "a new trial on the court's own initiative",
        Mark::Rule59e => "a motion to alter or amend a judgment",
        Mark::Rule60b => "not extended, as a motion under 60(b)",
    }
}

/// On which side of its event a period lies.
pub(crate) fn side_words(direction: Direction) -> &'static str
    ensures { result.now ≡ side_words direction }
{
    match direction {
        Direction::After => " after ",
        Direction::Before => " before ",
    }
}

/// What an entered period is measured from.
pub(crate) fn start_words(served: bool) -> &'static str
    ensures { result.now ≡ start_words served }
{
    if served { "service" } else { "the event" }
}

/// What is to be done within an entered period.
pub(crate) fn act_words(act: Act) -> &'static str
    ensures { result.now ≡ act_words act }
{
    match act {
        Act::Filing => ", to file",
        Act::Service => ", to serve",
    }
}
