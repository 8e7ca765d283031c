//! Periods: those that the Rules set, and those that a court enters.

ghost use Rattle.std.specs.Prelude.{◌≡◌};
ghost use Rattle.rule_periods.specs.Period.{act_of, direction_of, extension_of, is_in_hours, is_set, is_set_length};

use crate::mark::Mark;
use crate::rule::{ExtensionRule, RulePeriod};
use court_clock::{Day, Direction};
use rule6::Act;

/// The length of an entered period.
#[derive(Clone, Copy, Debug, PartialEq, Eq)]
pub enum Length {
    /// A number of days, 1 to 3,650 (Fed. R. Civ. P. 6(a)(1)).
    Days(u32),
    /// A number of hours, 1 to 8,760 (Fed. R. Civ. P. 6(a)(2)).
    Hours(u32),
    /// None: an order sets the end, a date certain, which is the day of the event. Rule 6(a) doesn't apply to it
    /// (2009 Committee Note).
    ToDay,
    /// The same, where the order sets a time of day too, which is the minute of the event.
    ToTime,
}

impl Length {
    /// Whether an order sets the end, so that nothing is counted.
    pub fn is_set(self) -> bool
        ensures { result ≡ is_set_length self }
    {
        match self {
            Length::Days(_) | Length::Hours(_) => false,
            Length::ToDay | Length::ToTime => true,
        }
    }
}

/// A period that a court enters.
#[derive(Clone, Copy, Debug, PartialEq, Eq)]
pub struct Entered {
    /// How long it is.
    pub length: Length,
    /// On which side of its event it lies.
    pub direction: Direction,
    /// What must be done in time.
    pub act: Act,
    /// Whether it runs from service under Rule 5(b)(2), so that Rule 6(d) may add three days.
    pub served: bool,
    /// The rule under which it runs.
    pub mark: Mark,
}

/// A period.
#[derive(Clone, Copy, Debug, PartialEq, Eq)]
pub enum Period {
    /// One that the Rules set.
    Rule(RulePeriod),
    /// One that a court enters.
    Entered(Entered),
}

impl Period {
    /// What must be done in time, where the period runs from that day.
    pub fn act(self, day: Day) -> Act
        ensures { result ≡ act_of self day }
    {
        match self {
            Period::Rule(rule) => rule.act(day),
            Period::Entered(entered) => entered.act,
        }
    }

    /// On which side of its event the period lies.
    pub fn direction(self) -> Direction
        ensures { result ≡ direction_of self }
    {
        match self {
            Period::Rule(_) => Direction::After,
            Period::Entered(entered) => entered.direction,
        }
    }

    /// How the time may be extended, where the period runs from that day.
    pub fn extension_rule(self, day: Day) -> ExtensionRule
        ensures { result ≡ extension_of self day }
    {
        match self {
            Period::Rule(rule) => rule.extension_rule(day),
            Period::Entered(entered) => match entered.mark {
                Mark::Plain => ExtensionRule::GoodCause,
                _ => ExtensionRule::Never,
            },
        }
    }

    /// Whether the period ends at an instant: it is counted in hours, or an order sets a time of day.
    pub fn is_in_hours(self) -> bool
        ensures { result ≡ is_in_hours self }
    {
        match self {
            Period::Rule(_) => false,
            Period::Entered(entered) => match entered.length {
                Length::Days(_) | Length::ToDay => false,
                Length::Hours(_) | Length::ToTime => true,
            },
        }
    }

    /// Whether an order sets the period's end, so that nothing is counted.
    pub fn is_set(self) -> bool
        ensures { result ≡ is_set self }
    {
        match self {
            Period::Rule(_) => false,
            Period::Entered(entered) => entered.length.is_set(),
        }
    }
}
