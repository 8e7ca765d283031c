//! The periods that the Federal Rules of Civil Procedure set, the table of what they say of each, and from which day on
//! it is right.

ghost use Rattle.std.specs.Prelude.{◌≡◌, ◌≤◌};
ghost use Rattle.rule_periods.specs.Rule.{right_from, rule_code, rule_of_code, service_rule_of, takes_second_day, terms_of};

use court_clock::Day;
use rule6::Act;

/// Whether a kind of service (Fed. R. Civ. P. 5(b)(2)) goes with a period.
#[derive(Clone, Copy, Debug, PartialEq, Eq)]
pub enum ServiceRule {
    /// The period doesn't run from service under Rule 5(b)(2): no kind is given.
    None,
    /// The period runs from such service: its kind is given.
    Required,
    /// The period runs from another event: a kind may be noted, and adds nothing.
    MayBeNoted,
}

/// How the time may be extended.
#[derive(Clone, Copy, Debug, PartialEq, Eq)]
pub enum ExtensionRule {
    /// For cause, without the findings of Rule 6(b) (Fed. R. Civ. P. 4(m)).
    WithoutFindings,
    /// For good cause, and late only on motion and for excusable neglect (Fed. R. Civ. P. 6(b)(1)).
    GoodCause,
    /// Not at all (Fed. R. Civ. P. 6(b)(2)).
    Never,
}

/// What the Rules say of a period.
#[derive(Clone, Copy, Debug, PartialEq, Eq)]
pub struct Terms {
    /// The length in days.
    pub days: u32,
    /// What must be done in time.
    pub act: Act,
    /// How the time may be extended.
    pub extension: ExtensionRule,
}

/// A period that the Rules set. All are counted in days and measured after their event.
#[derive(Clone, Copy, Debug, PartialEq, Eq)]
pub enum RulePeriod {
    /// Rule 4(m): service of process, from the filing of the complaint.
    Rule4m,
    /// Rule 12(a)(1)(A)(i): an answer, from service of the summons and complaint.
    Rule12a1Ai,
    /// Rule 12(a)(1)(A)(ii): an answer after waiver, from when the request was sent.
    Rule12a1AiiUs,
    /// Rule 12(a)(1)(A)(ii): the same, where it was sent outside any judicial district of the United States.
    Rule12a1AiiAbroad,
    /// Rule 12(a)(1)(B): an answer to a counterclaim or crossclaim, from service of the pleading.
    Rule12a1B,
    /// Rule 12(a)(1)(C): a reply, from service of the order to reply.
    Rule12a1C,
    /// Rule 12(a)(2): the answer of the United States, from service on the United States attorney.
    Rule12a2,
    /// Rule 12(a)(3): the answer of a United States officer sued individually, from the later of service on the
    /// officer and on the United States attorney.
    Rule12a3,
    /// Rule 59(b): a motion for a new trial, from the entry of judgment.
    Rule59b,
    /// Rule 59(e): a motion to alter or amend a judgment, from its entry.
    Rule59e,
}

/// Rule 4(m): 90 days after the complaint is filed to serve the defendant.
const RULE_4M: Terms = Terms {
    days: 90,
    act: Act::Service,
    extension: ExtensionRule::WithoutFindings,
};

/// Rule 12(a)(1)(A)(i): 21 days after service of the summons and complaint to serve an answer.
const RULE_12A1AI: Terms = Terms {
    days: 21,
    act: Act::Service,
    extension: ExtensionRule::GoodCause,
};

/// Rule 12(a)(1)(A)(ii): 60 days after the request for a waiver was sent.
const RULE_12A1AII_US: Terms = Terms {
    days: 60,
    act: Act::Service,
    extension: ExtensionRule::GoodCause,
};

/// Rule 12(a)(1)(A)(ii): 90 days where it was sent outside any judicial district of the United States.
const RULE_12A1AII_ABROAD: Terms = Terms {
    days: 90,
    act: Act::Service,
    extension: ExtensionRule::GoodCause,
};

/// Rule 12(a)(1)(B): 21 days after service of the pleading that states the counterclaim or crossclaim.
const RULE_12A1B: Terms = Terms {
    days: 21,
    act: Act::Service,
    extension: ExtensionRule::GoodCause,
};

/// Rule 12(a)(1)(C): 21 days after service of an order to reply.
const RULE_12A1C: Terms = Terms {
    days: 21,
    act: Act::Service,
    extension: ExtensionRule::GoodCause,
};

/// Rule 12(a)(2): 60 days after service on the United States attorney.
const RULE_12A2: Terms = Terms {
    days: 60,
    act: Act::Service,
    extension: ExtensionRule::GoodCause,
};

/// Rule 12(a)(3): 60 days after service on the officer or the United States attorney, whichever is later.
const RULE_12A3: Terms = Terms {
    days: 60,
    act: Act::Service,
    extension: ExtensionRule::GoodCause,
};

/// Rule 59(b): 28 days after the entry of judgment to move for a new trial.
const RULE_59B: Terms = Terms {
    days: 28,
    act: Act::Filing,
    extension: ExtensionRule::Never,
};

/// Rule 59(e): 28 days after the entry of judgment to move to alter or amend it.
const RULE_59E: Terms = Terms {
    days: 28,
    act: Act::Filing,
    extension: ExtensionRule::Never,
};

/// 2009-12-01, from which day on every day counts.
const COUNTING_AMENDED: i32 = 14_579;

/// 2015-12-01, from which day on a summons is served within 90 days.
const SUMMONS_AMENDED: i32 = 16_770;

impl RulePeriod {
    /// What the Rules say of the period where it runs from that day: the day of its event, or the later of two. The
    /// terms are the same for every day, also for one before `right_from`.
    pub fn terms(self, day: Day) -> Terms
        ensures { result ≡ terms_of self day }
    {
        match self {
            RulePeriod::Rule4m => RULE_4M,
            RulePeriod::Rule12a1Ai => RULE_12A1AI,
            RulePeriod::Rule12a1AiiUs => RULE_12A1AII_US,
            RulePeriod::Rule12a1AiiAbroad => RULE_12A1AII_ABROAD,
            RulePeriod::Rule12a1B => RULE_12A1B,
            RulePeriod::Rule12a1C => RULE_12A1C,
            RulePeriod::Rule12a2 => RULE_12A2,
            RulePeriod::Rule12a3 => RULE_12A3,
            RulePeriod::Rule59b => RULE_59B,
            RulePeriod::Rule59e => RULE_59E,
        }
    }

    /// The day from which `terms` has what the Rules say of a period that runs from that day, or from a later one.
    #[tactic(auto, using(crate::proofs::RuleLemmas::counting_amended_is, crate::proofs::RuleLemmas::summons_amended_is))]
    pub fn right_from(self) -> Day
        ensures { result ≡ right_from self }
    {
        let number = match self {
            RulePeriod::Rule4m => SUMMONS_AMENDED,
            _ => COUNTING_AMENDED,
        };
        match Day::new(number) {
            Some(day) => day,
            None => unreachable!(),
        }
    }

    /// The length in days, where the period runs from that day.
    pub fn days(self, day: Day) -> u32
        ensures value { result ≡ (terms_of self day).days }
        ensures bound { (1 ≤ result) × (result ≤ 3650) }
    {
        self.terms(day).days
    }

    /// What must be done in time, where the period runs from that day.
    pub fn act(self, day: Day) -> Act
        ensures { result ≡ (terms_of self day).act }
    {
        self.terms(day).act
    }

    /// How the time may be extended, where the period runs from that day.
    pub fn extension_rule(self, day: Day) -> ExtensionRule
        ensures { result ≡ (terms_of self day).extension }
    {
        self.terms(day).extension
    }

    /// Whether a kind of service goes with the period.
    pub fn service_rule(self) -> ServiceRule
        ensures { result ≡ service_rule_of self }
    {
        match self {
            RulePeriod::Rule12a1B | RulePeriod::Rule12a1C => ServiceRule::Required,
            RulePeriod::Rule59b | RulePeriod::Rule59e => ServiceRule::MayBeNoted,
            _ => ServiceRule::None,
        }
    }

    /// Whether a second day goes with the period, so that it runs from the later of the two.
    pub fn takes_second_day(self) -> bool
        ensures { result ≡ takes_second_day self }
    {
        matches!(self, RulePeriod::Rule12a3)
    }

    /// The code by which rows and sheets name the period.
    pub fn code(self) -> &'static str
        ensures { result.now ≡ rule_code self }
    {
        match self {
            RulePeriod::Rule4m => "4m",
            RulePeriod::Rule12a1Ai => "12a1Ai",
            RulePeriod::Rule12a1AiiUs => "12a1Aii-us",
            RulePeriod::Rule12a1AiiAbroad => "12a1Aii-abroad",
            RulePeriod::Rule12a1B => "12a1B",
            RulePeriod::Rule12a1C => "12a1C",
            RulePeriod::Rule12a2 => "12a2",
            RulePeriod::Rule12a3 => "12a3",
            RulePeriod::Rule59b => "59b",
            RulePeriod::Rule59e => "59e",
        }
    }

    /// The period that a code names; none for any other text.
    pub fn from_code(text: &str) -> Option<RulePeriod>
        ensures { result ≡ rule_of_code text.now }
    {
        match text {
            "4m" => Some(RulePeriod::Rule4m),
            "12a1Ai" => Some(RulePeriod::Rule12a1Ai),
            "12a1Aii-us" => Some(RulePeriod::Rule12a1AiiUs),
            "12a1Aii-abroad" => Some(RulePeriod::Rule12a1AiiAbroad),
            "12a1B" => Some(RulePeriod::Rule12a1B),
            "12a1C" => Some(RulePeriod::Rule12a1C),
            "12a2" => Some(RulePeriod::Rule12a2),
            "12a3" => Some(RulePeriod::Rule12a3),
            "59b" => Some(RulePeriod::Rule59b),
            "59e" => Some(RulePeriod::Rule59e),
            _ => None,
        }
    }
}
