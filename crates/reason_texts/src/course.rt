//! For what a day is looked for, which decides the section that a reason cites.

ghost use Rattle.std.specs.Prelude.{◌≡◌};
ghost use Rattle.reason_texts.specs.Course.{course_after, course_of, first_day, is_summons, right_from_of, search_after};

use court_clock::{Day, Direction};
use deadline_reasons::Reason;
use rule_periods::{Grant, Period, RulePeriod};

/// For what a day is looked for.
#[derive(Clone, Copy, Debug, PartialEq, Eq)]
pub enum Search {
    /// The last day of a period (Fed. R. Civ. P. 6(a)(1)(C)).
    LastDay,
    /// A day to the same time of which hours are continued (6(a)(2)(C)).
    SameTime,
    /// An accessible day (6(a)(3)(A)).
    AccessibleDay,
    /// The same time on an accessible day (6(a)(3)(B)).
    AccessibleHour,
    /// None: an order sets the time at which the period ends (2009 Note to 6(a)).
    NoDay,
}

/// How far the reasons of a deadline have come.
#[derive(Clone, Copy, Debug, PartialEq, Eq)]
pub struct Course {
    /// For what a day is looked for.
    pub search: Search,
    /// Whether it is looked for among later days or earlier ones.
    pub direction: Direction,
    /// Whether the time is that to serve a summons, which is extended under Rule 4(m).
    pub summons: bool,
    /// The day from which the period is right as it is applied. One that a court enters is right from the first day on.
    pub right_from: Day,
}

impl Course {
    /// The course before any reason of a deadline with that period.
    pub fn of(period: &Period) -> Course
        ensures { result ≡ course_of period.now }
    {
        Course {
            search: Search::LastDay,
            direction: period.direction(),
            summons: is_summons(period),
            right_from: right_from_of(period),
        }
    }

    /// The course after a reason.
    pub fn after(&self, reason: &Reason) -> Course
        ensures { result ≡ course_after self.now reason.now }
    {
        match *reason {
            Reason::ThreeAdded(_) => self.towards_later(Search::LastDay),
            Reason::Extended(grant) => self.towards_later(search_after(grant)),
            Reason::SetAt(_) => self.looking_for(Search::NoDay),
            Reason::Continued(_, _) => self.looking_for(Search::SameTime),
            Reason::Inaccessible(_) => self.towards_later(Search::AccessibleDay),
            Reason::LastHour(_, _, _) => self.towards_later(Search::AccessibleHour),
            _ => *self,
        }
    }

    /// The course where a day is looked for in the same direction.
    fn looking_for(&self, search: Search) -> Course
        ensures { result ≡ record { search = search; direction = self.now.direction; summons = self.now.summons; right_from = self.now.right_from } }
    {
        Course {
            search,
            direction: self.direction,
            summons: self.summons,
            right_from: self.right_from,
        }
    }

    /// The course where a day is looked for among later ones.
    fn towards_later(&self, search: Search) -> Course
        ensures { result ≡ record { search = search; direction = Direction.After; summons = self.now.summons; right_from = self.now.right_from } }
    {
        Course {
            search,
            direction: Direction::After,
            summons: self.summons,
            right_from: self.right_from,
        }
    }
}

/// For what a day is looked for once this is granted: for none where an order sets a time.
fn search_after(grant: Grant) -> Search
    ensures { result ≡ search_after grant }
{
    match grant {
        Grant::ResetAt(_) => Search::NoDay,
        _ => Search::LastDay,
    }
}

/// Whether the period is that of Rule 4(m).
fn is_summons(period: &Period) -> bool
    ensures { result ≡ is_summons period.now }
{
    matches!(period, Period::Rule(RulePeriod::Rule4m))
}

/// The day from which the period is right as it is applied.
fn right_from_of(period: &Period) -> Day
    ensures { result ≡ right_from_of period.now }
{
    match *period {
        Period::Rule(rule) => rule.right_from(),
        Period::Entered(_) => first_day(),
    }
}

/// The first day that there is.
fn first_day() -> Day
    ensures { result ≡ first_day }
{
    match Day::new(-110_000) {
        Some(day) => day,
        None => unreachable!(),
    }
}
