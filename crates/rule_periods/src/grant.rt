//! Extensions of time.

ghost use Rattle.std.specs.Prelude.{◌≡◌, Bool, true};
ghost use Rattle.rule_periods.specs.Grant.{grant_fits, is_certain, is_grant_length, is_order};

use crate::event::Event;
use court_clock::Day;

/// An extension that a court grants, or another end that it orders.
#[derive(Clone, Copy, Debug, PartialEq, Eq)]
pub enum Grant {
    /// By a number of days, 1 to 3,650, counted from the last day so far. It is for a period in days.
    ByDays(u32),
    /// By a number of hours, 1 to 8,760, counted from the end so far. It is for a period in hours.
    ByHours(u32),
    /// Until that day, a date certain, which isn't rolled. It is for a period in days.
    Until(Day),
    /// To that day, which an order sets in place of the end so far, sooner or later. It isn't rolled. It is for any period.
    Reset(Day),
    /// To that minute of a day by the court's clock, in the same way. It is for any period.
    ResetAt(Event),
}

impl Grant {
    /// Whether an order sets the end itself, sooner or later, so that nothing is asked for.
    pub fn is_order(self) -> bool
        ensures value { result ≡ is_order self }
        ensures length { result ≡ true → is_grant_length self ≡ true }
        ensures fits { result ≡ true → (hours : Bool) → grant_fits hours self ≡ true }
    {
        match self {
            Grant::ByDays(_) | Grant::ByHours(_) | Grant::Until(_) => false,
            Grant::Reset(_) | Grant::ResetAt(_) => true,
        }
    }
}

/// A request for an extension, and what the court found (Fed. R. Civ. P. 6(b)(1)).
#[derive(Clone, Copy, Debug, PartialEq, Eq)]
pub struct Request {
    /// The extension that is asked.
    pub grant: Grant,
    /// When it was asked.
    pub asked: Event,
    /// Whether it was asked on motion.
    pub motion: bool,
    /// Whether there is good cause.
    pub cause: bool,
    /// Whether the failure to act in time was excusable neglect.
    pub neglect: bool,
}

/// Whether the length of an extension lies in its range.
pub(crate) fn is_grant_length(grant: Grant) -> bool
    ensures { result ≡ is_grant_length grant }
{
    match grant {
        Grant::ByDays(n) => 1 <= n && n <= 3_650,
        Grant::ByHours(h) => 1 <= h && h <= 8_760,
        Grant::Until(_) | Grant::Reset(_) | Grant::ResetAt(_) => true,
    }
}

/// Whether the extension is of the kind of a period that is, or isn't, in hours.
pub(crate) fn grant_fits(hours: bool, grant: Grant) -> bool
    ensures { result ≡ grant_fits hours grant }
{
    match grant {
        Grant::ByDays(_) | Grant::Until(_) => !hours,
        Grant::ByHours(_) => hours,
        Grant::Reset(_) | Grant::ResetAt(_) => true,
    }
}

/// Whether the extension is to a date certain, or an order sets the end.
pub(crate) fn is_certain(grant: &Grant) -> bool
    ensures { result ≡ is_certain grant.now }
{
    match *grant {
        Grant::ByDays(_) | Grant::ByHours(_) => false,
        Grant::Until(_) | Grant::Reset(_) | Grant::ResetAt(_) => true,
    }
}
