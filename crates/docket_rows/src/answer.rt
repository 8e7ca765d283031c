//! What a command is answered.

ghost use Rattle.std.specs.Prelude.{◌≡◌, IfOk};

use crate::refusal::Refusal;
use court_clock::Day;
use rule6::Shown;
use std::alloc::AllocError;

/// The answer to a command.
#[derive(Clone, Copy, Debug, PartialEq, Eq)]
pub enum Answer {
    /// The case is open.
    Opened,
    /// The deadline was given this number in its case; when its time ends.
    Started(u32, Shown),
    /// The act is recorded; whether it was timely.
    Filed(bool),
    /// The time is extended; when it ends now.
    Extended(Shown),
    /// An order set another end; when the time ends now.
    Reset(Shown),
    /// The motion was given this number in its case.
    MotionEntered(u32),
    /// The hearing is booked.
    Booked,
    /// The hearing is moved.
    Moved,
    /// The hearing is off the calendar.
    Cancelled,
    /// The holiday is entered.
    HolidayEntered,
    /// The outage of the clerk's office is entered.
    OutageEntered,
    /// The deadline is ended.
    Ended,
    /// The deadline is resumed; when its time ends.
    Resumed(Shown),
    /// The case is closed.
    Closed,
    /// The case is open again.
    Reopened,
    /// The motion is ruled on; the day of its hearing, where that was later than the ruling and is off the calendar.
    Ruled(Option<Day>),
    /// The case is assigned.
    Assigned,
    /// The case has that title.
    Titled,
    /// The deadline or the motion has that label.
    Labelled,
    /// The command is refused, and changes nothing.
    Refused(Refusal),
}

impl Answer {
    /// The same answer. It takes no memory.
    pub fn copy(&self) -> Result<Answer, AllocError>
        ensures { IfOk result (λ answer. answer ≡ self.now) }
    {
        Ok(*self)
    }
}
