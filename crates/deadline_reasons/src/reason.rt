//! The reasons for which a deadline is the day or the instant that it is.

ghost use Rattle.std.specs.Prelude.{◌≡◌, ◌++◌, ◌∷◌, [], IfOk};
ghost use Rattle.court_clock.specs.Words.{ClockView};
ghost use Rattle.court_days.specs.Words.{DaysView};
ghost use Rattle.rule_periods.specs.Words.{DeadlineRowView};
ghost use Rattle.deadline_reasons.specs.Derivation.{Lead};
ghost use Rattle.deadline_reasons.specs.Follows.{Follows};
ghost use Rattle.deadline_reasons.specs.Standing.{Standing, Unstarted};

use court_clock::{Day, Instant};
use court_days::Outage;
use rule_periods::Grant;
use rule6::ServiceKind;
use std::alloc::AllocError;

/// Why a day is passed over.
#[derive(Clone, Copy, Debug, PartialEq, Eq)]
pub enum Cause {
    /// A Saturday (Fed. R. Civ. P. 6(a)(1)(C)).
    Saturday,
    /// A Sunday (6(a)(1)(C)).
    Sunday,
    /// A legal holiday of the federal list (6(a)(6)(A), (B)).
    FederalHoliday,
    /// A holiday of the state, which counts only for a period measured after its event (6(a)(6)(C)).
    StateHoliday,
    /// The clerk's office was inaccessible at some minute of the day (6(a)(3)).
    Inaccessible,
}

/// One step of the way from a deadline's event to its end, with the rule that it goes by.
#[derive(Clone, Copy, Debug, PartialEq, Eq)]
pub enum Reason {
    /// The day of the event is excluded (Fed. R. Civ. P. 6(a)(1)(A)). Of two events it is the later.
    Excluded(Day),
    /// An order sets the end on this day, a date certain: nothing is counted, and it isn't rolled (2009 Note to 6(a)).
    Set(Day),
    /// The same at this instant, where the order sets a time of day too.
    SetAt(Instant),
    /// This number of days is counted, every day counts, and this day is the last of them (6(a)(1)(B), (C)).
    Counted(u32, Day),
    /// The day is passed over, and the next one is looked at, away from the event (6(a)(1)(C), (a)(5), (a)(6)), or
    /// later where an accessible day is looked for (6(a)(3)).
    PassedOver(Day, Cause),
    /// The period runs until the end of this day, for which there is no cause to pass over it (6(a)(1)(C), 6(a)(3)(A)).
    RunsTo(Day),
    /// Three days are added for this kind of service (6(d)).
    ThreeAdded(ServiceKind),
    /// The time is extended (6(b); under Rule 4(m) by 4(m)), or an order sets another end (2009 Note to 6(a)).
    Extended(Grant),
    /// This extension gives no end: it is of another kind than the period, or there is nothing that it could extend.
    NotExtended(Grant),
    /// The hours are counted from this instant on, that of the event (6(a)(2)(A)).
    HoursFrom(Instant),
    /// This number of hours is counted, every hour counts (6(a)(2)(B)), and they end at this instant. The last number is
    /// that of the seconds by which the clock is further ahead of UTC there than where they begin: 0 unless the clocks
    /// were changed, and negative where they were set back.
    HoursCounted(u32, Instant, i32),
    /// The clock shows this day where the hours end, and there is no cause to pass over it (6(a)(2)(C)).
    EndsOn(Day),
    /// The clock shows this day and this second of it, counted from midnight, where the hours end, so that the period
    /// continues to the same time on another day (6(a)(2)(C)).
    Continued(Day, u32),
    /// There is no cause to pass over this day, and this is the instant at which the clock shows the same time on it
    /// (6(a)(2)(C), 6(a)(3)(B)).
    SameTime(Day, Instant),
    /// The clerk's office was inaccessible on the last day for filing, and a later day is looked for (6(a)(3)(A)).
    Inaccessible(Outage),
    /// The clerk's office was inaccessible during the last hour for filing, at whose end the clock shows this day and
    /// this second of it, counted from midnight. The same time on a later day is looked for (6(a)(3)(B)).
    LastHour(Outage, Day, u32),
    /// The last day, which ends at midnight: the act is service, about which 6(a)(4) says nothing.
    UntilMidnight(Day),
    /// The last day, which ends for filing on paper at the first minute, counted from midnight, at which the clerk's office is
    /// scheduled to close, and for electronic filing at the second one, or at midnight where there is none (6(a)(4)).
    UntilClosing(Day, u16, Option<u16>),
    /// The instant at which the time ends.
    UntilInstant(Instant),
    /// The day that is to be looked at isn't covered by the court's file.
    NotCovered,
    /// The deadline lies beyond the days that are covered.
    Beyond,
}

/// The types that a reason is made of, which a function that fills a list of reasons has to name.
type ReasonTypes = Option<(Day, Cause, ServiceKind, Grant, Instant, Outage)>;

/// Adds a reason. Where it follows from the reasons so far, the reasons with it lead on to the next standing.
pub(crate) fn push(reasons: &mut Vec<Reason>, reason: Reason) -> Result<(), AllocError>
    ensures items { IfOk result (λ _. reasons.new.items ≡ reasons.old.items ++ reason ∷ []) }
    ensures leads { (c : DaysView) (clock : ClockView) (row : DeadlineRowView) (here next : Standing) → IfOk result (λ _. Lead c clock row Unstarted reasons.old.items here → Follows c clock row here reason next → Lead c clock row Unstarted reasons.new.items next) }
{
    let _types: ReasonTypes = None;
    reasons.push(reason)?;
    Ok(())
}
