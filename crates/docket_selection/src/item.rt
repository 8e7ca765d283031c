//! What is due: the end of a deadline's time, or a hearing.

ghost use Rattle.std.specs.Prelude.{◌≡◌, option_map};
ghost use Rattle.court_clock.specs.Words.{CivilTime, second_of};
ghost use Rattle.docket_selection.specs.Items.{deadline_item, end_of, hearing_item, is_ended, is_met, is_pending, matter_with_other, set_item, time_of, with_other};

use court_clock::{Clock, Day};
use docket_rows::{Ending, SheetDeadline, SheetHearing, SheetMotion, State};
use rule_periods::Period;
use rule6::Shown;

/// A deadline whose time ends on a day that is covered.
#[derive(Clone, Copy, Debug, PartialEq, Eq)]
pub struct DueDeadline {
    /// Its period.
    pub period: Period,
    /// When its time ends, by the docket as it is now: with a last day or at an instant, never beyond.
    pub shown: Shown,
    /// Whether it was met.
    pub state: State,
    /// Why it is due no more, if it was ended and not resumed.
    pub ended: Option<Ending>,
    /// The earliest of the ends that other readings of the Rules give in place of that one, if one does.
    pub other: Option<Shown>,
}

/// What there is at a time.
#[derive(Clone, Copy, Debug, PartialEq, Eq)]
pub enum Matter {
    /// The time of a deadline ends.
    Deadline(DueDeadline),
    /// A hearing begins.
    Hearing(SheetHearing),
}

/// A deadline or a hearing of a case, with its time.
#[derive(Clone, Copy, Debug, PartialEq, Eq)]
pub struct DueItem {
    /// The last day of the deadline, the day on which its hours end, or that of the hearing.
    pub day: Day,
    /// The second of the day, counted from midnight: 0 for a deadline that ends with its last day, else when its hours
    /// end or the hearing begins.
    pub second: u32,
    /// The number of the case.
    pub case: u32,
    /// The number of the deadline, or of the motion that is heard, in its case.
    pub number: u32,
    /// What there is.
    pub matter: Matter,
}

/// The types inside an item. The checker finds them only where they have names, so a function that has a `Vec` of items has
/// a variable of this type.
pub type DueTypes = Option<
    (
        Matter,
        DueDeadline,
        Period,
        Option<Shown>,
        Shown,
        State,
        Option<Ending>,
        SheetHearing,
    ),
>;

/// The item of a deadline, before other readings are asked. None where its time ends beyond the days covered.
pub(crate) fn deadline_item(clock: &Clock, case: u32, deadline: &SheetDeadline) -> Option<DueItem>
    ensures { result ≡ deadline_item clock.now case deadline.now }
{
    let (day, second) = end_of(clock, &deadline.shown)?;
    Some(DueItem {
        day,
        second,
        case,
        number: deadline.number,
        matter: Matter::Deadline(DueDeadline {
            period: deadline.row.period(),
            shown: deadline.shown,
            state: deadline.state,
            ended: deadline.ended,
            other: None,
        }),
    })
}

/// The day and the second at which the end of a deadline is listed.
fn end_of(clock: &Clock, shown: &Shown) -> Option<(Day, u32)>
    ensures { option_map (λ c. record { day = c.0; second = c.1 }) result ≡ end_of clock.now shown.now }
{
    match *shown {
        Shown::Last { day, act: _ } => Some((day, 0)),
        Shown::Until(end) => clock.civil_of(end),
        Shown::Beyond => None,
    }
}

/// The item with the end of its deadline by another reading.
pub(crate) fn with_other(item: DueItem, other: Option<Shown>) -> DueItem
    ensures { result ≡ with_other other item }
{
    let DueItem {
        day,
        second,
        case,
        number,
        matter,
    } = item;
    DueItem {
        day,
        second,
        case,
        number,
        matter: matter_with_other(matter, other),
    }
}

/// The same of what there is at its time.
fn matter_with_other(matter: Matter, other: Option<Shown>) -> Matter
    ensures { result ≡ matter_with_other other matter }
{
    match matter {
        Matter::Deadline(deadline) => Matter::Deadline(DueDeadline { other, ..deadline }),
        Matter::Hearing(set) => Matter::Hearing(set),
    }
}

/// The item of a motion's hearing, if one is set.
pub(crate) fn hearing_item(case: u32, motion: &SheetMotion) -> Option<DueItem>
    ensures { result ≡ hearing_item case motion.now }
{
    match &motion.hearing {
        Some(set) => Some(set_item(case, motion.number, set)),
        None => None,
    }
}

/// The item of the hearing of the motion of that number.
fn set_item(case: u32, number: u32, set: &SheetHearing) -> DueItem
    ensures { result ≡ set_item case number set.now }
{
    DueItem {
        day: set.hearing.day,
        second: 900 * u32::from(set.hearing.first),
        case,
        number,
        matter: Matter::Hearing(*set),
    }
}

/// Whether a timely act is recorded, so that nothing is due.
pub(crate) fn is_met(matter: &Matter) -> bool
    ensures { result ≡ is_met matter.now }
{
    match matter {
        Matter::Deadline(deadline) => deadline.state == State::Timely,
        Matter::Hearing(_) => false,
    }
}

/// Whether no act is recorded.
pub(crate) fn is_pending(state: State) -> bool
    ensures { result ≡ is_pending state }
{
    state == State::Pending
}

/// Whether a deadline was ended and not resumed, so that it is due no more.
pub fn is_ended(matter: &Matter) -> bool
    ensures { result ≡ is_ended matter.now }
{
    match matter {
        Matter::Deadline(deadline) => deadline.ended.is_some(),
        Matter::Hearing(_) => false,
    }
}

/// The time of an item, in seconds from the midnight that begins 1970-01-01 on the court's clock.
pub(crate) fn time_of(item: &DueItem) -> i64
    ensures { result ≡ time_of item.now }
{
    second_of(item.day, item.second)
}

/// A second of a day, counted from the same midnight.
fn second_of(day: Day, second: u32) -> i64
    ensures { result ≡ second_of day second }
{
    i64::from(day.number()) * 86_400 + i64::from(second)
}
