//! The section of the Federal Rules of Civil Procedure by which a reason goes.

ghost use Rattle.std.specs.Prelude.{◌≡◌, ◌++◌, OnOk, string_bytes};
ghost use Rattle.reason_texts.specs.Section.{instant_section, extended_by, granted_by, holiday_section, looked_by, section_of, section_text};

use crate::course::{Course, Search};
use court_clock::Direction;
use deadline_reasons::{Cause, Reason};
use rule_periods::Grant;
use std::alloc::AllocError;

/// Adds the section by which a reason goes, and for a holiday that which says what one is. `Err` says that memory ran out.
pub fn push_section(text: &mut String, course: &Course, reason: &Reason) -> Result<(), AllocError>
    ensures { OnOk result (string_bytes text.new ≡ string_bytes text.old ++ section_text course.now reason.now) }
{
    text.push_str(section_of(course, reason))?;
    text.push_str(holiday_section(reason))
}

/// The section by which a reason goes.
fn section_of(course: &Course, reason: &Reason) -> &'static str
    ensures { result.now ≡ section_of course.now reason.now }
{
    match *reason {
        Reason::Excluded(_) => "6(a)(1)(A)",
        Reason::Set(_) | Reason::SetAt(_) => "6(a), 2009 Note",
        Reason::Counted(_, _) => "6(a)(1)(B)",
        Reason::PassedOver(_, _) | Reason::RunsTo(_) | Reason::SameTime(_, _) => looked_by(course),
        Reason::ThreeAdded(_) => "6(d)",
        Reason::Extended(grant) | Reason::NotExtended(grant) => granted_by(course.summons, grant),
        Reason::HoursFrom(_) => "6(a)(2)(A)",
        Reason::HoursCounted(_, _, _) => "6(a)(2)(B)",
        Reason::EndsOn(_) | Reason::Continued(_, _) => "6(a)(2)(C)",
        Reason::Inaccessible(_) => "6(a)(3)(A)",
        Reason::LastHour(_, _, _) => "6(a)(3)(B)",
        Reason::UntilClosing(_, _, _) => "6(a)(4)",
        Reason::UntilInstant(_) => instant_section(course.search),
        Reason::UntilMidnight(_) | Reason::NotCovered | Reason::Beyond => "ours",
    }
}

/// The section by which a day is looked for.
fn looked_by(course: &Course) -> &'static str
    ensures { result.now ≡ looked_by course.now.search course.now.direction }
{
    match course.search {
        Search::LastDay => match course.direction {
            Direction::After => "6(a)(1)(C)",
            Direction::Before => "6(a)(1)(C), 6(a)(5)",
        },
        Search::SameTime => match course.direction {
            Direction::After => "6(a)(2)(C)",
            Direction::Before => "6(a)(2)(C), 6(a)(5)",
        },
        Search::AccessibleDay => "6(a)(3)(A)",
        Search::AccessibleHour => "6(a)(3)(B)",
        Search::NoDay => "6(a), 2009 Note",
    }
}

/// The section by which the time ends at an instant. No hours are counted up to a time that an order sets.
fn instant_section(search: Search) -> &'static str
    ensures { result.now ≡ instant_section search }
{
    match search {
        Search::LastDay | Search::SameTime | Search::AccessibleDay | Search::AccessibleHour =>
            "6(a)(2)",
        Search::NoDay => "6(a), 2009 Note",
    }
}

/// The section of what is granted. A time that an order sets is extended by no rule.
fn granted_by(summons: bool, grant: Grant) -> &'static str
    ensures { result.now ≡ granted_by summons grant }
{
    match grant {
        Grant::Reset(_) | Grant::ResetAt(_) => "6(a), 2009 Note",
        _ => extended_by(summons),
    }
}

/// The section by which time is extended.
fn extended_by(summons: bool) -> &'static str
    ensures { result.now ≡ extended_by summons }
{
    if summons { "4(m)" } else { "6(b)" }
}

/// The section that says what a holiday is, where a reason is one.
fn holiday_section(reason: &Reason) -> &'static str
    ensures { result.now ≡ holiday_section reason.now }
{
    match *reason {
        Reason::PassedOver(_, Cause::FederalHoliday) => ", 6(a)(6)",
        Reason::PassedOver(_, Cause::StateHoliday) => ", 6(a)(6)(C)",
        _ => "",
    }
}
