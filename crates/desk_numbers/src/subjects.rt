//! Deadlines and motions that a row names without their numbers.
ghost use Rattle.std.specs.Prelude.{◌≡◌, ◌++◌, ◌∷◌, [], filter, map};
ghost use Rattle.desk_numbers.specs.Subjects.{deadline_number, found_among, found_in, found_made, found_on, is_called, is_called_deadline, is_called_motion, is_pending_under, is_under, motion_number, newest_of, with_found};

use crate::called::CalledTexts;
use crate::given::Given;
use docket_rows::{Counted, Sheet, SheetDeadline, SheetMotion, State, View};
use rule_periods::{Period, RulePeriod};

/// A deadline or a motion of a case, as a row names it without its number.
#[derive(Clone, Copy, Debug, PartialEq, Eq)]
pub enum SubjectName {
    /// The deadline under this rule that is pending.
    Under(RulePeriod),
    /// The newest motion.
    Newest,
    /// The deadline that the row before started, or the motion that it entered.
    Made(Counted),
    /// The deadline, or the motion, that rows call so as the row says.
    Called(Counted),
}

/// What a row may mean that names a deadline or a motion without its number.
#[derive(Clone, Copy, Debug, PartialEq, Eq)]
pub enum Found {
    /// None is so named.
    None,
    /// Just one is, and has this number.
    One(u32),
    /// Two or more are, and these are the numbers of the first two.
    Two(u32, u32),
}

// Whether a period is that of a rule.
fn is_under(rule: RulePeriod, period: Period) -> bool
    ensures { result ≡ is_under rule period }
{
    match period {
        Period::Rule(other) => other.code() == rule.code(),
        Period::Entered(_) => false,
    }
}

// Whether a deadline under that rule is pending, and wasn't ended.
fn is_pending_under(rule: RulePeriod, deadline: &SheetDeadline) -> bool
    ensures { result ≡ is_pending_under rule deadline.now }
{
    match (deadline.state, deadline.ended) {
        (State::Pending, None) => is_under(rule, deadline.row.period()),
        _ => false,
    }
}

// What is found with one more.
fn with_found(found: Found, number: u32) -> Found
    ensures { result ≡ with_found found number }
{
    match found {
        Found::None => Found::One(number),
        Found::One(first) => Found::Two(first, number),
        Found::Two(first, second) => Found::Two(first, second),
    }
}

// What is found among deadlines that are pending under that rule.
fn deadline_under(rule: RulePeriod, deadlines: &[SheetDeadline]) -> Found
    ensures { result ≡ found_among (map deadline_number (filter (is_pending_under rule) deadlines.now)) }
{
    let mut found = Found::None;
    'list: for deadline in deadlines {
        if is_pending_under(rule, deadline) {
            found = with_found(found, deadline.number);
        }
    }
    found
}

// The newest of motions: the last of them.
fn newest_of(motions: &[SheetMotion]) -> Found
    ensures { result ≡ newest_of motions.now }
{
    match motions.last() {
        Some(motion) => Found::One(motion.number),
        None => Found::None,
    }
}

// Whether a deadline or a motion of a case is called so.
fn is_called(called: &CalledTexts, case: u32, counted: Counted, label: &str, number: u32) -> bool
    ensures { result ≡ is_called called.now case counted label.now number }
{
    called.label_of(case, counted, number) == label
}

// Whether a deadline of a case is called so.
fn is_called_deadline(
    called: &CalledTexts,
    case: u32,
    label: &str,
    deadline: &SheetDeadline,
) -> bool
    ensures { result ≡ is_called_deadline called.now case label.now deadline.now }
{
    is_called(called, case, Counted::Deadline, label, deadline.number)
}

// Whether a motion of a case is called so.
fn is_called_motion(called: &CalledTexts, case: u32, label: &str, motion: &SheetMotion) -> bool
    ensures { result ≡ is_called_motion called.now case label.now motion.now }
{
    is_called(called, case, Counted::Motion, label, motion.number)
}

// What is found among the deadlines of a case that are called so.
fn deadline_called(
    called: &CalledTexts,
    case: u32,
    label: &str,
    deadlines: &[SheetDeadline],
) -> Found
    ensures { result ≡ found_among (map deadline_number (filter (is_called_deadline called.now case label.now) deadlines.now)) }
{
    let mut found = Found::None;
    'list: for deadline in deadlines {
        if is_called_deadline(called, case, label, deadline) {
            found = with_found(found, deadline.number);
        }
    }
    found
}

// What is found among the motions of a case that are called so.
fn motion_called(called: &CalledTexts, case: u32, label: &str, motions: &[SheetMotion]) -> Found
    ensures { result ≡ found_among (map motion_number (filter (is_called_motion called.now case label.now) motions.now)) }
{
    let mut found = Found::None;
    'list: for motion in motions {
        if is_called_motion(called, case, label, motion) {
            found = with_found(found, motion.number);
        }
    }
    found
}

// What the row before gave, where it is of that case and kind.
fn found_made(made: Option<Given>, case: u32, counted: Counted) -> Found
    ensures { result ≡ found_made made case counted }
{
    match made {
        Some(given) => {
            if given.is_of(case, counted) {
                Found::One(given.number)
            } else {
                Found::None
            }
        }
        None => Found::None,
    }
}

impl SubjectName {
    // What has this name on a sheet, where things are called by these texts, the row before gave this, and the row says that where a
    // number would be.
    fn found_on(
        self,
        called: &CalledTexts,
        made: Option<Given>,
        field: &str,
        sheet: &Sheet,
    ) -> Found
        ensures { result ≡ found_on self called.now made field.now sheet.now }
    {
        let (deadlines, motions) = (sheet.deadlines.as_slice(), sheet.motions.as_slice());
        match self {
            SubjectName::Under(rule) => deadline_under(rule, deadlines),
            SubjectName::Newest => newest_of(motions),
            SubjectName::Made(counted) => found_made(made, sheet.case, counted),
            SubjectName::Called(Counted::Deadline) => {
                deadline_called(called, sheet.case, field, deadlines)
            }
            SubjectName::Called(Counted::Motion) => {
                motion_called(called, sheet.case, field, motions)
            }
        }
    }

    /// What has this name in a case whose sheet was asked for, where things are called by these texts, the row before gave `made`, and
    /// the row says `field` where a number would be: nothing where there is no sheet.
    pub fn found_in(
        self,
        called: &CalledTexts,
        made: Option<Given>,
        field: &str,
        shown: &View,
    ) -> Found
        ensures { result ≡ found_in self called.now made field.now shown.now }
    {
        match shown {
            View::Sheet(sheet) => self.found_on(called, made, field, sheet),
            _ => Found::None,
        }
    }
}
