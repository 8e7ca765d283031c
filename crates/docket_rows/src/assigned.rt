//! Who has a case, by the facts that are recorded of it.

ghost use Rattle.std.specs.Prelude.{◌≡◌};
ghost use Rattle.docket_rows.specs.Facts.{assigned_in, assigned_then, is_assigned_after};

use crate::fact::{Assignment, Fact};
use court_clock::Day;

/// Who has a case of which these facts are recorded, from the first on. `None` where it wasn't assigned. An assignment of an earlier day
/// takes no later one's place; of those of one day the last counts.
#[tactic(auto, unfolding(crate::specs::Facts::assigned_in))]
pub fn assigned_in(facts: &[Fact]) -> Option<Assignment>
    ensures { result ≡ assigned_in facts.now }
{
    let mut assigned = None;
    for fact in facts {
        assigned = assigned_then(assigned, *fact);
    }
    assigned
}

/// Who has the case, after one fact more.
pub(crate) fn assigned_then(before: Option<Assignment>, fact: Fact) -> Option<Assignment>
    ensures { result ≡ assigned_then before fact }
{
    match fact {
        Fact::Assigned {
            judge,
            referred,
            dated,
        } => {
            if is_assigned_after(dated, &before) {
                before
            } else {
                Some(Assignment {
                    judge,
                    referred,
                    dated,
                })
            }
        }
        Fact::Ended { .. } | Fact::Resumed { .. } => before,
        Fact::Closed { .. } | Fact::Reopened { .. } => before,
        Fact::Ruled { .. } => before,
        Fact::Titled | Fact::Labelled { .. } => before,
    }
}

/// Whether the assignment is of a day after this one.
fn is_assigned_after(day: Day, assigned: &Option<Assignment>) -> bool
    ensures { result ≡ is_assigned_after day assigned.now }
{
    match assigned {
        Some(assignment) => day.number() < assignment.dated.number(),
        None => false,
    }
}
