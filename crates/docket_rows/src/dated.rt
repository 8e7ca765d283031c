//! What was so of a case on a day, by the facts that are dated by then.

ghost use Rattle.std.specs.Prelude.{◌≡◌};
ghost use Rattle.docket_rows.specs.Facts.{assigned_by, assigned_then_by, closed_by, closing_by, is_by, ruled_by, ruling_by};

use crate::assigned::assigned_then;
use crate::fact::{Assignment, Closure, DatedRuling, Fact, closed_then};
use crate::ruled::ruled_then;
use court_clock::Day;

/// How a case of which these facts are recorded was closed on that day. `None` where it wasn't yet, or was reopened by then.
#[tactic(auto, unfolding(crate::specs::Facts::closing_by))]
pub fn closing_by(facts: &[Fact], day: Day) -> Option<Closure>
    ensures { result ≡ closing_by facts.now day }
{
    let mut closed = None;
    for fact in facts {
        closed = closed_by(day, closed, *fact);
    }
    closed
}

/// How the case was closed and not reopened, after one fact more, if that is dated by the day.
fn closed_by(day: Day, before: Option<Closure>, fact: Fact) -> Option<Closure>
    ensures { result ≡ closed_by day before fact }
{
    if is_by(day, &fact) {
        closed_then(before, fact)
    } else {
        before
    }
}

/// How the motion of that number was ruled on by that day, by the facts of its case. `None` where it wasn't yet.
#[tactic(auto, unfolding(crate::specs::Facts::ruling_by))]
pub fn ruling_by(facts: &[Fact], number: u32, day: Day) -> Option<DatedRuling>
    ensures { result ≡ ruling_by facts.now number day }
{
    let mut ruled = None;
    for fact in facts {
        ruled = ruled_by(number, day, ruled, *fact);
    }
    ruled
}

/// How the motion of that number was ruled on, after one fact more, if that is dated by the day.
fn ruled_by(number: u32, day: Day, before: Option<DatedRuling>, fact: Fact) -> Option<DatedRuling>
    ensures { result ≡ ruled_by number day before fact }
{
    if is_by(day, &fact) {
        ruled_then(number, before, fact)
    } else {
        before
    }
}

/// Who had a case of which these facts are recorded on that day. `None` where it wasn't assigned yet.
#[tactic(auto, unfolding(crate::specs::Facts::assigned_by))]
pub fn assigned_by(facts: &[Fact], day: Day) -> Option<Assignment>
    ensures { result ≡ assigned_by facts.now day }
{
    let mut assigned = None;
    for fact in facts {
        assigned = assigned_then_by(day, assigned, *fact);
    }
    assigned
}

/// Who has the case, after one fact more, if that is dated by the day.
fn assigned_then_by(day: Day, before: Option<Assignment>, fact: Fact) -> Option<Assignment>
    ensures { result ≡ assigned_then_by day before fact }
{
    if is_by(day, &fact) {
        assigned_then(before, fact)
    } else {
        before
    }
}

/// Whether a fact is dated by that day. What something is called has no date.
fn is_by(day: Day, fact: &Fact) -> bool
    ensures { result ≡ is_by day fact.now }
{
    match fact.dated() {
        Some(dated) => dated.number() <= day.number(),
        None => true,
    }
}
