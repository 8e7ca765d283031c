//! How a motion was ruled on, by the facts that are recorded of its case.

ghost use Rattle.std.specs.Prelude.{◌≡◌};
ghost use Rattle.docket_rows.specs.Facts.{is_ruled_after, later_ruling, ruled_then, ruling_in};

use crate::fact::{DatedRuling, Fact};
use court_clock::Day;

/// How the motion of that number was ruled on, by the facts of its case, from the first on. `None` where it wasn't. A ruling of an earlier
/// day takes no later one's place; of those of one day the last counts. A motion of which the ruling is reserved is still pending.
#[tactic(auto, unfolding(crate::specs::Facts::ruling_in))]
pub fn ruling_in(facts: &[Fact], number: u32) -> Option<DatedRuling>
    ensures { result ≡ ruling_in facts.now number }
{
    let mut ruled = None;
    for fact in facts {
        ruled = ruled_then(number, ruled, *fact);
    }
    ruled
}

/// How the motion of that number was ruled on, after one fact more.
pub(crate) fn ruled_then(
    number: u32,
    before: Option<DatedRuling>,
    fact: Fact,
) -> Option<DatedRuling>
    ensures { result ≡ ruled_then number before fact }
{
    match fact {
        Fact::Ruled {
            motion,
            ruling,
            dated,
        } => {
            if motion == number {
                later_ruling(before, DatedRuling { ruling, dated })
            } else {
                before
            }
        }
        Fact::Ended { .. } | Fact::Resumed { .. } => before,
        Fact::Closed { .. } | Fact::Reopened { .. } => before,
        Fact::Assigned { .. } => before,
        Fact::Titled | Fact::Labelled { .. } => before,
    }
}

/// The ruling that counts, after one ruling more.
fn later_ruling(before: Option<DatedRuling>, ruled: DatedRuling) -> Option<DatedRuling>
    ensures { result ≡ later_ruling before ruled }
{
    if is_ruled_after(ruled.dated, &before) {
        before
    } else {
        Some(ruled)
    }
}

/// Whether the ruling is of a day after this one.
fn is_ruled_after(day: Day, ruled: &Option<DatedRuling>) -> bool
    ensures { result ≡ is_ruled_after day ruled.now }
{
    match ruled {
        Some(ruling) => day.number() < ruling.dated.number(),
        None => false,
    }
}
