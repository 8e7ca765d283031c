//! Entering an outage of the clerk's office.

ghost use Rattle.std.specs.Prelude.{◌≡◌};
ghost use Rattle.docket_rows.specs.Words.{outage_refusal};

use crate::sight::Sight;
use court_clock::Day;
use docket_rows::{MOST_OUTAGES, Refusal};

/// Why the outage can't be entered, if it can't.
#[tactic(auto, unfolding(docket_rows::specs::Words::outage_refusal))]
pub(crate) fn outage_refusal<S: Sight>(sight: &S, day: Day, from: u16, to: u16) -> Option<Refusal>
    ensures { result ≡ outage_refusal (S.parts sight.now) day from to }
{
    if !sight.days().covered(day) {
        return Some(Refusal::BadDay);
    }
    if !(from < to && to <= 1_440) {
        return Some(Refusal::BadLength);
    }
    if sight.days().outages().len() >= MOST_OUTAGES {
        return Some(Refusal::Full);
    }
    None
}
