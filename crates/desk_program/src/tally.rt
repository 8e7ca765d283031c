//! How a session ends at the end of its input.
ghost use Rattle.std.specs.Prelude.{◌≡◌, ◌<◌, ◌⊎◌, IfErr, OnOk};

use desk_session::Tally;

/// A session that ended at the end of its input, after rows of this tally: `Err` gives it back, where some of them had faults or were
/// held back.
pub fn all_taken(tally: Tally) -> Result<(), Tally>
    ensures none { OnOk result ((tally.faults ≡ 0) × (tally.held ≡ 0)) }
    ensures some { IfErr result (λ given. (given ≡ tally) × ((0 < tally.faults) ⊎ (0 < tally.held))) }
{
    if tally.faults == 0 && tally.held == 0 {
        Ok(())
    } else {
        Err(tally)
    }
}
