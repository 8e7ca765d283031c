//! The rows of entries, decided again under what is to stand.
ghost use Rattle.std.specs.Prelude.{◌≡◌, ◌<◌, ◌≤◌, length, map, IfOk};
ghost use Rattle.desk_journal.specs.Words.{batch_of};
ghost use Rattle.desk_register.specs.Words.{StandsAt, change_in, most_entries};
ghost use Rattle.desk_entries.specs.Review.{changes_by};

use desk_register::{Difference, DocketRegister, Standing, decide_entry};
use std::alloc::{AllocError, Global};

/// A docket after the rows of entries, and which of them it answers otherwise.
#[derive(Drop)]
pub struct Review {
    /// The docket.
    pub register: DocketRegister,
    /// The rows that it answers otherwise, in their order.
    pub differences: Vec<Difference>,
}

/// Decides all rows of entries again under a court and corrections, whatever stood when they were answered. A row that is
/// struck is left out, and is no difference. `Err` says that memory ran out.
pub fn decided_again(
    alloc: Global,
    under: &Standing,
    entries: &[Vec<u8>],
) -> Result<Review, AllocError>
    requires some { 0 < length entries.now }
    requires few { length entries.now ≤ most_entries }
    ensures stands { IfOk result (λ review. StandsAt under.now review.register (batch_of entries.now)) }
    ensures changes { IfOk result (λ review. map change_in review.differences.items ≡ changes_by under.now (batch_of entries.now)) }
{
    let mut register = DocketRegister::new(alloc, under)?;
    let mut differences = Vec::new(alloc);
    for place in 1..entries.len() {
        decide_entry(
            alloc,
            under,
            &mut register,
            &entries[place],
            &mut differences,
        )?;
    }
    Ok(Review {
        register,
        differences,
    })
}
