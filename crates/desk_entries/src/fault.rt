//! Why a journal's entries make no docket.
ghost use Rattle.std.specs.Prelude.{◌≡◌};
ghost use Rattle.desk_entries.specs.declared.fault.HistoryFault.TheVariants.{OutOfMemory};

use court_file_text::CourtFault;
use std::alloc::AllocError;

/// Why a journal's entries make no docket.
#[derive(Debug, Drop)]
pub enum HistoryFault {
    /// There is no entry, and so no court's file.
    NoCourt,
    /// The entry of this number, counted from 1, is a court's file with this fault.
    Court(u32, CourtFault),
    /// The entry of this number, counted from 1, strikes a row that wasn't entered before it or that is struck already, restores
    /// one that isn't struck, or says other numbers than rows had given.
    Strike(u32),
    /// The row of this number, counted from 1, has another answer than it gets.
    Other(u32),
    /// Memory ran out.
    OutOfMemory,
}

impl From<AllocError> for HistoryFault {
    ghost from_gives = { λ _ e. e ≡ OutOfMemory };

    fn from(_: AllocError) -> HistoryFault {
        HistoryFault::OutOfMemory
    }
}
