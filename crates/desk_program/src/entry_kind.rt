//! What an entry after the first is.
ghost use Rattle.std.specs.Prelude.{◌≡◌};
ghost use Rattle.desk_entries.specs.Words.{note_in};
ghost use Rattle.desk_program.specs.EntryKind.{kind_of};

use desk_entries::later_file;
use desk_numbers::{restore_in, strike_in};

/// What an entry after the first is.
#[derive(Clone, Copy, Debug, PartialEq, Eq)]
pub(crate) enum EntryKind {
    /// A row, and its answer.
    Row,
    /// A court's file.
    CourtFile,
    /// The strike of the row of that number.
    Strike(u32),
    /// The restore of the row of that number.
    Restore(u32),
}

/// What an entry after the first is.
pub(crate) fn kind_of(entry: &[u8]) -> EntryKind
    ensures { result ≡ kind_of (note_in entry.now) }
{
    if later_file(entry).is_some() {
        return EntryKind::CourtFile;
    }
    match strike_in(entry) {
        Some(strike) => EntryKind::Strike(strike.row),
        None => match restore_in(entry) {
            Some(restore) => EntryKind::Restore(restore.row),
            None => EntryKind::Row,
        },
    }
}
