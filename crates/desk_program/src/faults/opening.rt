//! Why a docket isn't opened.

use super::journal::{journal_status, write_journal_fault};
use court_file_text::CourtFault;
use desk_entries::HistoryFault;
use desk_journal::JournalFault;
use thiserror::Error;

/// Why a docket isn't opened.
#[derive(Debug, Drop, Error)]
pub enum OpenFault {
    /// There is no journal, or its file has no entries.
    #[error("the folder has no journal: make one with 'init'")]
    NoJournal,
    /// The entry of this number, counted from 1, is a court's file with this fault.
    #[error("entry {0} of the journal is a court's file with fault {1}")]
    KeptCourt(u32, CourtFault),
    /// The row of this number, counted from 1, has another answer than it gets.
    #[error("row {0} has another answer than this program gives: open the folder with the program that wrote it")]
    Other(u32),
    /// The entry of this number, counted from 1, strikes a row that wasn't entered before it or that is struck already, restores one
    /// that isn't struck, or says other numbers than rows had given.
    #[error("entry {0} of the journal strikes a row that isn't there or is struck already, restores one that isn't struck, or says other numbers than rows had given")]
    BadStrike(u32),
    /// The file at the journal's name isn't the one that was open.
    #[error("the file at the journal's name isn't the one that was open, or it was cut: nothing more is kept or answered; see that it is the right file, and open the folder again")]
    Replaced,
    /// The journal can't be read or written.
    #[error(fmt = write_journal_fault)]
    Journal(JournalFault),
    /// Memory ran out.
    #[error("out of memory")]
    OutOfMemory,
}

impl From<JournalFault> for OpenFault {
    ghost use Rattle.std.specs.Prelude.{◌≡◌};
    ghost use Rattle.desk_program.specs.Faults.{unopened_journal};

    ghost from_gives = { λ fault e. e ≡ unopened_journal fault };

    fn from(fault: JournalFault) -> OpenFault {
        match fault {
            JournalFault::NoEntries => OpenFault::NoJournal,
            JournalFault::OutOfMemory => OpenFault::OutOfMemory,
            _ => OpenFault::Journal(fault),
        }
    }
}

impl From<HistoryFault> for OpenFault {
    ghost use Rattle.std.specs.Prelude.{◌≡◌};
    ghost use Rattle.desk_program.specs.Faults.{history_fault};

    ghost from_gives = { λ fault e. e ≡ history_fault fault };

    fn from(fault: HistoryFault) -> OpenFault {
        match fault {
            HistoryFault::NoCourt => OpenFault::NoJournal,
            HistoryFault::Court(number, cause) => OpenFault::KeptCourt(number, cause),
            HistoryFault::Strike(number) => OpenFault::BadStrike(number),
            HistoryFault::Other(number) => OpenFault::Other(number),
            HistoryFault::OutOfMemory => OpenFault::OutOfMemory,
        }
    }
}

impl OpenFault {
    ghost use Rattle.std.specs.Prelude.{◌≡◌};
    ghost use Rattle.desk_program.specs.Faults.{open_status, unresumed_journal};

    /// Why a docket that was left isn't resumed, where its journal isn't.
    pub(crate) fn of_resumed(fault: JournalFault) -> OpenFault
        ensures { result ≡ unresumed_journal fault }
    {
        match fault {
            JournalFault::Changed => OpenFault::Replaced,
            _ => OpenFault::from(fault),
        }
    }

    /// The status with which the program ends after the fault.
    pub(crate) fn status(&self) -> u8
        ensures { result ≡ open_status self.now }
    {
        match self {
            OpenFault::Journal(fault) => journal_status(fault),
            OpenFault::OutOfMemory => 5,
            _ => 10,
        }
    }
}
