//! What an office's ledger names.

use std::marker::Brand;
use std::sync::ledger::Ledger;

/// A ledger that counts the entries of one office, and names the history that its clerks share and what of its court no
/// command changes.
pub trait NamesOffice: Ledger {
    ghost use Rattle.logbook.specs.Pages.{Book};
    ghost use Rattle.docket_rows.specs.Words.{CourtSetup};

    ghost history: { Book };

    ghost setup: { CourtSetup };
}

impl NamesOffice for Brand {
    ghost use Rattle.clerk_seats.specs.Unnamed.{no_setup, no_history};

    ghost history = { no_history };

    ghost setup = { no_setup };
}
