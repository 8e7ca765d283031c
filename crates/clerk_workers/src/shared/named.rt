//! The court of a run, which a type names.

use std::marker::Brand;

/// NamesOffice the court of a run, so that all lines of the run are known to be of that court.
pub(crate) trait NamesCourt {
    ghost use Rattle.court_days.specs.Words.{CourtView};

    ghost court: { CourtView };
}

impl NamesCourt for Brand {
    ghost use Rattle.clerk_workers.specs.Shared.Unnamed.{no_court};

    ghost court = { no_court };
}
