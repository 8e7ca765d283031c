//! The docket before any command.

ghost use Rattle.docket_laws.specs.Lawful.{TheOpeningDocketIsLawful};

/// Before any command, with the days of the court's file and nothing docketed, the rows fit together and are lawful.
pub fn the_opening_docket_is_lawful()
    ensures { TheOpeningDocketIsLawful }
{}
