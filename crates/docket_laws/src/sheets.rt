//! What the sheet of a case shows.

ghost use Rattle.docket_laws.specs.Lawful.{DeadlinesAreShownByTheDaysAsDocketed};

/// The sheet of a case has just the deadlines that are docketed in the case, in their order, each as it is docketed. The
/// days as they are docketed now decide when its time ends and whether it was met. They have the holidays and outages
/// that were entered after the deadline started.
pub fn deadlines_are_shown_by_the_days_as_docketed()
    ensures { DeadlinesAreShownByTheDaysAsDocketed }
{}
