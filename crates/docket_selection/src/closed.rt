//! What is due of a closed case.

ghost use Rattle.docket_selection.specs.Closed.{ClosedCasesAreNotDue};

/// The deadlines of a closed case aren't due, by any reading of the Rules and whatever days are chosen, unless those that were met or
/// ended are chosen too.
pub fn closed_cases_are_not_due()
    ensures { ClosedCasesAreNotDue }
{}
