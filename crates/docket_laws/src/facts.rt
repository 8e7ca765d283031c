//! What facts of cases come to.

ghost use Rattle.docket_laws.specs.Facts.{ClosedCasesEndTheirDeadlines, RulingsLeaveNoLaterHearing, WhatIsCalledChangesNothing, WithoutFactsNothingIsEnded};

/// Commands that record no fact of a case leave none, and without facts no case is closed or assigned, no deadline is ended and no motion
/// is ruled on. So a docket of the office's commands alone is as it was before there were facts.
pub fn without_facts_nothing_is_ended()
    ensures { WithoutFactsNothingIsEnded }
{}

/// Each deadline on the sheet of a closed case is ended, if no act is recorded of it. One that was met or missed stays as it is shown.
pub fn closed_cases_end_their_deadlines()
    ensures { ClosedCasesEndTheirDeadlines }
{}

/// A motion that is ruled on has no hearing after the day of the ruling. One of that day or before stays, and so do the hearings of other
/// motions.
pub fn rulings_leave_no_later_hearing()
    ensures { RulingsLeaveNoLaterHearing }
{}

/// What a case, a deadline or a motion is called changes nothing of the docket.
pub fn what_is_called_changes_nothing()
    ensures { WhatIsCalledChangesNothing }
{}
