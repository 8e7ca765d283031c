//! Laws of the definitions: what histories and revisions come to.

ghost use Rattle.docket_selection.specs.Changes.Laws.{HistoriesEndInTheDocket, RevisionsRiseWithEvents};

/// The history of a motion ends in the hearing that the docket has for it, or in none.
pub fn histories_end_in_the_docket()
    ensures { HistoriesEndInTheDocket }
{}

/// A row raises the revision of a case's events, or leaves all on which they rest.
pub fn revisions_rise_with_events()
    ensures { RevisionsRiseWithEvents }
{}
