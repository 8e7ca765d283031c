//! Laws of the definitions: what the lists of a check come to.

ghost use Rattle.court_file_check.specs.Faults.{FaultsBeginWithTheCourts};
ghost use Rattle.court_file_check.specs.Review.{ReviewIsExact, ReviewIsInOrder};

/// The first fault of the list is the one that the court's file has when it is read as a court, and there is none exactly
/// where it gives a court.
pub fn faults_begin_with_the_courts()
    ensures { FaultsBeginWithTheCourts }
{}

/// A review has a day exactly where it's one of the span and passes: a day is said to be lacking where it is due, is no
/// Saturday or Sunday, and isn't in the federal list.
pub fn review_is_exact()
    ensures { ReviewIsExact }
{}

/// Days are in their order, each once.
pub fn review_is_in_order()
    ensures { ReviewIsInOrder }
{}
