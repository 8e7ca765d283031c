//! Laws of the definitions, the contracts of functions that do nothing.
ghost use Rattle.desk_numbers.specs.Called.{TheLastTextCounts};
ghost use Rattle.desk_numbers.specs.Laws.{ANumberIsGivenOnce, APlaceApartTellsItsNumber, ARowKeepsItsNumber, NothingMovesAtFirst, NumberAndPlaceGoTogether, OthersAreAtTheirPlaces, WithNoneMovedNothingChanges};
ghost use Rattle.desk_numbers.specs.Said.{WhatIsSaidIsKept};

/// A row keeps the number that it gave.
#[tactic(auto, using(crate::proofs::NumberLemmas::keeps))]
pub fn a_row_keeps_its_number()
    ensures { ARowKeepsItsNumber }
{}

/// A number is given once, also where its row is struck or refused since.
#[tactic(auto, using(crate::proofs::NumberLemmas::given_once))]
pub fn a_number_is_given_once()
    ensures { ANumberIsGivenOnce }
{}

/// What isn't at its place is found by its number, and its number by its place.
#[tactic(auto, using(crate::proofs::PlaceLemmas::go_together))]
pub fn number_and_place_go_together()
    ensures { NumberAndPlaceGoTogether }
{}

/// All else has its place as its number, and a number that nothing has any more has a place apart.
#[tactic(auto, using(crate::proofs::PlaceLemmas::at_their_places))]
pub fn others_are_at_their_places()
    ensures { OthersAreAtTheirPlaces }
{}

/// A place apart is no other place, and tells the number for which it is.
pub fn a_place_apart_tells_its_number()
    ensures { APlaceApartTellsItsNumber }
{}

/// Before the first correction no row keeps a number, and all is at its place.
#[tactic(auto, using(crate::proofs::NumberLemmas::nothing_moves))]
pub fn nothing_moves_at_first()
    ensures { NothingMovesAtFirst }
{}

/// Where a correction says what rows gave and don't keep yet, they keep after it what they gave.
pub fn what_is_said_is_kept()
    ensures { WhatIsSaidIsKept }
{}

/// Where all is at its place, what rows ask for and what they are answered stays as it is.
pub fn with_none_moved_nothing_changes()
    ensures { WithNoneMovedNothingChanges }
{}

/// What was said last is what something is called, and what anything else is called stays as it was.
pub fn the_last_text_counts()
    ensures { TheLastTextCounts }
{}
