//! Laws of the definitions, the contracts of functions that do nothing.
ghost use Rattle.desk_warnings.specs.Laws.{CarefulIsHistory, LineIsKeptWhole, NothingIsHeldBack, RefusedAreHeld, WarningsKeepNothing};

/// Lines leave what the rows that are taken of them would leave without warnings.
#[tactic(auto, using(crate::proofs::CarefulLemmas::keep_nothing))]
pub fn warnings_keep_nothing()
    ensures { WarningsKeepNothing }
{}

/// What stands after entries stands after what lines leave then, and if the entries are a history they are one with it.
pub fn careful_is_history()
    ensures { CarefulIsHistory }
{}

/// A line leaves nothing, or what all its rows leave, one after another.
#[tactic(auto, using(crate::proofs::CarefulLemmas::kept_whole))]
pub fn line_is_kept_whole()
    ensures { LineIsKeptWhole }
{}

/// A line with a command that would be refused is taken with a `!` before it alone.
#[tactic(auto, using(crate::proofs::CarefulLemmas::refused_held))]
pub fn refused_are_held()
    ensures { RefusedAreHeld }
{}

/// Where nothing is held back, lines of one row are taken as without warnings.
pub fn nothing_is_held_back()
    ensures { NothingIsHeldBack }
{}
