//! Laws of many sessions on one file: contracts of functions that do nothing.
ghost use Rattle.desk_session.specs.Turns.{EachLineIsInPlace, TurnsKeepOneHistory, TurnsTellWhatTheyKept};

/// A law: however the turns of sessions come one after another, the file stands for one history.
pub fn turns_keep_one_history()
    ensures { TurnsKeepOneHistory }
{}

/// A law: each line that a turn kept is in the history in its place, decided on the entries before it, whatever others did.
#[tactic(auto, using(crate::proofs::TurnLemmas::in_place))]
pub fn each_line_is_in_place()
    ensures { EachLineIsInPlace }
{}

/// A law: what a turn tells are answers of lines that it kept.
#[tactic(auto, using(crate::proofs::TurnLemmas::told_kept))]
pub fn turns_tell_what_they_kept()
    ensures { TurnsTellWhatTheyKept }
{}
