//! What the definitions of other readings come to.

ghost use Rattle.reason_notes.specs.Readings.Changed.{AddedAgainShowsTheSame, ExtendedAgainShowsTheSame, SameActShowsTheSame};
ghost use Rattle.reason_notes.specs.Readings.Lines.{NoOtherEndHasNoLine};
ghost use Rattle.reason_notes.specs.Readings.Others.{OtherEndIsEarliest};

/// A deadline that is made again with the act that it has shows the same, so that a reading by which the act is another
/// changes nothing else.
pub fn same_act_shows_the_same()
    ensures { SameActShowsTheSame }
{}

/// Days that are counted again from the day from which they were counted show the same: those of an extension, and the three of
/// 6(d). So a reading by which they count from another day changes nothing else.
pub fn counted_again_shows_the_same()
    ensures extended { ExtendedAgainShowsTheSame }
    ensures added { AddedAgainShowsTheSame }
{}

/// A deadline has another end exactly where it has a line of another reading, so that what marks the one agrees with the memo.
pub fn no_other_end_has_no_line()
    ensures { NoOtherEndHasNoLine }
{}

/// The other end of a deadline is one that a reading gives in place of the end that is shown, and no reading gives one that comes
/// before it. So no reading ends the time before the earlier of it and the end that is shown.
pub fn other_end_is_earliest()
    ensures { OtherEndIsEarliest }
{}
