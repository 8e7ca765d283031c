//! Laws of the definitions: what reading the code of a period, or the word of a mark, means, and when what an order set ends.

ghost use Rattle.rule_periods.specs.Mark.{CodesNameMarks};
ghost use Rattle.rule_periods.specs.Rule.{CodesNamePeriods};
ghost use Rattle.rule_periods.specs.Showing.{ResetEndsStay, SetEndsStay};

/// A text is read as the one period of the Rules that has it for its code, and as none where there is none.
pub fn codes_name_periods()
    ensures { CodesNamePeriods }
{}

/// A text is read as the one mark that has it for its word, and as none where there is none.
#[tactic(auto, unfolding(crate::specs::Mark::mark_of_code))]
pub fn codes_name_marks()
    ensures { CodesNameMarks }
{}

/// A deadline that an order set, and that wasn't extended, ends on the day or at the minute that was set: it isn't rolled, and no
/// outage moves it.
#[tactic(auto, using(crate::proofs::SetLemmas::set_ends_stay_lem))]
pub fn set_ends_stay()
    ensures { SetEndsStay }
{}

/// So does a deadline for which an order set another end, whatever it was before.
#[tactic(auto, using(crate::proofs::SetLemmas::reset_ends_stay_lem))]
pub fn reset_ends_stay()
    ensures { ResetEndsStay }
{}
