//! What the definitions of days come to.

ghost use Rattle.program_main.specs.Texts.Days.{WeekdaysComeNext};

/// The day of a weekday is the first from today on that has it.
#[tactic(auto, using(crate::proofs::DayLemmas::weekdays_come_next))]
pub fn weekdays_come_next()
    ensures { WeekdaysComeNext }
{}
