//! The marks of entered periods, and the word of each.

ghost use Rattle.std.specs.Prelude.{◌≡◌};
ghost use Rattle.rule_periods.specs.Mark.{mark_code, mark_of_code};

/// The rule under which an entered period runs: no special one, or one whose time must not be extended
/// (Fed. R. Civ. P. 6(b)(2)).
#[derive(Clone, Copy, Debug, PartialEq, Eq)]
pub enum Mark {
    /// No special rule: the time may be extended for good cause (6(b)(1)).
    Plain,
    /// Rule 50(b), a renewed motion for judgment as a matter of law.
    Rule50b,
    /// Rule 50(d), a motion for a new trial by the party against whom such judgment is entered.
    Rule50d,
    /// Rule 52(b), a motion to amend findings.
    Rule52b,
    /// Rule 59(b), a motion for a new trial.
    Rule59b,
    /// Rule 59(d), a new trial on the court's initiative.
    Rule59d,
    /// Rule 59(e), a motion to alter or amend a judgment.
    Rule59e,
    /// Rule 60(b), a motion for relief from a judgment.
    Rule60b,
}

impl Mark {
    /// The word by which rows and sheets name the mark.
    pub fn code(self) -> &'static str
        ensures { result.now ≡ mark_code self }
    {
        match self {
            Mark::Plain => "plain",
            Mark::Rule50b => "50b",
            Mark::Rule50d => "50d",
            Mark::Rule52b => "52b",
            Mark::Rule59b => "59b",
            Mark::Rule59d => "59d",
            Mark::Rule59e => "59e",
            Mark::Rule60b => "60b",
        }
    }

    /// The mark that a word names; none for any other text.
    #[tactic(auto, unfolding(crate::specs::Mark::mark_of_code))]
    pub fn from_code(text: &str) -> Option<Mark>
        ensures { result ≡ mark_of_code text.now }
    {
        match text {
            "plain" => Some(Mark::Plain),
            "50b" => Some(Mark::Rule50b),
            "50d" => Some(Mark::Rule50d),
            "52b" => Some(Mark::Rule52b),
            "59b" => Some(Mark::Rule59b),
            "59d" => Some(Mark::Rule59d),
            "59e" => Some(Mark::Rule59e),
            "60b" => Some(Mark::Rule60b),
            _ => None,
        }
    }
}
