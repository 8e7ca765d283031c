//! What a row asks for, with the places of what it names.
ghost use Rattle.std.specs.Prelude.{◌≡◌};
ghost use Rattle.desk_numbers.specs.Numbered.{placed, placed_command, placed_ending, placed_fact, placed_named, placed_suspender};

use crate::moved::MovedNumbers;
use docket_rows::{Command, Counted, Ending, Fact};
use row_forms::Work;

impl MovedNumbers {
    /// What a row asks for, as the docket is asked: a deadline or a motion is named by its place, counted from 1. A number
    /// that nothing has any more has a place at which there is nothing.
    #[tactic(auto, unfolding(crate::specs::Numbered::placed), using(crate::proofs::PlainLemmas::placed_alone))]
    pub fn place(&self, work: &Work) -> Work
        ensures { result ≡ placed self.now work.now }
    {
        if self.is_empty() {
            return *work;
        }
        match work {
            Work::Command(command) => Work::Command(self.place_command(command)),
            Work::Query(query) => Work::Query(*query),
        }
    }

    /// A command with the places of the deadlines and the motions that it names, counted from 1, or a place apart where one is
    /// retired.
    pub fn place_command(&self, command: &Command) -> Command
        ensures { result ≡ placed_command self.now command.now }
    {
        let named = self.place_named(command);
        self.place_suspender(&named)
    }

    // A command with the place of the deadline or the motion that it names.
    fn place_named(&self, command: &Command) -> Command
        ensures { result ≡ placed_named self.now command.now }
    {
        match command.subject() {
            Some(named) => command.naming(self.place_of(named.case, named.counted, named.number)),
            None => *command,
        }
    }

    // A command with the place of the motion that suspends the deadline that it ends.
    fn place_suspender(&self, command: &Command) -> Command
        ensures { result ≡ placed_suspender self.now command.now }
    {
        match command {
            Command::Fact { case, fact } => Command::Fact {
                case: *case,
                fact: self.place_fact(*case, *fact),
            },
            _ => *command,
        }
    }

    // A fact of a case with the place of the motion that suspends the deadline that it ends.
    fn place_fact(&self, case: u32, fact: Fact) -> Fact
        ensures { result ≡ placed_fact self.now case fact }
    {
        match fact {
            Fact::Ended {
                deadline,
                why,
                dated,
            } => Fact::Ended {
                deadline,
                why: self.place_ending(case, why),
                dated,
            },
            _ => fact,
        }
    }

    // Why a deadline is ended, with the place of the motion that suspends it.
    fn place_ending(&self, case: u32, why: Ending) -> Ending
        ensures { result ≡ placed_ending self.now case why }
    {
        match why.suspended_by() {
            Some(motion) => why.naming(self.place_of(case, Counted::Motion, motion)),
            None => why,
        }
    }
}
