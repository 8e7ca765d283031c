//! The number that a row gives to the deadline that it starts, or to the motion that it enters.
ghost use Rattle.std.specs.Prelude.{◌≡◌};
ghost use Rattle.desk_numbers.specs.Given.{given_by, given_to, is_of};

use docket_rows::{Answer, Command, Counted};
use office_texts::Reply;
use row_forms::Work;

/// A number that a row gave.
#[derive(Clone, Copy, Debug, PartialEq, Eq)]
pub struct Given {
    /// The number of the case.
    pub case: u32,
    /// What it is the number of.
    pub counted: Counted,
    /// The number, counted from 1.
    pub number: u32,
}

impl Given {
    // Whether it is of that case and kind.
    pub(crate) fn is_of(&self, case: u32, counted: Counted) -> bool
        ensures { result ≡ is_of case counted self.now }
    {
        self.case == case && self.counted.is_like(counted)
    }
}

/// The number that a reply gives to the deadline that a row started, or to the motion that it entered. `None` says that it
/// gives none.
#[tactic(auto, unfolding(crate::specs::Given::given_by))]
pub fn given_by(work: &Work, reply: &Reply) -> Option<Given>
    ensures { result ≡ given_by work.now reply.now }
{
    match work {
        Work::Command(command) => match reply {
            Reply::Made(answer) => given_to(command, answer),
            Reply::Viewed(_) => None,
        },
        Work::Query(_) => None,
    }
}

// The number that the answer to a command gives.
fn given_to(command: &Command, answer: &Answer) -> Option<Given>
    ensures { result ≡ given_to command.now answer.now }
{
    match command {
        Command::Start { case, .. } => match answer {
            Answer::Started(number, _) => Some(Given {
                case: *case,
                counted: Counted::Deadline,
                number: *number,
            }),
            _ => None,
        },
        Command::Motion { case, .. } => match answer {
            Answer::MotionEntered(number) => Some(Given {
                case: *case,
                counted: Counted::Motion,
                number: *number,
            }),
            _ => None,
        },
        _ => None,
    }
}
