//! Replies, with the numbers of what they show.
ghost use Rattle.std.specs.Prelude.{◌≡◌, ℕ};
ghost use Rattle.desk_numbers.specs.Numbered.{case_of, numbered, numbered_answer, numbered_refusal, numbered_view};

use crate::moved::MovedNumbers;
use docket_rows::{Answer, Command, Counted, Refusal, View};
use office_texts::Reply;
use row_forms::Work;

// The case in which a row starts a deadline or enters a motion, or 0.
fn case_of(work: &Work) -> u32
    ensures { result ≡ case_of work.now }
{
    match work {
        Work::Command(Command::Start { case, .. }) => *case,
        Work::Command(Command::Motion { case, .. }) => *case,
        _ => 0,
    }
}

impl MovedNumbers {
    /// The docket's reply to what a row asked for, with the numbers of the deadlines and the motions that it names by their
    /// places.
    #[tactic(auto, unfolding(crate::specs::Numbered::numbered), using(crate::proofs::PlainLemmas::numbered_alone))]
    pub fn number_reply(&self, work: &Work, reply: Reply) -> Reply
        ensures { result ≡ numbered self.now work.now reply }
    {
        if self.is_empty() {
            return reply;
        }
        match reply {
            Reply::Made(answer) => Reply::Made(self.number_answer(case_of(work), answer)),
            Reply::Viewed(view) => Reply::Viewed(self.number_view(view)),
        }
    }

    // What a command is answered, with the number that is given in this case.
    fn number_answer(&self, case: u32, answer: Answer) -> Answer
        ensures { result ≡ numbered_answer self.now case answer }
    {
        match answer {
            Answer::Started(place, shown) => {
                Answer::Started(self.number_at(case, Counted::Deadline, place), shown)
            }
            Answer::MotionEntered(place) => {
                Answer::MotionEntered(self.number_at(case, Counted::Motion, place))
            }
            Answer::Refused(refusal) => Answer::Refused(self.number_refusal(refusal)),
            _ => answer,
        }
    }

    /// A refusal with the number of the motion that it names by its place.
    pub fn number_refusal(&self, refusal: Refusal) -> Refusal
        ensures { result ≡ numbered_refusal self.now refusal }
    {
        match refusal {
            Refusal::JudgeBusy(case, place) => {
                Refusal::JudgeBusy(case, self.number_at(case, Counted::Motion, place))
            }
            Refusal::RoomBusy(case, place) => {
                Refusal::RoomBusy(case, self.number_at(case, Counted::Motion, place))
            }
            Refusal::HearingThatDay(case, place) => {
                Refusal::HearingThatDay(case, self.number_at(case, Counted::Motion, place))
            }
            Refusal::HearingAhead(case, place) => {
                Refusal::HearingAhead(case, self.number_at(case, Counted::Motion, place))
            }
            Refusal::NoticeLost(case, place) => {
                Refusal::NoticeLost(case, self.number_at(case, Counted::Motion, place))
            }
            _ => refusal,
        }
    }

    /// What a query shows, with the numbers of the deadlines and the motions that it names by their places.
    pub fn number_view(&self, view: View) -> View
        ensures { result ≡ numbered_view self.now view }
    {
        match view {
            View::Sheet(sheet) => View::Sheet(self.number_sheet(sheet)),
            View::Bookings(bookings) => View::Bookings(self.number_bookings(bookings)),
            View::Computed(end) => View::Computed(end),
            View::Refused(refusal) => View::Refused(self.number_refusal(refusal)),
        }
    }
}
