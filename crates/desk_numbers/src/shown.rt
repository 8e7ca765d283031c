//! Sheets and bookings, with the numbers of what they show.
ghost use Rattle.std.specs.Prelude.{◌≡◌, map};
ghost use Rattle.desk_numbers.specs.Numbered.{numbered_booking, numbered_deadline, numbered_ended, numbered_ending, numbered_motion, numbered_sheet};

use crate::moved::MovedNumbers;
use docket_rows::{
    Counted, Ending, Sheet, SheetDeadline, SheetDeadlines, SheetMotion, SheetMotions,
};
use hearing_slots::{Booking, Bookings};

impl MovedNumbers {
    /// A sheet with the numbers of its deadlines and motions, which the docket has by their places.
    pub fn number_sheet(&self, sheet: Sheet) -> Sheet
        ensures { result ≡ numbered_sheet self.now sheet }
    {
        let Sheet {
            case,
            filed,
            closed,
            assigned,
            deadlines,
            motions,
        } = sheet;
        let mut deadlines = deadlines.into_vec();
        self.number_deadlines(case, &mut deadlines);
        let mut motions = motions.into_vec();
        self.number_motions(case, &mut motions);
        Sheet {
            case,
            filed,
            closed,
            assigned,
            deadlines: SheetDeadlines::from_vec(deadlines),
            motions: SheetMotions::from_vec(motions),
        }
    }

    // Gives the deadlines of a case their numbers.
    fn number_deadlines(&self, case: u32, deadlines: &mut [SheetDeadline])
        ensures { deadlines.new ≡ map (numbered_deadline self.now case) deadlines.old }
    {
        'list: for deadline in deadlines.iter_mut() {
            deadline.number = self.number_at(case, Counted::Deadline, deadline.number);
            deadline.ended = self.number_ended(case, deadline.ended);
        }
    }

    /// Why a deadline of a case was ended, with the number of the motion that suspends it.
    pub fn number_ended(&self, case: u32, ended: Option<Ending>) -> Option<Ending>
        ensures { result ≡ numbered_ended self.now case ended }
    {
        match ended {
            Some(why) => Some(self.number_ending(case, why)),
            None => None,
        }
    }

    // The same of one that was ended.
    fn number_ending(&self, case: u32, why: Ending) -> Ending
        ensures { result ≡ numbered_ending self.now case why }
    {
        match why.suspended_by() {
            Some(motion) => why.naming(self.number_at(case, Counted::Motion, motion)),
            None => why,
        }
    }

    // Gives the motions of a case their numbers.
    fn number_motions(&self, case: u32, motions: &mut [SheetMotion])
        ensures { motions.new ≡ map (numbered_motion self.now case) motions.old }
    {
        'list: for motion in motions.iter_mut() {
            motion.number = self.number_at(case, Counted::Motion, motion.number);
        }
    }

    /// The bookings with the numbers of their motions, which the docket has by their places.
    pub fn number_bookings(&self, bookings: Bookings) -> Bookings
        ensures { result ≡ map (numbered_booking self.now) bookings }
    {
        let mut bookings = bookings.into_vec();
        self.number_each(&mut bookings);
        Bookings::from_vec(bookings)
    }

    // Gives the motions of bookings their numbers.
    fn number_each(&self, bookings: &mut [Booking])
        ensures { bookings.new ≡ map (numbered_booking self.now) bookings.old }
    {
        'list: for booking in bookings.iter_mut() {
            booking.motion = self.number_at(booking.case, Counted::Motion, booking.motion);
        }
    }
}
