//! The calendar of one judge or of one room, whose copies share its bookings.

ghost use Rattle.std.specs.Prelude.{◌≡◌, ◌+◌, ◌++◌, ◌≤◌, [], Some, IfOk, IfSome, IfNone};
ghost use Rattle.std.specs.Option.{option_copied};
ghost use Rattle.hearing_slots.specs.Booking.{IsWithinDay};
ghost use Rattle.hearing_slots.specs.Calendar.{IsCalendar, IsFree, IsLeastConflict, HoldsWith, HoldsWithout, HoldsDay, on_day, without_motion, with_booking, first_conflict};
ghost use Rattle.hearing_slots.specs.Inside.Blocks.{all_in, booked_in};
ghost use Rattle.hearing_slots.specs.Inside.DayNotes.{booked_day};

use crate::agenda::Agenda;
use crate::block::Block;
use crate::blocks::Blocks;
use crate::booking::Booking;
use crate::bookings::Bookings;
use court_clock::Day;
use std::alloc::{AllocError, Global};
use std::marker::Model;
use std::sync::Arc;

/// How many bookings are held all together, at most. To copy so few is as quick as to share them in blocks.
const MOST_FEW: usize = 128;

/// The bookings of one judge or one room, as `Calendar` has them, for calendars of which there are many copies. A copy
/// shares all bookings. `with` and `without` make a new calendar: where there are many bookings, it shares with the old
/// one all but those of some months around the booking that is put in, and around the one that is taken out.
#[derive(Debug, Drop)]
pub struct SharedCalendar {
    held: Held,
}

/// How the bookings are held.
#[derive(Debug, Drop)]
enum Held {
    // There are none, which takes no memory.
    Nothing,
    // All together.
    Few(Arc<Agenda>),
    // In blocks.
    Many(Arc<Blocks>),
}

impl Model for SharedCalendar {
    ghost use Rattle.std.specs.Prelude.{List};
    ghost use Rattle.hearing_slots.specs.declared.booking.Booking.{Booking};

    ghost Value = { List Booking };

    ghost use Rattle.hearing_slots.specs.Calendar.{IsCalendar};
    ghost use Rattle.hearing_slots.specs.SharedCalendar.{shared_bookings};

    ghost view = { shared_bookings };

    ghost invariant = { λ c. IsCalendar (shared_bookings c) };
}

impl SharedCalendar {
    /// A calendar with no bookings.
    pub fn empty() -> SharedCalendar
        ensures value { result ≡ [] }
        ensures calendar { IsCalendar result }
    {
        SharedCalendar {
            held: Held::Nothing,
        }
    }

    /// The bookings in two parts: those in blocks, which are by day, as the bookings of each are; and the others, in
    /// order.
    pub fn parts(&self) -> (&[Block], &[Booking])
        ensures value { all_in result.0.now ++ result.1.now ≡ self.now }
        ensures calendar { IsCalendar self.now }
    {
        match &self.held {
            Held::Nothing => (&[], &[]),
            Held::Few(agenda) => (&[], agenda.all()),
            Held::Many(blocks) => (blocks.list(), &[]),
        }
    }

    /// Of the bookings that share a slot of the day with the `count` slots from `first` on, other than the booking of
    /// the excepted case and motion, the one with the least first slot. None where there is none.
    #[tactic(auto, unfolding(crate::specs::Calendar::first_conflict))]
    pub fn conflict(
        &self,
        day: Day,
        first: u8,
        count: u8,
        except: Option<(u32, u32)>,
    ) -> Option<Booking>
        requires some_slot { 1 ≤ count }
        requires ends { first + count ≤ 96 }
        ensures value { result ≡ first_conflict self.now day first count except }
        ensures some { IfSome result (IsLeastConflict self.now day first count except) }
        ensures none { IfNone result (IsFree self.now day first count except) }
    {
        match self.around(day) {
            None => None,
            Some(agenda) => agenda.conflict(day, first, count, except),
        }
    }

    /// The bookings of the day, by first slot. `Err` says that memory ran out.
    pub fn on_day(&self, alloc: Global, day: Day) -> Result<Bookings, AllocError>
        ensures value { IfOk result (λ bookings. bookings ≡ on_day day self.now) }
        ensures holds { IfOk result (HoldsDay day self.now) }
    {
        let list = Vec::from_slice(alloc, self.part_of_day(day))?;
        Ok(Bookings::from_vec(list))
    }

    /// A calendar with the bookings of this one and the new booking, and without an older one of its case and motion.
    /// `Err` says that memory ran out.
    pub fn with(&self, alloc: Global, booking: Booking) -> Result<SharedCalendar, AllocError>
        requires within_day { IsWithinDay booking }
        requires free { IsFree self.now booking.day booking.first booking.count (Some (booking.case, booking.motion)) }
        ensures value { IfOk result (λ calendar. calendar ≡ with_booking booking self.now) }
        ensures calendar { IfOk result IsCalendar }
        ensures holds { IfOk result (HoldsWith booking self.now) }
    {
        match &self.held {
            Held::Nothing => few_with(alloc, &Agenda::new(alloc), booking),
            Held::Few(agenda) => {
                if agenda.all().len() < MOST_FEW {
                    return few_with(alloc, agenda, booking);
                }
                let blocks = Blocks::of(alloc, agenda.all())?;
                many_with(alloc, &blocks, booking)
            }
            Held::Many(blocks) => many_with(alloc, blocks, booking),
        }
    }

    /// A calendar with the bookings of this one but that of the case and motion; where there is none, with the same
    /// bookings. `Err` says that memory ran out.
    pub fn without(
        &self,
        alloc: Global,
        case: u32,
        motion: u32,
    ) -> Result<SharedCalendar, AllocError>
        ensures value { IfOk result (λ calendar. calendar ≡ without_motion case motion self.now) }
        ensures calendar { IfOk result IsCalendar }
        ensures holds { IfOk result (HoldsWithout case motion self.now) }
    {
        match &self.held {
            Held::Nothing => Ok(SharedCalendar::empty()),
            Held::Few(agenda) => few_without(alloc, agenda, case, motion),
            Held::Many(blocks) => match blocks.day_of(case, motion) {
                None => self.copy(),
                Some(day) => many_without(alloc, blocks, day, case, motion),
            },
        }
    }

    /// The same calendar, which shares its bookings. `Err` says that there are as many copies as can be counted.
    pub fn copy(&self) -> Result<SharedCalendar, AllocError>
        ensures value { IfOk result (λ calendar. calendar ≡ self.now) }
        ensures calendar { IfOk result IsCalendar }
    {
        match &self.held {
            Held::Nothing => Ok(SharedCalendar::empty()),
            Held::Few(agenda) => Ok(SharedCalendar {
                held: Held::Few(Arc::try_clone(agenda)?),
            }),
            Held::Many(blocks) => Ok(SharedCalendar {
                held: Held::Many(Arc::try_clone(blocks)?),
            }),
        }
    }

    /// The bookings of the day.
    fn part_of_day(&self, day: Day) -> &[Booking]
        ensures { result.now ≡ on_day day self.now }
    {
        match self.around(day) {
            None => &[],
            Some(agenda) => agenda.on_day(day),
        }
    }

    /// The bookings of some days around this one, if there are any.
    fn around(&self, day: Day) -> Option<&Agenda>
        ensures value { on_day day (booked_in (option_copied result)) ≡ on_day day self.now }
        ensures calendar { IsCalendar self.now }
    {
        match &self.held {
            Held::Nothing => None,
            Held::Few(agenda) => Some(agenda),
            Held::Many(blocks) => blocks.around(day),
        }
    }
}

/// The calendar that shares these few bookings with its copies.
fn few(alloc: Global, agenda: Agenda) -> Result<SharedCalendar, AllocError>
    requires { IsCalendar agenda }
    ensures value { IfOk result (λ calendar. calendar ≡ agenda) }
    ensures calendar { IfOk result IsCalendar }
{
    let shared = Arc::new(alloc, agenda)?;
    Ok(SharedCalendar {
        held: Held::Few(shared),
    })
}

/// The calendar that shares these many bookings with its copies.
fn many(alloc: Global, blocks: Blocks) -> Result<SharedCalendar, AllocError>
    requires { IsCalendar blocks }
    ensures value { IfOk result (λ calendar. calendar ≡ blocks) }
    ensures calendar { IfOk result IsCalendar }
{
    let shared = Arc::new(alloc, blocks)?;
    Ok(SharedCalendar {
        held: Held::Many(shared),
    })
}

/// A copy of a few bookings with the new booking.
fn few_with(alloc: Global, agenda: &Agenda, booking: Booking) -> Result<SharedCalendar, AllocError>
    requires within_day { IsWithinDay booking }
    requires free { IsFree agenda.now booking.day booking.first booking.count (Some (booking.case, booking.motion)) }
    ensures value { IfOk result (λ calendar. calendar ≡ with_booking booking agenda.now) }
    ensures calendar { IfOk result IsCalendar }
    ensures holds { IfOk result (HoldsWith booking agenda.now) }
{
    few(alloc, agenda.with(alloc, booking)?)
}

/// A copy of a few bookings without that of the case and motion.
fn few_without(
    alloc: Global,
    agenda: &Agenda,
    case: u32,
    motion: u32,
) -> Result<SharedCalendar, AllocError>
    ensures value { IfOk result (λ calendar. calendar ≡ without_motion case motion agenda.now) }
    ensures calendar { IfOk result IsCalendar }
    ensures holds { IfOk result (HoldsWithout case motion agenda.now) }
{
    few(alloc, agenda.without(alloc, case, motion)?)
}

/// Many bookings with the new booking.
fn many_with(alloc: Global, blocks: &Blocks, booking: Booking) -> Result<SharedCalendar, AllocError>
    requires within_day { IsWithinDay booking }
    requires free { IsFree blocks.now booking.day booking.first booking.count (Some (booking.case, booking.motion)) }
    ensures value { IfOk result (λ calendar. calendar ≡ with_booking booking blocks.now) }
    ensures calendar { IfOk result IsCalendar }
    ensures holds { IfOk result (HoldsWith booking blocks.now) }
{
    let blocks = blocks.with(alloc, booking)?;
    many(alloc, blocks)
}

/// Many bookings without that of the case and motion, which is on the day.
fn many_without(
    alloc: Global,
    blocks: &Blocks,
    day: Day,
    case: u32,
    motion: u32,
) -> Result<SharedCalendar, AllocError>
    requires { booked_day case motion blocks.now ≡ Some day }
    ensures value { IfOk result (λ calendar. calendar ≡ without_motion case motion blocks.now) }
    ensures calendar { IfOk result IsCalendar }
    ensures holds { IfOk result (HoldsWithout case motion blocks.now) }
{
    let blocks = blocks.without(alloc, day, case, motion)?;
    many(alloc, blocks)
}
