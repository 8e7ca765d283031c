//! The bookings of a calendar in blocks, and the day of each motion's booking.

ghost use Rattle.std.specs.Prelude.{◌≡◌, ◌⊎◌, [], Some, IfOk};
ghost use Rattle.std.specs.Option.{option_copied};
ghost use Rattle.hearing_slots.specs.Booking.{IsWithinDay};
ghost use Rattle.hearing_slots.specs.Calendar.{IsCalendar, IsFree, on_day, with_booking, without_motion};
ghost use Rattle.hearing_slots.specs.Inside.Blocks.{AreBlocks, LiesIn, all_in, block_of, booked_in};
ghost use Rattle.hearing_slots.specs.Inside.DayNotes.{booked_day};

use crate::agenda::Agenda;
use crate::block::{Block, block_of};
use crate::block_list::{around, copies, put, take_out};
use crate::booking::Booking;
use crate::day_notes::DayNotes;
use court_clock::Day;
use std::alloc::{AllocError, Global};
use std::marker::Model;

/// Bookings in order, in blocks that are shared with those from which they were changed.
#[derive(Debug, Drop)]
pub(crate) struct Blocks {
    blocks: Vec<Block>,
    notes: DayNotes,
}

impl Model for Blocks {
    ghost use Rattle.std.specs.Prelude.{List};
    ghost use Rattle.hearing_slots.specs.declared.booking.Booking.{Booking};
    ghost use Rattle.hearing_slots.specs.Inside.Blocks.{AreBlocks, all_in};
    ghost use Rattle.hearing_slots.specs.Calendar.{IsCalendar};
    ghost use Rattle.hearing_slots.specs.Inside.DayNotes.{NotesDays};

    ghost Value = { List Booking };

    ghost view = { λ b. all_in b.blocks.items };

    ghost invariant = { λ b. AreBlocks b.blocks.items × IsCalendar (all_in b.blocks.items) × NotesDays (all_in b.blocks.items) b.notes };
}

impl Blocks {
    /// No bookings. `Err` says that memory ran out.
    pub(crate) fn new(alloc: Global) -> Result<Blocks, AllocError>
        ensures { IfOk result (λ blocks. blocks ≡ []) }
    {
        let notes = DayNotes::new(alloc)?;
        Ok(Blocks {
            blocks: Vec::new(alloc),
            notes,
        })
    }

    /// These bookings. `Err` says that memory ran out.
    pub(crate) fn of(alloc: Global, bookings: &[Booking]) -> Result<Blocks, AllocError>
        requires { IsCalendar bookings.now }
        ensures { IfOk result (λ blocks. blocks ≡ bookings.now) }
    {
        let mut blocks = Blocks::new(alloc)?;
        for booking in bookings {
            blocks = blocks.with(alloc, *booking)?;
        }
        Ok(blocks)
    }

    /// The blocks, one after another.
    pub(crate) fn list(&self) -> &[Block]
        ensures value { all_in result.now ≡ self.now }
        ensures calendar { IsCalendar self.now }
    {
        &self.blocks
    }

    /// The bookings of some days around this one, if there are any.
    pub(crate) fn around(&self, day: Day) -> Option<&Agenda>
        ensures value { on_day day (booked_in (option_copied result)) ≡ on_day day self.now }
        ensures calendar { IsCalendar self.now }
    {
        around(&self.blocks, day)
    }

    /// The day of the booking of the case and motion.
    pub(crate) fn day_of(&self, case: u32, motion: u32) -> Option<Day>
        ensures { result ≡ booked_day case motion self.now }
    {
        self.notes.day_of(case, motion)
    }

    /// The blocks without the booking of the case and motion, if it lies in another block than the day.
    fn others(
        &self,
        alloc: Global,
        day: Day,
        case: u32,
        motion: u32,
    ) -> Result<Vec<Block>, AllocError>
        ensures blocks { IfOk result (λ blocks. AreBlocks blocks.items) }
        ensures all { IfOk result (λ blocks. (all_in blocks.items ≡ self.now) ⊎ (all_in blocks.items ≡ without_motion case motion self.now)) }
        ensures older { IfOk result (λ blocks. LiesIn (block_of day) case motion (all_in blocks.items)) }
    {
        let mut blocks = copies(alloc, &self.blocks)?;
        let Some(old_day) = self.day_of(case, motion) else {
            return Ok(blocks);
        };
        if block_of(old_day) == block_of(day) {
            return Ok(blocks);
        }
        take_out(alloc, &mut blocks, old_day, case, motion)?;
        Ok(blocks)
    }

    /// These bookings and the new booking, and without an older one of its case and motion. `Err` says that memory ran
    /// out.
    pub(crate) fn with(&self, alloc: Global, booking: Booking) -> Result<Blocks, AllocError>
        requires within_day { IsWithinDay booking }
        requires free { IsFree self.now booking.day booking.first booking.count (Some (booking.case, booking.motion)) }
        ensures { IfOk result (λ blocks. blocks ≡ with_booking booking self.now) }
    {
        let Booking {
            case,
            motion,
            day,
            ..
        } = booking;
        let mut blocks = self.others(alloc, day, case, motion)?;
        put(alloc, &mut blocks, booking)?;
        let notes = self.notes.noting(alloc, case, motion, Some(day))?;
        Ok(Blocks { blocks, notes })
    }

    /// These bookings but that of the case and motion, which is on the day. `Err` says that memory ran out.
    pub(crate) fn without(
        &self,
        alloc: Global,
        day: Day,
        case: u32,
        motion: u32,
    ) -> Result<Blocks, AllocError>
        requires { booked_day case motion self.now ≡ Some day }
        ensures { IfOk result (λ blocks. blocks ≡ without_motion case motion self.now) }
    {
        let mut blocks = copies(alloc, &self.blocks)?;
        take_out(alloc, &mut blocks, day, case, motion)?;
        let notes = self.notes.noting(alloc, case, motion, None)?;
        Ok(Blocks { blocks, notes })
    }
}
