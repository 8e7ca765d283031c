//! The bookings of some days in a row, which calendars share.

ghost use Rattle.std.specs.Prelude.{◌≡◌, [], Some, IfOk};
ghost use Rattle.hearing_slots.specs.Booking.{IsWithinDay};
ghost use Rattle.hearing_slots.specs.Calendar.{IsFree, with_booking, without_motion};
ghost use Rattle.hearing_slots.specs.Inside.Blocks.{block_of};

use crate::agenda::Agenda;
use crate::booking::Booking;
use court_clock::Day;
use std::alloc::{AllocError, Global};
use std::marker::Model;
use std::sync::Arc;

/// How many days a block has.
const DAYS_PER_BLOCK: i32 = 256;

/// The number of the block in which the day lies.
pub(crate) fn block_of(day: Day) -> i32
    ensures { result ≡ block_of day }
{
    day.number().div_euclid(DAYS_PER_BLOCK)
}

/// The bookings of the days of one block. Copies share them.
#[derive(Debug, Drop)]
pub struct Block {
    number: i32,
    shared: Arc<Agenda>,
}

impl Model for Block {
    ghost use Rattle.std.specs.Arc.{arc_value};
    ghost use Rattle.hearing_slots.specs.Inside.Blocks.{BlockView};

    ghost Value = { BlockView };

    ghost view = { λ b. record { number = b.number; bookings = arc_value b.shared } };
}

impl Block {
    /// The block of the day, with no bookings. `Err` says that memory ran out.
    pub(crate) fn new(alloc: Global, day: Day) -> Result<Block, AllocError>
        ensures { IfOk result (λ block. block ≡ record { number = block_of day; bookings = [] }) }
    {
        Block::of(alloc, block_of(day), Agenda::new(alloc))
    }

    /// The block of that number, with these bookings.
    fn of(alloc: Global, number: i32, agenda: Agenda) -> Result<Block, AllocError>
        ensures { IfOk result (λ block. block ≡ record { number = number; bookings = agenda }) }
    {
        let shared = Arc::new(alloc, agenda)?;
        Ok(Block { number, shared })
    }

    /// The number of the block.
    pub(crate) fn number(&self) -> i32
        ensures { result ≡ self.now.number }
    {
        self.number
    }

    /// The bookings in order.
    pub(crate) fn agenda(&self) -> &Agenda
        ensures { result.now ≡ self.now.bookings }
    {
        &self.shared
    }

    /// The bookings of the block, in order.
    pub fn bookings(&self) -> &[Booking]
        ensures { result.now ≡ self.now.bookings }
    {
        self.agenda().all()
    }

    /// The same block, which shares its bookings. `Err` says that there are as many copies as can be counted.
    pub(crate) fn copy(&self) -> Result<Block, AllocError>
        ensures { IfOk result (λ block. block ≡ self.now) }
    {
        Ok(Block {
            number: self.number,
            shared: Arc::try_clone(&self.shared)?,
        })
    }

    /// A block with the bookings of this one and the new booking, and without an older one of its case and motion.
    /// `Err` says that memory ran out.
    pub(crate) fn with(&self, alloc: Global, booking: Booking) -> Result<Block, AllocError>
        requires within_day { IsWithinDay booking }
        requires free { IsFree self.now.bookings booking.day booking.first booking.count (Some (booking.case, booking.motion)) }
        ensures { IfOk result (λ block. block ≡ record self.now { bookings = with_booking booking self.now.bookings }) }
    {
        Block::of(alloc, self.number, self.agenda().with(alloc, booking)?)
    }

    /// A block with the bookings of this one but that of the case and motion. `Err` says that memory ran out.
    pub(crate) fn without(&self, alloc: Global, case: u32, motion: u32) -> Result<Block, AllocError>
        ensures { IfOk result (λ block. block ≡ record self.now { bookings = without_motion case motion self.now.bookings }) }
    {
        Block::of(
            alloc,
            self.number,
            self.agenda().without(alloc, case, motion)?,
        )
    }
}
