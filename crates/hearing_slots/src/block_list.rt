//! Lists of blocks: the block of a day, and one booking more or less.

ghost use Rattle.std.specs.Prelude.{◌≡◌, Some, IfOk, IfErr, OnOk};
ghost use Rattle.std.specs.Option.{option_copied};
ghost use Rattle.hearing_slots.specs.Booking.{IsWithinDay};
ghost use Rattle.hearing_slots.specs.Calendar.{IsFree, on_day, with_booking, without_motion};
ghost use Rattle.hearing_slots.specs.Inside.Blocks.{AreBlocks, IsBlockAt, IsGapForBlock, LiesIn, all_in, block_of, booked_in};

use crate::agenda::Agenda;
use crate::block::{Block, block_of};
use crate::booking::Booking;
use court_clock::Day;
use std::alloc::{AllocError, Global};

/// Where the block of the day is, or where it would go.
fn search(blocks: &[Block], day: Day) -> Result<usize, usize>
    requires { AreBlocks blocks.now }
    ensures found { IfOk result (IsBlockAt blocks.now (block_of day)) }
    ensures absent { IfErr result (IsGapForBlock blocks.now (block_of day)) }
{
    let number = block_of(day);
    let place = blocks.partition_point(|block| block.number() < number);
    if place == blocks.len() {
        return Err(place);
    }
    if blocks[place].number() != number {
        return Err(place);
    }
    Ok(place)
}

/// Copies of the blocks, which share their bookings.
pub(crate) fn copies(alloc: Global, blocks: &[Block]) -> Result<Vec<Block>, AllocError>
    ensures { IfOk result (λ copies. copies.items ≡ blocks.now) }
{
    let mut copies = Vec::with_capacity(alloc, blocks.len())?;
    for block in blocks {
        let copy = block.copy()?;
        copies.push(copy)?;
    }
    Ok(copies)
}

/// The bookings of the block in which the day lies, if there are any.
pub(crate) fn around(blocks: &[Block], day: Day) -> Option<&Agenda>
    requires { AreBlocks blocks.now }
    ensures { on_day day (booked_in (option_copied result)) ≡ on_day day (all_in blocks.now) }
{
    match search(blocks, day) {
        Ok(place) => Some(blocks[place].agenda()),
        Err(_) => None,
    }
}

/// The place of the block of the day. Where there is none, one with no bookings is put there first.
fn place_for(alloc: Global, blocks: &mut Vec<Block>, day: Day) -> Result<usize, AllocError>
    requires { AreBlocks blocks.old.items }
    ensures blocks { AreBlocks blocks.new.items }
    ensures same { all_in blocks.new.items ≡ all_in blocks.old.items }
    ensures place { IfOk result (IsBlockAt blocks.new.items (block_of day)) }
{
    match search(blocks, day) {
        Ok(place) => Ok(place),
        Err(place) => {
            let block = Block::new(alloc, day)?;
            blocks.insert(place, block)?;
            Ok(place)
        }
    }
}

/// Puts the booking in its place, and takes out an older one of its case and motion, which lies in the same block. The
/// one block is copied. `Err` says that memory ran out.
pub(crate) fn put(
    alloc: Global,
    blocks: &mut Vec<Block>,
    booking: Booking,
) -> Result<(), AllocError>
    requires blocks { AreBlocks blocks.old.items }
    requires within_day { IsWithinDay booking }
    requires free { IsFree (all_in blocks.old.items) booking.day booking.first booking.count (Some (booking.case, booking.motion)) }
    requires older { LiesIn (block_of booking.day) booking.case booking.motion (all_in blocks.old.items) }
    ensures blocks { OnOk result (AreBlocks blocks.new.items) }
    ensures all { OnOk result (all_in blocks.new.items ≡ with_booking booking (all_in blocks.old.items)) }
{
    let place = place_for(alloc, blocks, booking.day)?;
    let changed = blocks[place].with(alloc, booking)?;
    blocks[place] = changed;
    Ok(())
}

/// Takes out the booking of the case and motion, which lies in the block of the day. The one block is copied. `Err` says
/// that memory ran out.
pub(crate) fn take_out(
    alloc: Global,
    blocks: &mut Vec<Block>,
    day: Day,
    case: u32,
    motion: u32,
) -> Result<(), AllocError>
    requires blocks { AreBlocks blocks.old.items }
    requires gone { LiesIn (block_of day) case motion (all_in blocks.old.items) }
    ensures blocks { OnOk result (AreBlocks blocks.new.items) }
    ensures all { OnOk result (all_in blocks.new.items ≡ without_motion case motion (all_in blocks.old.items)) }
{
    let place = place_for(alloc, blocks, day)?;
    let changed = blocks[place].without(alloc, case, motion)?;
    blocks[place] = changed;
    Ok(())
}
