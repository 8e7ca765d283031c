//! What has been pending for long, with the numbers of motions.
ghost use Rattle.std.specs.Prelude.{◌≡◌, map};
ghost use Rattle.report_texts.specs.Selected.{motion_numbered, numbered_pending};

use desk_numbers::MovedNumbers;
use docket_rows::Counted;
use docket_selection::{PendingItem, PendingTypes};

// The number of a motion, where there is one, by its place.
fn motion_numbered(moved: &MovedNumbers, case: u32, motion: Option<u32>) -> Option<u32>
    ensures { result ≡ motion_numbered moved.now case motion }
{
    match motion {
        Some(place) => Some(moved.number_at(case, Counted::Motion, place)),
        None => None,
    }
}

// Gives an item, which has the place of its motion, the number of that.
fn number_pending(moved: &MovedNumbers, item: &mut PendingItem)
    ensures { item.new ≡ numbered_pending moved.now item.old }
{
    item.motion = motion_numbered(moved, item.case, item.motion);
}

/// Gives items, which have the places of their motions, the numbers of those.
pub fn number_all_pending(moved: &MovedNumbers, items: &mut [PendingItem])
    ensures { items.new ≡ map (numbered_pending moved.now) items.old }
{
    let _types: PendingTypes = None;
    'list: for item in items.iter_mut() {
        number_pending(moved, item);
    }
}
