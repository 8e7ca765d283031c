//! Items of what is due, with the numbers of their deadlines and motions.
ghost use Rattle.std.specs.Prelude.{◌≡◌, map};
ghost use Rattle.docket_rows.specs.declared.command.Counted.{Counted as CountedOf};
ghost use Rattle.report_texts.specs.Selected.{counted_in, numbered_item, numbered_matter};

use desk_numbers::MovedNumbers;
use docket_rows::Counted;
use docket_selection::{DueDeadline, DueItem, DueTypes, Matter};

/// What the number of an item is the number of.
pub fn counted_in(matter: &Matter) -> Counted
    ensures { result ≡ counted_in matter.now }
{
    match matter {
        Matter::Deadline(_) => Counted::Deadline,
        Matter::Hearing(_) => Counted::Motion,
    }
}

/// Gives an item, which has the place of its deadline or its motion, the number of that.
pub fn number_item(moved: &MovedNumbers, item: &mut DueItem)
    ensures { item.new ≡ numbered_item moved.now item.old }
{
    item.number = moved.number_at(item.case, counted_in(&item.matter), item.number);
    item.matter = number_matter(moved, item.case, item.matter);
}

// What there is, with the number of the motion that suspends its deadline.
fn number_matter(moved: &MovedNumbers, case: u32, matter: Matter) -> Matter
    ensures { result ≡ numbered_matter moved.now case matter }
{
    match matter {
        Matter::Deadline(due) => {
            let ended = moved.number_ended(case, due.ended);
            Matter::Deadline(DueDeadline { ended, ..due })
        }
        Matter::Hearing(set) => Matter::Hearing(set),
    }
}

/// Gives items, which have the places of their deadlines and motions, the numbers of those.
pub fn number_items(moved: &MovedNumbers, items: &mut [DueItem])
    ensures { items.new ≡ map (numbered_item moved.now) items.old }
{
    let _types: DueTypes = None;
    'list: for item in items.iter_mut() {
        number_item(moved, item);
    }
}
