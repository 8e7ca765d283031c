//! Lists that are made item by item.

ghost use Rattle.std.specs.Prelude.{◌≡◌, ◌++◌, option_to_list, OnOk};

use std::alloc::AllocError;

/// Adds the item, if there is one. `Err` says that memory ran out.
#[tactic(auto, using(docket_selection::proofs::CallerLemmas::nothing_more))]
pub fn push_if<T: Drop>(list: &mut Vec<T>, item: Option<T>) -> Result<(), AllocError>
    ensures { OnOk result (list.new.items ≡ list.old.items ++ option_to_list item) }
{
    match item {
        Some(item) => {
            list.push(item)?;
            Ok(())
        }
        None => Ok(()),
    }
}
