//! Numbers of deadlines and motions: each stays with the row that gave it first, when others are struck.
#![tactic(auto)]

mod called;
mod given;
mod kept;
mod laws;
mod moved;
mod numbered;
mod numbers;
mod placed;
mod said;
mod shown;
mod strikes;
mod subjects;
mod tops;

pub use called::{Called, CalledTexts};
pub use given::{Given, given_by};
pub use kept::{KeptNumbers, given_at};
pub use laws::{
    a_number_is_given_once, a_place_apart_tells_its_number, a_row_keeps_its_number,
    nothing_moves_at_first, number_and_place_go_together, others_are_at_their_places,
    the_last_text_counts, what_is_said_is_kept, with_none_moved_nothing_changes,
};
pub use moved::{Moved, MovedNumbers, is_apart, place_apart};
pub use numbers::RowNumbers;
pub use said::{Said, say};
pub use strikes::{
    Corrections, Restore, Strike, a_restore_undoes_its_strike, no_entry_is_both,
    numbers_are_read_back, push_said, remark_in, restore_entry, restore_in, restores_are_read_back,
    said_in, strike_entry, strike_in, strikes_are_read_back,
};
pub use subjects::{Found, SubjectName};
