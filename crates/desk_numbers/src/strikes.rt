//! Entries by which a row is struck or restored, and what they come to: the rows that are struck and the numbers that are retired.

mod corrections;
mod laws;
mod line;
mod restore;
mod said_text;
mod strike;
mod words;

pub use corrections::Corrections;
pub use laws::{
    a_restore_undoes_its_strike, no_entry_is_both, numbers_are_read_back, restores_are_read_back,
    strikes_are_read_back,
};
pub use line::remark_in;
pub use restore::{Restore, restore_entry, restore_in};
pub use said_text::{push_said, said_in};
pub use strike::{Strike, strike_entry, strike_in};
