//! Lines as people write them, read as plain rows.
#![tactic(auto)]

mod called;
mod cases;
mod excess;
mod fault;
mod fields;
mod headings;
mod known;
mod labels;
mod laws;
mod names;
mod rows;
mod subjects;

pub use called::read_called;
pub use fault::{Fault, Flaw};
pub use fields::field_said;
pub use headings::word_at;
pub use labels::is_label;
pub use laws::{
    lengths_keep_their_numbers, numbers_are_their_fields, plain_rows_stay, rows_are_plain,
};
pub use rows::{Written, WrittenLine, fields_written, read_written};
