//! Rows, read from the records of a text: which clerk asks, and for what, or the first fault.
#![tactic(auto)]

mod columns;
mod fault;
mod fields;
mod forms;
mod headings;
mod laws;
mod line;
mod numbered;
mod records;
mod row;

pub use columns::column;
pub use fault::{RowCause, RowError};
pub use fields::numbers::is_number;
pub use fields::texts::is_text;
pub use forms::{COMMANDS, columns_of, commands, commands_listed};
pub use headings::{Column, column_at, mark_of, may_be_empty, name_of};
pub use laws::{
    codes_are_read_back, command_words_name_forms, empty_fields_are_taken, first_fault_is_told,
    office_rows_are_read_alike, rows_are_bounded, rows_ask_by_their_words, rows_follow_the_table,
    section_codes_are_new,
};
pub use line::{Line, push_row_text, read_clerk, read_line};
pub use numbered::{NumberedRow, numbered_rows};
pub use records::{MAX_ROWS, Next, read_next, read_rows, row_of, rows_reader};
pub use row::{Row, Work};
