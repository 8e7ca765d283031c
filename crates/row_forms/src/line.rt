//! A line by itself, read as a row, and a row written as a line.

mod clerk;
mod first;
mod line;
mod plain;
mod row_text;

pub use clerk::read_clerk;
pub use line::{Line, read_line};
pub use row_text::push_row_text;
