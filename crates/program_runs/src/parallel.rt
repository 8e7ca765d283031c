//! Rows read by several threads, each of which reads a part of the text.

mod division;
mod joining;
mod reading;
mod row_reader;

pub use reading::read_rows_by;
