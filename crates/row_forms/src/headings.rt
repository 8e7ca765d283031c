//! The columns of rows, and what these are called.

mod columns;

pub use columns::{Column, column_at, mark_of, may_be_empty, name_of};
