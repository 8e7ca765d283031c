//! The sheets of cases, with the reasons of each deadline.

mod explained;

pub use explained::{ExplainedDeadline, ExplainedSheet, explained_sheets};
