//! A docket as SQL: one transaction that makes tables of cases, deadlines, extensions, motions, hearings, outages and answers, and of
//! what rows call cases, deadlines and motions, and puts a row into them for each.
#![tactic(auto)]

mod answers;
mod assignments;
mod called;
mod deadlines;
mod document;
mod hearings;
mod laws;
mod literals;
mod schema;
mod script;
mod sheets;
mod wanted;

pub use document::sql_text;
pub use laws::quoted_reads_back;
