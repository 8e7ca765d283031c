//! A run of an office that several clerks share: rows in, and the text of all answers, sheets and calendars out.
//! What refuses a body that always answers want of memory is said in docs/PROMISES.md.

mod attempt;
mod closing;
mod last_docket;
mod lines;
mod named;
mod run;
mod shared_text;

pub use run::run_shared;
pub use shared_text::SharedText;
