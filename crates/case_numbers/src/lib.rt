//! Case numbers as courts write them, and the cases that were opened by one.
#![tactic(auto)]

mod cases;
mod forms;
mod initials;
mod laws;
mod name;
mod name_line;
mod names;
mod texts;

pub use cases::Cases;
pub use laws::{keys_tell_cases_apart, names_stay_apart, shown_is_read_back, spellings_are_read};
pub use name::{CaseName, case_read};
pub use name_line::{after_name, name_before, push_name_line};
pub use names::NamedCase;
pub use texts::push_case_text;
