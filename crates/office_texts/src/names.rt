//! What cases are called: a case as people write it, and the text of a case.

mod called;
mod laws;
mod texts;

pub use called::{CaseCalled, case_called, number_called};
pub use laws::without_names_as_numbers;
pub use texts::push_called;
