//! All that a program does with the words of its command line and with its streams, so that its `main` is one call.
#![tactic(auto)]

mod options;
mod process;
mod program;
mod run;
mod texts;
mod words;

pub use options::{Options, OptionsFault, argument_texts, arguments_of, fault_from, options_of};
pub use process::{Ended, run_on_process};
pub use program::Program;
pub use run::run_program;
pub use texts::{
    DaySaid, case_option, case_said, day_option, day_said, days_option, number_of, said_option,
    text_argument, today_by, weekdays_come_next, with_needed, with_source, with_subcommand,
    with_text,
};
