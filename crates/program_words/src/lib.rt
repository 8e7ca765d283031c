//! The command line of `docket`, and what words ask for.
#![tactic(auto)]

mod as_of;
mod command;
mod court_commands;
mod court_tasks;
mod courts;
mod folder_commands;
mod given;
mod input_commands;
mod input_tasks;
mod kept_tasks;
mod options;
mod subcommand;
mod task;
mod tasks;
mod values;
mod words;

pub use task::{
    AsOf, Changing, Correcting, Entering, Keeping, Lines, LogAsked, Source, Style, Task, Updating,
    Writing,
};
pub use words::asked_of;
