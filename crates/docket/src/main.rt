//! A court's docket, kept in a folder: rows are entered and answered, reports are made of it, and courts' files are checked,
//! written and changed.
#![tactic(auto)]

mod alone;
mod answered;
mod beside;
mod case_page;
mod clerk;
mod court;
mod court_update;
mod enter;
mod fault;
mod folder;
mod input;
mod journal_file;
mod keep;
mod lock;
mod locked_turn;
mod logs;
mod own_rows;
mod place;
mod progress;
mod reports;
mod saved;
mod session;
mod session_mark;
mod shared_file;
mod tasks;
mod times;
mod turn;

use desk_program::{DeskFault, ended_by};
use fault::{misspoken, told};
use program_main::{OptionsFault, argument_texts, arguments_of};
use program_runs::{helped, unread};
use program_streams::Watched;
use program_words::{Task, asked_of};
use report_program::clock_time;
use std::io;
use std::process::ExitCode;
use tasks::done;

// What the words ask for, of which the first is the program's name.
fn asked(rt: &HostRuntime, words: &[String]) -> Result<Task, OptionsFault> {
    let texts = argument_texts(rt.alloc(), words)?;
    asked_of(rt.alloc(), clock_time(rt), texts.as_slice())
}

/// Does what the words ask for. The status is 0 where it is done, 1 where the words can't be taken, and else that of the
/// fault, of which standard error says more. Where a court's file is checked it is 2 if the file has faults, and 9 if it has
/// none but something may be wrong with it.
fn main(rt: HostRuntime) -> ExitCode {
    let mut errors = Watched::new(rt.stderr());
    let words = match arguments_of(&rt) {
        Ok(words) => words,
        Err(error) => return ExitCode::from(unread(&mut errors, &error)),
    };
    let mut writer = Watched::new(io::writer(&rt));
    let status = match asked(&rt, &words) {
        Ok(task) => match done(&rt, &rt, &mut writer, &mut errors, &task) {
            Ok(status) => status,
            Err(fault) => told(rt.alloc(), &mut errors, &fault),
        },
        Err(OptionsFault::Help(text)) => helped(&mut writer, &mut errors, text.as_str()),
        Err(OptionsFault::BadWords(text)) => misspoken(rt.alloc(), &mut errors, text.as_str()),
        Err(OptionsFault::OutOfMemory) => {
            ended_by(rt.alloc(), &mut errors, &DeskFault::OutOfMemory)
        }
    };
    ExitCode::from(status)
}
