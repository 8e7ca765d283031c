//! What the program does.
ghost use Rattle.std.specs.Prelude.{◌≡◌, false};
ghost use Rattle.program_streams.specs.Words.{has_failed};

use crate::alone::{change, correct, init};
use crate::beside::{ask, cases, check, plain, rows, struck, try_rows};
use crate::case_page::case_page;
use crate::court::{check_file, write_file};
use crate::court_update::update;
use crate::enter::enter;
use crate::fault::Fault;
use crate::logs::log;
use crate::reports::{memo, report};
use desk_program::RowCorrection;
use program_streams::Watched;
use program_words::Task;
use std::io::Write;
use std::sync::Wait;
use std::thread::Threads;

/// Does what is asked for, and gives the status.
pub fn done<H: Threads + Wait + Sync, W: Write, E: Write>(
    rt: &HostRuntime,
    threads: &H,
    writer: &mut Watched<W>,
    errors: &mut Watched<E>,
    task: &Task,
) -> Result<u8, Fault>
    requires { has_failed writer.old ≡ false }
{
    match task {
        Task::Init(folder, court) => init(rt, folder.as_str(), court.as_str())?,
        Task::Enter(folder, entering) => {
            enter(rt, threads, writer, errors, folder.as_str(), entering)?
        }
        Task::Try(folder, lines, held_back) => {
            try_rows(
                rt,
                threads,
                writer,
                errors,
                folder.as_str(),
                *lines,
                *held_back,
            )?
        }
        Task::Ask(folder, lines, as_of) => ask(
            rt,
            threads,
            writer,
            errors,
            folder.as_str(),
            *lines,
            *as_of,
        )?,
        Task::Plain(folder, style) => plain(rt, threads, writer, errors, folder.as_str(), *style)?,
        Task::Strike(folder, row) => correct(
            rt,
            threads,
            writer,
            folder.as_str(),
            RowCorrection::Strike,
            row,
        )?,
        Task::Restore(folder, row) => correct(
            rt,
            threads,
            writer,
            folder.as_str(),
            RowCorrection::Restore,
            row,
        )?,
        Task::Struck(folder, as_of) => struck(rt, writer, folder.as_str(), *as_of)?,
        Task::Cases(folder, as_of) => cases(rt, threads, writer, folder.as_str(), *as_of)?,
        Task::Check(folder) => check(rt, threads, writer, folder.as_str())?,
        Task::Rows(folder, as_of) => rows(rt, threads, writer, folder.as_str(), *as_of)?,
        Task::Log(folder, asked) => log(rt, threads, writer, folder.as_str(), asked)?,
        Task::Report(source, asked) => report(rt, threads, writer, source, asked)?,
        Task::Memo(source, asked) => memo(rt, threads, writer, source, asked)?,
        Task::Case(folder, asked) => case_page(rt, threads, writer, folder.as_str(), asked)?,
        Task::CourtCheck(file, asked, clock_time) => {
            return check_file(rt, writer, file.as_str(), *asked, *clock_time);
        }
        Task::CourtWrite(court, writing) => write_file(rt, writer, errors, *court, writing)?,
        Task::CourtUpdate(folder, updating) => {
            update(rt, threads, writer, errors, folder.as_str(), *updating)?
        }
        Task::CourtChange(folder, changing) => {
            change(rt, threads, writer, folder.as_str(), changing)?
        }
    }
    Ok(0)
}
