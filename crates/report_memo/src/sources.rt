//! Which rows made the deadlines of a case what they are.

ghost use Rattle.std.specs.Prelude.{◌≡◌, ◌++◌, map, IfOk, OnOk, option_to_list, string_bytes};
ghost use Rattle.docket_rows.specs.Words.{opening_rows, setup_of};
ghost use Rattle.office_texts.specs.Run.Words.{Holds, docketed_after};
ghost use Rattle.row_forms.specs.Words.{rows_of};
ghost use Rattle.report_memo.specs.Sources.{deed_words, numbered_source, source_if, source_in, source_line, source_lines, source_made, source_of_fact, source_text, sources_made};

use court_days::Court;
use desk_numbers::MovedNumbers;
use docket_core::Docket;
use docket_rows::{Answer, Command, Counted, Fact};
use office_texts::{Reply, reply_to};
use reason_texts::push_note;
use row_forms::{NumberedRow, Work};
use std::alloc::{AllocError, Global};
use std::fmt::Write;
use std::marker::Model;

/// What a row did to a deadline.
#[derive(Clone, Copy, Debug, PartialEq, Eq)]
pub enum Deed {
    /// It started the deadline.
    Started,
    /// It extended the time.
    Extended,
    /// It set another end, by an order.
    Reset,
    /// It recorded the act.
    Filed,
    /// It ended the deadline.
    Ended,
    /// It resumed the deadline.
    Resumed,
}

/// A row that did something to a deadline of a case.
#[derive(Clone, Copy, Debug, PartialEq, Eq)]
pub struct Source {
    /// The deadline: its place in the case, and its number once that is given.
    pub deadline: u32,
    /// What was done to it.
    pub deed: Deed,
    /// The number of the row, from 1.
    pub row: u64,
}

/// What rows did to the deadlines of a case, in their order.
#[derive(Debug, Drop)]
pub struct Sources {
    list: Vec<Source>,
}

impl Model for Sources {
    ghost use Rattle.std.specs.Prelude.{List};
    ghost use Rattle.report_memo.specs.declared.sources.Source.{Source};

    ghost Value = { List Source };

    ghost view = { λ s. s.list.items };
}

impl Sources {
    /// Those of the list, in its order, with the numbers of the deadlines of a case, which the docket has by their places.
    pub(crate) fn numbered(moved: &MovedNumbers, case: u32, mut list: Vec<Source>) -> Sources
        ensures { result ≡ map (numbered_source moved.now case) list.items }
    {
        number_each(moved, case, &mut list);
        Sources { list }
    }

    /// All of them.
    pub(crate) fn as_slice(&self) -> &[Source]
        ensures { result.now ≡ self.now }
    {
        &self.list
    }
}

/// The docket of the court after all rows. What they did to the deadlines of a case is added to a list, in their order.
/// `Err` says that memory ran out.
pub(crate) fn docket_after(
    alloc: Global,
    court: &Court,
    rows: &[NumberedRow],
    case: u32,
    sources: &mut Vec<Source>,
) -> Result<Docket, AllocError>
    ensures docket { IfOk result (λ d. Holds (setup_of court.now) d (docketed_after (setup_of court.now) (opening_rows (setup_of court.now)) (rows_of rows.now))) }
    ensures sources { OnOk result (sources.new.items ≡ sources.old.items ++ sources_made (setup_of court.now) case (opening_rows (setup_of court.now)) rows.now) }
{
    let mut docket = Docket::new(alloc, court)?;
    carry_out(alloc, court, &mut docket, rows, case, sources)?;
    Ok(docket)
}

/// Carries out each row in turn.
fn carry_out(
    alloc: Global,
    court: &Court,
    docket: &mut Docket,
    rows: &[NumberedRow],
    case: u32,
    sources: &mut Vec<Source>,
) -> Result<(), AllocError>
    requires { Holds (setup_of court.now) docket.old (opening_rows (setup_of court.now)) }
    ensures docket { OnOk result (Holds (setup_of court.now) docket.new (docketed_after (setup_of court.now) (opening_rows (setup_of court.now)) (rows_of rows.now))) }
    ensures sources { OnOk result (sources.new.items ≡ sources.old.items ++ sources_made (setup_of court.now) case (opening_rows (setup_of court.now)) rows.now) }
{
    for row in rows {
        let reply = reply_to(alloc, docket, &row.row.work)?;
        push_source(sources, source_in(case, row.number, &row.row.work, &reply))?;
    }
    Ok(())
}

/// Adds what a row did, if it did something.
fn push_source(sources: &mut Vec<Source>, source: Option<Source>) -> Result<(), AllocError>
    ensures { OnOk result (sources.new.items ≡ sources.old.items ++ option_to_list source) }
{
    match source {
        Some(source) => {
            sources.push(source)?;
            Ok(())
        }
        None => Ok(()),
    }
}

/// What a row of that number, which was so answered, did to a deadline of the case that is asked for.
fn source_in(asked: u32, row: u64, work: &Work, reply: &Reply) -> Option<Source>
    ensures { result ≡ source_in asked row work.now reply.now }
{
    match (work, reply) {
        (Work::Command(command), Reply::Made(answer)) => source_made(asked, row, command, answer),
        _ => None,
    }
}

fn source_made(asked: u32, row: u64, command: &Command, answer: &Answer) -> Option<Source>
    ensures { result ≡ source_made asked row command.now answer.now }
{
    match (*command, *answer) {
        (Command::Start { case, .. }, Answer::Started(place, _)) => {
            source_if(asked, case, place, Deed::Started, row)
        }
        (Command::Extend { case, deadline, .. }, Answer::Extended(_)) => {
            source_if(asked, case, deadline, Deed::Extended, row)
        }
        (Command::Extend { case, deadline, .. }, Answer::Reset(_)) => {
            source_if(asked, case, deadline, Deed::Reset, row)
        }
        (Command::FileAct { case, deadline, .. }, Answer::Filed(_)) => {
            source_if(asked, case, deadline, Deed::Filed, row)
        }
        (Command::Fact { case, fact }, answer) => source_of_fact(asked, row, case, fact, answer),
        _ => None,
    }
}

/// What a fact of a case, which was so answered, did to a deadline of the case that is asked for.
fn source_of_fact(asked: u32, row: u64, case: u32, fact: Fact, answer: Answer) -> Option<Source>
    ensures { result ≡ source_of_fact asked row case fact answer }
{
    match (fact, answer) {
        (Fact::Ended { deadline, .. }, Answer::Ended) => {
            source_if(asked, case, deadline, Deed::Ended, row)
        }
        (Fact::Resumed { deadline, .. }, Answer::Resumed(_)) => {
            source_if(asked, case, deadline, Deed::Resumed, row)
        }
        _ => None,
    }
}

/// The same where the case is the one that is asked for.
fn source_if(asked: u32, case: u32, deadline: u32, deed: Deed, row: u64) -> Option<Source>
    ensures { result ≡ source_if asked case deadline deed row }
{
    if case == asked {
        Some(Source {
            deadline,
            deed,
            row,
        })
    } else {
        None
    }
}

/// Gives the deadlines of a case their numbers.
fn number_each(moved: &MovedNumbers, case: u32, sources: &mut [Source])
    ensures { sources.new ≡ map (numbered_source moved.now case) sources.old }
{
    'list: for source in sources.iter_mut() {
        source.deadline = moved.number_at(case, Counted::Deadline, source.deadline);
    }
}

/// Adds a line for each row that did something to the deadline of that number. `Err` says that memory ran out.
#[tactic(auto, unfolding(crate::specs::Sources::source_lines))]
pub(crate) fn push_sources(
    alloc: Global,
    text: &mut String,
    deadline: u32,
    sources: &[Source],
) -> Result<(), AllocError>
    ensures { OnOk result (string_bytes text.new ≡ string_bytes text.old ++ source_lines deadline sources.now) }
{
    for source in sources {
        push_source_line(alloc, text, deadline, source)?;
    }
    Ok(())
}

fn push_source_line(
    alloc: Global,
    text: &mut String,
    deadline: u32,
    source: &Source,
) -> Result<(), AllocError>
    ensures { OnOk result (string_bytes text.new ≡ string_bytes text.old ++ source_line deadline source.now) }
{
    if source.deadline != deadline {
        return Ok(());
    }
    let mut what = String::new(alloc);
    push_source_text(&mut what, source)?;
    push_note(text, None, what.as_str(), "docketed")
}

/// Adds what a row did, and its number.
#[tactic(auto, unfolding(crate::specs::Sources::source_text))]
fn push_source_text(text: &mut String, source: &Source) -> Result<(), AllocError>
    ensures { OnOk result (string_bytes text.new ≡ string_bytes text.old ++ source_text source.now) }
{
    let row = source.row;
    text.push_str(deed_words(source.deed))?;
    write!(text, "{row}")
}

fn deed_words(deed: Deed) -> &'static str
    ensures { result.now ≡ deed_words deed }
{
    match deed {
        Deed::Started => "started by row ",
        Deed::Extended => "extended by row ",
        Deed::Reset => "reset by row ",
        Deed::Filed => "filed by row ",
        Deed::Ended => "ended by row ",
        Deed::Resumed => "resumed by row ",
    }
}
