//! What each row is answered, as a line of JSON, for a reader that takes them one by one.

ghost use Rattle.std.specs.Prelude.{◌≡◌, ◌++◌, All, IfOk, OnOk};
ghost use Rattle.std.specs.List.{flat_map};
ghost use Rattle.docket_rows.specs.Words.{opening_rows, setup_of};
ghost use Rattle.office_texts.specs.Run.Words.{Holds};
ghost use Rattle.report_json.specs.Answers.{answered_value};
ghost use Rattle.report_json.specs.Lines.{AreAnswerLines, ReadsBack, answers_of, line_of};

use crate::answers::AnsweredRow;
use crate::to_json::ToJson;
use crate::writer::JsonWriter;
use court_days::Court;
use docket_core::Docket;
use office_texts::reply_to;
use report_texts::Labels;
use row_forms::NumberedRow;
use std::alloc::{AllocError, Global};

/// A line of JSON for each row, in their order: an object that says the row's number and what it is answered, as among the answers of
/// `json_text`, with the numbers of deadlines and motions. `Err` says that memory ran out.
pub fn answer_lines(
    alloc: Global,
    court: &Court,
    labels: &Labels<'_>,
    rows: &[NumberedRow],
) -> Result<Vec<u8>, AllocError>
    ensures { IfOk result (λ text. AreAnswerLines court.now labels.now rows.now text.items) }
{
    let mut docket = Docket::new(alloc, court)?;
    let mut text = Vec::new(alloc);
    push_lines(alloc, &mut text, court, labels, &mut docket, rows)?;
    Ok(text)
}

/// Carries out each row in turn, and adds the line of what it is answered.
fn push_lines(
    alloc: Global,
    text: &mut Vec<u8>,
    court: &Court,
    labels: &Labels<'_>,
    docket: &mut Docket,
    rows: &[NumberedRow],
) -> Result<(), AllocError>
    requires { Holds (setup_of court.now) docket.old (opening_rows (setup_of court.now)) }
    ensures lines { OnOk result (text.new.items ≡ text.old.items ++ flat_map line_of (answers_of court.now labels.now rows.now)) }
    ensures read { OnOk result (All ReadsBack (answers_of court.now labels.now rows.now)) }
{
    for numbered in rows {
        let reply = reply_to(alloc, docket, &numbered.row.work)?;
        let answered = AnsweredRow {
            number: numbered.number,
            clerk: numbered.row.clerk,
            reply: labels.moved.number_reply(&numbered.row.work, reply),
        };
        push_line(alloc, text, court, labels, &answered)?;
    }
    Ok(())
}

/// Adds the line of what a row is answered.
fn push_line(
    alloc: Global,
    text: &mut Vec<u8>,
    court: &Court,
    labels: &Labels<'_>,
    answered: &AnsweredRow,
) -> Result<(), AllocError>
    ensures line { OnOk result (text.new.items ≡ text.old.items ++ line_of (answered_value court.now labels.now.cases answered.now)) }
    ensures read { OnOk result (ReadsBack (answered_value court.now labels.now.cases answered.now)) }
{
    let mut out = JsonWriter::new(alloc);
    answered.write(&mut out, court, labels)?;
    let line = out.into_text();
    text.extend_from_slice(&line)?;
    text.push(b'\n')?;
    Ok(())
}
