//! Deadlines that rows started once and start no more.

ghost use Rattle.std.specs.Prelude.{◌≡◌};
ghost use Rattle.report_program.specs.Lost.{lost_by, lost_if_refused, lost_item, lost_start};

use court_clock::Day;
use desk_numbers::{Given, given_at};
use docket_rows::{Answer, Command, State};
use docket_selection::{DueDeadline, DueItem, Matter};
use office_texts::Reply;
use row_forms::{NumberedRow, Work};
use rule_periods::Period;
use rule6::Shown;

/// What a row started that starts nothing now, where these are by row what rows gave.
pub(crate) fn lost_by(given: &[Option<Given>], row: &NumberedRow) -> Option<DueItem>
    ensures { result ≡ lost_by given.now row.now }
{
    match &row.row.work {
        Work::Command(command) => lost_start(command, given_at(given, row.number)),
        Work::Query(_) => None,
    }
}

/// The same of a row with this reply, if it is refused.
pub(crate) fn lost_if_refused(
    given: &[Option<Given>],
    row: &NumberedRow,
    reply: &Reply,
) -> Option<DueItem>
    ensures { result ≡ lost_if_refused given.now row.now reply.now }
{
    match reply {
        Reply::Made(Answer::Refused(_)) => lost_by(given, row),
        _ => None,
    }
}

/// What a command started, if it starts a deadline and this number was given to it.
fn lost_start(command: &Command, given: Option<Given>) -> Option<DueItem>
    ensures { result ≡ lost_start command.now given }
{
    match command {
        Command::Start { period, event, .. } => Some(lost_item(event.day(), *period, given?)),
        _ => None,
    }
}

/// The deadline to which that number was given, on the day from which it ran.
fn lost_item(from: Day, period: Period, given: Given) -> DueItem
    ensures { result ≡ lost_item from period given }
{
    DueItem {
        day: from,
        second: 0,
        case: given.case,
        number: given.number,
        matter: Matter::Deadline(DueDeadline {
            period,
            shown: Shown::Beyond,
            state: State::Pending,
            ended: None,
            other: None,
        }),
    }
}
