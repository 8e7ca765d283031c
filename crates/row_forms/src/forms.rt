//! What rows ask for, by their forms.

ghost use Rattle.std.specs.Prelude.{◌≡◌};
ghost use Rattle.csv.specs.Records.{fields_of};
ghost use Rattle.row_forms.specs.Forms.{assign_row, calendar_row, cancel_row, close_row, compute_row, end_row, extend_row, file_row, holiday_row, inaccessible_row, label_row, motion_row, open_row, read_as, reopen_row, reset_row, resume_row, rule_row, set_length, set_row, set_to, start_row, title_row, work_as};
ghost use Rattle.row_forms.specs.CourtNames.{names_if, names_of};

use crate::columns::{column, day_in, number_in};
use crate::fault::RowCause;
use crate::fields::choices::{
    closing_of, counted_of, ending_of, is_so, list_of, means_of, ruling_of,
};
use crate::fields::grants::{grant_of, need_of, order_dated, reset_to};
use crate::fields::hearings::{judge_if_named, judge_named};
use crate::fields::period::act_of;
use crate::fields::texts::text_length;
use crate::fields::times::{day_if_given, ending_minute, minute_or_midnight};
use crate::row::Work;
use court_clock::{Direction, minute_from_text};
use court_days::Court;
use csv::StringRecord;
use docket_rows::{Command, Fact, Query};
use periods::measured_from;
use rule_periods::{Entered, Event, Length, Mark, Period, Request};
use rule6::{Act, Filing};
use settings::setting_in;
use table::columns_of_form;

mod periods;
mod settings;
mod table;

pub use table::{COMMANDS, columns_of, commands, commands_listed};
pub(crate) use table::{Form, form_of, office_form_of};

/// What a row of that court asks for whose command word names this form, if it names one. Its period may be named by the code of a
/// section, or by the court, where such names are taken.
#[tactic(auto, unfolding(crate::specs::Forms::work_as))]
pub fn work_as(
    court: &Court,
    coded: bool,
    found: Option<Form>,
    fields: &StringRecord,
) -> Result<Work, RowCause>
    ensures { result ≡ work_as (names_if coded (names_of court.now)) found (fields_of fields.now) }
{
    let form = found.ok_or(RowCause::UnknownCommand)?;
    read_as(court, coded, form, fields)
}

// What a row of that form asks for.
fn read_as(court: &Court, coded: bool, form: Form, fields: &StringRecord) -> Result<Work, RowCause>
    ensures { result ≡ read_as (names_if coded (names_of court.now)) form (fields_of fields.now) }
{
    if fields.len() != columns_of_form(form).len() {
        return Err(RowCause::WrongCount);
    }
    match form {
        Form::Open => open_row(fields),
        Form::Start => start_row(court, coded, fields),
        Form::File => file_row(fields),
        Form::Extend => extend_row(fields),
        Form::Motion => motion_row(fields),
        Form::Book => Ok(Work::Command(Command::Book(setting_in(court, fields)?))),
        Form::Move => Ok(Work::Command(Command::MoveHearing(setting_in(court, fields)?))),
        Form::Cancel => cancel_row(fields),
        Form::Holiday => holiday_row(fields),
        Form::Inaccessible => inaccessible_row(fields),
        Form::Compute => compute_row(court, coded, fields),
        Form::Sheet => Ok(Work::Query(Query::Sheet(number_in(fields, 3)?))),
        Form::Calendar => calendar_row(court, fields),
        Form::Set => set_row(fields),
        Form::Reset => reset_row(fields),
        Form::End => end_row(fields),
        Form::Resume => resume_row(fields),
        Form::Close => close_row(fields),
        Form::Reopen => reopen_row(fields),
        Form::Rule => rule_row(fields),
        Form::Assign => assign_row(court, fields),
        Form::Title => title_row(fields),
        Form::Label => label_row(fields),
    }
}

fn open_row(fields: &StringRecord) -> Result<Work, RowCause>
    ensures { result ≡ open_row (fields_of fields.now) }
{
    let case = number_in(fields, 3)?;
    let filed = day_in(fields, 4)?;
    Ok(Work::Command(Command::OpenCase { case, filed }))
}

fn start_row(court: &Court, coded: bool, fields: &StringRecord) -> Result<Work, RowCause>
    ensures { result ≡ start_row (names_if coded (names_of court.now)) (fields_of fields.now) }
{
    let case = number_in(fields, 3)?;
    let measured = measured_from(court, coded, fields, 4)?;
    Ok(Work::Command(Command::Start {
        case,
        period: measured.period,
        event: measured.event,
        second: measured.second,
        service: measured.service,
    }))
}

fn file_row(fields: &StringRecord) -> Result<Work, RowCause>
    ensures { result ≡ file_row (fields_of fields.now) }
{
    let case = number_in(fields, 3)?;
    let deadline = number_in(fields, 4)?;
    let day = day_in(fields, 5)?;
    let minute = minute_from_text(column(fields, 6)).ok_or(RowCause::BadField(6))?;
    let means = means_of(column(fields, 7)).ok_or(RowCause::BadField(7))?;
    Ok(Work::Command(Command::FileAct {
        case,
        deadline,
        filing: Filing { day, minute, means },
    }))
}

fn extend_row(fields: &StringRecord) -> Result<Work, RowCause>
    ensures { result ≡ extend_row (fields_of fields.now) }
{
    let case = number_in(fields, 3)?;
    let deadline = number_in(fields, 4)?;
    let grant = grant_of(column(fields, 5)).ok_or(RowCause::BadField(5))?;
    let day = day_in(fields, 6)?;
    let minute = minute_from_text(column(fields, 7)).ok_or(RowCause::BadField(7))?;
    let motion = is_so(column(fields, 8)).ok_or(RowCause::BadField(8))?;
    let cause = is_so(column(fields, 9)).ok_or(RowCause::BadField(9))?;
    let neglect = is_so(column(fields, 10)).ok_or(RowCause::BadField(10))?;
    Ok(Work::Command(Command::Extend {
        case,
        deadline,
        request: Request {
            grant,
            asked: Event::new(day, minute),
            motion,
            cause,
            neglect,
        },
    }))
}

fn motion_row(fields: &StringRecord) -> Result<Work, RowCause>
    ensures { result ≡ motion_row (fields_of fields.now) }
{
    let case = number_in(fields, 3)?;
    let served = day_in(fields, 4)?;
    let need = need_of(column(fields, 5)).ok_or(RowCause::BadField(5))?;
    Ok(Work::Command(Command::Motion { case, served, need }))
}

fn cancel_row(fields: &StringRecord) -> Result<Work, RowCause>
    ensures { result ≡ cancel_row (fields_of fields.now) }
{
    let case = number_in(fields, 3)?;
    let motion = number_in(fields, 4)?;
    Ok(Work::Command(Command::Cancel { case, motion }))
}

fn holiday_row(fields: &StringRecord) -> Result<Work, RowCause>
    ensures { result ≡ holiday_row (fields_of fields.now) }
{
    let day = day_in(fields, 3)?;
    let list = list_of(column(fields, 4)).ok_or(RowCause::BadField(4))?;
    Ok(Work::Command(Command::Holiday { day, list }))
}

fn inaccessible_row(fields: &StringRecord) -> Result<Work, RowCause>
    ensures { result ≡ inaccessible_row (fields_of fields.now) }
{
    let day = day_in(fields, 3)?;
    let from = minute_from_text(column(fields, 4)).ok_or(RowCause::BadField(4))?;
    let to = ending_minute(column(fields, 5)).ok_or(RowCause::BadField(5))?;
    Ok(Work::Command(Command::Inaccessible { day, from, to }))
}

fn compute_row(court: &Court, coded: bool, fields: &StringRecord) -> Result<Work, RowCause>
    ensures { result ≡ compute_row (names_if coded (names_of court.now)) (fields_of fields.now) }
{
    let measured = measured_from(court, coded, fields, 3)?;
    Ok(Work::Query(Query::Compute(
        measured.period,
        measured.event,
        measured.second,
        measured.service,
    )))
}

// A judge's day. Any text is read as one judge's name.
fn calendar_row(court: &Court, fields: &StringRecord) -> Result<Work, RowCause>
    ensures { result ≡ calendar_row (names_of court.now) (fields_of fields.now) }
{
    let judge = judge_named(court, column(fields, 3));
    let day = day_in(fields, 4)?;
    Ok(Work::Query(Query::JudgeDay(judge, day)))
}

// A deadline that an order sets for a day, or for a time of it.
fn set_row(fields: &StringRecord) -> Result<Work, RowCause>
    ensures { result ≡ set_row (fields_of fields.now) }
{
    let case = number_in(fields, 3)?;
    let day = day_in(fields, 4)?;
    let minute = minute_or_midnight(column(fields, 5)).ok_or(RowCause::BadField(5))?;
    let act = act_of(column(fields, 6)).ok_or(RowCause::BadField(6))?;
    Ok(Work::Command(Command::Start {
        case,
        period: set_to(set_length(column(fields, 5)), act),
        event: Event::new(day, minute),
        second: None,
        service: None,
    }))
}

// An order sets the end to a day, or where a field says a time to that minute of it.
#[tactic(auto, unfolding(crate::specs::Forms::set_length))]
fn set_length(time: &str) -> Length
    ensures { result ≡ set_length time.now }
{
    if time.is_empty() {
        Length::ToDay
    } else {
        Length::ToTime
    }
}

// The period of an act that an order wants by the event.
fn set_to(length: Length, act: Act) -> Period
    ensures { result ≡ set_to length act }
{
    Period::Entered(Entered {
        length,
        direction: Direction::After,
        act,
        served: false,
        mark: Mark::Plain,
    })
}

// Another end that an order sets for a deadline.
fn reset_row(fields: &StringRecord) -> Result<Work, RowCause>
    ensures { result ≡ reset_row (fields_of fields.now) }
{
    let case = number_in(fields, 3)?;
    let deadline = number_in(fields, 4)?;
    let day = day_in(fields, 5)?;
    let minute = minute_or_midnight(column(fields, 6)).ok_or(RowCause::BadField(6))?;
    let dated = day_in(fields, 7)?;
    let grant = reset_to(column(fields, 6), Event::new(day, minute));
    Ok(Work::Command(Command::Extend {
        case,
        deadline,
        request: order_dated(dated, grant),
    }))
}

// A deadline is due no more.
fn end_row(fields: &StringRecord) -> Result<Work, RowCause>
    ensures { result ≡ end_row (fields_of fields.now) }
{
    let case = number_in(fields, 3)?;
    let deadline = number_in(fields, 4)?;
    let why = ending_of(column(fields, 5)).ok_or(RowCause::BadField(5))?;
    let dated = day_in(fields, 6)?;
    let fact = Fact::Ended {
        deadline,
        why,
        dated,
    };
    Ok(Work::Command(Command::Fact { case, fact }))
}

// A deadline that was ended is due again, as before or anew from a day.
fn resume_row(fields: &StringRecord) -> Result<Work, RowCause>
    ensures { result ≡ resume_row (fields_of fields.now) }
{
    let case = number_in(fields, 3)?;
    let deadline = number_in(fields, 4)?;
    let from = day_if_given(column(fields, 5)).ok_or(RowCause::BadField(5))?;
    let dated = day_in(fields, 6)?;
    let fact = Fact::Resumed {
        deadline,
        from,
        dated,
    };
    Ok(Work::Command(Command::Fact { case, fact }))
}

// A case is closed.
fn close_row(fields: &StringRecord) -> Result<Work, RowCause>
    ensures { result ≡ close_row (fields_of fields.now) }
{
    let case = number_in(fields, 3)?;
    let why = closing_of(column(fields, 4)).ok_or(RowCause::BadField(4))?;
    let dated = day_in(fields, 5)?;
    let fact = Fact::Closed { why, dated };
    Ok(Work::Command(Command::Fact { case, fact }))
}

// A case that was closed is open again.
fn reopen_row(fields: &StringRecord) -> Result<Work, RowCause>
    ensures { result ≡ reopen_row (fields_of fields.now) }
{
    let case = number_in(fields, 3)?;
    let dated = day_in(fields, 4)?;
    let fact = Fact::Reopened { dated };
    Ok(Work::Command(Command::Fact { case, fact }))
}

// A motion is ruled on.
fn rule_row(fields: &StringRecord) -> Result<Work, RowCause>
    ensures { result ≡ rule_row (fields_of fields.now) }
{
    let case = number_in(fields, 3)?;
    let motion = number_in(fields, 4)?;
    let ruling = ruling_of(column(fields, 5)).ok_or(RowCause::BadField(5))?;
    let dated = day_in(fields, 6)?;
    let fact = Fact::Ruled {
        motion,
        ruling,
        dated,
    };
    Ok(Work::Command(Command::Fact { case, fact }))
}

// A judge has a case, and it may be referred to another. Any texts are read as the judges' names.
fn assign_row(court: &Court, fields: &StringRecord) -> Result<Work, RowCause>
    ensures { result ≡ assign_row (names_of court.now) (fields_of fields.now) }
{
    let case = number_in(fields, 3)?;
    let judge = judge_named(court, column(fields, 4));
    let referred = judge_if_named(court, column(fields, 5));
    let dated = day_in(fields, 6)?;
    let fact = Fact::Assigned {
        judge,
        referred,
        dated,
    };
    Ok(Work::Command(Command::Fact { case, fact }))
}

// What a case is called. The text isn't part of what is asked for.
fn title_row(fields: &StringRecord) -> Result<Work, RowCause>
    ensures { result ≡ title_row (fields_of fields.now) }
{
    let case = number_in(fields, 3)?;
    text_length(column(fields, 4)).ok_or(RowCause::BadField(4))?;
    let fact = Fact::Titled;
    Ok(Work::Command(Command::Fact { case, fact }))
}

// What a deadline or a motion is called. The text isn't part of what is asked for.
fn label_row(fields: &StringRecord) -> Result<Work, RowCause>
    ensures { result ≡ label_row (fields_of fields.now) }
{
    let case = number_in(fields, 3)?;
    let counted = counted_of(column(fields, 4)).ok_or(RowCause::BadField(4))?;
    let number = number_in(fields, 5)?;
    text_length(column(fields, 6)).ok_or(RowCause::BadField(6))?;
    let fact = Fact::Labelled { counted, number };
    Ok(Work::Command(Command::Fact { case, fact }))
}
