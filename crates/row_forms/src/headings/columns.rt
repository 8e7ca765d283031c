//! The columns of rows, and what these are called.

ghost use Rattle.std.specs.Prelude.{◌≡◌};
ghost use Rattle.row_forms.specs.Headings.Columns.{column_at, mark_of, may_be_empty, name_of};

/// What a column of a row holds.
#[derive(Clone, Copy, Debug, PartialEq, Eq)]
pub enum Column {
    /// The clerk's number.
    Clerk,
    /// The command word.
    Command,
    /// A case: its number, or its number as the court writes it.
    Case,
    /// A deadline's number.
    Deadline,
    /// A motion's number.
    Motion,
    /// A period.
    Period,
    /// A date.
    Date,
    /// A time of day.
    Time,
    /// The time of day at which a hearing begins.
    Start,
    /// A time of day, or nothing.
    TimeOrNone,
    /// A second date, or nothing.
    SecondOrNone,
    /// A kind of service, or nothing.
    ServiceOrNone,
    /// How a paper reached the clerk.
    Means,
    /// An extension.
    Grant,
    /// Whether it was asked by a motion.
    ByMotion,
    /// Whether there was good cause.
    Cause,
    /// Whether there was excusable neglect.
    Neglect,
    /// The notice that a motion needs.
    Need,
    /// A list of holidays.
    Holidays,
    /// The time of day at which an outage begins.
    From,
    /// The time of day at which it ends, or the end of the day.
    To,
    /// A judge.
    Judge,
    /// One to three judges.
    Judges,
    /// A room.
    Room,
    /// How many slots.
    Slots,
    /// The day on which notice was served.
    Notice,
    /// What has to be done in time.
    Act,
    /// The day of an order or of another paper.
    Dated,
    /// Why a deadline is due no more.
    Why,
    /// How a case was closed.
    Closing,
    /// The day from which a deadline that is resumed runs anew, or nothing.
    ResumeDay,
    /// How a motion was ruled on.
    Ruling,
    /// A judge to whom a case is referred, or nothing.
    JudgeOrNone,
    /// What a case is called.
    Title,
    /// Whether a deadline or a motion is meant.
    Counted,
    /// The number of a deadline or of a motion.
    Number,
    /// What a deadline or a motion is called.
    Label,
}

/// The column of that number, counted from 0.
pub fn column_at(columns: &[Column], number: usize) -> Column
    ensures { result ≡ column_at columns.now number }
{
    columns.get(number).copied().unwrap_or(Column::Command)
}

/// The heading of a column.
pub fn name_of(column: Column) -> &'static str
    ensures { result.now ≡ name_of column }
{
    match column {
        Column::Clerk => "clerk",
        Column::Command => "command",
        Column::Case => "case",
        Column::Deadline => "deadline",
        Column::Motion | Column::ByMotion => "motion",
        Column::Period => "period",
        Column::Date | Column::ResumeDay => "date",
        Column::Time | Column::Start | Column::TimeOrNone => "time",
        Column::SecondOrNone => "second",
        Column::ServiceOrNone => "kind",
        Column::Means => "means",
        Column::Grant => "grant",
        Column::Cause => "cause",
        Column::Neglect => "neglect",
        Column::Need => "need",
        Column::Holidays => "list",
        Column::From => "from",
        Column::To => "to",
        Column::Judge | Column::Judges => "judge",
        Column::Room => "room",
        Column::Slots => "slots",
        Column::Notice => "notice",
        Column::Act => "act",
        Column::Dated => "dated",
        Column::Why | Column::Closing => "why",
        Column::Ruling => "ruling",
        Column::JudgeOrNone => "referred",
        Column::Title => "title",
        Column::Counted => "of",
        Column::Number => "number",
        Column::Label => "label",
    }
}

/// What stands for a column where the form of a row is shown. What may be left empty is in brackets. The command word
/// stands for itself.
pub fn mark_of(word: &str, column: Column) -> &str
    ensures { result.now ≡ mark_of word.now column }
{
    match column {
        Column::Clerk => "CLERK",
        Column::Command => word,
        Column::Case => "CASE",
        Column::Deadline => "DEADLINE",
        Column::Motion => "MOTION",
        Column::Period => "PERIOD",
        Column::Date => "DATE",
        Column::Time => "TIME",
        Column::Start => "START",
        Column::TimeOrNone => "[TIME]",
        Column::SecondOrNone => "[SECOND]",
        Column::ServiceOrNone => "[KIND]",
        Column::Means => "MEANS",
        Column::Grant => "GRANT",
        Column::ByMotion => "MOTION?",
        Column::Cause => "CAUSE?",
        Column::Neglect => "NEGLECT?",
        Column::Need => "NEED",
        Column::Holidays => "LIST",
        Column::From => "FROM",
        Column::To => "TO",
        Column::Judge | Column::Judges => "JUDGE",
        Column::Room => "ROOM",
        Column::Slots => "SLOTS",
        Column::Notice => "NOTICE",
        Column::Act => "ACT",
        Column::Dated => "DATED",
        Column::Why | Column::Closing => "WHY",
        Column::ResumeDay => "[DAY]",
        Column::Ruling => "RULING",
        Column::JudgeOrNone => "[JUDGE2]",
        Column::Title => "TITLE",
        Column::Counted => "deadline|motion",
        Column::Number => "NUMBER",
        Column::Label => "LABEL",
    }
}

/// Whether the field of a column may be empty, and then says none.
pub fn may_be_empty(column: Column) -> bool
    ensures { result ≡ may_be_empty column }
{
    matches!(
        column,
        Column::TimeOrNone
            | Column::SecondOrNone
            | Column::ServiceOrNone
            | Column::ResumeDay
            | Column::JudgeOrNone
    )
}
