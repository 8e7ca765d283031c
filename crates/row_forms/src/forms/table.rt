//! The table of forms: the command word of each, and its columns. Rows are read, refused, headed and shown by it. The desk takes
//! what clerk_office takes, and rows of its own.

ghost use Rattle.std.specs.Prelude.{◌≡◌, find, map, option_map};
ghost use Rattle.row_forms.specs.Forms.Table.{columns_of, columns_of_form, command_word, commands_listed, form_of, forms, is_word_of, office_form_of};

use crate::headings::Column::{
    self, Act, ByMotion, Case, Cause, Clerk, Closing, Command, Counted, Date, Dated, Deadline,
    From, Grant, Holidays, Judge, JudgeOrNone, Judges, Label, Means, Motion, Need, Neglect, Notice,
    Number, Period, ResumeDay, Room, Ruling, SecondOrNone, ServiceOrNone, Slots, Start, Time,
    TimeOrNone, Title, To, Why,
};

/// The form of a row: which command or query it asks for.
#[derive(Clone, Copy, Debug, PartialEq, Eq)]
pub enum Form {
    /// Opens a case.
    Open,
    /// Starts a deadline.
    Start,
    /// Records the act by which a deadline was met, or missed.
    File,
    /// Extends the time of a deadline.
    Extend,
    /// Enters a motion.
    Motion,
    /// Books a hearing.
    Book,
    /// Moves a hearing.
    Move,
    /// Takes a hearing off the calendar.
    Cancel,
    /// Enters a holiday.
    Holiday,
    /// Enters that the clerk's office was inaccessible.
    Inaccessible,
    /// Asks for the end of a period.
    Compute,
    /// Asks for the sheet of a case.
    Sheet,
    /// Asks for a judge's day.
    Calendar,
    /// Starts a deadline on a day, or at a time of it, that an order sets. It is of the desk alone.
    Set,
    /// Sets another end for a deadline, by an order. It is of the desk alone.
    Reset,
    /// Ends a deadline. It is of the desk alone.
    End,
    /// Resumes a deadline that was ended. It is of the desk alone.
    Resume,
    /// Closes a case. It is of the desk alone.
    Close,
    /// Reopens a case that was closed. It is of the desk alone.
    Reopen,
    /// Rules on a motion. It is of the desk alone.
    Rule,
    /// Assigns a case to a judge. It is of the desk alone.
    Assign,
    /// Gives a case a title. It is of the desk alone.
    Title,
    /// Gives a deadline or a motion a label. It is of the desk alone.
    Label,
}

/// The forms of the rows of clerk_office.
pub const OFFICE_FORMS: [Form; 13] = [
    Form::Open,
    Form::Start,
    Form::File,
    Form::Extend,
    Form::Motion,
    Form::Book,
    Form::Move,
    Form::Cancel,
    Form::Holiday,
    Form::Inaccessible,
    Form::Compute,
    Form::Sheet,
    Form::Calendar,
];

/// The forms of the rows of the desk.
pub const FORMS: [Form; 23] = [
    Form::Open,
    Form::Start,
    Form::File,
    Form::Extend,
    Form::Motion,
    Form::Book,
    Form::Move,
    Form::Cancel,
    Form::Holiday,
    Form::Inaccessible,
    Form::Compute,
    Form::Sheet,
    Form::Calendar,
    Form::Set,
    Form::Reset,
    Form::End,
    Form::Resume,
    Form::Close,
    Form::Reopen,
    Form::Rule,
    Form::Assign,
    Form::Title,
    Form::Label,
];

/// The command words, in the order of the forms.
pub const COMMANDS: [&str; 23] = [
    "open",
    "start",
    "file",
    "extend",
    "motion",
    "book",
    "move",
    "cancel",
    "holiday",
    "inaccessible",
    "compute",
    "sheet",
    "calendar",
    "set",
    "reset",
    "end",
    "resume",
    "close",
    "reopen",
    "rule",
    "assign",
    "title",
    "label",
];

/// The columns of a form's rows, from the first on.
pub fn columns_of_form(form: Form) -> &'static [Column]
    ensures { result.now ≡ columns_of_form form }
{
    match form {
        Form::Open => &[Clerk, Command, Case, Date],
        Form::Start => &[
            Clerk,
            Command,
            Case,
            Period,
            Date,
            TimeOrNone,
            SecondOrNone,
            ServiceOrNone,
        ],
        Form::File => &[Clerk, Command, Case, Deadline, Date, Time, Means],
        Form::Extend => &[
            Clerk, Command, Case, Deadline, Grant, Date, Time, ByMotion, Cause, Neglect,
        ],
        Form::Motion => &[Clerk, Command, Case, Date, Need],
        Form::Book | Form::Move => &[
            Clerk, Command, Case, Motion, Judges, Room, Date, Start, Slots, Notice,
        ],
        Form::Cancel => &[Clerk, Command, Case, Motion],
        Form::Holiday => &[Clerk, Command, Date, Holidays],
        Form::Inaccessible => &[Clerk, Command, Date, From, To],
        Form::Compute => &[
            Clerk,
            Command,
            Period,
            Date,
            TimeOrNone,
            SecondOrNone,
            ServiceOrNone,
        ],
        Form::Sheet => &[Clerk, Command, Case],
        Form::Calendar => &[Clerk, Command, Judge, Date],
        Form::Set => &[Clerk, Command, Case, Date, TimeOrNone, Act],
        Form::Reset => &[Clerk, Command, Case, Deadline, Date, TimeOrNone, Dated],
        Form::End => &[Clerk, Command, Case, Deadline, Why, Dated],
        Form::Resume => &[Clerk, Command, Case, Deadline, ResumeDay, Dated],
        Form::Close => &[Clerk, Command, Case, Closing, Dated],
        Form::Reopen => &[Clerk, Command, Case, Dated],
        Form::Rule => &[Clerk, Command, Case, Motion, Ruling, Dated],
        Form::Assign => &[Clerk, Command, Case, Judge, JudgeOrNone, Dated],
        Form::Title => &[Clerk, Command, Case, Title],
        Form::Label => &[Clerk, Command, Case, Counted, Number, Label],
    }
}

/// The command word of a form.
pub fn command_word(form: Form) -> &'static str
    ensures { result.now ≡ command_word form }
{
    COMMANDS[form as usize]
}

/// The command words of all forms, in their order.
pub fn commands() -> &'static [&'static str]
    ensures { map (λ word. word.now) result.now ≡ map command_word forms }
{
    &COMMANDS
}

/// The command words, as they are listed in a sentence.
#[tactic(auto, unfolding(crate::specs::Forms::Table::commands_listed, crate::specs::Forms::Table::listed))]
pub fn commands_listed() -> &'static str
    ensures { result.now ≡ commands_listed }
{
    "open, start, file, extend, motion, book, move, cancel, holiday, inaccessible, compute, sheet, calendar, set, reset, end, resume, close, reopen, rule, assign, title or label"
}

// Whether the word is this form's.
#[tactic(auto, unfolding(crate::specs::Forms::Table::is_word_of))]
fn is_word_of(word: &str, form: Form) -> bool
    ensures { result ≡ is_word_of word.now form }
{
    word == command_word(form)
}

// The first of these forms that has this command word.
fn form_in(forms: &[Form], word: &str) -> Option<Form>
    ensures { result ≡ find (is_word_of word.now) forms.now }
{
    match forms {
        [] => None,
        [form, rest @ ..] => {
            if is_word_of(word, *form) {
                Some(*form)
            } else {
                form_in(rest, word)
            }
        }
    }
}

/// The form of the rows with this command word, at the desk.
#[tactic(auto, unfolding(crate::specs::Forms::Table::form_of))]
pub fn form_of(word: &str) -> Option<Form>
    ensures { result ≡ form_of word.now }
{
    form_in(&FORMS, word)
}

/// The form of the rows with this command word that clerk_office takes.
#[tactic(auto, unfolding(crate::specs::Forms::Table::office_form_of))]
pub fn office_form_of(word: &str) -> Option<Form>
    ensures { result ≡ office_form_of word.now }
{
    form_in(&OFFICE_FORMS, word)
}

/// The columns of the rows with this command word, from the first on.
#[tactic(auto, unfolding(crate::specs::Forms::Table::columns_of))]
pub fn columns_of(word: &str) -> Option<&'static [Column]>
    ensures { option_map (λ columns. columns.now) result ≡ columns_of word.now }
{
    match form_of(word) {
        Some(form) => Some(columns_of_form(form)),
        None => None,
    }
}
