//! What a clerk is warned of a hearing that would last long.

ghost use Rattle.std.specs.Prelude.{◌≡◌, ◌++◌, IfOk, OnOk, string_bytes};
ghost use Rattle.desk_warnings.specs.Long.{long_note, long_words, minutes_words, note_if_long, note_if_ordered, note_if_set};

use docket_rows::{Command, HearingOrder, Setting};
use reason_texts::push_note;
use std::alloc::{AllocError, Global};
use std::fmt::Write;

/// Adds how long the hearing would last that a command sets, where that is more than four hours.
pub(crate) fn push_long(
    alloc: Global,
    text: &mut String,
    command: &Command,
) -> Result<(), AllocError>
    ensures { OnOk result (string_bytes text.new ≡ string_bytes text.old ++ long_note command.now) }
{
    push_if_ordered(alloc, text, command.order())
}

/// Adds the same for what a command does to a hearing.
fn push_if_ordered(
    alloc: Global,
    text: &mut String,
    order: Option<HearingOrder>,
) -> Result<(), AllocError>
    ensures { OnOk result (string_bytes text.new ≡ string_bytes text.old ++ note_if_ordered order) }
{
    match order {
        Some(order) => push_if_set(alloc, text, order.setting),
        None => Ok(()),
    }
}

/// Adds the same for a hearing that is asked for.
fn push_if_set(alloc: Global, text: &mut String, setting: Option<Setting>) -> Result<(), AllocError>
    ensures { OnOk result (string_bytes text.new ≡ string_bytes text.old ++ note_if_set setting) }
{
    match setting {
        Some(setting) => push_if_long(alloc, text, &setting),
        None => Ok(()),
    }
}

/// Adds the same where it would last more than four hours.
fn push_if_long(alloc: Global, text: &mut String, setting: &Setting) -> Result<(), AllocError>
    ensures { OnOk result (string_bytes text.new ≡ string_bytes text.old ++ note_if_long setting.now) }
{
    if setting.count <= 16 {
        return Ok(());
    }
    let what = long_words(alloc, setting.count)?;
    push_note(text, Some(setting.day), what.as_str(), "note")
}

/// What is said of a hearing of so many slots.
fn long_words(alloc: Global, count: u32) -> Result<String, AllocError>
    ensures { IfOk result (λ what. string_bytes what ≡ long_words count) }
{
    let hours = count / 4;
    let mut what = format!(in alloc; "the hearing would last {hours} hours")?;
    push_minutes(&mut what, 15 * (count % 4))?;
    Ok(what)
}

/// Adds the minutes beside the hours, if there are any.
fn push_minutes(what: &mut String, minutes: u32) -> Result<(), AllocError>
    ensures { OnOk result (string_bytes what.new ≡ string_bytes what.old ++ minutes_words minutes) }
{
    if minutes == 0 {
        return Ok(());
    }
    write!(what, " {minutes} minutes")
}
