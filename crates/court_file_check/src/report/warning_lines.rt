//! The lines of warnings.

use crate::places::{Mark, Part};
use crate::report::near_key::near_key;
use crate::report::period_lines::{push_periods, push_triggers};
use crate::report::sheet::{Sheet, item_after, item_of};
use crate::report::short_lines::push_short_names;
use crate::review::{Due, due_on};
use crate::{Alike, Asked, Slip, Warnings, ZoneDoubt};
use court_clock::Day;
use court_file_text::Key;
use court_holidays::{
    Closing, FederalHoliday, State, closings_known, observed_for, state_holiday_on,
};
use std::alloc::AllocError;
use toml::{Table, Value};

/// Adds a line for each warning.
pub(crate) fn push_warnings(
    sheet: &mut Sheet<'_>,
    file: &Table,
    asked: &Asked,
    warnings: &Warnings,
) -> Result<(), AllocError> {
    push_of_keys(sheet, file, asked, warnings)?;
    for year in &warnings.bare_years {
        push_bare_year(sheet, *year)?;
    }
    for day in &warnings.lacking {
        push_lacking(sheet, file, *day, asked.capital)?;
    }
    for day in &warnings.unknown {
        push_unknown(sheet, file, *day)?;
    }
    for closing in &warnings.closings {
        push_closing(sheet, file, *closing)?;
    }
    if let Some(state) = asked.state {
        for day in &warnings.unlisted {
            push_unlisted(sheet, file, state, *day)?;
        }
    }
    push_at_weekend(sheet, file, Key::Federal, &warnings.federal_at_weekend)?;
    push_at_weekend(sheet, file, Key::State, &warnings.state_at_weekend)?;
    for day in &warnings.in_both {
        push_in_both(sheet, file, *day)?;
    }
    push_slips(sheet, Key::Federal, &warnings.federal_slips)?;
    push_slips(sheet, Key::State, &warnings.state_slips)?;
    push_alike(sheet, Key::Judges, &warnings.judges_alike)?;
    push_alike(sheet, Key::Rooms, &warnings.rooms_alike)?;
    push_periods(sheet, file)?;
    push_triggers(sheet, file)?;
    push_short_names(sheet, file)
}

/// Those of the zone, the hours and the span.
fn push_of_keys(
    sheet: &mut Sheet<'_>,
    file: &Table,
    asked: &Asked,
    warnings: &Warnings,
) -> Result<(), AllocError> {
    if let Some(doubt) = warnings.zone {
        push_zone(sheet, doubt)?;
    }
    if warnings.closes_early {
        push_closes_early(sheet)?;
    }
    if warnings.long_day {
        push_long_day(sheet)?;
    }
    if warnings.efiling_early {
        push_efiling_early(sheet)?;
    }
    if file.get(Key::EfilingUntil.name()).is_none() {
        push_efiling_astray(sheet, file)?;
    }
    if warnings.short_span {
        push_short_span(sheet)?;
    }
    match asked.today {
        Some(today) if warnings.ends_soon => push_ends_soon(sheet, today),
        _ => Ok(()),
    }
}

fn push_zone(sheet: &mut Sheet<'_>, doubt: ZoneDoubt) -> Result<(), AllocError> {
    let shown = sheet.warning_at(Key::Zone, None)?;
    write!(sheet.text, "{shown} ")?;
    sheet.end(match doubt {
        ZoneDoubt::NoCourtHasIt => {
            "is the clock of no United States district court; docs/FORMATS.md has that of each"
        }
        ZoneDoubt::OtherChanges => {
            "changes on other days than the clocks of the United States, which since 2007 change by ,M3.2.0/2,M11.1.0/2"
        }
        ZoneDoubt::OldChanges => {
            "changes as clocks did from 1987 to 2006; since 2007 they change by ,M3.2.0/2,M11.1.0/2"
        }
    })
}

fn push_closes_early(sheet: &mut Sheet<'_>) -> Result<(), AllocError> {
    let shown = sheet.warning_at(Key::Closes, None)?;
    write!(sheet.text, "the office closes at {shown}, before noon")?;
    sheet.end("; hours go to 23, so 5 p.m. is \"17:00\"")
}

fn push_long_day(sheet: &mut Sheet<'_>) -> Result<(), AllocError> {
    let shown = sheet.warning_at(Key::Closes, None)?;
    let opens = sheet.shown(sheet.value_mark(Key::Opens)?);
    write!(
        sheet.text,
        "from {opens} to {shown} the office is open for more than twelve hours"
    )?;
    sheet.end("; see that both times are right")
}

fn push_efiling_early(sheet: &mut Sheet<'_>) -> Result<(), AllocError> {
    let shown = sheet.warning_at(Key::EfilingUntil, None)?;
    let closes = sheet.shown(sheet.value_mark(Key::Closes)?);
    write!(
        sheet.text,
        "electronic filing ends at {shown}, before the office closes, at {closes}"
    )?;
    sheet.end("; see that the time is right: hours go to 23, so 6 p.m. is \"18:00\"")
}

/// The key is in a table, or misspelled, where nothing reads it.
fn push_efiling_astray(sheet: &mut Sheet<'_>, file: &Table) -> Result<(), AllocError> {
    if let Some(mark) = sheet.find(Key::EfilingUntil, Part::InTable) {
        sheet.begin_warning(Key::EfilingUntil, Some(mark))?;
        return sheet.end(
            "this line is below a line in brackets, such as [holiday_names], and so belongs to that table, where nothing reads it; move it above the first of these",
        );
    }
    if let Some(near) = near_key(sheet.alloc(), file, Key::EfilingUntil)? {
        sheet.begin_warning(Key::EfilingUntil, None)?;
        write!(sheet.text, "the file has a key {near}, which nothing reads")?;
        return sheet.end(
            "; if it is this key, mend its letters, else electronic filing runs to midnight",
        );
    }
    Ok(())
}

fn push_short_span(sheet: &mut Sheet<'_>) -> Result<(), AllocError> {
    let shown = sheet.warning_at(Key::To, None)?;
    write!(
        sheet.text,
        "the span ends on {shown}, less than 90 days after it begins"
    )?;
    sheet.end(
        ", and Rule 4(m) has 90 days; a period that ends after the span is answered 'beyond', so move to, and add the holidays until then",
    )
}

fn push_ends_soon(sheet: &mut Sheet<'_>, today: Day) -> Result<(), AllocError> {
    let shown = sheet.warning_at(Key::To, None)?;
    write!(
        sheet.text,
        "the span ends on {shown}, too early for {today}: it has to go on for a year and, from October on, past the end of the next year"
    )?;
    sheet.end(
        "; a period that ends after the span is answered 'beyond', so add years by 'docket court update', or move to, and add the holidays until then",
    )
}

fn push_bare_year(sheet: &mut Sheet<'_>, year: u16) -> Result<(), AllocError> {
    sheet.warning_at(Key::Federal, None)?;
    write!(
        sheet.text,
        "the list has no holiday of {year}, which is a year of the span"
    )?;
    sheet.end("; add its holidays, or end the span before it")
}

/// Where a date is to be added to a list: the first item that is later, or else the list's closing bracket.
fn where_to_add(
    sheet: &Sheet<'_>,
    file: &Table,
    key: Key,
    day: Day,
) -> Result<Option<Mark>, AllocError> {
    if let Some(item) = item_after(file, key, day) {
        return sheet.mark_of(key, Some(item));
    }
    match sheet.value_mark(key)? {
        Some(whole) => Ok(Some(Mark {
            start: whole.end.saturating_sub(1),
            ..whole
        })),
        None => Ok(None),
    }
}

fn push_lacking(
    sheet: &mut Sheet<'_>,
    file: &Table,
    day: Day,
    capital: bool,
) -> Result<(), AllocError> {
    let mark = where_to_add(sheet, file, Key::Federal, day)?;
    sheet.begin_warning(Key::Federal, mark)?;
    match due_on(day, capital) {
        Some(Due::SetByLaw(holiday)) => {
            let name = holiday.name();
            write!(
                sheet.text,
                "the list lacks {day}, which the law sets for {name}"
            )?;
        }
        Some(Due::Observed(holiday)) => {
            let name = holiday.name();
            let weekday = if day.weekday() == 4 {
                "Saturday"
            } else {
                "Sunday"
            };
            write!(
                sheet.text,
                "the list lacks {day}, on which {name} is observed, since it is on a {weekday}"
            )?;
        }
        None => {}
    }
    if item_of(file, Key::State, day).is_some() {
        return sheet.end(
            "; the state list has it, where it counts for periods after an event alone: move it here",
        );
    }
    sheet.end("; add it here")
}

fn push_unknown(sheet: &mut Sheet<'_>, file: &Table, day: Day) -> Result<(), AllocError> {
    sheet.warning_at(Key::Federal, item_of(file, Key::Federal, day))?;
    if due_on(day, true).is_some() {
        write!(sheet.text, "{day} is Inauguration Day")?;
        return sheet.end(
            ", a holiday in the capital's region alone; say --capital if the court is there, and leave the date out if it isn't",
        );
    }
    write!(
        sheet.text,
        "{day} is no holiday by law, and none is observed on it"
    )?;
    sheet.end(
        "; it stays if an executive order closed the government on it and the court takes it for a holiday, else mend it",
    )
}

fn push_closing(sheet: &mut Sheet<'_>, file: &Table, closing: Closing) -> Result<(), AllocError> {
    let Some(day) = Day::from_text(closing.day) else {
        return Ok(());
    };
    let mark = where_to_add(sheet, file, Key::Federal, day)?;
    sheet.begin_warning(Key::Federal, mark)?;
    let (order, known) = (closing.order, closings_known());
    write!(
        sheet.text,
        "the President closed the executive departments on {day}, by {order}, and the file doesn't have the date"
    )?;
    write!(
        sheet.text,
        "; a court that takes the day for a legal holiday, Rule 6(a)(6)(B), adds it here, and another one writes it in a comment; such days are known up to {known}"
    )?;
    sheet.end("")
}

fn push_unlisted(
    sheet: &mut Sheet<'_>,
    file: &Table,
    state: State,
    day: Day,
) -> Result<(), AllocError> {
    let Some(listed) = state_holiday_on(state, day) else {
        return Ok(());
    };
    let mark = where_to_add(sheet, file, Key::State, day)?;
    sheet.begin_warning(Key::State, mark)?;
    let (name, statute) = (listed.holiday().name(), state.statute());
    let doubt = if listed.is_doubtful() {
        ", doubtful"
    } else {
        ""
    };
    write!(
        sheet.text,
        "{day} is {name} by {statute}{doubt}, and the file doesn't have the date"
    )?;
    sheet.end(
        "; the law may be newer than the file: add the day here, or write its date in a comment if the court doesn't go by it",
    )
}

fn push_at_weekend(
    sheet: &mut Sheet<'_>,
    file: &Table,
    key: Key,
    days: &[Day],
) -> Result<(), AllocError> {
    for day in days {
        sheet.warning_at(key, item_of(file, key, *day))?;
        let weekday = if day.weekday() == 5 {
            "Saturday"
        } else {
            "Sunday"
        };
        write!(
            sheet.text,
            "{day} is a {weekday}, on which no period ends in any case, so it does nothing"
        )?;
        sheet.end("; if it is observed on another day, enter that")?;
    }
    Ok(())
}

fn push_in_both(sheet: &mut Sheet<'_>, file: &Table, day: Day) -> Result<(), AllocError> {
    sheet.warning_at(Key::State, item_of(file, Key::State, day))?;
    write!(sheet.text, "{day} is in the federal list too")?;
    sheet.end(", which is enough; leave it out here")
}

fn push_slips(sheet: &mut Sheet<'_>, key: Key, slips: &[(usize, Slip)]) -> Result<(), AllocError> {
    for (item, slip) in slips {
        let shown = sheet.warning_at(key, Some(*item))?;
        write!(sheet.text, "{shown} ")?;
        sheet.end(match slip {
            Slip::Outside => {
                "is outside the span, so it does nothing; mend its year, or move from or to"
            }
            Slip::Twice => "is there twice, one after the other; leave one out",
            Slip::Early => {
                "is earlier than the date before it; see that its year is right, and put it where it belongs"
            }
        })?;
    }
    Ok(())
}

fn push_alike(sheet: &mut Sheet<'_>, key: Key, alike: &[Alike]) -> Result<(), AllocError> {
    for pair in alike {
        let shown = sheet.warning_at(key, Some(pair.item))?;
        let earlier = sheet.mark_of(key, Some(pair.earlier))?;
        let other = sheet.shown(earlier);
        write!(
            sheet.text,
            "{shown} and {other} differ in the case of letters alone"
        )?;
        sheet.end(", and rows have to write them so; leave one out if they are the same")?;
    }
    Ok(())
}
