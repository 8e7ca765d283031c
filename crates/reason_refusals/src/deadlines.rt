//! Why an act or an extension of a deadline is refused.

ghost use Rattle.std.specs.Prelude.{◌≡◌, ◌++◌, OnOk, Some, codes, option_copied, string_bytes};
ghost use Rattle.reason_texts.specs.Words.{note_line};
ghost use Rattle.rule_periods.specs.Words.{is_grant_length};
ghost use Rattle.reason_refusals.specs.Deadlines.{end_line, end_section, end_text, late_lines, late_text, longer_line, not_longer_lines, now_line};

use court_clock::Clock;
use court_days::Days;
use reason_notes::{end_day, push_end_time};
use reason_texts::{push_minute, push_note};
use rule_periods::{DeadlineRow, Grant, Request, shown, shown_with};
use rule6::Shown;
use std::alloc::{AllocError, Global};

/// Adds the end of the time, when more was asked for, and what a late request needs.
pub(crate) fn push_late(
    alloc: Global,
    text: &mut String,
    days: &Days,
    clock: &Clock,
    needed: &str,
    row: Option<&DeadlineRow>,
    request: Option<Request>,
) -> Result<(), AllocError>
    ensures { OnOk result (string_bytes text.new ≡ string_bytes text.old ++ late_lines days.now clock.now needed.now (option_copied row.entry) request) }
{
    match (row, request) {
        (Some(row), Some(request)) => {
            let end = shown(days, clock, row);
            push_end(
                alloc,
                text,
                clock,
                "the time ended",
                end_section(&end),
                &end,
            )?;
            push_asked(alloc, text, &request, needed)
        }
        _ => Ok(()),
    }
}

/// Adds when more time was asked for, and what a late request needs.
fn push_asked(
    alloc: Global,
    text: &mut String,
    request: &Request,
    needed: &str,
) -> Result<(), AllocError>
    ensures { OnOk result (string_bytes text.new ≡ string_bytes text.old ++ note_line (Some request.now.asked.day) (late_text request.now needed.now) (codes "6(b)(1)(B)")) }
{
    let mut what = String::new(alloc);
    push_late_text(&mut what, request, needed)?;
    push_note(text, Some(request.asked.day()), what.as_str(), "6(b)(1)(B)")
}

/// Adds at what time more was asked for, and what is needed.
fn push_late_text(text: &mut String, request: &Request, needed: &str) -> Result<(), AllocError>
    ensures { OnOk result (string_bytes text.new ≡ string_bytes text.old ++ late_text request.now needed.now) }
{
    text.push_str("asked at ")?;
    push_minute(text, request.asked.minute())?;
    text.push_str(", late: ")?;
    text.push_str(needed)
}

/// Adds the end, and the end with the extension, which isn't later.
pub(crate) fn push_not_longer(
    alloc: Global,
    text: &mut String,
    days: &Days,
    clock: &Clock,
    row: Option<&DeadlineRow>,
    request: Option<Request>,
) -> Result<(), AllocError>
    ensures { OnOk result (string_bytes text.new ≡ string_bytes text.old ++ not_longer_lines days.now clock.now (option_copied row.entry) request) }
{
    match (row, request) {
        (Some(row), Some(request)) => {
            push_now(alloc, text, clock, &shown(days, clock, row))?;
            push_longer(alloc, text, days, clock, row, &request)
        }
        _ => Ok(()),
    }
}

/// Adds the line of the end as it is.
fn push_now(alloc: Global, text: &mut String, clock: &Clock, end: &Shown) -> Result<(), AllocError>
    ensures { OnOk result (string_bytes text.new ≡ string_bytes text.old ++ now_line clock.now end.now) }
{
    push_end(
        alloc,
        text,
        clock,
        "the end as it is, to be passed",
        end_section(end),
        end,
    )
}

/// Adds the end with the extension, where its length is in range.
#[tactic(auto, unfolding(crate::specs::Deadlines::longer_line))]
fn push_longer(
    alloc: Global,
    text: &mut String,
    days: &Days,
    clock: &Clock,
    row: &DeadlineRow,
    request: &Request,
) -> Result<(), AllocError>
    ensures { OnOk result (string_bytes text.new ≡ string_bytes text.old ++ longer_line days.now clock.now row.now request.now) }
{
    if !is_grant_length(&request.grant) {
        return Ok(());
    }
    let end = shown_with(days, clock, row, request.grant);
    push_end(
        alloc,
        text,
        clock,
        "with the extension it wouldn't be later",
        "ours",
        &end,
    )
}

/// Whether the length of an extension lies in its range.
fn is_grant_length(grant: &Grant) -> bool
    ensures { result ≡ is_grant_length grant.now }
{
    match *grant {
        Grant::ByDays(n) => 1 <= n && n <= 3_650,
        Grant::ByHours(h) => 1 <= h && h <= 8_760,
        Grant::Until(_) | Grant::Reset(_) | Grant::ResetAt(_) => true,
    }
}

/// Adds the line of an end.
#[tactic(auto, unfolding(crate::specs::Deadlines::end_line))]
fn push_end(
    alloc: Global,
    text: &mut String,
    clock: &Clock,
    words: &str,
    section: &str,
    end: &Shown,
) -> Result<(), AllocError>
    ensures { OnOk result (string_bytes text.new ≡ string_bytes text.old ++ end_line clock.now words.now section.now end.now) }
{
    let mut what = String::new(alloc);
    push_end_text(&mut what, clock, words, end)?;
    push_note(text, end_day(clock, end), what.as_str(), section)
}

/// Adds words, and the time of an end that is an instant.
fn push_end_text(
    text: &mut String,
    clock: &Clock,
    words: &str,
    end: &Shown,
) -> Result<(), AllocError>
    ensures { OnOk result (string_bytes text.new ≡ string_bytes text.old ++ end_text clock.now words.now end.now) }
{
    text.push_str(words)?;
    push_end_time(text, clock, end)
}

/// The section by which an end is found.
fn end_section(end: &Shown) -> &'static str
    ensures { result.now ≡ end_section end.now }
{
    match *end {
        Shown::Until(_) => "6(a)(2)",
        _ => "6(a)(1)",
    }
}
