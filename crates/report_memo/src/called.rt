//! What comes after how an entered period is entered: the sections that set such a period, and where the court's own are from, or else
//! its code.

ghost use Rattle.std.specs.Prelude.{◌≡◌, ◌++◌, OnOk, codes, map, string_bytes};
ghost use Rattle.row_fields.specs.Words.{period_view};
ghost use Rattle.office_texts.specs.Words.{entered_text};
ghost use Rattle.report_memo.specs.Called.{book_words, citation, citations, code_back, is_older, is_other, own_citation, own_citations, period_back, sets_period, since_words};

use court_clock::Day;
use court_days::Court;
use court_file_text::NamedText;
use office_texts::push_entered;
use row_fields::{NamedPeriod, RuleBook, named_periods};
use rule_periods::{Entered, Period};
use std::alloc::{AllocError, Global};

/// Adds what comes after how a period is entered: the sections of docs/law/RULES.md that set a period of the same form, and where those
/// of the court's own are from, or, where there is none, its code as rows have it. A section that sets it only since a day after that of
/// the event has that day. A period of the Rules has nothing. `Err` says that memory ran out.
#[tactic(auto, unfolding(crate::specs::Called::period_back))]
pub(crate) fn push_period_back(
    alloc: Global,
    text: &mut String,
    court: &Court,
    event: Day,
    period: &Period,
) -> Result<(), AllocError>
    ensures { OnOk result (string_bytes text.new ≡ string_bytes text.old ++ period_back court.now.periods event period.now) }
{
    match period {
        Period::Rule(_) => Ok(()),
        Period::Entered(entered) => push_entered_back(alloc, text, court, event, entered),
    }
}

/// Adds what comes after how an entered period is entered.
fn push_entered_back(
    alloc: Global,
    text: &mut String,
    court: &Court,
    event: Day,
    entered: &Entered,
) -> Result<(), AllocError>
    ensures { OnOk result (string_bytes text.new ≡ string_bytes text.old ++ code_back court.now.periods event (entered_text entered.now)) }
{
    let mut code = String::new(alloc);
    push_entered(&mut code, entered)?;
    push_code_back(alloc, text, court, event, code.as_str())
}

/// Adds the sections that set a period with this code, or the code.
#[tactic(auto, unfolding(crate::specs::Called::code_back))]
fn push_code_back(
    alloc: Global,
    text: &mut String,
    court: &Court,
    event: Day,
    code: &str,
) -> Result<(), AllocError>
    ensures { OnOk result (string_bytes text.new ≡ string_bytes text.old ++ code_back court.now.periods event code.now) }
{
    let mut none = String::new(alloc);
    push_in_parentheses(&mut none, code)?;
    push_citations(
        text,
        court,
        event,
        ", as in ",
        none.as_str(),
        code,
        named_periods(),
    )
}

/// Adds a code in parentheses.
fn push_in_parentheses(text: &mut String, code: &str) -> Result<(), AllocError>
    ensures { OnOk result (string_bytes text.new ≡ string_bytes text.old ++ codes " (" ++ code.now ++ codes ")") }
{
    text.push_str(" (")?;
    text.push_str(code)?;
    text.push_str(")")
}

/// Adds those of these sections that set a period with this code, and those of the court's own, with `front` before the first one and a
/// comma between two; `none` where none does.
#[tactic(auto, unfolding(crate::specs::Called::citations))]
fn push_citations(
    text: &mut String,
    court: &Court,
    event: Day,
    front: &str,
    none: &str,
    code: &str,
    periods: &[NamedPeriod],
) -> Result<(), AllocError>
    ensures { OnOk result (string_bytes text.new ≡ string_bytes text.old ++ citations court.now.periods event front.now none.now code.now (map period_view periods.now)) }
{
    match periods {
        [] => push_own_citations(text, court, front, none, code, court.periods()),
        [period, rest @ ..] => {
            if sets_period(code, period) {
                text.push_str(front)?;
                push_citation(text, event, period)?;
                push_citations(text, court, event, ", ", "", code, rest)
            } else {
                push_citations(text, court, event, front, none, code, rest)
            }
        }
    }
}

/// Adds those of these periods of the court's own that have this text, likewise.
#[tactic(auto, unfolding(crate::specs::Called::own_citations))]
fn push_own_citations(
    text: &mut String,
    court: &Court,
    front: &str,
    none: &str,
    code: &str,
    periods: &[NamedText],
) -> Result<(), AllocError>
    ensures { OnOk result (string_bytes text.new ≡ string_bytes text.old ++ own_citations court.now.periods front.now none.now code.now periods.now) }
{
    match periods {
        [] => text.push_str(none),
        [period, rest @ ..] => {
            if period.text().as_bytes() == code.as_bytes() {
                text.push_str(front)?;
                push_own_citation(text, court, period.name())?;
                push_own_citations(text, court, ", ", "", code, rest)
            } else {
                push_own_citations(text, court, front, none, code, rest)
            }
        }
    }
}

/// Adds where a period of the court's own is from, or else its name.
fn push_own_citation(text: &mut String, court: &Court, name: &str) -> Result<(), AllocError>
    ensures { OnOk result (string_bytes text.new ≡ string_bytes text.old ++ own_citation court.now.periods name.now) }
{
    match court.period_cite(name) {
        Some(cite) => text.push_str(cite),
        None => text.push_str(name),
    }
}

/// Whether a section sets a period with this code.
#[tactic(auto, unfolding(crate::specs::Called::sets_period))]
fn sets_period(code: &str, period: &NamedPeriod) -> bool
    ensures { result ≡ sets_period code.now (period_view period.now) }
{
    period.text.as_bytes() == code.as_bytes() || is_other(code, period)
}

/// Whether the other period that a section sets, if it sets two, has this code.
fn is_other(code: &str, period: &NamedPeriod) -> bool
    ensures { result ≡ is_other code.now (period_view period.now).other }
{
    match period.other {
        None => false,
        Some(other) => other.as_bytes() == code.as_bytes(),
    }
}

/// Adds a section as it is cited.
#[tactic(auto, unfolding(crate::specs::Called::citation))]
fn push_citation(text: &mut String, event: Day, period: &NamedPeriod) -> Result<(), AllocError>
    ensures { OnOk result (string_bytes text.new ≡ string_bytes text.old ++ citation event (period_view period.now)) }
{
    text.push_str(book_words(period.book))?;
    text.push_str(period.section)?;
    push_since(text, event, period.since)
}

/// Adds the day from which a section sets its period, where the event lies before it.
fn push_since(text: &mut String, event: Day, since: &str) -> Result<(), AllocError>
    ensures { OnOk result (string_bytes text.new ≡ string_bytes text.old ++ since_words event since.now) }
{
    if is_older(event, since) {
        text.push_str(" (since ")?;
        text.push_str(since)?;
        text.push_str(")")
    } else {
        Ok(())
    }
}

/// Whether the event lies before that day.
fn is_older(event: Day, since: &str) -> bool
    ensures { result ≡ is_older event since.now }
{
    match Day::from_text(since) {
        Some(day) => event.number() < day.number(),
        None => false,
    }
}

/// What stands before a section of that book.
fn book_words(book: RuleBook) -> &'static str
    ensures { result.now ≡ book_words book }
{
    match book {
        RuleBook::CivilRules => "Rule ",
        RuleBook::ForfeitureRules => "",
        RuleBook::SocialSecurityRules => "",
        RuleBook::AppellateRules => "",
        RuleBook::Title5 => "",
        RuleBook::Title28 => "",
        RuleBook::Title42 => "",
    }
}
