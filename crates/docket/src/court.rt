//! A court's file: checked, or written.
ghost use Rattle.std.specs.Prelude.{◌≡◌, false, IfOk, OnOk, ℕ, List, option_map};
ghost use Rattle.std.specs.Io.KnownBytes.{Appends};
ghost use Rattle.court_days.specs.Words.{desk_court_in};
ghost use Rattle.court_writing.specs.Words.{IsFileOf, court_said, zone_text};
ghost use Rattle.docket.specs.Endings.{IsDayUsed, check_status};
ghost use Rattle.program_streams.specs.Words.{has_failed, watched};

use crate::fault::{Fault, misspoken};
use crate::folder::{put, read_file};
use court_clock::{Day, Instant};
use court_days::Court;
use court_file_check::{Asked, Report, check_file as checked_file, report_of};
use court_file_text::CourtFault;
use court_holidays::State;
use court_writing::{CourtName, CourtOwn, NamesFault, court_said, court_text, names_in};
use desk_program::check_court;
use program_main::today_by;
use program_streams::Watched;
use program_words::Writing;
use std::alloc::{AllocError, Global};
use std::io::Write;

// The status of a check: 2 where there are faults, and 9 where there are warnings alone.
fn status_of(report: &Report) -> u8
    ensures { result ≡ check_status report.now.faults report.now.warnings }
{
    if report.faults > 0 {
        2
    } else if report.warnings > 0 {
        9
    } else {
        0
    }
}

// The day that a check goes by: the one that is asked or, where none is, the one that the court's clock shows.
fn day_used(
    alloc: Global,
    bytes: &[u8],
    asked: Option<Day>,
    clock_time: Instant,
) -> Result<Option<Day>, AllocError>
    ensures { IfOk result (IsDayUsed asked (desk_court_in bytes.now) clock_time) }
{
    if asked.is_some() {
        return Ok(asked);
    }
    match Court::from_desk_bytes(alloc, bytes) {
        Ok(court) => Ok(Some(today_by(court.clock(), clock_time))),
        Err(CourtFault::OutOfMemory) => Err(AllocError),
        Err(_) => Ok(None),
    }
}

// The State of the court that a file names as its own, if it names one.
fn state_of(bytes: &[u8]) -> Option<State>
    ensures { result ≡ option_map (λ court. court.state) (court_said bytes.now) }
{
    match court_said(bytes) {
        Some(court) => Some(court.state),
        None => None,
    }
}

// What a check goes by, beside what is asked: the day of the court's clock, and the State that the file names.
fn asked_on(
    alloc: Global,
    bytes: &[u8],
    asked: Asked,
    clock_time: Instant,
) -> Result<Asked, AllocError>
    ensures day { IfOk result (λ used. IsDayUsed asked.today (desk_court_in bytes.now) clock_time used.today) }
    ensures place { IfOk result (λ used. (used.capital ≡ asked.capital) × (used.state ≡ option_map (λ court. court.state) (court_said bytes.now))) }
{
    Ok(Asked {
        today: day_used(alloc, bytes, asked.today, clock_time)?,
        capital: asked.capital,
        state: state_of(bytes),
    })
}

/// Checks a court's file, writes what was found, and gives the status. A file with no fault that no program can take, since a line
/// `%%` in one of its texts divides it, is refused as `init` refuses it.
pub fn check_file<W: Write>(
    rt: &HostRuntime,
    writer: &mut Watched<W>,
    name: &str,
    asked: Asked,
    clock_time: Instant,
) -> Result<u8, Fault>
    requires { has_failed writer.old ≡ false }
{
    let bytes = read_file(rt, name)?;
    let asked = asked_on(rt.alloc(), bytes.as_slice(), asked, clock_time)?;
    let checked = checked_file(rt.alloc(), bytes.as_slice(), &asked)?;
    let report = report_of(rt.alloc(), name, bytes.as_slice(), &asked, &checked)?;
    if report.faults == 0 {
        check_court(rt.alloc(), bytes.as_slice())?;
    }
    put(writer, report.text.as_bytes())?;
    Ok(status_of(&report))
}

// Says what is wrong with a line of a file of names. The line is shown if it is UTF-8.
fn told_name<E: Write>(
    alloc: Global,
    errors: &mut Watched<E>,
    name: &str,
    bytes: &[u8],
    fault: NamesFault,
) -> Result<Fault, AllocError> {
    let Some(number) = fault.line() else {
        return Err(AllocError);
    };
    let place = number.saturating_sub(1);
    let line = match bytes.split(|byte| *byte == b'\n').nth(place) {
        Some(line) => line,
        None => &[],
    };
    let text = match str::from_utf8(line) {
        Ok(line) => {
            let shown = line.trim();
            format!(in alloc; "{name}:{number}: '{shown}': {fault}\n")?
        }
        Err(_) => format!(in alloc; "{name}:{number}: {fault}\n")?,
    };
    let _ = misspoken(alloc, errors, text.as_str());
    Ok(Fault::Told(2))
}

// The names in a file, if one is given.
fn names_given<E: Write>(
    rt: &HostRuntime,
    errors: &mut Watched<E>,
    name: &Option<String>,
) -> Result<Option<Vec<String>>, Fault> {
    let Some(name) = name else {
        return Ok(None);
    };
    let bytes = read_file(rt, name.as_str())?;
    match names_in(rt.alloc(), &bytes) {
        Ok(names) => Ok(Some(names)),
        Err(fault) => Err(told_name(rt.alloc(), errors, name.as_str(), &bytes, fault)?),
    }
}

/// Writes the file of a court, with the hours and the names that are given.
pub fn write_file<W: Write, E: Write>(
    rt: &HostRuntime,
    writer: &mut Watched<W>,
    errors: &mut Watched<E>,
    court: CourtName,
    writing: &Writing,
) -> Result<(), Fault>
    requires { has_failed writer.old ≡ false }
{
    let judges = names_given(rt, errors, &writing.judges)?;
    let rooms = names_given(rt, errors, &writing.rooms)?;
    let own = CourtOwn {
        opens: writing.opens,
        closes: writing.closes,
        efiling_until: writing.efiling_until,
        judges,
        rooms,
    };
    put_court(rt.alloc(), writer, court, &own, writing.from, writing.to)
}

// Writes the file of a court for the years from the first to the last.
fn put_court<W: Write>(
    alloc: Global,
    writer: &mut Watched<W>,
    court: CourtName,
    own: &CourtOwn,
    from: u16,
    to: u16,
) -> Result<(), Fault>
    requires { has_failed writer.old ≡ false }
    ensures { OnOk result ((text : List ℕ) × IsFileOf court.state (zone_text court.zone) own.now from to text × Appends (W.contents (watched writer.old)) (W.contents (watched writer.new)) text) }
{
    match court_text(alloc, court, own, from, to) {
        Ok(text) => Ok(put(writer, text.as_bytes())?),
        Err(fault) => Err(Fault::NotWritten(fault)),
    }
}
