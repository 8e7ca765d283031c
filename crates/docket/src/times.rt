//! As of when a folder is read, and which of its entries are listed. Days are those of the clock of the court that stands.
ghost use Rattle.std.specs.Prelude.{◌≡◌, ◌<◌, ◌≤◌, length, option_map, string_bytes, IfOk};
ghost use Rattle.desk_journal.specs.Words.{batch_of};
ghost use Rattle.docket.specs.Times.{IsChoice, IsThen, IsUntil, begin_of, day_then, end_of, moment_of, second_at, second_of, second_within};

use crate::fault::Fault;
use court_clock::{Clock, Day, Instant};
use desk_entries::standing_file;
use desk_journal::Stamp;
use desk_program::{CourtFileFault, DeskFault, LogChoice, Moment, OpenFault, court_of, kept_at};
use program_main::{DaySaid, today_by};
use program_words::{AsOf, LogAsked};
use std::alloc::{AllocError, Global};

// The second of UTC of an instant; before 1970 it is the first.
fn second_at(instant: Instant) -> u64
    ensures { result ≡ second_at instant }
{
    let seconds = instant.seconds();
    if seconds < 0 { 0 } else { seconds as u64 }
}

// The second at which a day begins.
fn begin_of(clock: &Clock, day: Day) -> u64
    ensures { result ≡ begin_of clock.now day }
{
    second_at(clock.instant_of(day, 0))
}

// The second at which a day has ended, since the next one begins.
fn end_of(clock: &Clock, day: Day) -> u64
    ensures { result ≡ end_of clock.now day }
{
    begin_of(clock, DaySaid::After(1).on(day))
}

// A second of a day, counted from midnight, of which a day has 86,400.
fn second_within(second: u32) -> u32
    ensures value { result ≡ second_within second }
    ensures in_the_day { result < 86_400 }
{
    if second < 86_400 { second } else { 86_399 }
}

// The second of UTC at which the clock shows a second of a day.
fn second_of(clock: &Clock, day: Day, second: u32) -> u64
    ensures { result ≡ second_of clock.now day second }
{
    second_at(clock.instant_of(day, second_within(second)))
}

// The day that is said, where the clock shows that instant.
fn day_then(clock: &Clock, clock_time: Instant, said: DaySaid) -> Day
    ensures { result ≡ day_then clock.now clock_time said }
{
    said.on(today_by(clock, clock_time))
}

// The moment as of which a folder is read.
fn moment_of(clock: &Clock, as_of: AsOf) -> Moment
    ensures { result ≡ moment_of clock.now as_of }
{
    match as_of {
        AsOf::Row(row) => Moment::Row(row),
        AsOf::Day(said, clock_time) => {
            let day = day_then(clock, clock_time, said);
            Moment::Second(end_of(clock, day).saturating_sub(1))
        }
        AsOf::Second(day, second) => Moment::Second(second_of(clock, day, second)),
    }
}

// The entries that there were then.
#[tactic(auto, using(crate::proofs::TimeLemmas::batch_take))]
fn entries_then(
    alloc: Global,
    entries: Vec<Vec<u8>>,
    stamps: &[Stamp],
    as_of: AsOf,
) -> Result<Vec<Vec<u8>>, CourtFileFault>
    ensures was { IfOk result (λ was. IsThen as_of stamps.now (batch_of entries.items) (batch_of was.items)) }
    ensures few { IfOk result (λ was. length was.items ≤ length entries.items) }
{
    let court = court_of(alloc, standing_file(&entries))?;
    let count = kept_at(&entries, stamps, moment_of(court.clock(), as_of));
    let mut was = entries;
    was.truncate(count);
    Ok(was)
}

/// The entries that a folder had then, of which these are all that it has; and all where nothing is said. What comes after them
/// counts for nothing, but that days are told by the clock of the court that stands after all of them.
pub fn until(
    alloc: Global,
    entries: Vec<Vec<u8>>,
    stamps: &[Stamp],
    as_of: Option<AsOf>,
) -> Result<Vec<Vec<u8>>, Fault>
    ensures until { IfOk result (λ was. IsUntil as_of stamps.now (batch_of entries.items) (batch_of was.items)) }
    ensures few { IfOk result (λ was. length was.items ≤ length entries.items) }
{
    match as_of {
        None => Ok(entries),
        Some(_) if entries.is_empty() => Err(Fault::Desk(DeskFault::Open(OpenFault::NoJournal))),
        Some(as_of) => Ok(entries_then(alloc, entries, stamps, as_of)?),
    }
}

// The text of an option.
fn copied(alloc: Global, text: &Option<String>) -> Result<Option<String>, AllocError>
    ensures { IfOk result (λ copy. option_map string_bytes copy ≡ option_map string_bytes text.now) }
{
    match text {
        Some(text) => Ok(Some(String::from_str(alloc, text.as_str())?)),
        None => Ok(None),
    }
}

// The first second of the day that is said, if one is.
fn from_second(clock: &Clock, clock_time: Instant, said: Option<DaySaid>) -> Option<u64>
    ensures { result ≡ option_map (λ said. begin_of clock.now (day_then clock.now clock_time said)) said }
{
    match said {
        Some(said) => Some(begin_of(clock, day_then(clock, clock_time, said))),
        None => None,
    }
}

// The second at which the day has ended that is said, if one is.
fn to_second(clock: &Clock, clock_time: Instant, said: Option<DaySaid>) -> Option<u64>
    ensures { result ≡ option_map (λ said. end_of clock.now (day_then clock.now clock_time said)) said }
{
    match said {
        Some(said) => Some(end_of(clock, day_then(clock, clock_time, said))),
        None => None,
    }
}

/// Which entries are listed by that clock, of this case if one is asked for.
pub fn choice_by(
    alloc: Global,
    clock: &Clock,
    asked: &LogAsked,
    case: Option<u32>,
) -> Result<LogChoice, AllocError>
    ensures { IfOk result (IsChoice clock.now asked.now case) }
{
    let by = copied(alloc, &asked.by)?;
    Ok(LogChoice {
        row: asked.row,
        case,
        by,
        from: from_second(clock, asked.clock_time, asked.from),
        to: to_second(clock, asked.clock_time, asked.to),
        json: asked.json,
    })
}
