//! The dates of one list.

ghost use Rattle.std.specs.Prelude.{◌≡◌, ◌<◌, ◌+ℤ◌, ℕ, ℤ, pos, List, [], length, not, OnOk, OnErr, IfOk, IfSome, IfNone};
ghost use Rattle.std.specs.Ordering.{int_eq};
ghost use Rattle.std.specs.List.{IsDistinct};
ghost use Rattle.court_days.specs.Days.{is_among, add_date, drop_dates};
ghost use Rattle.court_days.specs.Days.Marks.{AreMarked};

use court_clock::Day;
use std::alloc::{AllocError, Global};
use std::marker::Model;

/// Dates, each once, in the order in which they came, with a mark for each day of a span that is one of them. A day
/// of the span is looked up by its mark, and any other day in the list.
#[derive(Debug, Drop)]
pub(crate) struct Dates {
    first: Day,
    days: Vec<Day>,
    marks: Vec<bool>,
}

impl Model for Dates {
    ghost Value = { List ℤ };

    ghost view = { λ d. d.days.items };

    ghost invariant = { λ d. AreMarked d.first d.days.items d.marks.items };
}

impl Dates {
    /// No dates, with marks for the days from the first to the last.
    pub(crate) fn empty(alloc: Global, first: Day, last: Day) -> Result<Dates, AllocError>
        ensures { IfOk result (λ d. d ≡ []) }
    {
        let distance = last.number() - first.number();
        let count = if distance < 0 {
            0
        } else {
            distance as usize + 1
        };
        Ok(Dates {
            first,
            days: Vec::new(alloc),
            marks: Vec::from_elem(alloc, false, count)?,
        })
    }

    /// These dates, each of which is there once, with marks for the days from the first to the last.
    fn of(alloc: Global, first: Day, last: Day, days: &[Day]) -> Result<Dates, AllocError>
        requires { IsDistinct int_eq days.now }
        ensures { IfOk result (λ d. d ≡ days.now) }
    {
        let mut dates = Dates::empty(alloc, first, last)?;
        for day in days {
            dates.add(*day)?;
        }
        Ok(dates)
    }

    /// The dates.
    pub(crate) fn as_slice(&self) -> &[Day]
        ensures { result.now ≡ self.now }
    {
        &self.days
    }

    /// How many different dates there are.
    pub(crate) fn len(&self) -> usize
        ensures value { result ≡ length self.now }
        ensures distinct { IsDistinct int_eq self.now }
    {
        self.days.len()
    }

    /// Whether the day is one of the dates.
    pub(crate) fn contains(&self, day: Day) -> bool
        ensures { result ≡ is_among self.now day }
    {
        match place_of(day, self.first, self.marks.len()) {
            Some(place) => self.marks[place],
            None => self.days.contains(&day),
        }
    }

    /// Adds the day, unless it is there already. After an `Err` the dates are unchanged.
    pub(crate) fn add(&mut self, day: Day) -> Result<(), AllocError>
        ensures ok { OnOk result (self.new ≡ add_date day self.old) }
        ensures err { OnErr result (self.new ≡ self.old) }
    {
        if self.contains(day) {
            return Ok(());
        }
        self.days.push(day)?;
        if let Some(place) = place_of(day, self.first, self.marks.len()) {
            self.marks[place] = true;
        }
        Ok(())
    }

    /// The dates without these, in memory of their own, with marks for the days from the first to the last.
    pub(crate) fn without(
        &self,
        alloc: Global,
        first: Day,
        last: Day,
        dropped: &[Day],
    ) -> Result<Dates, AllocError>
        ensures { IfOk result (λ d. d ≡ drop_dates dropped.now self.now) }
    {
        let kept = kept_of(alloc, &self.days, dropped)?;
        Dates::of(alloc, first, last, kept.as_slice())
    }

    /// The same dates, in memory of their own.
    pub(crate) fn copy(&self, alloc: Global) -> Result<Dates, AllocError>
        ensures { IfOk result (λ d. d ≡ self.now) }
    {
        Ok(Dates {
            first: self.first,
            days: Vec::from_slice(alloc, &self.days)?,
            marks: Vec::from_slice(alloc, &self.marks)?,
        })
    }
}

/// The days without these.
fn kept_of(alloc: Global, days: &[Day], dropped: &[Day]) -> Result<Vec<Day>, AllocError>
    ensures { IfOk result (λ kept. kept.items ≡ drop_dates dropped.now days.now) }
{
    let mut kept = Vec::from_slice(alloc, days)?;
    kept.retain(|day| is_kept(dropped, *day));
    Ok(kept)
}

/// Whether the day is none of these.
fn is_kept(dropped: &[Day], day: Day) -> bool
    ensures { result ≡ not (is_among dropped.now day) }
{
    !dropped.contains(&day)
}

/// The place of the day among the `count` days from `first` on, counted from 0. None where it is none of them.
fn place_of(day: Day, first: Day, count: usize) -> Option<usize>
    ensures within { IfSome result (λ k. k < count) }
    ensures some { IfSome result (λ k. day ≡ first +ℤ pos k) }
    ensures none { IfNone result ((k : ℕ) → k < count → ¬ (day ≡ first +ℤ pos k)) }
{
    let distance = day.number() - first.number();
    if distance < 0 || distance as usize >= count {
        return None;
    }
    Some(distance as usize)
}
