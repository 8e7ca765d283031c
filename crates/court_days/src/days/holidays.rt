//! The span of a court's days, with its legal holidays.

ghost use Rattle.std.specs.Prelude.{◌≡◌, ◌≤ℤ◌, ◌<◌, [], length, true, false, IfOk, IfSome, IfNone};
ghost use Rattle.std.specs.Ordering.{int_eq};
ghost use Rattle.std.specs.List.{IsDistinct};
ghost use Rattle.std.specs.Arc.{arc_value};
ghost use Rattle.court_clock.specs.Words.{IsDayNumber, days_through};
ghost use Rattle.court_days.specs.Days.{DaysView, IsSpan, is_covered, is_holiday, is_among, dates_of, add_date, add_holiday, without_dates};
ghost use Rattle.court_days.specs.Days.Table.{day_at, permitted_at};

use crate::days::dates::Dates;
use crate::holiday_list::HolidayList;
use court_clock::{Day, Direction};
use std::alloc::{AllocError, Global};
use std::marker::Model;
use std::sync::Arc;

/// The first and the last day that are covered, and the two holiday lists. The lists are shared, so that a copy takes
/// no memory. Contracts see it as the days of a court with no outages.
#[derive(Debug, Drop)]
pub(crate) struct Holidays {
    from: Day,
    to: Day,
    federal: Arc<Dates>,
    state: Arc<Dates>,
}

impl Model for Holidays {
    ghost Value = { DaysView };

    ghost view = { λ h. record { from = h.from; to = h.to; federal = arc_value h.federal; state = arc_value h.state; outages = [] } };

    ghost invariant = { λ h. IsSpan h.from h.to };
}

impl Holidays {
    /// The days from the first to the last, with these holidays.
    pub(crate) fn new(
        alloc: Global,
        from: Day,
        to: Day,
        federal: Dates,
        state: Dates,
    ) -> Result<Holidays, AllocError>
        requires { from ≤ℤ to }
        ensures { IfOk result (λ h. h ≡ record { from = from; to = to; federal = federal; state = state; outages = [] }) }
    {
        let _first = from.number();
        let _last = to.number();
        let federal = Arc::new(alloc, federal)?;
        let state = Arc::new(alloc, state)?;
        Ok(Holidays {
            from,
            to,
            federal,
            state,
        })
    }

    /// The first day that is covered.
    pub(crate) fn from(&self) -> Day
        ensures value { result ≡ self.now.from }
        ensures span { IsSpan self.now.from self.now.to }
    {
        self.from
    }

    /// The last day that is covered.
    pub(crate) fn to(&self) -> Day
        ensures value { result ≡ self.now.to }
        ensures span { IsSpan self.now.from self.now.to }
    {
        self.to
    }

    /// How many days are covered.
    pub(crate) fn count(&self) -> usize
        ensures { result ≡ days_through self.now.from self.now.to }
    {
        (self.to.number() - self.from.number()) as usize + 1
    }

    /// Whether the day is in the span, both ends included.
    pub(crate) fn covered(&self, day: Day) -> bool
        ensures value { result ≡ is_covered self.now day }
        ensures span { IsSpan self.now.from self.now.to }
    {
        let number = day.number();
        self.from.number() <= number && number <= self.to.number()
    }

    /// The place of a covered day in the table of rolled days.
    #[tactic(auto, using(court_clock::proofs::CallerLemmas::distance_within, crate::proofs::DaysLemmas::SearchLemmas::covered_after_from, crate::proofs::DaysLemmas::SearchLemmas::covered_before_to))]
    pub(crate) fn place_of(&self, day: Day, direction: Direction) -> Option<usize>
        ensures within { IfSome result (λ k. k < days_through self.now.from self.now.to) }
        ensures some { IfSome result (λ k. day ≡ day_at self.now direction k) }
        ensures none { IfNone result (is_covered self.now day ≡ false) }
    {
        if !self.covered(day) {
            return None;
        }
        match direction {
            Direction::After => Some((self.to.number() - day.number()) as usize),
            Direction::Before => Some((day.number() - self.from.number()) as usize),
        }
    }

    /// The day at a place of the table of rolled days.
    #[tactic(auto, using(court_clock::proofs::CallerLemmas::place_from_last, court_clock::proofs::CallerLemmas::place_from_first, crate::proofs::DaysLemmas::SearchLemmas::covered_from_bounds))]
    fn day_at(&self, place: usize, direction: Direction) -> Day
        requires { place < days_through self.now.from self.now.to }
        ensures value { result ≡ day_at self.now direction place }
        ensures covered { is_covered self.now result ≡ true }
    {
        match direction {
            Direction::After => numbered(self.to.number() - place as i32),
            Direction::Before => numbered(self.from.number() + place as i32),
        }
    }

    /// Whether the day at a place of the table of rolled days is no Saturday, Sunday or legal holiday
    /// (Fed. R. Civ. P. 6(a)(1)(C)).
    #[tactic(auto, unfolding(crate::specs::Days::is_permitted))]
    pub(crate) fn permitted_at(&self, place: usize, direction: Direction) -> bool
        requires { place < days_through self.now.from self.now.to }
        ensures { result ≡ permitted_at self.now direction place }
    {
        let day = self.day_at(place, direction);
        day.weekday() < 5 && !self.is_holiday(day, direction)
    }

    /// Whether the day is in the list.
    pub(crate) fn in_list(&self, list: HolidayList, day: Day) -> bool
        ensures { result ≡ is_among (dates_of self.now list) day }
    {
        match list {
            HolidayList::Federal => self.federal.contains(day),
            HolidayList::State => self.state.contains(day),
        }
    }

    /// Whether the day is a legal holiday (Fed. R. Civ. P. 6(a)(6)): of the federal list, or, for a period
    /// measured after an event, of the state list.
    pub(crate) fn is_holiday(&self, day: Day, direction: Direction) -> bool
        ensures { result ≡ is_holiday self.now direction day }
    {
        match direction {
            Direction::After => self.federal.contains(day) || self.state.contains(day),
            Direction::Before => self.federal.contains(day),
        }
    }

    /// How many different dates the list has.
    pub(crate) fn dates(&self, list: HolidayList) -> usize
        ensures value { result ≡ length (dates_of self.now list) }
        ensures distinct { IsDistinct int_eq (dates_of self.now list) }
    {
        match list {
            HolidayList::Federal => self.federal.len(),
            HolidayList::State => self.state.len(),
        }
    }

    /// The same days with one more date in a holiday list. A date that the list has already is kept once.
    pub(crate) fn with(
        &self,
        alloc: Global,
        list: HolidayList,
        day: Day,
    ) -> Result<Holidays, AllocError>
        ensures { IfOk result (λ h. h ≡ add_holiday self.now list day) }
    {
        let mut holidays = self.copy()?;
        match list {
            HolidayList::Federal => holidays.federal = and_date(alloc, &self.federal, day)?,
            HolidayList::State => holidays.state = and_date(alloc, &self.state, day)?,
        }
        Ok(holidays)
    }

    /// The dates of the list, each once, in the order in which they came.
    pub(crate) fn listed(&self, list: HolidayList) -> &[Day]
        ensures { result.now ≡ dates_of self.now list }
    {
        match list {
            HolidayList::Federal => self.federal.as_slice(),
            HolidayList::State => self.state.as_slice(),
        }
    }

    /// The same days without these dates in a holiday list.
    pub(crate) fn without(
        &self,
        alloc: Global,
        list: HolidayList,
        dropped: &[Day],
    ) -> Result<Holidays, AllocError>
        ensures { IfOk result (λ h. h ≡ without_dates self.now list dropped.now) }
    {
        let mut holidays = self.copy()?;
        match list {
            HolidayList::Federal => {
                let kept = self.federal.without(alloc, self.from, self.to, dropped)?;
                holidays.federal = Arc::new(alloc, kept)?;
            }
            HolidayList::State => {
                let kept = self.state.without(alloc, self.from, self.to, dropped)?;
                holidays.state = Arc::new(alloc, kept)?;
            }
        }
        Ok(holidays)
    }

    /// The same days. Both share the lists.
    pub(crate) fn copy(&self) -> Result<Holidays, AllocError>
        ensures { IfOk result (λ h. h ≡ self.now) }
    {
        Ok(Holidays {
            from: self.from,
            to: self.to,
            federal: self.federal.clone()?,
            state: self.state.clone()?,
        })
    }
}

/// The day with a number that is known to be one.
pub(crate) fn numbered(number: i32) -> Day
    requires { IsDayNumber number }
    ensures { result ≡ number }
{
    match Day::new(number) {
        Some(day) => day,
        None => unreachable!(),
    }
}

/// The dates and one more, in memory of their own.
fn and_date(alloc: Global, dates: &Dates, day: Day) -> Result<Arc<Dates>, AllocError>
    ensures { IfOk result (λ d. arc_value d ≡ add_date day dates.now) }
{
    let mut more = dates.copy(alloc)?;
    more.add(day)?;
    Ok(Arc::new(alloc, more)?)
}
