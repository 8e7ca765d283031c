//! Which days of a court are open.

ghost use Rattle.std.specs.Prelude.{◌≡◌, ◌≤ℤ◌, ◌<ℤ◌, ◌≤◌, ◌+ℤ◌, ◌-ℤ◌, ℤ, pos, true, false, [], IsTrue, IfSome, IfNone, IfOk, length};
ghost use Rattle.std.specs.Ordering.{int_eq};
ghost use Rattle.std.specs.List.{IsDistinct};
ghost use Rattle.std.specs.Arc.{arc_value};
ghost use Rattle.court_days.specs.Days.{DaysView, IsSpan, is_covered, is_holiday, is_permitted, is_open, is_among, has_outage, dates_of, add_holiday, without_dates, add_outage};
ghost use Rattle.court_clock.specs.Words.{days_through};
ghost use Rattle.court_days.specs.Days.Search.{earliest_day};
ghost use Rattle.court_days.specs.Days.Rolled.{rolled, next_accessible};
ghost use Rattle.court_days.specs.Days.Table.{HasTables, entry_day, with_outages};

use crate::holiday_list::HolidayList;
use court_clock::{Day, Direction};
use std::alloc::{AllocError, Global};
use std::marker::Model;
use std::sync::Arc;

pub(crate) mod dates;
pub(crate) mod holidays;
mod outage;
mod outages;
mod table;

use holidays::Holidays;
pub use outage::Outage;
use outages::Outages;
use table::{and_holiday, entry_day, table_of};

/// The span that a court's file covers, its two holiday lists, and the outages entered so far. For each direction a
/// table says how far each covered day is from the day to which it rolls. The lists, the tables and the outages are
/// shared, so that days that are made from others copy only what changes.
#[derive(Debug, Drop)]
struct DayRecord {
    holidays: Holidays,
    after: Arc<Vec<u16>>,
    before: Arc<Vec<u16>>,
    outages: Arc<Outages>,
}

/// The days of a court. All copies hold one record of them. A copy takes no memory and changes one counter; one is few,
/// because threads that change the same counter wait for each other.
#[derive(Debug, Drop)]
pub struct Days {
    held: Arc<DayRecord>,
}

impl Model for Days {
    ghost Value = { DaysView };

    ghost view = { λ d. with_outages (arc_value d.held).holidays (arc_value (arc_value d.held).outages) };

    ghost invariant = { λ d. HasTables (arc_value d.held).holidays (arc_value (arc_value d.held).after).items (arc_value (arc_value d.held).before).items };
}

impl Days {
    /// The days with these holidays and no outages.
    pub(crate) fn new(alloc: Global, holidays: Holidays) -> Result<Days, AllocError>
        requires { days_through holidays.from holidays.to ≤ 36525 }
        ensures { IfOk result (λ d. d ≡ with_outages holidays []) }
    {
        let outages = Outages::empty(alloc, holidays.from(), holidays.to())?;
        Days::tabled(alloc, holidays, Arc::new(alloc, outages)?)
    }

    /// The days with these holidays and these outages, and tables that are made for them.
    fn tabled(alloc: Global, holidays: Holidays, outages: Arc<Outages>) -> Result<Days, AllocError>
        requires { days_through holidays.from holidays.to ≤ 36525 }
        ensures { IfOk result (λ d. d ≡ with_outages holidays (arc_value outages)) }
    {
        let after = table_of(alloc, &holidays, Direction::After)?;
        let before = table_of(alloc, &holidays, Direction::Before)?;
        let held = DayRecord {
            holidays,
            after: Arc::new(alloc, after)?,
            before: Arc::new(alloc, before)?,
            outages,
        };
        Ok(Days {
            held: Arc::new(alloc, held)?,
        })
    }

    /// The first day that is covered.
    pub fn from(&self) -> Day
        ensures value { result ≡ self.now.from }
        ensures span { IsSpan self.now.from self.now.to }
    {
        self.held.holidays.from()
    }

    /// The last day that is covered.
    pub fn to(&self) -> Day
        ensures value { result ≡ self.now.to }
        ensures span { IsSpan self.now.from self.now.to }
    {
        self.held.holidays.to()
    }

    /// Whether the day is in the span, both ends included.
    pub fn covered(&self, day: Day) -> bool
        ensures value { result ≡ is_covered self.now day }
        ensures span { IsSpan self.now.from self.now.to }
    {
        self.held.holidays.covered(day)
    }

    /// Whether the day is in the list.
    pub fn in_list(&self, list: HolidayList, day: Day) -> bool
        ensures { result ≡ is_among (dates_of self.now list) day }
    {
        self.held.holidays.in_list(list, day)
    }

    /// Whether the day is a legal holiday (Fed. R. Civ. P. 6(a)(6)): of the federal list, or, for a period
    /// measured after an event, of the state list.
    pub fn is_holiday(&self, day: Day, direction: Direction) -> bool
        ensures { result ≡ is_holiday self.now direction day }
    {
        self.held.holidays.is_holiday(day, direction)
    }

    /// Whether the day is covered and no Saturday, Sunday or legal holiday (Fed. R. Civ. P. 6(a)(1)(C)).
    #[tactic(auto, using(crate::proofs::DaysLemmas::EntryLemmas::permitted_by_entry, crate::proofs::DaysLemmas::EntryLemmas::uncovered_by_entry))]
    pub fn is_permitted(&self, day: Day, direction: Direction) -> bool
        ensures { result ≡ is_permitted self.now direction day }
    {
        match self.entry(day, direction) {
            Some(entry) => entry == 0,
            None => false,
        }
    }

    /// Whether the clerk's office was inaccessible at any minute of the day.
    pub fn has_outage(&self, day: Day) -> bool
        ensures { result ≡ has_outage self.now day }
    {
        self.held.outages.lie_on(day)
    }

    /// The covered day after this one, if there is one.
    fn day_after(&self, day: Day) -> Option<Day>
        ensures some { IfSome result (λ d. (d ≡ day +ℤ pos 1) × (d ≤ℤ self.now.to)) }
        ensures none { IfNone result (self.now.to ≤ℤ day) }
    {
        if day.number() >= self.to().number() {
            return None;
        }
        Day::new(day.number() + 1)
    }

    /// The table's entry for the day: how many days it is away from the one to which it rolls. None where the day isn't
    /// covered.
    fn entry(&self, day: Day, direction: Direction) -> Option<u16>
        ensures some { IfSome result (λ e. entry_day direction day e ≡ rolled self.now day direction) }
        ensures covered { IfSome result (λ _. is_covered self.now day ≡ true) }
        ensures none { IfNone result (is_covered self.now day ≡ false) }
    {
        let place = self.held.holidays.place_of(day, direction)?;
        let entry = match direction {
            Direction::After => self.held.after[place],
            Direction::Before => self.held.before[place],
        };
        Some(entry)
    }

    /// Whether the day is permitted and, where asked, the clerk's office was accessible throughout it.
    fn is_open(&self, day: Day, direction: Direction, accessible: bool) -> bool
        ensures { result ≡ is_open self.now direction accessible day }
    {
        self.is_permitted(day, direction) && !(accessible && self.has_outage(day))
    }

    /// The least open day at or after the covered day `start`.
    #[tactic(auto, using(crate::proofs::DaysLemmas::SearchLemmas::earliest_skips, crate::proofs::DaysLemmas::SearchLemmas::earliest_finds, crate::proofs::DaysLemmas::SearchLemmas::earliest_stops))]
    fn earliest(&self, start: Day, direction: Direction, accessible: bool) -> Option<Day>
        requires { is_covered self.now start ≡ true }
        ensures { result ≡ earliest_day self.now (is_open self.now direction accessible) start }
    {
        let mut current = start;
        'days: while !self.is_open(current, direction, accessible) {
            current = self.day_after(current)?;
        }
        Some(current)
    }

    /// The nearest permitted day: the least at or after `day`, or, for a period measured before an event, the
    /// greatest at or before it (Fed. R. Civ. P. 6(a)(1)(C), (5)). None where `day` isn't covered or no covered
    /// day qualifies.
    pub fn roll(&self, day: Day, direction: Direction) -> Option<Day>
        ensures value { result ≡ rolled self.now day direction }
        ensures span { IsSpan self.now.from self.now.to }
    {
        if !self.covered(day) {
            return None;
        }
        let entry = self.entry(day, direction)?;
        entry_day(day, direction, entry)
    }

    /// The least covered day later than `day` that is permitted in that direction and has no outage
    /// (Fed. R. Civ. P. 6(a)(3)), which looks forward for either direction. None where there is no such day.
    #[tactic(auto, unfolding(crate::specs::Days::Rolled::next_accessible), using(crate::proofs::DaysLemmas::SearchLemmas::earliest_ends, crate::proofs::DaysLemmas::SearchLemmas::earliest_starts))]
    pub fn first_accessible(&self, day: Day, direction: Direction) -> Option<Day>
        ensures { result ≡ next_accessible self.now direction day }
    {
        let first = self.from();
        if day.number() < first.number() {
            return self.earliest(first, direction, true);
        }
        let next = self.day_after(day)?;
        self.earliest(next, direction, true)
    }

    /// The outages entered so far, in the order in which they were entered.
    pub fn outages(&self) -> &[Outage]
        ensures { result.now ≡ self.now.outages }
    {
        self.held.outages.as_slice()
    }

    /// The dates of the list, each once, in the order in which they came.
    pub fn listed(&self, list: HolidayList) -> &[Day]
        ensures { result.now ≡ dates_of self.now list }
    {
        self.held.holidays.listed(list)
    }

    /// How many different dates the list has.
    pub fn dates(&self, list: HolidayList) -> usize
        ensures value { result ≡ length (dates_of self.now list) }
        ensures distinct { IsDistinct int_eq (dates_of self.now list) }
    {
        self.held.holidays.dates(list)
    }

    /// These days with one more date in a holiday list. A date that the list has already is kept once. This value
    /// doesn't change. An `Err` says that memory ran out.
    pub fn with_holiday(
        &self,
        alloc: Global,
        list: HolidayList,
        day: Day,
    ) -> Result<Days, AllocError>
        ensures { IfOk result (λ d. d ≡ add_holiday self.now list day) }
    {
        let held: &DayRecord = &self.held;
        let holidays = &held.holidays;
        let after = and_holiday(alloc, &held.after, holidays, Direction::After, list, day)?;
        let before = and_holiday(alloc, &held.before, holidays, Direction::Before, list, day)?;
        let more = DayRecord {
            holidays: holidays.with(alloc, list, day)?,
            after,
            before,
            outages: held.outages.clone()?,
        };
        Ok(Days {
            held: Arc::new(alloc, more)?,
        })
    }

    /// These days without these dates in a holiday list, as they are by the reading that those are no holidays. This value doesn't
    /// change. It goes over all days that are covered, so it is made once and kept. An `Err` says that memory ran out.
    pub fn without(
        &self,
        alloc: Global,
        list: HolidayList,
        dropped: &[Day],
    ) -> Result<Days, AllocError>
        ensures { IfOk result (λ d. d ≡ without_dates self.now list dropped.now) }
    {
        let held: &DayRecord = &self.held;
        let holidays = held.holidays.without(alloc, list, dropped)?;
        Days::tabled(alloc, holidays, held.outages.clone()?)
    }

    /// These days with one more outage, after the others. This value doesn't change. An `Err` says that memory ran out.
    pub fn with_outage(&self, alloc: Global, outage: Outage) -> Result<Days, AllocError>
        ensures { IfOk result (λ d. d ≡ add_outage self.now outage) }
    {
        let held: &DayRecord = &self.held;
        let outages = held.outages.with(alloc, outage)?;
        let more = DayRecord {
            holidays: held.holidays.copy()?,
            after: held.after.clone()?,
            before: held.before.clone()?,
            outages: Arc::new(alloc, outages)?,
        };
        Ok(Days {
            held: Arc::new(alloc, more)?,
        })
    }

    /// The same days. A copy takes no memory, and costs the same however many dates and outages there are. An `Err`
    /// says that there are as many copies as can be counted.
    pub fn copy(&self) -> Result<Days, AllocError>
        ensures { IfOk result (λ d. d ≡ self.now) }
    {
        Ok(Days {
            held: self.held.clone()?,
        })
    }
}
