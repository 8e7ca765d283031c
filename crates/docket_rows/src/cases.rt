//! Cases.
mod changes;

ghost use Rattle.std.specs.Prelude.{◌≡◌, ◌≤◌, ◌==◌, [], length, find, slice_get, IfOk, option_map, option_copied};
ghost use Rattle.std.specs.Arc.{arc_value};
ghost use Rattle.docket_rows.specs.Cases.{NumberedDeadline, NumberedMotion, numbered_deadlines, numbered_motions};
ghost use Rattle.docket_rows.specs.Limits.{most_deadlines, most_facts, most_motions};

use crate::fact::Fact;
use crate::motion::MotionRecord;
use court_clock::Day;
use rule_periods::DocketRow;
use std::alloc::{AllocError, Global};
use std::marker::Model;
use std::sync::Arc;

/// A case: the day on which it was filed, its deadlines and motions, each numbered from 1 in its list, and the facts that are
/// recorded of it.
#[derive(Debug, Drop)]
pub struct CaseRecord {
    filed: Day,
    deadlines: Vec<DocketRow>,
    motions: Vec<MotionRecord>,
    facts: Vec<Fact>,
}

impl Model for CaseRecord {
    ghost use Rattle.std.specs.Prelude.{◌≤◌, length};
    ghost use Rattle.docket_rows.specs.Cases.{CaseRecordView, numbered_deadlines, numbered_motions};
    ghost use Rattle.docket_rows.specs.Limits.{most_deadlines, most_facts, most_motions};

    ghost Value = { CaseRecordView };

    ghost view = { λ c. record { filed = c.filed; deadlines = numbered_deadlines 1 c.deadlines.items; motions = numbered_motions 1 c.motions.items; facts = c.facts.items } };

    ghost invariant = { λ c. (length c.deadlines.items ≤ most_deadlines) × (length c.motions.items ≤ most_motions) × (length c.facts.items ≤ most_facts) };
}

impl CaseRecord {
    /// The case that was filed on that day, with no deadlines, no motions and no facts.
    pub fn new(alloc: Global, filed: Day) -> CaseRecord
        ensures { result ≡ record { filed = filed; deadlines = []; motions = []; facts = [] } }
    {
        CaseRecord {
            filed,
            deadlines: Vec::new(alloc),
            motions: Vec::new(alloc),
            facts: Vec::new(alloc),
        }
    }

    /// The day on which the case was filed.
    pub fn filed(&self) -> Day
        ensures { result ≡ self.now.filed }
    {
        self.filed
    }

    /// The deadlines, in the order of their numbers, which begin at 1.
    pub fn deadlines(&self) -> &[DocketRow]
        ensures value { numbered_deadlines 1 result.now ≡ self.now.deadlines }
        ensures count { length result.now ≡ length self.now.deadlines }
        ensures few { length result.now ≤ most_deadlines }
    {
        &self.deadlines
    }

    /// The motions, in the order of their numbers, which begin at 1.
    pub fn motions(&self) -> &[MotionRecord]
        ensures value { numbered_motions 1 result.now ≡ self.now.motions }
        ensures count { length result.now ≡ length self.now.motions }
        ensures few { length result.now ≤ most_motions }
    {
        &self.motions
    }

    /// The facts that are recorded of it, from the first on.
    pub fn facts(&self) -> &[Fact]
        ensures value { result.now ≡ self.now.facts }
        ensures few { length result.now ≤ most_facts }
    {
        &self.facts
    }

    /// The deadline of that number, if there is one.
    pub fn deadline(&self, number: u32) -> Option<&DocketRow>
        ensures { option_copied result ≡ option_map (λ (d : NumberedDeadline). d.row) (find (λ (d : NumberedDeadline). d.number == number) self.now.deadlines) }
    {
        deadline_of(self.deadlines(), number)
    }

    /// The motion of that number, if there is one.
    pub fn motion(&self, number: u32) -> Option<MotionRecord>
        ensures { option_map (λ m. record { number = number; served = m.served; need = m.need; hearing = m.hearing }) result ≡ find (λ (m : NumberedMotion). m.number == number) self.now.motions }
    {
        motion_of(self.motions(), number)
    }
}

/// The deadline of that number, in a list that is numbered from 1.
fn deadline_of(rows: &[DocketRow], number: u32) -> Option<&DocketRow>
    ensures { option_copied result ≡ option_map (λ (d : NumberedDeadline). d.row) (find (λ (d : NumberedDeadline). d.number == number) (numbered_deadlines 1 rows.now)) }
{
    if number == 0 {
        return None;
    }
    deadline_at(rows, (number - 1) as usize)
}

/// The deadline at that place.
fn deadline_at(rows: &[DocketRow], place: usize) -> Option<&DocketRow>
    ensures { option_copied result ≡ slice_get rows.now place }
{
    rows.get(place)
}

/// The motion of that number, in a list that is numbered from 1.
fn motion_of(rows: &[MotionRecord], number: u32) -> Option<MotionRecord>
    ensures { option_map (λ m. record { number = number; served = m.served; need = m.need; hearing = m.hearing }) result ≡ find (λ (m : NumberedMotion). m.number == number) (numbered_motions 1 rows.now) }
{
    if number == 0 {
        return None;
    }
    motion_at(rows, (number - 1) as usize)
}

/// The motion at that place.
fn motion_at(rows: &[MotionRecord], place: usize) -> Option<MotionRecord>
    ensures { result ≡ slice_get rows.now place }
{
    rows.get(place).copied()
}

/// A case that copies share, so that a copy takes no time that grows with the case.
#[derive(Debug, Drop)]
pub struct SharedCase {
    contents: Arc<CaseRecord>,
}

impl Model for SharedCase {
    ghost use Rattle.docket_rows.specs.Cases.{CaseRecordView};
    ghost use Rattle.std.specs.Arc.{arc_value};

    ghost Value = { CaseRecordView };

    ghost view = { λ c. arc_value c.contents };
}

impl SharedCase {
    /// The case, to be shared. An `Err` says that memory ran out.
    pub fn new(alloc: Global, contents: CaseRecord) -> Result<SharedCase, AllocError>
        ensures { IfOk result (λ case. case ≡ contents) }
    {
        Ok(SharedCase {
            contents: Arc::new(alloc, contents)?,
        })
    }

    /// The case.
    pub fn contents(&self) -> &CaseRecord
        ensures { result.now ≡ self.now }
    {
        &self.contents
    }

    /// The same case, shared once more. It takes no memory; `Err` says that there are as many copies as can be
    /// counted.
    pub fn copy(&self) -> Result<SharedCase, AllocError>
        ensures { IfOk result (λ case. case ≡ self.now) }
    {
        Ok(SharedCase {
            contents: Arc::try_clone(&self.contents)?,
        })
    }
}
