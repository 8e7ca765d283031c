//! The day of the booking of each motion.

ghost use Rattle.std.specs.Prelude.{◌≡◌, [], IfOk, filter, find, not, replicate};
ghost use Rattle.hearing_slots.specs.Inside.DayNotes.{NotesOneDay, NotesOneDayOf, is_noted, noted_day, noted_in};

use court_clock::Day;
use std::alloc::{AllocError, Global};
use std::marker::Model;
use std::sync::Arc;

/// How many shards there are.
const SHARDS: u32 = 16;

/// The day of a motion's booking.
#[derive(Clone, Copy, Debug)]
pub(crate) struct NotedDay {
    /// The number of the case.
    pub(crate) case: u32,
    /// The number of the motion in its case.
    pub(crate) motion: u32,
    /// The day.
    pub(crate) day: Day,
}

impl NotedDay {
    /// Whether this is the note of the case and the motion.
    fn is_of(&self, case: u32, motion: u32) -> bool
        ensures { result ≡ is_noted case motion self.now }
    {
        self.case == case && self.motion == motion
    }
}

/// The notes of some cases. Copies share them.
#[derive(Debug, Drop)]
struct Shard {
    shared: Arc<Vec<NotedDay>>,
}

impl Model for Shard {
    ghost use Rattle.std.specs.Prelude.{List};
    ghost use Rattle.std.specs.Arc.{arc_value};
    ghost use Rattle.hearing_slots.specs.declared.day_notes.NotedDay.{NotedDay};

    ghost Value = { List NotedDay };

    ghost view = { λ s. (arc_value s.shared).items };
}

impl Shard {
    /// The shard with these notes.
    fn of(alloc: Global, notes: Vec<NotedDay>) -> Result<Shard, AllocError>
        ensures { IfOk result (λ shard. shard ≡ notes.items) }
    {
        let shared = Arc::new(alloc, notes)?;
        Ok(Shard { shared })
    }

    /// The same notes.
    fn copy(&self) -> Result<Shard, AllocError>
        ensures { IfOk result (λ shard. shard ≡ self.now) }
    {
        Ok(Shard {
            shared: Arc::try_clone(&self.shared)?,
        })
    }

    /// The note of the motion.
    fn note_of(&self, case: u32, motion: u32) -> Option<NotedDay>
        ensures { result ≡ find (is_noted case motion) self.now }
    {
        note_in(&self.shared, case, motion)
    }

    /// The day that is noted for the motion.
    fn day_of(&self, case: u32, motion: u32) -> Option<Day>
        ensures { result ≡ noted_in case motion self.now }
    {
        match self.note_of(case, motion) {
            Some(note) => Some(note.day),
            None => None,
        }
    }

    /// The notes with this day for the motion, or with none.
    fn noting(
        &self,
        alloc: Global,
        case: u32,
        motion: u32,
        day: Option<Day>,
    ) -> Result<Shard, AllocError>
        ensures { IfOk result (λ shard. NotesOneDay self.now shard case motion day) }
    {
        let mut notes = others(alloc, &self.shared, case, motion)?;
        match day {
            None => Shard::of(alloc, notes),
            Some(day) => {
                notes.push(NotedDay { case, motion, day })?;
                Shard::of(alloc, notes)
            }
        }
    }
}

/// The note of the motion.
fn note_in(notes: &[NotedDay], case: u32, motion: u32) -> Option<NotedDay>
    ensures { result ≡ find (is_noted case motion) notes.now }
{
    notes.iter().copied().find(|note| note.is_of(case, motion))
}

/// The notes of other motions, with room for one more.
fn others(
    alloc: Global,
    notes: &[NotedDay],
    case: u32,
    motion: u32,
) -> Result<Vec<NotedDay>, AllocError>
    ensures { IfOk result (λ others. others.items ≡ filter (λ n. not (is_noted case motion n)) notes.now) }
{
    let mut others = Vec::with_capacity(alloc, notes.len().saturating_add(1))?;
    others.extend_from_slice(notes)?;
    if note_in(notes, case, motion).is_none() {
        return Ok(others);
    }
    others.retain(|note: &NotedDay| !note.is_of(case, motion));
    Ok(others)
}

/// For each motion the day of its booking, in shards by case. Copies share the shards.
#[derive(Debug, Drop)]
pub(crate) struct DayNotes {
    shards: Vec<Shard>,
}

impl Model for DayNotes {
    ghost use Rattle.std.specs.Prelude.{◌≡◌, List, length};
    ghost use Rattle.hearing_slots.specs.declared.day_notes.NotedDay.{NotedDay};

    ghost Value = { List (List NotedDay) };

    ghost view = { λ n. n.shards.items };

    ghost invariant = { λ n. length n.shards.items ≡ 16 };
}

impl DayNotes {
    /// No notes. `Err` says that memory ran out.
    pub(crate) fn new(alloc: Global) -> Result<DayNotes, AllocError>
        ensures { IfOk result (λ notes. notes ≡ replicate 16 []) }
    {
        let none = Shard::of(alloc, Vec::new(alloc))?;
        let mut shards = Vec::with_capacity(alloc, SHARDS as usize)?;
        for _number in 0..SHARDS {
            let copy = none.copy()?;
            shards.push(copy)?;
        }
        Ok(DayNotes { shards })
    }

    /// The day that is noted for the motion.
    pub(crate) fn day_of(&self, case: u32, motion: u32) -> Option<Day>
        ensures { result ≡ noted_day case motion self.now }
    {
        let shard = (case % SHARDS) as usize;
        self.shards[shard].day_of(case, motion)
    }

    /// The notes with this day for the motion, or with none. One shard is copied. `Err` says that memory ran out.
    pub(crate) fn noting(
        &self,
        alloc: Global,
        case: u32,
        motion: u32,
        day: Option<Day>,
    ) -> Result<DayNotes, AllocError>
        ensures { IfOk result (λ notes. NotesOneDayOf self.now notes case motion day) }
    {
        let shard = (case % SHARDS) as usize;
        let changed = self.shards[shard].noting(alloc, case, motion, day)?;
        let mut shards = copies(alloc, &self.shards)?;
        shards[shard] = changed;
        Ok(DayNotes { shards })
    }
}

/// Copies of the shards.
fn copies(alloc: Global, shards: &[Shard]) -> Result<Vec<Shard>, AllocError>
    ensures { IfOk result (λ copies. copies.items ≡ shards.now) }
{
    let mut copies = Vec::with_capacity(alloc, shards.len())?;
    for shard in shards {
        let copy = shard.copy()?;
        copies.push(copy)?;
    }
    Ok(copies)
}
