//! The sheet of a case: what it shows of its deadlines and motions.

ghost use Rattle.std.specs.Prelude.{◌≡◌, List};

use crate::fact::{Assignment, Closure, DatedRuling, Ending};
use crate::hearing::Hearing;
use court_clock::Day;
use hearing_slots::Need;
use rule_periods::DeadlineRow;
use rule6::Shown;
use std::marker::Model;

/// Whether a deadline was met.
#[derive(Clone, Copy, Debug, PartialEq, Eq)]
pub enum State {
    /// No act is recorded.
    Pending,
    /// The act was in time, by the docket as it is now.
    Timely,
    /// The act was late, by the docket as it is now.
    Late,
    /// An act is recorded, and no covered day qualifies as the last.
    Undecided,
}

/// A deadline on a sheet.
#[derive(Debug, Drop)]
pub struct SheetDeadline {
    /// The number of the deadline in its case.
    pub number: u32,
    /// The deadline as it is docketed.
    pub row: DeadlineRow,
    /// When its time ends, by the docket as it is now.
    pub shown: Shown,
    /// Whether it was met.
    pub state: State,
    /// Why it is due no more, if it was ended and not resumed.
    pub ended: Option<Ending>,
}

/// A hearing on a sheet.
#[derive(Clone, Copy, Debug, PartialEq, Eq)]
pub struct SheetHearing {
    /// The hearing.
    pub hearing: Hearing,
    /// The last day on which an opposing affidavit can be served (Fed. R. Civ. P. 6(c)(2)), if there is one.
    pub affidavits: Option<Day>,
}

/// A motion on a sheet.
#[derive(Clone, Copy, Debug, PartialEq, Eq)]
pub struct SheetMotion {
    /// The number of the motion in its case.
    pub number: u32,
    /// The day on which the motion was served.
    pub served: Day,
    /// What notice it needs.
    pub need: Need,
    /// Its hearing.
    pub hearing: Option<SheetHearing>,
    /// How it was ruled on last, if it was.
    pub ruling: Option<DatedRuling>,
}

/// The deadlines of a sheet, by number.
#[derive(Debug, Drop)]
pub struct SheetDeadlines {
    list: Vec<SheetDeadline>,
}

impl Model for SheetDeadlines {
    ghost use Rattle.std.specs.Prelude.{List};
    ghost use Rattle.docket_rows.specs.declared.sheet.SheetDeadline.{SheetDeadline};

    ghost Value = { List SheetDeadline };

    ghost view = { λ d. d.list.items };
}

impl SheetDeadlines {
    /// The deadlines of the list, in its order.
    pub fn from_vec(list: Vec<SheetDeadline>) -> SheetDeadlines
        ensures { result ≡ list.items }
    {
        SheetDeadlines { list }
    }

    /// The deadlines as a slice.
    pub fn as_slice(&self) -> &[SheetDeadline]
        ensures { result.now ≡ self.now }
    {
        &self.list
    }

    /// The list itself.
    pub fn into_vec(self) -> Vec<SheetDeadline>
        ensures { result.items ≡ self }
    {
        let SheetDeadlines { list: deadlines } = self;
        deadlines
    }
}

/// The motions of a sheet, by number.
#[derive(Debug, Drop)]
pub struct SheetMotions {
    list: Vec<SheetMotion>,
}

impl Model for SheetMotions {
    ghost use Rattle.std.specs.Prelude.{List};
    ghost use Rattle.docket_rows.specs.declared.sheet.SheetMotion.{SheetMotion};

    ghost Value = { List SheetMotion };

    ghost view = { λ m. m.list.items };
}

impl SheetMotions {
    /// The motions of the list, in its order.
    pub fn from_vec(list: Vec<SheetMotion>) -> SheetMotions
        ensures { result ≡ list.items }
    {
        SheetMotions { list }
    }

    /// The motions as a slice.
    pub fn as_slice(&self) -> &[SheetMotion]
        ensures { result.now ≡ self.now }
    {
        &self.list
    }

    /// The list itself.
    pub fn into_vec(self) -> Vec<SheetMotion>
        ensures { result.items ≡ self }
    {
        let SheetMotions { list: motions } = self;
        motions
    }
}

/// The sheet of a case.
#[derive(Debug, Drop)]
pub struct Sheet {
    /// The number of the case.
    pub case: u32,
    /// The day on which it was filed.
    pub filed: Day,
    /// How it was closed, if it was and wasn't reopened.
    pub closed: Option<Closure>,
    /// Who has it, if it was assigned.
    pub assigned: Option<Assignment>,
    /// Its deadlines.
    pub deadlines: SheetDeadlines,
    /// Its motions.
    pub motions: SheetMotions,
}
