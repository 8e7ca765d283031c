//! A row of the docket: a deadline that began with no extension, and whose extensions all fit its period.

ghost use Rattle.std.specs.Prelude.{◌≡◌, [], None, true, IfOk, is_ok, if◌then◌else◌};
ghost use Rattle.rule_periods.specs.Deadline.{DeadlineRowView, anew, has_fitting_grants, with_filing, with_grant};
ghost use Rattle.rule_periods.specs.Grant.{grant_fits, is_grant_length};
ghost use Rattle.rule_periods.specs.Period.{is_in_hours, suits, has_length};

use crate::deadline::DeadlineRow;
use crate::event::Event;
use crate::grant::Grant;
use crate::period::Period;
use court_clock::Day;
use rule6::{Filing, ServiceKind};
use std::alloc::{AllocError, Global};
use std::marker::Model;

/// A deadline of the docket. Each of its extensions is by hours where its period ends at an instant, and by days or to a date
/// where it ends with a day; an order may set either end of either. An extension and an act are put into it in place.
#[derive(Debug, Drop)]
pub struct DocketRow {
    row: DeadlineRow,
}

impl Model for DocketRow {
    ghost Value = { DeadlineRowView };

    ghost view = { λ d. d.row };

    ghost invariant = { λ d. has_fitting_grants d.row ≡ true };
}

impl DocketRow {
    /// A deadline that starts: nothing was granted, and no act was recorded. It takes no memory.
    pub fn start(
        alloc: Global,
        period: Period,
        event: Event,
        second: Option<Day>,
        service: Option<ServiceKind>,
    ) -> DocketRow
        requires suits { suits period second service ≡ true }
        requires length { has_length period ≡ true }
        ensures { result ≡ record { period = period; event = event; second = second; service = service; grants = []; filed = None } }
    {
        let grants = Vec::new(alloc);
        DocketRow {
            row: DeadlineRow::new(period, event, second, service, grants, None),
        }
    }

    /// The deadline.
    pub fn row(&self) -> &DeadlineRow
        ensures value { result.now ≡ self.now }
        ensures fits { has_fitting_grants self.now ≡ true }
    {
        &self.row
    }

    /// Adds an extension, in place, that may be granted. An error leaves the deadline as it was.
    #[tactic(auto, using(crate::proofs::DeadlineLemmas::all_push))]
    pub fn add_grant(&mut self, grant: Grant) -> Result<(), AllocError>
        requires length { is_grant_length grant ≡ true }
        requires fits { grant_fits (is_in_hours self.old.period) grant ≡ true }
        ensures { self.new ≡ (if is_ok result then with_grant self.old grant else self.old) }
    {
        self.row.add_grant(grant)
    }

    /// Records the act, in place. A minute of 1,440 or more is kept as 1,439.
    pub fn set_filed(&mut self, filing: Filing)
        ensures { self.new ≡ with_filing self.old filing }
    {
        self.row.set_filed(filing);
    }

    /// Lets the deadline run anew from a day, in place: that is the day of its event, at the same time of day, and its second day where the
    /// period takes one, and no extension counts any more. It takes no memory.
    pub fn run_anew(&mut self, day: Day)
        ensures { self.new ≡ anew self.old day }
    {
        self.row.run_anew(day);
    }

    /// A copy.
    pub fn copy(&self, alloc: Global) -> Result<DocketRow, AllocError>
        ensures { IfOk result (λ row. row ≡ self.now) }
    {
        Ok(DocketRow {
            row: self.row.copy(alloc)?,
        })
    }

    /// The deadline, without the docket.
    pub fn into_row(self) -> DeadlineRow
        ensures { result ≡ self }
    {
        self.row
    }
}
