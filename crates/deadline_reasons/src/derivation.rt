//! The reasons for which a deadline is the day or the instant that it is.

ghost use Rattle.std.specs.Prelude.{IfOk};
ghost use Rattle.rule_periods.specs.Words.{shown_of};
ghost use Rattle.rule6.specs.declared.timeliness.Shown.{Shown};
ghost use Rattle.deadline_reasons.specs.Derivation.{IsDerivation};
ghost use Rattle.deadline_reasons.specs.Inside.Leading.{LeadsOn};
ghost use Rattle.deadline_reasons.specs.Standing.{Unstarted, Ended};

use crate::by_days::{push_days, push_set_day};
use crate::by_hours::{push_hours, push_set_time};
use crate::reason::Reason;
use crate::row::length;
use court_clock::Clock;
use court_days::Days;
use rule_periods::{DeadlineRow, Length};
use std::alloc::{AllocError, Global};

/// Why the deadline is shown as it is: the steps from its event to its end in their order, each of which follows from
/// the one before by the rule that it names. An `Err` says that memory ran out.
pub fn reasons_of(
    alloc: Global,
    days: &Days,
    clock: &Clock,
    row: &DeadlineRow,
) -> Result<Vec<Reason>, AllocError>
    ensures { IfOk result (λ reasons. IsDerivation days.now clock.now row.now reasons.items (shown_of days.now clock.now row.now)) }
{
    let mut reasons = Vec::new(alloc);
    push_all(days, clock, row, &mut reasons)?;
    Ok(reasons)
}

/// Adds the reasons of a period of any kind.
fn push_all(
    days: &Days,
    clock: &Clock,
    row: &DeadlineRow,
    reasons: &mut Vec<Reason>,
) -> Result<(), AllocError>
    ensures { IfOk result (λ _. (shown : Shown) × LeadsOn days.now clock.now row.now reasons.old.items reasons.new.items Unstarted (Ended shown)) }
{
    match length(row) {
        Length::Days(n) => push_days(days, clock, row, reasons, n),
        Length::Hours(h) => push_hours(days, clock, row, reasons, h),
        Length::ToDay => push_set_day(days, clock, row, reasons),
        Length::ToTime => push_set_time(days, clock, row, reasons),
    }
}
