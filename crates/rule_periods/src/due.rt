//! What is said of a deadline's period, by the day from which it runs.

ghost use Rattle.std.specs.Prelude.{◌≡◌};
ghost use Rattle.rule_periods.specs.Due.{act_due, extension_due, runs_from};

use crate::base::later_event;
use crate::deadline::DeadlineRow;
use crate::rule::ExtensionRule;
use court_clock::Day;
use rule6::Act;

/// The day from which the deadline's period runs: that of its event, or the later of two.
pub fn runs_from(row: &DeadlineRow) -> Day
    ensures { result ≡ runs_from row.now }
{
    later_event(row.event().day(), row.second())
}

/// What must be done in time.
pub fn act_due(row: &DeadlineRow) -> Act
    ensures { result ≡ act_due row.now }
{
    row.period().act(runs_from(row))
}

/// How the deadline's time may be extended.
pub(crate) fn extension_due(row: &DeadlineRow) -> ExtensionRule
    ensures { result ≡ extension_due row.now }
{
    row.period().extension_rule(runs_from(row))
}
