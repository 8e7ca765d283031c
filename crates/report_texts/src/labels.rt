//! What reports call cases, deadlines, motions and holidays.

use case_numbers::Cases;
use court_clock::Day;
use desk_numbers::{CalledTexts, MovedNumbers};
use reason_texts::HolidayName;
use std::marker::Model;

/// What cases, deadlines, motions and holidays are called. A case without a name is called by its number, and a deadline or a
/// motion whose number isn't named by its place.
#[derive(Debug, Drop)]
pub struct Labels<'a> {
    /// The cases that have names.
    pub cases: &'a Cases,
    /// The deadlines and motions that have other numbers than their places.
    pub moved: &'a MovedNumbers,
    /// What rows call cases, deadlines and motions.
    pub called: &'a CalledTexts,
    /// The holidays that have names.
    pub holidays: &'a [HolidayName],
    /// The days of which it is in doubt whether the state declares them holidays.
    pub doubtful: &'a [Day],
}

impl<'a> Model for Labels<'a> {
    ghost use Rattle.report_texts.specs.Labels.{LabelsView};

    ghost Value = { LabelsView };

    ghost view = { λ l. record { cases = l.cases.now.named; moved = l.moved.now; called = l.called.now; holidays = l.holidays.now; doubtful = l.doubtful.now } };
}
