//! Names of holidays.

ghost use Rattle.std.specs.Prelude.{◌≡◌, ◌++◌, OnOk, option_copied, string_bytes};
ghost use Rattle.reason_texts.specs.Names.{federal_name, is_name_of, legal_text, name_on, observed_text, short_name};
ghost use Rattle.court_holidays.specs.Federal.Words.{observed_on};

use court_clock::Day;
use court_holidays::{FederalHoliday, holiday_on, observed_on};
use std::alloc::AllocError;
use std::marker::Model;

/// A day, and the name of the holiday on it.
#[derive(Debug, Drop)]
pub struct HolidayName {
    day: Day,
    name: String,
}

impl Model for HolidayName {
    ghost use Rattle.std.specs.Prelude.{string_bytes};
    ghost use Rattle.reason_texts.specs.Names.{NamedDay};

    ghost Value = { NamedDay };

    ghost view = { λ n. record { day = n.day; name = string_bytes n.name } };
}

impl HolidayName {
    /// The day with that name.
    pub fn new(day: Day, name: String) -> HolidayName
        ensures { result ≡ record { day = day; name = string_bytes name } }
    {
        HolidayName { day, name }
    }

    /// The day.
    fn day(&self) -> Day
        ensures { result ≡ self.now.day }
    {
        self.day
    }

    /// The name.
    fn name(&self) -> &str
        ensures { result.now ≡ self.now.name }
    {
        self.name.as_str()
    }
}

/// The first name that the day has in the list, if it has one.
pub(crate) fn name_on(names: &[HolidayName], day: Day) -> Option<&str>
    ensures { option_copied result ≡ name_on names.now day }
{
    match names {
        [] => None,
        [named, rest @ ..] => {
            if named.day() == day {
                return Some(named.name());
            }
            name_on(rest, day)
        }
    }
}

/// Adds what a day of the federal list is called by law: the holiday that is set on it, or the one that is observed on it in
/// place of a Saturday or a Sunday, or else that it is a legal holiday. `Err` says that memory ran out.
pub fn push_legal(text: &mut String, day: Day) -> Result<(), AllocError>
    ensures { OnOk result (string_bytes text.new ≡ string_bytes text.old ++ legal_text day) }
{
    match holiday_on(day, true) {
        Some(holiday) => text.push_str(holiday.name()),
        None => push_observed(text, day),
    }
}

/// Adds the holiday that is observed on the day in place of another day, or that it is a legal holiday.
fn push_observed(text: &mut String, day: Day) -> Result<(), AllocError>
    ensures { OnOk result (string_bytes text.new ≡ string_bytes text.old ++ observed_text (observed_on day)) }
{
    match observed_on(day) {
        Some(holiday) => {
            text.push_str(short_name(holiday))?;
            text.push_str(", observed")
        }
        None => text.push_str("legal holiday"),
    }
}

/// Adds the name that a court's file gives a day of the federal list, and that the holiday is observed where it is that of another
/// day, which is a Saturday or a Sunday.
pub(crate) fn push_federal_name(text: &mut String, day: Day, name: &str) -> Result<(), AllocError>
    ensures { OnOk result (string_bytes text.new ≡ string_bytes text.old ++ federal_name day name.now) }
{
    text.push_str(name)?;
    if is_observed(day, name) {
        text.push_str(", observed")
    } else {
        Ok(())
    }
}

/// Whether a name is that of the holiday which is observed on the day in place of another day.
fn is_observed(day: Day, name: &str) -> bool
    ensures { result ≡ is_name_of (observed_on day) name.now }
{
    is_name_of(observed_on(day), name)
}

/// Whether a name is that of the holiday, as the statute calls it or as it is called where another word follows.
fn is_name_of(holiday: Option<FederalHoliday>, name: &str) -> bool
    ensures { result ≡ is_name_of holiday name.now }
{
    match holiday {
        Some(holiday) => {
            name.as_bytes() == holiday.name().as_bytes()
                || name.as_bytes() == short_name(holiday).as_bytes()
        }
        None => false,
    }
}

/// The name of a holiday as it is called where another word follows.
fn short_name(holiday: FederalHoliday) -> &'static str
    ensures { result.now ≡ short_name holiday }
{
    match holiday {
        FederalHoliday::Juneteenth => "Juneteenth",
        _ => holiday.name(),
    }
}
