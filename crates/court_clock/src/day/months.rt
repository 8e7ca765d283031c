//! How many calendar months have passed from one day to another.

ghost use Rattle.std.specs.Prelude.{◌≡◌, ◌+ℤ◌, ◌*ℤ◌, pos};
ghost use Rattle.court_clock.specs.Day.Months.{day_in_month, has_passed, month_after};

use crate::day::Day;

impl Day {
    /// Whether on this day more than so many calendar months have passed since another. They end with the day of the same number in
    /// the month that is so many later, or with the last day of that month where it has none: six months from August 31 end on
    /// February 28 or 29, and more than six have passed from March 1 on.
    pub fn has_passed(self, months: u16, since: Day) -> bool
        ensures { result ≡ has_passed months since self }
    {
        let ends = since.month_after(months);
        let reached = self.month_after(0);
        ends < reached || (ends == reached && since.day_in_month() < self.day_in_month())
    }

    /// The number of the month that is so many after the day's, where January of the year 0 is 1.
    #[tactic(auto, using(crate::proofs::DayLemmas::MonthLemmas::month_is))]
    pub fn month_after(self, months: u16) -> i32
        ensures { result ≡ month_after months self }
    {
        let plain = self.date().to_plain();
        month_number(plain.year, plain.month, months)
    }

    /// The day of its month, from 1.
    #[tactic(auto, using(crate::proofs::DayLemmas::MonthLemmas::number_is))]
    pub fn day_in_month(self) -> u8
        ensures { result ≡ day_in_month self }
    {
        self.date().to_plain().day
    }
}

// The number of the month that is so many after a month of a year.
fn month_number(year: i16, month: u8, months: u16) -> i32
    ensures { result ≡ year *ℤ pos 12 +ℤ pos month +ℤ pos months }
{
    i32::from(year) * 12 + i32::from(month) + i32::from(months)
}
