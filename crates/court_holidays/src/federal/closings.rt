//! Days on which the President closed the executive departments.

ghost use Rattle.std.specs.Prelude.{◌≡◌, codes, map};
ghost use Rattle.court_holidays.specs.Federal.Closings.{closing_view, closings, closings_known};

/// A day on which the President closed the executive departments.
#[derive(Clone, Copy, Debug)]
pub struct Closing {
    /// The day, as `2018-12-24`.
    pub day: &'static str,
    /// The order.
    pub order: &'static str,
}

/// A line of the table of them.
macro_rules! closed {
    ($day:literal: $order:literal) => {
        Closing {
            day: $day,
            order: $order,
        }
    };
}

static CLOSINGS: [Closing; 8] = [
    closed!("2018-12-05": "Executive Order 13852"),
    closed!("2018-12-24": "Executive Order 13854"),
    closed!("2019-12-24": "Executive Order 13900"),
    closed!("2020-12-24": "Executive Order 13965"),
    closed!("2024-12-24": "Executive Order 14129"),
    closed!("2025-01-09": "Executive Order 14133"),
    closed!("2025-12-24": "the Executive Order of 18 December 2025"),
    closed!("2025-12-26": "the Executive Order of 18 December 2025"),
];

/// The days from 2016 on, in their order, up to the one to which they are known.
#[tactic(auto, unfolding(crate::specs::Federal::Closings::closings))]
pub fn closed_days() -> &'static [Closing]
    ensures { map closing_view result.now ≡ closings }
{
    &CLOSINGS[..]
}

/// The day up to which they are known.
pub fn closings_known() -> &'static str
    ensures { result.now ≡ closings_known }
{
    "2025-12-31"
}
