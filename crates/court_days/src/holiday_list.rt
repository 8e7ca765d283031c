/// The two lists of legal holidays (Fed. R. Civ. P. 6(a)(6)).
#[derive(Clone, Copy, Debug, PartialEq, Eq)]
pub enum HolidayList {
    /// Set aside by statute, or declared by the President or Congress. They count in both directions.
    Federal,
    /// Declared by the state. They count only for periods measured after an event.
    State,
}
