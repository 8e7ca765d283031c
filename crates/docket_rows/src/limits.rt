//! How much a docket holds at most.

/// The greatest number of a case, of which the least is 1.
pub const LAST_CASE: u32 = 4_096;

/// The most deadlines of a case.
pub const MOST_DEADLINES: usize = 64;

/// The most motions of a case.
pub const MOST_MOTIONS: usize = 64;

/// The most facts of a case.
pub const MOST_FACTS: usize = 512;

/// The most extensions of a deadline.
pub const MOST_GRANTS: usize = 32;

/// The most dates of a list of holidays.
pub const MOST_DATES: usize = 4_096;

/// The most outages of the clerk's office.
pub const MOST_OUTAGES: usize = 512;
