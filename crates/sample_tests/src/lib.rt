//! Days, deadlines, calendars, dockets and clerks at work, with answers from outside, where no whole run of the program shows
//! them.
#![tactic(auto)]

#[cfg(test)]
mod tests;
