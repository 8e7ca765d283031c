//! All that is wrong with a court's file, and what may be wrong with it.
#![tactic(auto)]

mod check;
mod faults;
mod laws;
mod places;
mod report;
mod review;
mod warnings;

pub use check::{Checked, check_file};
pub use faults::names::is_named;
pub use faults::{Fault, What};
pub use laws::{faults_begin_with_the_courts, review_is_exact, review_is_in_order};
pub use places::{Mark, Part, Place, Places, key_of, place_at};
pub use report::{Report, report_of};
pub use review::{DayTest, Due, days_that, due_on};
pub use warnings::names::Alike;
pub use warnings::slips::Slip;
pub use warnings::zone::ZoneDoubt;
pub use warnings::{Asked, Warnings};
