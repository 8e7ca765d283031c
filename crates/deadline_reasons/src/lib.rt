//! Why a deadline is the day or the instant that it is: reasons that a reader can check one by one.
#![tactic(auto, using(crate::proofs::DerivationLemmas::one_more))]

mod access;
mod by_days;
mod by_hours;
mod cause;
mod derivation;
mod extended;
mod laws;
mod look;
mod reason;
mod row;

pub use derivation::reasons_of;
pub use laws::derivations_end_in_what_is_shown;
pub use reason::{Cause, Reason};
