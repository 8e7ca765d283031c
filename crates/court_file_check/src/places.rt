//! Where each key, value and item is in the text of a court's file.

mod keys;
mod marks;
mod place;
mod scan;
mod tokens;

pub use keys::key_of;
pub use marks::{Mark, Part, Places};
pub use place::{Place, place_at};
