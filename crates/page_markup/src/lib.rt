//! The markup of a page. A page is made of elements and of texts, and each text is escaped as it is added, so that no text
//! of the input is ever read as markup.
#![tactic(auto)]

mod escaping;
mod frame;
mod laws;
mod page;
mod style;
mod tag;

pub use frame::{begin_page, end_page};
pub use laws::{escaped_is_plain, escaped_reads_back};
pub use page::Page;
pub use tag::Tag;
