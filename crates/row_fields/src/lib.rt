//! Fields as people write them: a line cut into fields, dates, times, words and the Rules' numbers.
#![tactic(auto)]

mod choices;
mod dates;
mod laws;
mod letters;
mod line;
mod months;
mod named;
mod said;
mod times;

pub use choices::{
    act_said, answer_said, closing_said, counted_said, list_said, means_said, rule_said,
    ruling_said, service_said, why_said,
};
pub use dates::{DateOrder, date_said};
pub use laws::{
    codes_name_sections, no_other_reading, numbers_stay_whole, order_is_kept,
    places_follow_their_marks,
};
pub use letters::{bare, folded};
pub use line::{cut_line, place_in, separator_of, typed};
pub use named::{NamedPeriod, RuleBook, fronts, named_periods, section_said, text_coded};
pub use said::Said;
pub use times::time_said;
