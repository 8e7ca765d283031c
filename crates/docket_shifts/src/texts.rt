//! Texts under the numbers of deadlines or motions.
ghost use Rattle.std.specs.Prelude.{◌≡◌, find, option_copied};
ghost use Rattle.std.specs.List.{list_any};
ghost use Rattle.docket_shifts.specs.Texts.{has_number, text_under};

use std::marker::Model;

// What is shown of a deadline or a motion, with its number.
#[derive(Drop)]
pub struct NumberedText {
    // The number of the deadline or of the motion in its case.
    pub number: u32,
    // What is shown of it.
    pub text: String,
}

impl Model for NumberedText {
    ghost use Rattle.std.specs.Prelude.{string_bytes};
    ghost use Rattle.docket_shifts.specs.Texts.{NumberedTextView};

    ghost Value = { NumberedTextView };

    ghost view = { λ t. record { number = t.number; text = string_bytes t.text } };
}

// Whether one of these has that number.
pub(crate) fn has_number(texts: &[NumberedText], number: u32) -> bool
    ensures { result ≡ list_any (has_number number) texts.now }
{
    texts.iter().any(|text| text.number == number)
}

// The one of that number.
fn with_number(texts: &[NumberedText], number: u32) -> Option<&NumberedText>
    ensures { option_copied result ≡ find (has_number number) texts.now }
{
    texts.iter().find(|text| text.number == number)
}

// The text under a number, or `none`.
pub(crate) fn text_under(texts: &[NumberedText], number: u32) -> &str
    ensures { result.now ≡ text_under texts.now number }
{
    match with_number(texts, number) {
        Some(text) => text.text.as_str(),
        None => "none",
    }
}
