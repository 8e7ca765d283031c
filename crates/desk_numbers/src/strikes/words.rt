//! The words of a line, and the number that one of them is.
ghost use Rattle.std.specs.Prelude.{◌≡◌, ◌≤◌, length};
ghost use Rattle.std.specs.Char.{is_ascii_digit};
ghost use Rattle.std.specs.List.{list_all};
ghost use Rattle.row_forms.specs.Words.{number_of};
ghost use Rattle.desk_numbers.specs.Strikes.Line.{before, length_before, past};
ghost use Rattle.desk_numbers.specs.Strikes.SaidText.{is_numeral, numeral_of};

use std::str;

// How many bytes come before the first of this value.
fn length_before(text: &[u8], byte: u8) -> usize
    ensures count { result ≡ length_before byte text.now }
    ensures within { result ≤ length text.now }
{
    let mut count = 0;
    'count: while count < text.len() && text[count] != byte {
        count += 1;
    }
    count
}

// What comes before the first byte of this value, and what comes after it: nothing where there is none.
pub(crate) fn cut(text: &[u8], byte: u8) -> (&[u8], &[u8])
    ensures before { result.0.now ≡ before byte text.now }
    ensures past { result.1.now ≡ past byte text.now }
{
    let count = length_before(text, byte);
    let (before, rest) = text.split_at(count);
    match rest {
        [_, past @ ..] => (before, past),
        [] => (before, &[]),
    }
}

// A number of one to nine decimal digits, with no sign and no leading zero but `0` itself.
#[tactic(auto, using(crate::proofs::StrikesLemmas::NumberLemmas::number_long, crate::proofs::StrikesLemmas::NumberLemmas::number_short))]
pub(crate) fn number_of(text: &[u8]) -> Option<u32>
    ensures { result ≡ number_of text.now }
{
    if text.len() > 9 {
        return None;
    }
    numeral_of(text)
}

// A number below 2 to the 32, in one to ten decimal digits, with no sign and no leading zero but `0` itself.
#[tactic(auto, unfolding(crate::specs::Strikes::SaidText::numeral_of))]
pub(crate) fn numeral_of(text: &[u8]) -> Option<u32>
    ensures { result ≡ numeral_of text.now }
{
    if !is_numeral(text) {
        return None;
    }
    match str::from_utf8(text) {
        Ok(text) => text.parse().ok(),
        Err(_) => None,
    }
}

// Whether the text is written as such numbers are.
fn is_numeral(text: &[u8]) -> bool
    ensures { result ≡ is_numeral text.now }
{
    if text.is_empty() || text.len() > 10 {
        return false;
    }
    if text.len() > 1 && text[0] == b'0' {
        return false;
    }
    has_digits_only(text)
}

fn has_digits_only(text: &[u8]) -> bool
    ensures { result ≡ list_all is_ascii_digit text.now }
{
    text.iter().all(|byte| byte.is_ascii_digit())
}
