//! Numbers, as rows write them.

ghost use Rattle.std.specs.Prelude.{◌≡◌, ◌<◌, IfSome};
ghost use Rattle.std.specs.Char.{is_ascii_digit};
ghost use Rattle.std.specs.List.{list_all};
ghost use Rattle.row_forms.specs.Fields.Numbers.{count_of, is_number, number_of};

/// A number of one to nine decimal digits, with no sign and no leading zero but `0` itself.
#[tactic(auto, unfolding(crate::specs::Fields::Numbers::number_of))]
pub fn number_of(text: &str) -> Option<u32>
    ensures value { result ≡ number_of text.now }
    ensures nine_digits { IfSome result (λ n. n < 1000000000) }
{
    if is_number(text.as_bytes()) {
        text.parse().ok()
    } else {
        None
    }
}

/// Whether a text is written as the numbers of rows are: one to nine decimal digits, with no leading zero but `0` itself.
pub fn is_number(text: &[u8]) -> bool
    ensures { result ≡ is_number text.now }
{
    if text.is_empty() || text.len() > 9 {
        return false;
    }
    if text.len() > 1 && text[0] == b'0' {
        return false;
    }
    has_digits_only(text)
}

fn has_digits_only(text: &[u8]) -> bool
    ensures { result ≡ list_all is_ascii_digit text.now }
{
    text.iter().all(|byte| byte.is_ascii_digit())
}

/// A number followed by this unit, an ASCII character.
#[tactic(auto, unfolding(crate::specs::Fields::Numbers::count_of))]
pub fn count_of(text: &str, unit: char) -> Option<u32>
    requires { unit < 128 }
    ensures { result ≡ count_of unit text.now }
{
    number_of(text.strip_suffix(unit)?)
}
