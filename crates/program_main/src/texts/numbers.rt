//! A number, as the text of an option writes it.

ghost use Rattle.std.specs.Prelude.{◌≡◌};
ghost use Rattle.std.specs.Char.{is_ascii_digit};
ghost use Rattle.std.specs.List.{list_all};
ghost use Rattle.office_texts.specs.Names.Called.{is_digits};
ghost use Rattle.program_main.specs.Texts.Numbers.{number_of};

/// The number that a text writes: one to nine decimal digits.
pub fn number_of(text: &str) -> Option<u32>
    ensures { result ≡ number_of text.now }
{
    if is_digits(text.as_bytes()) {
        text.parse::<u32>().ok()
    } else {
        None
    }
}

/// Whether a text is one to nine decimal digits.
fn is_digits(text: &[u8]) -> bool
    ensures { result ≡ is_digits text.now }
{
    !text.is_empty() && text.len() <= 9 && are_digits(text)
}

fn are_digits(text: &[u8]) -> bool
    ensures { result ≡ list_all is_ascii_digit text.now }
{
    text.iter().all(|byte| byte.is_ascii_digit())
}
