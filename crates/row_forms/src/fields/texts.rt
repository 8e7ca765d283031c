//! Texts by which a case, a deadline or a motion is called.

ghost use Rattle.std.specs.Prelude.{◌≡◌};
ghost use Rattle.row_forms.specs.Fields.Texts.{is_text, text_length};

use court_file_text::has_control;

/// Whether a text can call something: it has 1 to 200 bytes, and no control character.
pub fn is_text(text: &[u8]) -> bool
    ensures { result ≡ is_text text.now }
{
    1 <= text.len() && text.len() <= 200 && !has_control(text)
}

/// How many bytes the text has that a field says: 1 to 200, none of which is a control character's. `None` says that it is no such text.
#[tactic(auto, unfolding(crate::specs::Fields::Texts::text_length))]
pub fn text_length(field: &str) -> Option<usize>
    ensures { result ≡ text_length field.now }
{
    if is_text(field.as_bytes()) {
        Some(field.len())
    } else {
        None
    }
}
