//! Texts that a character divides.

ghost use Rattle.std.specs.Prelude.{◌≡◌, ◌<◌, option_map};
ghost use Rattle.row_forms.specs.Fields.Cut.{cut_at};

/// The text before the first such character, which is one of ASCII, and the text after it.
pub fn cut_at(text: &str, mark: char) -> Option<(&str, &str)>
    requires { mark < 128 }
    ensures { option_map (λ cut. (cut.0.now, cut.1.now)) result ≡ cut_at mark text.now }
{
    text.split_once(mark)
}
