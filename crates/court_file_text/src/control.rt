//! Control characters.

ghost use Rattle.std.specs.Prelude.{◌≡◌};
ghost use Rattle.court_file_text.specs.Control.{begins_control, has_control, is_control_byte};

// Whether a byte is an ASCII control character.
fn is_control_byte(byte: u8) -> bool
    ensures { result ≡ is_control_byte byte }
{
    byte < 32 || byte == 127
}

// Whether a control character begins with a byte, before others: one of ASCII, or one of U+0080 to U+009F, which has two bytes.
fn begins_control(byte: u8, rest: &[u8]) -> bool
    ensures { result ≡ begins_control byte rest.now }
{
    match rest {
        [] => is_control_byte(byte),
        [next, ..] => is_control_byte(byte) || (byte == 194 && *next < 160),
    }
}

/// Whether a text has a control character.
#[tactic(auto, unfolding(crate::specs::Control::has_control))]
pub fn has_control(text: &[u8]) -> bool
    ensures { result ≡ has_control text.now }
{
    match text {
        [] => false,
        [byte, rest @ ..] => {
            if begins_control(*byte, rest) {
                true
            } else {
                has_control(rest)
            }
        }
    }
}
