//! A text of rows, divided at the end of a line.

ghost use Rattle.std.specs.Prelude.{◌≡◌};
ghost use Rattle.program_runs.specs.Inside.Division.{AreParts, can_be_divided};

/// Whether a text may be divided at any end of a line. It has no quote, in which the end of a line ends no row, and not the
/// first byte of a byte order mark, which is skipped at the beginning of a text alone.
pub(crate) fn can_be_divided(text: &[u8]) -> bool
    ensures { result ≡ can_be_divided text.now }
{
    !text.contains(&b'"') && !text.contains(&0xEF)
}

/// The text divided after the first end of a line that is at this place or after it, or after all of it.
pub(crate) fn divide_after(text: &[u8], place: usize) -> (&[u8], &[u8])
    ensures { AreParts text.now result.0.now result.1.now }
{
    for at in place..text.len() {
        if text[at] == b'\n' {
            return text.split_at(at + 1);
        }
    }
    (text, &[])
}
