//! The lines of an input that is there as a whole.
ghost use Rattle.std.specs.Prelude.{◌≡◌, ◌<◌, ◌-◌, ◌^◌, ◌↔◌, [], IsTrue, MatchOption, option_map};
ghost use Rattle.desk_session.specs.Lines.{HasNoEnd, IsFirstLine, NumberedLinesAreLines, after_mark, ends_line, mark_of, number_after, unfinished_of, unmarked};

/// The byte between the rows of a line that are to be kept together: ASCII's record separator.
pub const BETWEEN_ROWS: u8 = 30;

/// An input, split after its first line.
#[derive(Clone, Copy)]
pub struct SplitLine<'a> {
    /// The first line, without its end.
    pub line: &'a [u8],
    /// The byte that ends it.
    pub end: u8,
    /// What comes after it.
    pub rest: &'a [u8],
}

// Whether the byte ends a line.
pub(crate) fn ends_line(byte: u8) -> bool
    ensures { result ≡ ends_line byte }
{
    byte == b'\n' || byte == b'\r'
}

/// Splits an input after its first line. `None` says that no line has an end.
pub fn split_line(bytes: &[u8]) -> Option<SplitLine<'_>>
    ensures { MatchOption result (HasNoEnd bytes.now) (λ split. IsFirstLine bytes.now split.line.now split.end split.rest.now) }
{
    for place in 0..bytes.len() {
        if ends_line(bytes[place]) {
            let (line, after) = bytes.split_at(place);
            return Some(SplitLine {
                line,
                end: bytes[place],
                rest: after.split_at(1).1,
            });
        }
    }
    None
}

/// The number of the line after one of this number and with this end, in a file whose lines are counted by their line feeds.
pub fn number_after(number: usize, end: u8) -> usize
    requires { number < 2 ^ 64 - 1 }
    ensures { result ≡ number_after number end }
{
    if end == b'\n' { number + 1 } else { number }
}

/// Whether the last line of an input has an end.
pub fn is_finished(input: &[u8]) -> bool
    ensures { IsTrue result ↔ (unfinished_of input.now ≡ []) }
{
    match input.split_last() {
        None => true,
        Some((byte, _)) => ends_line(*byte),
    }
}

/// A law, the contract of a function that does nothing: the lines that are numbered are all lines, in their order.
#[tactic(auto, using(crate::proofs::LineLemmas::numbered_lines_are_lines_lem))]
pub fn numbered_lines_are_lines()
    ensures { NumberedLinesAreLines }
{}

/// What comes after the '!' with which a line begins, if it does: a clerk has marked it.
pub fn after_mark(line: &[u8]) -> Option<&[u8]>
    ensures { option_map (λ rest. rest.now) result ≡ after_mark line.now }
{
    line.strip_prefix(b"!")
}

/// A line without its mark, where lines may be marked.
pub fn unmarked(marked: bool, line: &[u8]) -> &[u8]
    ensures { result.now ≡ unmarked marked line.now }
{
    if !marked {
        return line;
    }
    match after_mark(line) {
        Some(rest) => rest,
        None => line,
    }
}

/// The mark of a line, where lines may be marked.
pub fn mark_of(marked: bool, line: &[u8]) -> &[u8]
    ensures { result.now ≡ mark_of marked line.now }
{
    if !marked {
        return &[];
    }
    match after_mark(line) {
        Some(_) => b"!",
        None => &[],
    }
}
