//! Where a text in quotes, a comment or a line ends.

/// How many bytes there are before the next line end, or before the end of the text, from `at` on.
pub(crate) fn line_end(text: &[u8], at: usize) -> usize {
    let Some(rest) = text.get(at..) else {
        return text.len();
    };
    for (count, byte) in rest.iter().enumerate() {
        if *byte == b'\n' {
            return at.saturating_add(count);
        }
    }
    text.len()
}

/// How many bytes there are before the end of the text in quotes that begins at `at`, the last quote included.
pub(crate) fn quoted_end(text: &[u8], at: usize) -> usize {
    match text.get(at..) {
        Some([b'"', b'"', b'"', rest @ ..]) => at
            .saturating_add(3)
            .saturating_add(long_end(rest, b'"')),
        Some([b'\'', b'\'', b'\'', rest @ ..]) => at
            .saturating_add(3)
            .saturating_add(long_end(rest, b'\'')),
        Some([quote, rest @ ..]) => at.saturating_add(1).saturating_add(short_end(rest, *quote)),
        _ => text.len(),
    }
}

/// How many of the bytes belong to a text in quotes, of whose first quote they come after.
fn short_end(rest: &[u8], quote: u8) -> usize {
    let mut escaped = false;
    for (count, byte) in rest.iter().enumerate() {
        if escaped {
            escaped = false;
        } else if *byte == quote {
            return count.saturating_add(1);
        } else if *byte == b'\n' {
            return count;
        } else if *byte == b'\\' && quote == b'"' {
            escaped = true;
        }
    }
    rest.len()
}

/// The same of a text in three quotes on each side, which goes over lines. It may end in five quotes, of which two are its
/// own.
fn long_end(rest: &[u8], quote: u8) -> usize {
    let mut escaped = false;
    let mut quotes: usize = 0;
    for (count, byte) in rest.iter().enumerate() {
        if escaped {
            escaped = false;
        } else if *byte == quote {
            quotes = quotes.saturating_add(1);
            if quotes >= 5 {
                return count.saturating_add(1);
            }
        } else {
            if quotes >= 3 {
                return count;
            }
            quotes = 0;
            escaped = *byte == b'\\' && quote == b'"';
        }
    }
    rest.len()
}
