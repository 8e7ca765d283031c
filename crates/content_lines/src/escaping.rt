//! Values that are escaped.

ghost use Rattle.std.specs.Prelude.{◌≡◌, ◌++◌, OnOk, encode_utf8, string_bytes};
ghost use Rattle.content_lines.specs.Escaping.{escaped};

use std::alloc::AllocError;

/// Adds a text as a value has it. `Err` says that memory ran out.
pub(crate) fn push_escaped(line: &mut String, value: &str) -> Result<(), AllocError>
    ensures { OnOk result (string_bytes line.new ≡ string_bytes line.old ++ escaped value.now) }
{
    for c in value.chars() {
        push_escaped_char(line, c)?;
    }
    Ok(())
}

/// Adds a character as a value has it.
fn push_escaped_char(line: &mut String, c: char) -> Result<(), AllocError>
    ensures { OnOk result (string_bytes line.new ≡ string_bytes line.old ++ escaped (encode_utf8 c)) }
{
    match c {
        '\n' => line.push_str("\\n"),
        '\\' => line.push_str("\\\\"),
        ';' => line.push_str("\\;"),
        ',' => line.push_str("\\,"),
        '\t' => line.push_str("\t"),
        '\0'..='\u{1f}' | '\u{7f}' => Ok(()),
        c => line.push(c),
    }
}
