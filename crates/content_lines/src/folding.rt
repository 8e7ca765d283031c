//! Lines that are folded as they are sent.

ghost use Rattle.std.specs.Prelude.{◌≡◌, ◌++◌, OnOk, string_bytes};
ghost use Rattle.content_lines.specs.Folding.{folded, sent_line};

use std::alloc::AllocError;

/// How many bytes a line may have, without its end.
const LONGEST: usize = 75;

/// Adds a content line as it is sent. `Err` says that memory ran out.
#[tactic(auto, unfolding(crate::specs::Folding::sent_line))]
pub(crate) fn push_sent(text: &mut String, line: &str) -> Result<(), AllocError>
    ensures { OnOk result (string_bytes text.new ≡ string_bytes text.old ++ sent_line line.now) }
{
    push_folded(text, line)?;
    text.push_str("\r\n")
}

/// Adds a content line, folded, without its end.
fn push_folded(text: &mut String, line: &str) -> Result<(), AllocError>
    ensures { OnOk result (string_bytes text.new ≡ string_bytes text.old ++ folded 75 line.now) }
{
    let mut room = LONGEST;
    for c in line.chars() {
        let width = c.len_utf8();
        if width > room {
            text.push_str("\r\n ")?;
            room = LONGEST - 1;
        }
        text.push(c)?;
        room -= width;
    }
    Ok(())
}
