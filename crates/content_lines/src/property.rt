//! A property, as a line that is sent.

ghost use Rattle.std.specs.Prelude.{◌≡◌, ◌++◌, OnOk, string_bytes};
ghost use Rattle.content_lines.specs.Folding.{sent_line};
ghost use Rattle.content_lines.specs.Property.{property};

use crate::escaping::push_escaped;
use crate::folding::push_sent;
use std::alloc::AllocError;

/// Adds the line of a property, as it is sent. `line` is a place to work in, and is emptied first. `Err` says that memory ran
/// out.
#[tactic(auto, unfolding(crate::specs::Property::property))]
pub fn push_property(
    text: &mut String,
    line: &mut String,
    name: &str,
    value: &str,
) -> Result<(), AllocError>
    ensures { OnOk result (string_bytes text.new ≡ string_bytes text.old ++ sent_line (property name.now value.now)) }
{
    line.clear();
    line.push_str(name)?;
    line.push_str(":")?;
    push_escaped(line, value)?;
    push_sent(text, line.as_str())
}
