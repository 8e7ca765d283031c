//! What a clerk is warned of a case that is opened by a number which differs from another's only by its office.

ghost use Rattle.std.specs.Prelude.{◌≡◌, ◌++◌, OnOk, option_copied, string_bytes};
ghost use Rattle.desk_warnings.specs.Office.{alike_note, named_alike, office_note};

use case_numbers::{CaseName, Cases, NamedCase};
use reason_texts::push_note;
use std::alloc::{AllocError, Global};

/// Adds which case's number differs only so from a new one, where a row gives one.
pub(crate) fn push_office(
    alloc: Global,
    text: &mut String,
    cases: &Cases,
    name: &Option<CaseName>,
) -> Result<(), AllocError>
    ensures { OnOk result (string_bytes text.new ≡ string_bytes text.old ++ office_note cases.now.named name.now) }
{
    match name {
        Some(name) => push_alike(alloc, text, named_alike(cases.named(), name)),
        None => Ok(()),
    }
}

/// The first of these cases whose number differs only so.
fn named_alike<'a>(named: &'a [NamedCase], name: &CaseName) -> Option<&'a NamedCase>
    ensures { option_copied result ≡ named_alike named.now name.now }
{
    named.iter().find(|case| case.name.is_same_but_office(name))
}

/// Adds the note on such a case, if there is one.
fn push_alike(alloc: Global, text: &mut String, case: Option<&NamedCase>) -> Result<(), AllocError>
    ensures { OnOk result (string_bytes text.new ≡ string_bytes text.old ++ alike_note (option_copied case.entry)) }
{
    match case {
        Some(case) => {
            let shown = case.name.shown();
            let what = format!(in alloc; "case {shown} differs only by its office")?;
            push_note(text, None, what.as_str(), "note")
        }
        None => Ok(()),
    }
}
