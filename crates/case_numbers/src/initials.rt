//! The initials of judges, after a case number.
ghost use Rattle.std.specs.Prelude.{◌≡◌, false, IfOk};
ghost use Rattle.case_numbers.specs.Forms.{are_groups, are_initials, as_dash, dashed, out_of_brackets};

use std::alloc::{AllocError, Global};

/// Whether a text is the initials of judges.
pub(crate) fn are_initials(text: &[u8]) -> bool
    ensures { result ≡ are_initials text.now }
{
    match text {
        [dash, rest @ ..] => *dash == b'-' && are_groups(rest),
        _ => true,
    }
}

// Whether a text is groups of letters with a dash between them.
fn are_groups(text: &[u8]) -> bool
    ensures { result ≡ are_groups false text.now }
{
    let mut letter = false;
    for byte in text {
        if byte.is_ascii_alphabetic() {
            letter = true;
        } else if letter && *byte == b'-' {
            letter = false;
        } else {
            return false;
        }
    }
    letter
}

// A slash as a dash.
fn as_dash(byte: u8) -> u8
    ensures { result ≡ as_dash byte }
{
    if byte == b'/' { b'-' } else { byte }
}

// What is in brackets, after a dash.
fn out_of_brackets(alloc: Global, whole: &[u8], inner: &[u8]) -> Result<Vec<u8>, AllocError>
    ensures { IfOk result (λ text. text.items ≡ out_of_brackets whole.now inner.now) }
{
    if !inner.ends_with(b")") {
        return Vec::from_slice(alloc, whole);
    }
    let mut text = vec![in alloc; b'-']?;
    for byte in inner.split_at(inner.len() - 1).0 {
        text.push(as_dash(*byte))?;
    }
    Ok(text)
}

/// Initials that may be in brackets, after dashes. `Err` says that memory ran out.
#[tactic(auto, unfolding(crate::specs::Forms::dashed))]
pub(crate) fn dashed(alloc: Global, text: &[u8]) -> Result<Vec<u8>, AllocError>
    ensures { IfOk result (λ initials. initials.items ≡ dashed text.now) }
{
    if text.starts_with(b" (") {
        out_of_brackets(alloc, text, text.split_at(2).1)
    } else if text.starts_with(b"(") {
        out_of_brackets(alloc, text, text.split_at(1).1)
    } else {
        Vec::from_slice(alloc, text)
    }
}
