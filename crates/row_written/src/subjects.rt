//! What a field says that is a number, or a name in place of one: a case number, a Rule, and what deadlines and motions are called.

ghost use Rattle.std.specs.Prelude.{◌≡◌, IfOk, string_bytes};
ghost use Rattle.row_fields.specs.Words.{said_map};
ghost use Rattle.row_written.specs.Subjects.{case_said, deadline_said, has_mark, label_said, may_be_label, motion_said, number_or_label, number_said, rule_or_label, text_said};

use crate::names::owned;
use case_numbers::case_read;
use row_fields::{Said, bare, folded, rule_said};
use row_forms::is_number;
use std::alloc::{AllocError, Global};

// A number: the field as it is.
pub(crate) fn number_said(alloc: Global, text: &str) -> Result<Said<String>, AllocError>
    ensures { IfOk result (λ said. said_map string_bytes said ≡ number_said text.now) }
{
    if is_number(text.as_bytes()) {
        Ok(Said::Clear(String::from_str(alloc, text)?))
    } else {
        Ok(Said::Unknown)
    }
}

// Whether a text has a question mark, which may stand for a letter that plain keys don't type.
pub(crate) fn has_mark(text: &[u8]) -> bool
    ensures { result ≡ has_mark text.now }
{
    text.iter().any(|byte| *byte == b'?')
}

// What something is called: the field as it is.
pub(crate) fn text_said(alloc: Global, text: &str) -> Result<Said<String>, AllocError>
    ensures { IfOk result (λ said. said_map string_bytes said ≡ text_said text.now) }
{
    if has_mark(text.as_bytes()) {
        Ok(Said::Unknown)
    } else {
        Ok(Said::Clear(String::from_str(alloc, text)?))
    }
}

// A case: its number, or its case number as the court writes it.
pub(crate) fn case_said(alloc: Global, text: &str) -> Result<Said<String>, AllocError>
    ensures { IfOk result (λ said. said_map string_bytes said ≡ case_said text.now) }
{
    if is_number(text.as_bytes()) {
        return Ok(Said::Clear(String::from_str(alloc, text)?));
    }
    let text = bare(alloc, text)?;
    match case_read(alloc, text.as_bytes())? {
        Some(name) => Ok(Said::Clear(String::from_str(alloc, name.shown())?)),
        None => Ok(Said::Unknown),
    }
}

// Whether a field may be what something is called: it isn't empty, and what begins with a digit is a slip of a number, or of a Rule's
// number.
fn may_be_label(text: &[u8]) -> bool
    ensures { result ≡ may_be_label text.now }
{
    match text {
        [] => false,
        [byte, ..] => !byte.is_ascii_digit(),
    }
}

// What a deadline or a motion is called: the field as it is.
fn label_said(alloc: Global, text: &str) -> Result<Said<String>, AllocError>
    ensures { IfOk result (λ said. said_map string_bytes said ≡ label_said text.now) }
{
    if may_be_label(text.as_bytes()) {
        text_said(alloc, text)
    } else {
        Ok(Said::Unknown)
    }
}

// A Rule's number, or what a deadline is called where the field is none.
fn rule_or_label(alloc: Global, said: Said<String>, text: &str) -> Result<Said<String>, AllocError>
    ensures { IfOk result (λ then. said_map string_bytes then ≡ rule_or_label (said_map string_bytes said) text.now) }
{
    match said {
        Said::Unknown => label_said(alloc, text),
        Said::Clear(code) => Ok(Said::Clear(code)),
        Said::Unclear(one, other) => Ok(Said::Unclear(one, other)),
    }
}

// A deadline: its number, a Rule's number, or what it is called.
pub(crate) fn deadline_said(alloc: Global, text: &str) -> Result<Said<String>, AllocError>
    ensures { IfOk result (λ said. said_map string_bytes said ≡ deadline_said text.now) }
{
    if is_number(text.as_bytes()) {
        Ok(Said::Clear(String::from_str(alloc, text)?))
    } else {
        let word = folded(alloc, text)?;
        let said = owned(alloc, rule_said(word.as_str()))?;
        rule_or_label(alloc, said, text)
    }
}

// A deadline or a motion: its number, or what it is called.
pub(crate) fn number_or_label(alloc: Global, text: &str) -> Result<Said<String>, AllocError>
    ensures { IfOk result (λ said. said_map string_bytes said ≡ number_or_label text.now) }
{
    if is_number(text.as_bytes()) {
        Ok(Said::Clear(String::from_str(alloc, text)?))
    } else {
        label_said(alloc, text)
    }
}

// A motion: its number, the last, or what it is called.
pub(crate) fn motion_said(alloc: Global, text: &str) -> Result<Said<String>, AllocError>
    ensures { IfOk result (λ said. said_map string_bytes said ≡ motion_said text.now) }
{
    let word = folded(alloc, text)?;
    if word.as_str() == "last" {
        Ok(Said::Clear(word))
    } else {
        number_or_label(alloc, text)
    }
}
