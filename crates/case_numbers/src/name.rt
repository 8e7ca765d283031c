//! A case number, read from a text.
ghost use Rattle.std.specs.Prelude.{◌≡◌, ◌≤◌, ◌++◌, ℕ, List, map, true, length, Some, IfOk, OnOk, string_bytes};
ghost use Rattle.std.specs.Char.{to_ascii_uppercase};
ghost use Rattle.std.specs.Str.{IsAscii};
ghost use Rattle.std.specs.Char.{to_ascii_lowercase};
ghost use Rattle.case_numbers.specs.Forms.{form_of};
ghost use Rattle.case_numbers.specs.Number.{NameView, case_read, five_digits, has_office, initials_in, is_whole, key_of, named, named_if, number_in, number_with, office_in, office_text, same_but_office, whole_number, without_office};

use crate::forms::{digits_before, form_of, is_worded, office_of, push_picked};
use crate::initials::{are_initials, dashed};
use std::alloc::{AllocError, Global};
use std::marker::Model;

/// The name of a case: its number as the court writes it.
#[derive(Debug, Drop)]
pub struct CaseName {
    key: Vec<u8>,
    shown: String,
}

impl Model for CaseName {
    ghost Value = { NameView };

    ghost view = { λ n. record { key = n.key.items; shown = string_bytes n.shown } };
}

impl CaseName {
    /// The key that tells cases apart: the office, the year, the kind and five digits.
    pub fn key(&self) -> &[u8]
        ensures { result.now ≡ self.now.key }
    {
        self.key.as_slice()
    }

    /// How it is written, with the initials of the judges.
    pub fn shown(&self) -> &str
        ensures { result.now ≡ self.now.shown }
    {
        self.shown.as_str()
    }

    /// Whether this is another's name but for the offices and the initials of the judges.
    pub fn is_same_but_office(&self, other: &CaseName) -> bool
        ensures { result ≡ same_but_office self.now.key other.now.key }
    {
        without_office(self.key()) == without_office(other.key())
    }

    /// Another of the same name. `Err` says that memory ran out.
    pub fn copy(&self, alloc: Global) -> Result<CaseName, AllocError>
        ensures { IfOk result (λ name. name ≡ self.now) }
    {
        Ok(CaseName {
            key: Vec::from_slice(alloc, self.key.as_slice())?,
            shown: String::from_str(alloc, self.shown.as_str())?,
        })
    }
}

// A key without its office and the colon after it.
fn without_office(key: &[u8]) -> &[u8]
    ensures { result.now ≡ without_office key.now }
{
    match key {
        [] => key,
        [_] => key,
        [_, mark, rest @ ..] => { if *mark == b':' { rest } else { key } }
    }
}

/// Reads a case number. `None` says that the text is none; `Err` that memory ran out.
#[tactic(auto, unfolding(crate::specs::Number::case_read))]
pub fn case_read(alloc: Global, text: &[u8]) -> Result<Option<CaseName>, AllocError>
    ensures { IfOk result (λ name. name ≡ case_read text.now) }
{
    match form_of(text) {
        Some(form) => number_in(alloc, form, text),
        None => Ok(None),
    }
}

// Reads a case number in the first form that fits.
#[tactic(auto, unfolding(crate::specs::Number::number_in))]
fn number_in(alloc: Global, form: &[u8], text: &[u8]) -> Result<Option<CaseName>, AllocError>
    requires { form_of text.now ≡ Some form.now }
    ensures { IfOk result (λ name. name ≡ named_if (number_in form.now text.now)) }
{
    let rest = text.split_at(form.len()).1;
    let count = digits_before(rest);
    let (digits, tail) = rest.split_at(count);
    let office = office_in(alloc, form, text, tail)?;
    let initials = initials_in(alloc, form, tail)?;
    whole_number(
        alloc,
        form,
        text,
        digits,
        office.as_slice(),
        initials.as_slice(),
    )
}

// Whether a form has an office, in the word after its number if it needs one.
fn has_office(form: &[u8], office: &[u8]) -> bool
    ensures { result ≡ has_office form.now office.now }
{
    !(is_worded(form) && office.is_empty())
}

// Whether these are one to five digits, an office and initials.
fn is_whole(form: &[u8], digits: &[u8], office: &[u8], initials: &[u8]) -> bool
    ensures { result ≡ is_whole form.now digits.now office.now initials.now }
{
    1 <= digits.len() && digits.len() <= 5 && has_office(form, office) && are_initials(initials)
}

// The case number with these parts, if they are whole.
fn whole_number(
    alloc: Global,
    form: &[u8],
    text: &[u8],
    digits: &[u8],
    office: &[u8],
    initials: &[u8],
) -> Result<Option<CaseName>, AllocError>
    requires { is_whole form.now digits.now office.now initials.now ≡ true → IsAscii (named (number_with form.now text.now digits.now office.now initials.now)).shown }
    ensures { IfOk result (λ name. name ≡ named_if (whole_number form.now text.now digits.now office.now initials.now)) }
{
    if !is_whole(form, digits, office, initials) {
        return Ok(None);
    }
    let key = key_of(alloc, office, form, text, digits)?;
    named(alloc, key, initials)
}

// The office that a text says that fits a form: its digit, or nothing.
fn office_in(alloc: Global, form: &[u8], text: &[u8], tail: &[u8]) -> Result<Vec<u8>, AllocError>
    ensures { IfOk result (λ office. office.items ≡ office_in form.now text.now tail.now) }
{
    if is_worded(form) {
        Vec::from_slice(alloc, office_of(alloc, tail)?)
    } else {
        let mut office = Vec::new(alloc);
        push_picked(&mut office, b'o', form, text)?;
        Ok(office)
    }
}

// The initials after a number in a form, each group after a dash.
fn initials_in(alloc: Global, form: &[u8], tail: &[u8]) -> Result<Vec<u8>, AllocError>
    ensures { IfOk result (λ initials. initials.items ≡ initials_in form.now tail.now) }
{
    if is_worded(form) {
        match tail {
            [_, _, _, _, rest @ ..] => dashed(alloc, rest),
            _ => dashed(alloc, &[]),
        }
    } else {
        dashed(alloc, tail)
    }
}

// Adds an office and a colon, where there is one.
fn push_office(key: &mut Vec<u8>, office: &[u8]) -> Result<(), AllocError>
    ensures { OnOk result (key.new.items ≡ key.old.items ++ office_text office.now) }
{
    match office {
        [digit, ..] => key.extend_from_slice(&[*digit, b':']),
        [] => Ok(()),
    }
}

// Adds a number with five digits.
fn push_digits(key: &mut Vec<u8>, digits: &[u8]) -> Result<(), AllocError>
    requires { length digits.now ≤ 5 }
    ensures { OnOk result (key.new.items ≡ key.old.items ++ five_digits digits.now) }
{
    key.extend_from_slice(b"00000".split_at(digits.len()).1)?;
    key.extend_from_slice(digits)
}

// The key of a case number in a form.
fn key_of(
    alloc: Global,
    office: &[u8],
    form: &[u8],
    text: &[u8],
    digits: &[u8],
) -> Result<Vec<u8>, AllocError>
    requires { length digits.now ≤ 5 }
    ensures { (initials : List ℕ) → IfOk result (λ key. key.items ≡ key_of (number_with form.now text.now digits.now office.now initials)) }
{
    let mut key = Vec::new(alloc);
    push_office(&mut key, office)?;
    push_picked(&mut key, b'y', form, text)?;
    key.push(b'-')?;
    let mut kind = Vec::new(alloc);
    push_picked(&mut kind, b'k', form, text)?;
    key.extend_from_slice(kind.as_slice().to_ascii_lowercase(alloc)?.as_slice())?;
    key.push(b'-')?;
    push_digits(&mut key, digits)?;
    Ok(key)
}

// The case number with this key and these initials.
fn named(alloc: Global, key: Vec<u8>, initials: &[u8]) -> Result<Option<CaseName>, AllocError>
    requires { IsAscii (key.items ++ map to_ascii_uppercase initials.now) }
    ensures { IfOk result (λ name. name ≡ Some (record { key = key.items; shown = key.items ++ map to_ascii_uppercase initials.now })) }
{
    let mut shown = Vec::from_slice(alloc, key.as_slice())?;
    shown.extend_from_slice(initials.to_ascii_uppercase(alloc)?.as_slice())?;
    match String::from_utf8(shown) {
        Ok(shown) => Ok(Some(CaseName { key, shown })),
        Err(_) => Ok(None),
    }
}
