//! The forms in which courts write case numbers.
ghost use Rattle.std.specs.Prelude.{◌≡◌, ◌≤◌, ◌++◌, length, option_map, IfOk, OnOk};
ghost use Rattle.std.specs.Char.{is_ascii_digit};
ghost use Rattle.std.specs.List.{prefix_len};
ghost use Rattle.case_numbers.specs.Forms.{fits, form_of, is_at, is_worded, office_of, picked};

use std::alloc::{AllocError, Global};

// Whether a byte may be where a form has this letter.
fn is_at(letter: u8, byte: u8) -> bool
    ensures { result ≡ is_at letter byte }
{
    match letter {
        b'o' | b'y' => byte.is_ascii_digit(),
        b'k' => byte.is_ascii_alphabetic(),
        _ => byte == letter,
    }
}

// Whether a text begins as a form says.
#[tactic(auto, unfolding(crate::specs::Forms::fits))]
fn fits(form: &[u8], text: &[u8]) -> bool
    ensures { result ≡ fits form.now text.now }
{
    match form {
        [letter, form @ ..] => match text {
            [byte, text @ ..] => is_at(*letter, *byte) && fits(form, text),
            _ => false,
        },
        _ => true,
    }
}

/// The first form that fits a text: what comes before the number.
pub(crate) fn form_of(text: &[u8]) -> Option<&'static [u8]>
    ensures { option_map (λ form. form.now) result ≡ form_of text.now }
{
    if fits(b"o:yy-kk-", text) {
        Some(b"o:yy-kk-")
    } else if fits(b"yy-kk-", text) {
        Some(b"yy-kk-")
    } else if fits(b"o:20yy-kk-", text) {
        Some(b"o:20yy-kk-")
    } else if fits(b"20yy-kk-", text) {
        Some(b"20yy-kk-")
    } else if fits(b"o:yykk", text) {
        Some(b"o:yykk")
    } else if fits(b"yykk", text) {
        Some(b"yykk")
    } else if fits(b"o:20yykk", text) {
        Some(b"o:20yykk")
    } else if fits(b"20yykk", text) {
        Some(b"20yykk")
    } else if fits(b"kk-yy-", text) {
        Some(b"kk-yy-")
    } else {
        None
    }
}

/// Adds the bytes of a text that are where a form has this letter. `Err` says that memory ran out.
#[tactic(auto, unfolding(crate::specs::Forms::picked))]
pub(crate) fn push_picked(
    found: &mut Vec<u8>,
    letter: u8,
    form: &[u8],
    text: &[u8],
) -> Result<(), AllocError>
    ensures { OnOk result (found.new.items ≡ found.old.items ++ picked letter form.now text.now) }
{
    match form {
        [here, form @ ..] => match text {
            [byte, text @ ..] => {
                if *here == letter {
                    found.push(*byte)?;
                }
                push_picked(found, letter, form, text)
            }
            _ => Ok(()),
        },
        _ => Ok(()),
    }
}

/// Whether the kind comes first in a form.
pub(crate) fn is_worded(form: &[u8]) -> bool
    ensures { result ≡ is_worded form.now }
{
    form.starts_with(b"k")
}

/// The digit of the office whose word comes after the number, or nothing. `Err` says that memory ran out.
pub(crate) fn office_of(alloc: Global, tail: &[u8]) -> Result<&'static [u8], AllocError>
    ensures { IfOk result (λ office. office.now ≡ office_of tail.now) }
{
    let small = tail.to_ascii_lowercase(alloc)?;
    if small.starts_with(b"-phx") {
        Ok(b"2")
    } else if small.starts_with(b"-pct") {
        Ok(b"3")
    } else if small.starts_with(b"-tuc") {
        Ok(b"4")
    } else {
        Ok(b"")
    }
}

/// How many digits a text begins with.
pub(crate) fn digits_before(text: &[u8]) -> usize
    ensures count { result ≡ prefix_len is_ascii_digit text.now }
    ensures within { result ≤ length text.now }
{
    let mut count = 0;
    while count < text.len() && text[count].is_ascii_digit() {
        count += 1;
    }
    count
}
