//! Who enters: the account of the user who runs the program, by what the system says of it.
ghost use Rattle.std.specs.Prelude.{◌≡◌, ◌++◌, ◌≤◌, [], ℕ, List, IfOk, OnOk, length, option_map, slice_get, unwrap_or};
ghost use Rattle.std.specs.List.{AllPass};
ghost use Rattle.desk_session.specs.Account.{account_text, first_number, has_number, is_printable, name_or_number, parts, printable, shown, user_name, user_number};

use std::alloc::{AllocError, Global};
use std::fs;
use std::rt::Files;

// One of the parts of a text between such bytes.
fn part(text: &[u8], mark: u8, place: usize) -> Option<&[u8]>
    ensures { option_map (λ part. part.now) result ≡ slice_get (parts mark text.now) place }
{
    text.split(|byte| *byte == mark).nth(place)
}

// The first number in a text, as it is written.
fn first_number(text: &[u8]) -> Option<&[u8]>
    ensures { option_map (λ number. number.now) result ≡ first_number text.now }
{
    text.split(|byte| !byte.is_ascii_digit())
        .find(|part| !part.is_empty())
}

// The user's number, by the text of /proc/self/status.
fn user_number(status: &[u8]) -> Option<&[u8]>
    ensures { option_map (λ number. number.now) result ≡ user_number status.now }
{
    let line = status
        .split(|byte| *byte == b'\n')
        .find(|line| line.starts_with(b"Uid:"))?;
    first_number(line)
}

// Whether the third field of a line is this number.
fn has_number(number: &[u8], line: &[u8]) -> bool
    ensures { result ≡ has_number number.now line.now }
{
    match part(line, b':', 2) {
        Some(field) => field == number,
        None => false,
    }
}

// The name of a user's number, by the text of /etc/passwd.
fn user_name<'a>(users: &'a [u8], number: &[u8]) -> Option<&'a [u8]>
    ensures { option_map (λ name. name.now) result ≡ user_name users.now number.now }
{
    let line = users
        .split(|byte| *byte == b'\n')
        .find(|line| has_number(number, line))?;
    part(line, b':', 0)
}

// The name of a user, or the number where there is no name.
fn name_or_number<'a>(users: &'a [u8], number: Option<&'a [u8]>) -> &'a [u8]
    ensures { result.now ≡ name_or_number users.now (option_map (λ number. number.now) number.entry) }
{
    match number {
        Some(number) => match user_name(users, number) {
            Some(name) => name,
            None => number,
        },
        None => &[],
    }
}

// A text, or nothing where there is none.
fn or_nothing(text: Option<&[u8]>) -> &[u8]
    ensures { result.now ≡ unwrap_or (option_map (λ text. text.now) text.entry) [] }
{
    match text {
        Some(text) => text,
        None => &[],
    }
}

// The printable characters of a text, at most 64 of them.
fn printable(alloc: Global, text: &[u8]) -> Result<Vec<u8>, AllocError>
    ensures { IfOk result (λ some. some.items ≡ printable text.now) }
{
    text.iter()
        .copied()
        .filter(|byte| 32 <= *byte && *byte < 127)
        .take(64)
        .collect(alloc)
}

// Adds what an account shows of a text.
#[tactic(auto, using(crate::proofs::AccountLemmas::or_mark_some))]
fn push_shown(account: &mut Vec<u8>, alloc: Global, text: &[u8]) -> Result<(), AllocError>
    ensures { OnOk result (account.new.items ≡ account.old.items ++ shown text.now) }
{
    let some = printable(alloc, text)?;
    if some.is_empty() {
        account.extend_from_slice(b"?")
    } else {
        account.extend_from_slice(&some)
    }
}

// The text of an account, by the texts of the three files.
#[tactic(auto, using(crate::proofs::AccountLemmas::account_is_short), unfolding(crate::specs::Account::account_text))]
fn account_text(
    alloc: Global,
    status: &[u8],
    users: &[u8],
    host: &[u8],
) -> Result<Vec<u8>, AllocError>
    ensures text { IfOk result (λ account. account.items ≡ account_text status.now users.now host.now) }
    ensures short { IfOk result (λ account. length account.items ≤ 200) }
    ensures printable { IfOk result (λ account. AllPass is_printable account.items) }
{
    let number = user_number(status);
    let mut account = Vec::new(alloc);
    push_shown(&mut account, alloc, name_or_number(users, number))?;
    account.extend_from_slice(b"@")?;
    push_shown(&mut account, alloc, or_nothing(part(host, b'\n', 0)))?;
    account.extend_from_slice(b" (")?;
    push_shown(&mut account, alloc, or_nothing(number))?;
    account.extend_from_slice(b")")?;
    Ok(account)
}

// The bytes of a file, or none where it can't be read.
fn bytes_of<R: Files + AllocGlobal>(rt: &R, name: &str) -> Vec<u8> {
    match fs::read(rt, name) {
        Ok(bytes) => bytes,
        Err(_) => Vec::new(rt.alloc()),
    }
}

/// The account of the user who runs the program: 'NAME@HOST (NUMBER)', by what the system says of the real user, and never by
/// the environment. Where the system doesn't say a part, it is a question mark, and the name is the number. `Err` says that
/// memory ran out.
pub fn account_of<R: Files + AllocGlobal>(rt: &R) -> Result<Vec<u8>, AllocError>
    ensures text { IfOk result (λ account. (status : List ℕ) × (users : List ℕ) × (host : List ℕ) × (account.items ≡ account_text status users host)) }
    ensures short { IfOk result (λ account. length account.items ≤ 200) }
    ensures printable { IfOk result (λ account. AllPass is_printable account.items) }
{
    let status = bytes_of(rt, "/proc/self/status");
    let users = bytes_of(rt, "/etc/passwd");
    let host = bytes_of(rt, "/proc/sys/kernel/hostname");
    account_text(rt.alloc(), &status, &users, &host)
}
