//! What a correction says of rows, as the words of its first line.
ghost use Rattle.std.specs.Prelude.{◌≡◌, ◌++◌, ◌∷◌, [], string_bytes, IfOk, OnOk};
ghost use Rattle.office_texts.specs.Added.{AddsText};
ghost use Rattle.desk_numbers.specs.Strikes.SaidText.{counted_by, entry_with, letter_of, numbers_said, said_as, said_in, said_text, word_of};

use crate::given::Given;
use crate::said::Said;
use crate::strikes::words::{cut, numeral_of};
use docket_rows::Counted;
use office_texts::push_number;
use std::alloc::{AllocError, Global};

/// What an entry says of rows, in its first line. Words there that say no number are passed over. `Err` says that memory ran out.
#[tactic(auto, unfolding(crate::specs::Strikes::SaidText::said_in))]
pub fn said_in(alloc: Global, entry: &[u8]) -> Result<Vec<Said>, AllocError>
    ensures { IfOk result (λ said. said.items ≡ said_in entry.now) }
{
    let mut said = Vec::new(alloc);
    let mut line = cut(entry, b'\n').0;
    'line: while !line.is_empty() {
        let (word, rest) = cut(line, b' ');
        if let Some(one) = said_as(word) {
            said.push(one)?;
        }
        line = rest;
    }
    Ok(said)
}

// What a word says, if it says a number.
#[tactic(auto, unfolding(crate::specs::Strikes::SaidText::said_as))]
fn said_as(word: &[u8]) -> Option<Said>
    ensures { result ≡ said_as word.now }
{
    match word {
        [letter, text @ ..] => numbers_said(text, counted_by(*letter)?),
        [] => None,
    }
}

// Of what a word says a number, by its letter.
fn counted_by(letter: u8) -> Option<Counted>
    ensures { result ≡ counted_by letter }
{
    match letter {
        b'd' => Some(Counted::Deadline),
        b'm' => Some(Counted::Motion),
        _ => None,
    }
}

// What stands after the letter: three numbers, with dots between them.
fn numbers_said(text: &[u8], counted: Counted) -> Option<Said>
    ensures { result ≡ numbers_said text.now counted }
{
    let (row, rest) = cut(text, b'.');
    let (case, number) = cut(rest, b'.');
    Some(Said {
        row: numeral_of(row)?,
        given: Given {
            case: numeral_of(case)?,
            counted,
            number: numeral_of(number)?,
        },
    })
}

/// Adds to a first line what it says of rows. `Err` says that memory ran out.
pub fn push_said(alloc: Global, text: &mut Vec<u8>, said: &[Said]) -> Result<(), AllocError>
    ensures { OnOk result (text.new.items ≡ text.old.items ++ said_text said.now) }
{
    let words = words_of(alloc, said)?;
    text.extend_from_slice(words.as_bytes())?;
    Ok(())
}

// The words, each after a blank. `Err` says that memory ran out.
fn words_of(alloc: Global, said: &[Said]) -> Result<String, AllocError>
    ensures { IfOk result (λ words. string_bytes words ≡ said_text said.now) }
{
    let mut words = String::new(alloc);
    'said: for one in said {
        push_word(&mut words, one)?;
    }
    Ok(words)
}

// Adds a blank, and the word of one. `Err` says that memory ran out.
fn push_word(text: &mut String, said: &Said) -> Result<(), AllocError>
    ensures { OnOk result (AddsText text.old text.new (32 ∷ word_of said.now)) }
{
    text.push_str(" ")?;
    text.push_str(letter_of(said.given.counted))?;
    push_number(text, u64::from(said.row))?;
    text.push_str(".")?;
    push_number(text, u64::from(said.given.case))?;
    text.push_str(".")?;
    push_number(text, u64::from(said.given.number))
}

// The letter of a word.
fn letter_of(counted: Counted) -> &'static str
    ensures { result.now ≡ letter_of counted ∷ [] }
{
    match counted {
        Counted::Deadline => "d",
        Counted::Motion => "m",
    }
}

// The entry whose first line begins so, and says this; what comes after it is on the lines below. `Err` says that memory ran out.
pub(crate) fn entry_with(
    alloc: Global,
    begins: String,
    said: &[Said],
    rest: &[u8],
) -> Result<Vec<u8>, AllocError>
    ensures { IfOk result (λ entry. entry.items ≡ entry_with (string_bytes begins) said.now rest.now) }
{
    let mut entry = begins.into_bytes();
    push_said(alloc, &mut entry, said)?;
    entry.push(b'\n')?;
    entry.extend_from_slice(rest)?;
    Ok(entry)
}
