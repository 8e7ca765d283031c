//! The rows that a session entered, and what others' corrections make of them.

use desk_entries::{Difference, MOST_ENTRIES, Standing, decided_again};
use desk_numbers::Corrections;
use std::alloc::{AllocError, Global};

// A row that isn't answered any more as it was when it was entered: its number, and the answer that it has. None says that it is struck.
#[derive(Drop)]
struct Changed {
    number: u32,
    answer: Option<Vec<u8>>,
}

/// The rows that a session entered.
#[derive(Drop)]
pub struct OwnRows {
    // Their numbers, in their order.
    numbers: Vec<u32>,
    // Those that are changed, as far as the clerk knows, by number.
    known: Vec<Changed>,
}

// What has become of a row.
#[derive(Clone, Copy)]
enum Became<'a> {
    Unchanged,
    Struck,
    Answered(&'a [u8]),
}

// The first of some changed rows, where it has that number.
fn first_known(known: &[Changed], number: u32) -> Became<'_> {
    match known {
        [first, ..] if first.number == number => match &first.answer {
            Some(answer) => Became::Answered(answer),
            None => Became::Struck,
        },
        _ => Became::Unchanged,
    }
}

// Those after it.
fn rest_known(known: &[Changed], number: u32) -> &[Changed] {
    match known {
        [first, rest @ ..] if first.number <= number => rest,
        _ => known,
    }
}

// The differences from that number on.
fn from_number(differences: &[Difference], number: u32) -> &[Difference] {
    let mut rest = differences;
    for _ in 0..differences.len() {
        match rest {
            [first, after @ ..] if first.number < number => rest = after,
            _ => break,
        }
    }
    rest
}

// What has become of the row of that number, where these differences are left from it on.
fn made_of<'a>(
    corrections: &Corrections,
    differences: &'a [Difference],
    number: u32,
) -> Became<'a> {
    if corrections.is_struck(number) {
        return Became::Struck;
    }
    match differences {
        [first, ..] if first.number == number => Became::Answered(&first.answer),
        _ => Became::Unchanged,
    }
}

// Adds what is said of a row, where it has become something else than the clerk knows.
fn push_change(
    alloc: Global,
    text: &mut Vec<u8>,
    number: u32,
    known: Became<'_>,
    now: Became<'_>,
) -> Result<(), AllocError> {
    match (known, now) {
        (Became::Unchanged, Became::Unchanged) | (Became::Struck, Became::Struck) => Ok(()),
        (Became::Answered(known), Became::Answered(now)) if known == now => Ok(()),
        (_, Became::Unchanged) => {
            let line = format!(in alloc; "docket: row {number} is answered again as it was\n")?;
            text.extend_from_slice(line.as_bytes())
        }
        (_, Became::Struck) => {
            let line = format!(in alloc; "docket: row {number} was struck\n")?;
            text.extend_from_slice(line.as_bytes())
        }
        (_, Became::Answered(now)) => {
            let line = format!(in alloc;
                "docket: since others corrected the docket, row {number} is answered\n"
            )?;
            text.extend_from_slice(line.as_bytes())?;
            text.extend_from_slice(now)
        }
    }
}

// Adds the row of that number to those that are changed, if it is.
fn push_known(
    alloc: Global,
    known: &mut Vec<Changed>,
    number: u32,
    now: Became<'_>,
) -> Result<(), AllocError> {
    let answer = match now {
        Became::Unchanged => return Ok(()),
        Became::Struck => None,
        Became::Answered(answer) => Some(Vec::from_slice(alloc, answer)?),
    };
    known.push(Changed { number, answer })?;
    Ok(())
}

impl OwnRows {
    /// None yet.
    pub fn new(alloc: Global) -> OwnRows {
        OwnRows {
            numbers: Vec::new(alloc),
            known: Vec::new(alloc),
        }
    }

    /// Adds those that came after so many rows, up to so many.
    pub fn add(&mut self, before: u32, after: u32) -> Result<(), AllocError> {
        for number in before..after {
            self.numbers.push(number.saturating_add(1))?;
        }
        Ok(())
    }

    // What is said of the rows that have become something else than the clerk knows, and from now on the clerk knows it.
    fn told(
        &mut self,
        alloc: Global,
        corrections: &Corrections,
        differences: &[Difference],
    ) -> Result<Vec<u8>, AllocError> {
        let (mut text, mut next) = (Vec::new(alloc), Vec::new(alloc));
        let (mut known, mut left) = (self.known.as_slice(), differences);
        for number in &self.numbers {
            left = from_number(left, *number);
            let now = made_of(corrections, left, *number);
            push_change(alloc, &mut text, *number, first_known(known, *number), now)?;
            push_known(alloc, &mut next, *number, now)?;
            known = rest_known(known, *number);
        }
        self.known = next;
        Ok(text)
    }

    /// What is said to the clerk of rows that are struck or answered otherwise, where these are the entries and what stands after others
    /// corrected the docket.
    pub fn told_of_corrections(
        &mut self,
        alloc: Global,
        standing: &Standing,
        entries: &[Vec<u8>],
    ) -> Result<Vec<u8>, AllocError> {
        if self.numbers.is_empty() || entries.is_empty() || entries.len() > MOST_ENTRIES as usize {
            return Ok(Vec::new(alloc));
        }
        let review = decided_again(alloc, standing, entries)?;
        self.told(alloc, &standing.corrections, &review.differences)
    }
}
