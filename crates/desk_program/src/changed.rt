//! The rows whose answers a correction changes.
ghost use Rattle.std.specs.Prelude.{◌≡◌, ◌-◌, ◌++◌, [], map, option_copied, option_map, IfOk, OnOk};
ghost use Rattle.std.specs.List.{cons_option};
ghost use Rattle.desk_numbers.specs.Strikes.Words.{is_struck};
ghost use Rattle.desk_entries.specs.Past.{answer_in};
ghost use Rattle.desk_entries.specs.Words.{change_in};
ghost use Rattle.desk_program.specs.Changed.{changed_row};
ghost use Rattle.desk_program.specs.Inside.Changed.{first_of, rest_of, walked};

use case_numbers::after_name;
use desk_entries::Difference;
use desk_numbers::{Corrections, remark_in};
use std::alloc::{AllocError, Global};
use std::marker::Model;

/// A row that would be answered otherwise than now.
#[derive(Drop)]
pub(crate) struct ChangedRow<'a> {
    /// The row's number, counted from 1.
    pub number: u32,
    /// Its entry.
    pub entry: &'a [u8],
    /// The answer that it has now, where that isn't the one that its entry keeps.
    pub had: Option<&'a [u8]>,
    /// The answer that it would get.
    pub answer: &'a [u8],
}

impl<'a> Model for ChangedRow<'a> {
    ghost use Rattle.std.specs.Prelude.{option_map};
    ghost use Rattle.desk_program.specs.Changed.{ChangedRowView};

    ghost Value = { ChangedRowView };

    ghost view = { λ r. record { number = r.number; entry = r.entry.now; had = option_map (λ h. h.now) r.had; answer = r.answer.now } };
}

// The first difference, where it is that of the row.
fn first_of(differences: &[Difference], number: u32) -> Option<&Difference>
    ensures { option_map change_in (option_copied result) ≡ first_of (map change_in differences.now) number }
{
    match differences {
        [first, ..] => {
            if first.number == number {
                Some(first)
            } else {
                None
            }
        }
        [] => None,
    }
}

// Those after it.
fn rest_of(differences: &[Difference], number: u32) -> &[Difference]
    ensures { map change_in result.now ≡ rest_of (map change_in differences.now) number }
{
    match differences {
        [first, rest @ ..] => {
            if first.number == number {
                rest
            } else {
                differences
            }
        }
        [] => differences,
    }
}

/// The answer that the entry of a row keeps.
pub(crate) fn answer_in(entry: &[u8]) -> &[u8]
    ensures { result.now ≡ answer_in entry.now }
{
    remark_in(after_name(entry))
}

// The row with these changes, now and after the correction, if it is changed.
fn changed_row<'a>(
    struck: bool,
    had: Option<&'a Difference>,
    has: Option<&'a Difference>,
) -> Option<ChangedRow<'a>>
    ensures { cons_option result [] ≡ changed_row struck (option_map change_in (option_copied had.entry)) (option_map change_in (option_copied has.entry)) }
{
    match (had, has) {
        (None, None) => None,
        (None, Some(has)) => Some(ChangedRow {
            number: has.number,
            entry: &has.entry,
            had: None,
            answer: &has.answer,
        }),
        (Some(had), None) => {
            if struck {
                return None;
            }
            Some(ChangedRow {
                number: had.number,
                entry: &had.entry,
                had: Some(&had.answer),
                answer: answer_in(&had.entry),
            })
        }
        (Some(had), Some(has)) => {
            if had.answer == has.answer {
                return None;
            }
            Some(ChangedRow {
                number: has.number,
                entry: &has.entry,
                had: Some(&had.answer),
                answer: &has.answer,
            })
        }
    }
}

// Adds the row of that number, if it is changed, where these differences are left now and after the correction.
fn push_changed<'a>(
    rows: &mut Vec<ChangedRow<'a>>,
    corrections: &Corrections,
    had: &'a [Difference],
    has: &'a [Difference],
    number: u32,
) -> Result<(), AllocError>
    ensures { OnOk result (rows.new.items ≡ rows.old.items ++ changed_row (is_struck corrections.now number) (first_of (map change_in had.now) number) (first_of (map change_in has.now) number)) }
{
    match changed_row(
        corrections.is_struck(number),
        first_of(had, number),
        first_of(has, number),
    ) {
        Some(row) => {
            rows.push(row)?;
            Ok(())
        }
        None => Ok(()),
    }
}

/// The rows before the next that are answered otherwise after a correction than now: these are the differences now, and these are
/// those after it, each by number. `Err` says that memory ran out.
pub(crate) fn changed_rows<'a>(
    alloc: Global,
    corrections: &Corrections,
    had: &'a [Difference],
    has: &'a [Difference],
    next: u32,
) -> Result<Vec<ChangedRow<'a>>, AllocError>
    ensures { IfOk result (λ rows. rows.items ≡ walked corrections.now (next - 1) 1 (map change_in had.now) (map change_in has.now)) }
{
    let mut rows = Vec::new(alloc);
    let (mut had, mut has) = (had, has);
    for number in 1..next {
        push_changed(&mut rows, corrections, had, has, number)?;
        had = rest_of(had, number);
        has = rest_of(has, number);
    }
    Ok(rows)
}
