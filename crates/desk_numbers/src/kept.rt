//! What rows gave before: they keep it.
ghost use Rattle.std.specs.Prelude.{◌≡◌, [], IfOk};
ghost use Rattle.desk_numbers.specs.Kept.{after_given, kept_of};
ghost use Rattle.desk_numbers.specs.Tops.{AllNoted};

use crate::given::Given;
use crate::tops::Tops;
use docket_rows::Counted;
use std::alloc::{AllocError, Global};
use std::marker::Model;

/// By row, the number that it gave before the last correction, to a deadline or a motion. A row that comes to be struck or
/// refused keeps the number, so that it is given to no other.
#[derive(Debug, Drop)]
pub struct KeptNumbers {
    rows: Vec<Option<Given>>,
    // What they gave, by case and kind.
    tops: Tops,
}

impl Model for KeptNumbers {
    ghost use Rattle.std.specs.Prelude.{List, Option};
    ghost use Rattle.desk_numbers.specs.declared.given.Given.{Given};
    ghost use Rattle.desk_numbers.specs.Tops.{AllNoted};

    ghost Value = { List (Option Given) };

    ghost view = { λ k. k.rows.items };

    ghost invariant = { λ k. AllNoted k.tops k.rows.items };
}

// What rows gave, by case and kind. `Err` says that memory ran out.
fn tops_of(alloc: Global, rows: &[Option<Given>]) -> Result<Tops, AllocError>
    ensures { IfOk result (λ tops. AllNoted tops rows.now) }
{
    let mut tops = Tops::new(alloc);
    'rows: for row in rows {
        tops.note(row)?;
    }
    Ok(tops)
}

/// The number that the row of that number, counted from 1, gave, where these are by row what rows gave.
pub fn given_at(rows: &[Option<Given>], row: u64) -> Option<Given>
    ensures { result ≡ kept_of rows.now row }
{
    match rows.get(row.saturating_sub(1) as usize) {
        Some(given) => *given,
        None => None,
    }
}

impl KeptNumbers {
    /// None, before the first correction.
    pub fn new(alloc: Global) -> KeptNumbers
        ensures { result ≡ [] }
    {
        KeptNumbers {
            rows: Vec::new(alloc),
            tops: Tops::new(alloc),
        }
    }

    /// Those that rows gave, of which this is by row what it gave. `Err` says that memory ran out.
    pub fn of(alloc: Global, rows: &[Option<Given>]) -> Result<KeptNumbers, AllocError>
        ensures { IfOk result (λ kept. kept ≡ rows.now) }
    {
        let tops = tops_of(alloc, rows)?;
        Ok(KeptNumbers {
            rows: Vec::from_slice(alloc, rows)?,
            tops,
        })
    }

    // The number that the row of that number, counted from 1, gave.
    pub(crate) fn at(&self, row: u32) -> Option<Given>
        ensures { result ≡ kept_of self.now row }
    {
        given_at(&self.rows, u64::from(row))
    }

    // The least number after all that were given in a case to that kind, or 0 where none was.
    pub(crate) fn next(&self, case: u32, counted: Counted) -> u64
        ensures { result ≡ after_given self.now case counted }
    {
        self.tops.at(case, counted)
    }
}
